// The fields of a line, each told as a number, a letter or neither.
ghost use Rattle.std.specs.Prelude.{◌≡◌, ◌≤◌, IfSome, IfOk};
ghost use Rattle.std.specs.Str.{all_ascii_digits};
ghost use Rattle.records.specs.Letters.{among};
ghost use Rattle.text.specs.Csv.{fields, first_of};
ghost use Rattle.text.specs.Faults.{answered};
ghost use Rattle.text.specs.Fields.{kind, kind_of, numeral, number_in, letter_in};
ghost use Rattle.text.specs.Lines.{to_come, OneRead};
ghost use Rattle.text.specs.Reading.{cell_of};
ghost use Rattle.text.specs.Sheets.{numbers, letters as letter_column};

use crate::TextFault;

// Each case borrows the field's stretch of the text. It may hold any byte, and so is no `&str`.
#[derive(Clone, Copy)]
pub(crate) enum Field<'a> {
    Number(&'a [u8]),
    Letter(&'a [u8]),
    Bad(&'a [u8]),
}

impl<'a> Field<'a> {
    // A whole stretch, of which it is known whether it has digits only.
    fn of(stretch: &'a [u8], digits: bool) -> Field<'a>
        requires { digits ≡ all_ascii_digits stretch.now }
        ensures value { kind result ≡ kind_of stretch.now }
    {
        match stretch {
            [_, ..] if digits => Field::Number(stretch),
            [c] if c.is_ascii_alphabetic() => Field::Letter(stretch),
            _ => Field::Bad(stretch),
        }
    }

    // The number up to `most` that a number field writes.
    fn number(self, most: u32) -> Option<u32>
        ensures value { result ≡ number_in most (kind self.entry) }
        ensures bound { IfSome result (λ n. n ≤ most) }
    {
        match self {
            Field::Number(digits) => decimal_value(digits, most),
            _ => None,
        }
    }

    // The letter of a letter field, if it is one of these.
    fn letter(self, letters: &[u8]) -> Option<u8>
        ensures value { result ≡ letter_in letters.now (kind self.entry) }
    {
        match self {
            Field::Letter([c, ..]) if is_among(u32::from(*c), letters) => Some(*c),
            _ => None,
        }
    }
}

// What is still to be read of a line, field by field from the left, and which line of its file it is.
#[derive(Drop)]
pub struct Fields<'a> {
    rest: &'a [u8],
    line: usize,
}

impl<'a> Fields<'a> {
    pub(crate) fn of(body: &'a [u8], line: usize) -> Fields<'a>
        ensures fields { to_come result ≡ fields body.now }
        ensures line { result.line ≡ line }
    {
        Fields { rest: body, line }
    }

    // One pass finds the comma and sees the digits: `position`, and then `all`, took longer.
    fn cut(&mut self) -> Field<'a>
        ensures field { kind result ≡ kind_of (first_of (to_come self.old)) }
        ensures one { OneRead self.old self.new }
    {
        let rest = self.rest;
        let mut digits = true;
        for (i, b) in rest.iter().enumerate() {
            if *b == b',' {
                self.rest = &rest[i + 1..];
                return Field::of(&rest[..i], digits);
            }
            digits = digits && b.is_ascii_digit();
        }
        self.rest = &[];
        Field::of(rest, digits)
    }

    // The next field of a column of numbers up to `most`.
    pub(crate) fn number(&mut self, most: u32) -> Result<u32, TextFault>
        ensures value { answered result ≡ cell_of self.old.line (numbers most) (first_of (to_come self.old)) }
        ensures bound { IfOk result (λ n. n ≤ most) }
        ensures one { OneRead self.old self.new }
    {
        let line = self.line;
        self.cut().number(most).ok_or(TextFault::Number { line })
    }

    // The next field of a column of these letters.
    pub(crate) fn letter(&mut self, letters: &[u8]) -> Result<u8, TextFault>
        ensures value { answered result ≡ cell_of self.old.line (letter_column letters.now) (first_of (to_come self.old)) }
        ensures one { OneRead self.old self.new }
    {
        let line = self.line;
        self.cut().letter(letters).ok_or(TextFault::Letter { line })
    }
}

// Whether a code is that of one of these letters.
pub(crate) fn is_among(code: u32, letters: &[u8]) -> bool
    ensures value { result ≡ among code letters.now }
{
    letters.iter().any(|letter| code == u32::from(*letter))
}

// The number up to `most` whose digits these are; none if there is no digit, another byte, or a 0 ahead of a digit.
fn decimal_value(digits: &[u8], most: u32) -> Option<u32>
    ensures value { result ≡ numeral most digits.now }
    ensures bound { IfSome result (λ n. n ≤ most) }
{
    if let [] | [b'0', _, ..] = digits {
        return None;
    }
    let mut n: u32 = 0;
    for b in digits {
        if !b.is_ascii_digit() {
            return None;
        }
        n = n.checked_mul(10)?.checked_add(u32::from(*b - b'0'))?;
    }
    if n <= most { Some(n) } else { None }
}
