// Numbers, letters and bytes written into a text, one after the other.
ghost use Rattle.std.specs.Prelude.{◌≡◌, ◌+◌, ◌^◌, ◌<◌, ◌≤◌, [], ◌∷◌, ◌++◌, length, decimal};
ghost use Rattle.text.specs.Sheets.{ended};
ghost use Rattle.text.specs.Writing.{placed, HasRoom, Wrote};

// How many digits a number is written with.
pub(crate) fn digits(n: u64) -> usize
    ensures value { result ≡ length (decimal n) }
    ensures few { result ≤ 20 }
    ensures short { n < 2 ^ 32 → result ≤ 10 }
{
    match n.checked_ilog10() {
        Some(log) => log as usize + 1,
        None => 1,
    }
}

// Writes a number from a place on, and answers where it ends. By the place and not by the writer: its end would be moved in
// memory for each digit, which took a third longer.
fn put_number(out: &mut [u8], at: usize, n: u64) -> usize
    requires { at + length (decimal n) ≤ length out.old }
    ensures end { result ≡ at + length (decimal n) }
    ensures bytes { out.new ≡ placed out.old at (decimal n) }
{
    if n < 10 {
        out[at] = b'0' + n as u8;
        return at + 1;
    }
    let end = put_number(out, at, n / 10);
    out[end] = b'0' + (n % 10) as u8;
    end + 1
}

// The caller's bytes, of which those before `end` are written. What a method writes goes from there on, and the other
// bytes stay.
#[derive(Drop)]
pub struct Writer<'a> {
    out: &'a mut [u8],
    end: usize,
}

impl<'a> Writer<'a> {
    pub(crate) fn new(out: &'a mut [u8]) -> Writer<'a>
        ensures same_reference { result.out.ghost_name ≡ out.entry.ghost_name }
        ensures bytes { result.out.now ≡ out.old }
        ensures end { result.end ≡ 0 }
    {
        Writer { out, end: 0 }
    }

    // How many bytes are written.
    pub(crate) fn end(&self) -> usize
        ensures value { result ≡ self.now.end }
    {
        self.end
    }

    pub(crate) fn byte(&mut self, b: u8)
        requires { HasRoom self.old (b ∷ []) }
        ensures wrote { Wrote self.old self.new (b ∷ []) }
    {
        self.out[self.end] = b;
        self.end += 1;
    }

    pub(crate) fn bytes(&mut self, bytes: &[u8])
        requires { HasRoom self.old bytes.now }
        ensures wrote { Wrote self.old self.new bytes.now }
    {
        let end = self.end + bytes.len();
        self.out[self.end..end].copy_from_slice(bytes);
        self.end = end;
    }

    pub(crate) fn number(&mut self, n: u64)
        requires { HasRoom self.old (decimal n) }
        ensures wrote { Wrote self.old self.new (decimal n) }
    {
        self.end = put_number(self.out, self.end, n);
    }

    // A line and its end.
    pub(crate) fn line(&mut self, line: &[u8])
        requires { HasRoom self.old (ended line.now) }
        ensures wrote { Wrote self.old self.new (ended line.now) }
    {
        self.bytes(line);
        self.bytes(b"\r\n");
    }

    // A number, and the byte behind it.
    pub(crate) fn number_cell(&mut self, n: u64, after: u8)
        requires { HasRoom self.old (decimal n ++ after ∷ []) }
        ensures wrote { Wrote self.old self.new (decimal n ++ after ∷ []) }
    {
        self.number(n);
        self.byte(after);
    }

    // A letter, and the byte behind it.
    pub(crate) fn letter_cell(&mut self, letter: u8, after: u8)
        requires { HasRoom self.old (letter ∷ after ∷ []) }
        ensures wrote { Wrote self.old self.new (letter ∷ after ∷ []) }
    {
        self.byte(letter);
        self.byte(after);
    }
}
