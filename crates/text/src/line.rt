// Lines of a text.
ghost use Rattle.std.specs.Prelude.{◌≡◌, length, IfSome};
ghost use Rattle.std.specs.Iterator.{at_most};
ghost use Rattle.std.specs.Option.{option_map};
ghost use Rattle.text.specs.Csv.{lines, first_line};
ghost use Rattle.text.specs.Lines.{body_of, Off, NextLine};

// A line without its CR LF, the number of its fields, and the text behind it.
#[derive(Clone, Copy)]
pub(crate) struct Line<'a> {
    pub(crate) body: &'a [u8],
    pub(crate) fields: usize,
    pub(crate) rest: &'a [u8],
}

impl<'a> Line<'a> {
    // The first line of a text; none where it is not ended by CR LF, or has a CR or LF of its own.
    // One pass finds the end and counts the commas: `position`, and then a `count`, took longer.
    pub(crate) fn first(text: &'a [u8]) -> Option<Line<'a>>
        ensures value { option_map body_of result ≡ first_line (lines text.now) }
        ensures off { IfSome result (λ l. Off text.now l) }
    {
        let mut fields = 1;
        for (i, b) in text.iter().enumerate() {
            match *b {
                b',' => fields += 1,
                b'\n' => return None,
                b'\r' => {
                    let [b'\r', b'\n', rest @ ..] = &text[i..] else {
                        return None;
                    };
                    let body = &text[..i];
                    return Some(Line { body, fields, rest });
                }
                _ => {}
            }
        }
        None
    }
}

// The lines of a text, one after the other; none in place of the first that is broken, and no line behind it.
#[derive(Drop)]
pub(crate) struct Lines<'a> {
    rest: &'a [u8],
}

impl<'a> Lines<'a> {
    pub(crate) fn of(text: &'a [u8]) -> Lines<'a>
        ensures rest { result.rest.now ≡ text.now }
    {
        Lines { rest: text }
    }
}

impl<'a> Iterator for Lines<'a> {
    type Item = Option<Line<'a>>;

    ghost next_gives = { NextLine };

    ghost remaining = { λ s. at_most (length s.rest.now) };

    fn next(&mut self) -> Option<Option<Line<'a>>> {
        let text = self.rest;
        if text.is_empty() {
            return None;
        }
        let line = Line::first(text);
        self.rest = match line {
            Some(Line { rest, .. }) => rest,
            None => &[],
        };
        Some(line)
    }
}
