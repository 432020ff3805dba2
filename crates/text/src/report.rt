// A file of one row, which is only written.
ghost use Rattle.std.specs.Prelude.{◌≡◌, ◌+◌, ◌<◌, map, length, MatchOption};
ghost use Rattle.text.specs.Csv.{comma, join};
ghost use Rattle.text.specs.Faults.{answered};
ghost use Rattle.text.specs.Reports.{cell_bytes, report_text, fitting};
ghost use Rattle.text.specs.Writing.{written, HasRoom, Wrote};

use crate::TextFault;
use crate::put::{Writer, digits};

// A field of the row: bytes that are written as they are, or a number. The bytes need not be text, so they are no `&str`.
#[derive(Clone, Copy, Debug, PartialEq)]
pub enum Cell<'a> {
    Word(&'a [u8]),
    Number(u64),
}

impl Cell<'_> {
    fn size(&self) -> usize
        ensures value { result ≡ length (cell_bytes self.now) }
    {
        match *self {
            Cell::Word(word) => word.len(),
            Cell::Number(n) => digits(n),
        }
    }

    fn put(&self, text: &mut Writer<'_>)
        requires { HasRoom text.old (cell_bytes self.now) }
        ensures wrote { Wrote text.old text.new (cell_bytes self.now) }
    {
        match *self {
            Cell::Word(word) => text.bytes(word),
            Cell::Number(n) => text.number(n),
        }
    }
}

// How much of the room is left behind the file; none where it does not fit.
fn room_behind(header: &[u8], row: &[Cell<'_>], room: usize) -> Option<usize>
    ensures cases { MatchOption result (room < length (report_text header.now row.now)) (λ left. left + length (report_text header.now row.now) ≡ room) }
{
    // The ends of the two lines, and a comma between each two fields.
    let mut left = room
        .checked_sub(4)?
        .checked_sub(header.len())?
        .checked_sub(row.len().saturating_sub(1))?;
    for cell in row {
        left = left.checked_sub(cell.size())?;
    }
    Some(left)
}

fn put_fields(row: &[Cell<'_>], text: &mut Writer<'_>)
    requires { HasRoom text.old (join comma (map cell_bytes row.now)) }
    ensures wrote { Wrote text.old text.new (join comma (map cell_bytes row.now)) }
{
    for (i, cell) in row.iter().enumerate() {
        if i > 0 {
            text.byte(b',');
        }
        cell.put(text);
    }
}

// Writes a file of one row over the front of `out`: a header line, and a line of these fields. Answers how many bytes that
// is; 6, with nothing written, where `out` is shorter.
pub fn write_report(header: &[u8], row: &[Cell<'_>], out: &mut [u8]) -> Result<usize, TextFault>
    ensures answer { answered result ≡ fitting (report_text header.now row.now) (length out.old) }
    ensures after { out.new ≡ written (answered result) (report_text header.now row.now) out.old }
{
    let room = out.len();
    room_behind(header, row, room).ok_or(TextFault::TooShort)?;
    let mut text = Writer::new(out);
    text.line(header);
    put_fields(row, &mut text);
    text.bytes(b"\r\n");
    Ok(text.end())
}
