// Whole files, read and written for any kind of row: cases and evidence.
ghost use Rattle.std.specs.Prelude.{◌≡◌, ◌≤◌, map, length, take, IfOk, OnOk};
ghost use Rattle.std.specs.List.{AllByRecursion};
ghost use Rattle.text.specs.Faults.{answered};
ghost use Rattle.text.specs.Reading.{reading, answer_of, filled};
ghost use Rattle.text.specs.Sheets.{Fit, text_of};
ghost use Rattle.text.specs.Writing.{measured, writing, written, ReadsAs};

use crate::TextFault;
use crate::field::Fields;
use crate::line::Lines;
use crate::put::Writer;
use crate::row::Row;

// The longest text that is read.
const MOST_BYTES: usize = 65_535;

// Reads a text into the front of `rows`, and answers how many rows it has. A refusal leaves the rows of the lines before it
// written; all else of the list stays. The text may hold any byte and is refused by number, and so is no `&str`.
pub fn read<R: Row>(text: &[u8], rows: &mut [R]) -> Result<usize, TextFault>
    ensures answer { answered result ≡ answer_of (reading R.sheet (length rows.old) text.now) }
    ensures after { rows.new ≡ filled R.Row.row (reading R.sheet (length rows.old) text.now) rows.old }
    ensures whole { IfOk result (λ n. text.now ≡ text_of R.sheet (map R.cells (take n rows.new))) }
{
    if text.len() > MOST_BYTES {
        return Err(TextFault::TooLong);
    }
    let mut lines = Lines::of(text);
    match lines.next() {
        Some(Some(first)) if first.body == R::header() => {}
        _ => return Err(TextFault::Shape { line: 1 }),
    }
    let room = rows.len().min(R::most());
    let mut count = 0;
    for next in lines {
        let line = count + 2;
        let body = match next {
            Some(next) if next.fields == R::columns() => next.body,
            _ => return Err(TextFault::Shape { line }),
        };
        if count == room {
            return Err(TextFault::Full { line });
        }
        // By index, since behind an `iter_mut` a proof knows nothing of what the list holds.
        rows[count] = R::parse(Fields::of(body, line))?;
        count += 1;
    }
    Ok(count)
}

// How many bytes the text of rows has. Every number of a row is within its column, since its type is.
fn measure<R: Row>(rows: &[R]) -> Result<usize, TextFault>
    requires { length rows.now ≤ R.sheet.most }
    ensures value { answered result ≡ measured R.sheet (map R.cells rows.now) }
    ensures fit { OnOk result (AllByRecursion (λ x. Fit R.sheet.columns (R.cells x)) rows.now) }
{
    let mut total = R::header().len() + 2;
    for row in rows {
        total += row.size().ok_or(TextFault::UnknownLetter)?;
    }
    Ok(total)
}

// Writes the text of rows over the front of `out`, and answers how many bytes it has. A refusal writes nothing.
pub fn write<R: Row>(rows: &[R], out: &mut [u8]) -> Result<usize, TextFault>
    ensures answer { answered result ≡ writing R.sheet (map R.cells rows.now) (length out.old) }
    ensures after { out.new ≡ written (answered result) (text_of R.sheet (map R.cells rows.now)) out.old }
    ensures back { OnOk result (ReadsAs R.sheet R.Row.row (text_of R.sheet (map R.cells rows.now)) rows.now) }
{
    if rows.len() > R::most() {
        return Err(TextFault::TooMany);
    }
    let size = measure(rows)?;
    if size > out.len() {
        return Err(TextFault::TooShort);
    }
    let mut text = Writer::new(out);
    text.line(R::header());
    for row in rows {
        row.put(&mut text);
    }
    Ok(size)
}
