// A row of a file: a record of a case, or an item of evidence.
ghost use Rattle.std.specs.Prelude.{◌≡◌, ℕ, ◌+◌, true, List, length, if◌then◌else◌, Some, None};
ghost use Rattle.std.proofs.Math.Path.{refl};
ghost use Rattle.text.specs.Faults.{told_by};
ghost use Rattle.text.specs.Files.{case_sheet, record_cells, record_of, evidence_sheet, item_cells, item_of};
ghost use Rattle.text.specs.Lines.{to_come};
ghost use Rattle.text.specs.Reading.{cells_of};
ghost use Rattle.text.specs.Sheets.{Sheet, row_text, all_known, all_within, well_made};
ghost use Rattle.text.specs.Writing.{HasRoom, Wrote};
ghost use Rattle.std.specs.Fmt as Written;
ghost use Rattle.std.proofs.Common.{rules};

use crate::TextFault;
use crate::field::{Fields, is_among};
use crate::put::{Writer, digits};
use records::{Item, Record};

// `cells` are the numbers in a row's columns, and `row` is the row that has them. `parse` and `put` serve `read` and `write`
// alone: no other crate can make the `Fields` and the `Writer` that they take.
pub trait Row: Copy {
    ghost sheet: { Sheet };

    ghost cells: { Self → List ℕ };

    ghost row: { List ℕ → Self };

    // The file's first line, how many columns it has, and how many rows it may have.
    fn header() -> &'static [u8]
        ensures value { result.now ≡ sheet.header };

    fn columns() -> usize
        ensures value { result ≡ length sheet.columns };

    fn most() -> usize
        ensures value { result ≡ sheet.most };

    // The row in the first fields of a line.
    fn parse(line: Fields<'_>) -> Result<Self, TextFault>
        ensures value { told_by cells result ≡ cells_of line.entry.line sheet.columns (to_come line.entry) };

    // How many bytes the row's line has; none where its letter is no letter of the file.
    fn size(&self) -> Option<usize>
        ensures value { result ≡ (if all_known sheet.columns (cells self.now) then Some (length (row_text sheet.columns (cells self.now))) else None) }
        ensures within { all_within sheet.columns (cells self.now) ≡ true };

    // Writes the row's line.
    fn put(&self, text: &mut Writer<'_>)
        requires known { all_known sheet.columns (cells self.now) ≡ true }
        requires room { HasRoom text.old (row_text sheet.columns (cells self.now)) }
        ensures wrote { Wrote text.old text.new (row_text sheet.columns (cells self.now)) };

    ghost made: { well_made sheet ≡ true };

    ghost back: { (r : Self) → row (cells r) ≡ r };
}

const CASE_LETTERS: &[u8] = b"rwRWLUSJBE";

const EVIDENCE_LETTERS: &[u8] = b"ADMO";

impl Row for Record {
    ghost sheet = { case_sheet };

    ghost cells = { record_cells };

    ghost row = { record_of };

    ghost made = { unfold Written.digits in refl };

    ghost back = { Prim.search rules };

    fn header() -> &'static [u8] {
        b"thread,letter,target,value,seen,turn"
    }

    fn columns() -> usize {
        6
    }

    fn most() -> usize {
        256
    }

    fn parse(mut line: Fields<'_>) -> Result<Record, TextFault> {
        let thread = line.number(255)? as u8;
        let letter = line.letter(CASE_LETTERS)?;
        let target = line.number(255)? as u8;
        let value = line.number(4_294_967_295)?;
        let seen = line.number(65_535)? as u16;
        let turn = line.number(65_535)? as u16;
        Ok(Record {
            letter: char::from(letter),
            value,
            seen,
            turn,
            thread,
            target,
        })
    }

    fn size(&self) -> Option<usize> {
        if !is_among(self.letter as u32, CASE_LETTERS) {
            return None;
        }
        let numbers = digits(self.thread as u64)
            + digits(self.target as u64)
            + digits(self.value as u64)
            + digits(self.seen as u64)
            + digits(self.turn as u64);
        Some(numbers + 8)
    }

    fn put(&self, text: &mut Writer<'_>) {
        text.number_cell(self.thread as u64, b',');
        text.letter_cell(self.letter as u8, b',');
        text.number_cell(self.target as u64, b',');
        text.number_cell(self.value as u64, b',');
        text.number_cell(self.seen as u64, b',');
        text.number_cell(self.turn as u64, b'\r');
        text.byte(b'\n');
    }
}

impl Row for Item {
    ghost sheet = { evidence_sheet };

    ghost cells = { item_cells };

    ghost row = { item_of };

    ghost made = { unfold Written.digits in refl };

    ghost back = { Prim.search rules };

    fn header() -> &'static [u8] {
        b"item,thread,place,count"
    }

    fn columns() -> usize {
        4
    }

    fn most() -> usize {
        4352
    }

    fn parse(mut line: Fields<'_>) -> Result<Item, TextFault> {
        let letter = line.letter(EVIDENCE_LETTERS)?;
        let thread = line.number(255)? as u8;
        let place = line.number(255)? as u8;
        let count = line.number(255)? as u8;
        Ok(Item {
            letter,
            thread,
            place,
            count,
        })
    }

    fn size(&self) -> Option<usize> {
        if !is_among(self.letter as u32, EVIDENCE_LETTERS) {
            return None;
        }
        let numbers = digits(self.thread as u64)
            + digits(self.place as u64)
            + digits(self.count as u64);
        Some(numbers + 6)
    }

    fn put(&self, text: &mut Writer<'_>) {
        text.letter_cell(self.letter, b',');
        text.number_cell(self.thread as u64, b',');
        text.number_cell(self.place as u64, b',');
        text.number_cell(self.count as u64, b'\r');
        text.byte(b'\n');
    }
}
