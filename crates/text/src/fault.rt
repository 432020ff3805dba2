// What can be wrong with a text that is read, or with rows that are to be written.
ghost use Rattle.std.specs.Prelude.{◌≡◌};
ghost use Rattle.text.specs.Faults.{told};

use thiserror::Error;

// Reading names the line, from 1; `TooLong` is said of the whole text. The last three are faults of writing.
#[derive(Clone, Copy, Debug, Error, PartialEq)]
pub enum TextFault {
    // More than 65,535 bytes.
    #[error("the file is longer than 65535 bytes")]
    TooLong,
    // Not the header, not as many fields as columns, or not ended by CR LF.
    #[error("the line is not as it should be: another header, another number of fields, or not ended by CR LF")]
    Shape { line: usize },
    // A line more than the caller's list or the file may hold.
    #[error("the file has more lines than it may have: 256 records, or 4352 items")]
    Full { line: usize },
    // A number field that is no number of its column.
    #[error("a number field is empty, not all digits, has a 0 ahead of a digit, or is too large for its column")]
    Number { line: usize },
    // A letter field that is no letter of its column.
    #[error("a letter field is not one letter of this file")]
    Letter { line: usize },
    // More rows than the file may hold.
    #[error("the file has more lines than it may have: 256 records, or 4352 items")]
    TooMany,
    // A row whose letter is none of its column.
    #[error("a letter field is not one letter of this file")]
    UnknownLetter,
    // Fewer bytes than the text has.
    #[error("the room for the text is too short")]
    TooShort,
}

impl TextFault {
    // The number of the refusal.
    pub fn number(&self) -> u8
        ensures value { result ≡ (told self.now).number }
    {
        match *self {
            TextFault::Shape { .. } => 1,
            TextFault::Number { .. } => 2,
            TextFault::Letter { .. } | TextFault::UnknownLetter => 3,
            TextFault::Full { .. } | TextFault::TooMany => 4,
            TextFault::TooLong => 5,
            TextFault::TooShort => 6,
        }
    }

    // The line that was refused, or 0 where no line was.
    pub fn place(&self) -> usize
        ensures value { result ≡ (told self.now).place }
    {
        match *self {
            TextFault::Shape { line }
            | TextFault::Full { line }
            | TextFault::Number { line }
            | TextFault::Letter { line } => line,
            _ => 0,
        }
    }
}
