// Cases and evidence as text: comma separated values that any spreadsheet opens; and a file of one row,
// which is only written.
//
// A file is a header and a line for each row, every line ended by CR LF, its fields between commas. There are no quotes:
// a quote is an ordinary byte. Numbers are decimal digits with no 0 ahead of a digit, letters are one letter of their file.
// So a list of rows has exactly one text, and the contracts below say so: a text that is read is the text of what was read
// (`whole`), and a text that is written reads back as what was written (`back`).
//
// The way of a text through the modules: `line` cuts off the lines and counts their fields, `field` takes the fields of a
// line from the left and tells each as a number, a letter or neither, `row` knows the columns of the two files, and `rows`
// goes line by line. Lines and fields are stretches of the text itself; nothing is copied and nothing allocates. Writing
// first measures, so that a refused writing has touched nothing, and then each row is written once, by the `Writer` in
// `put`; so is the file of one row, in `report`.
//
// The same words are in specs/: Csv (lines and fields), Fields, Lines, Sheets (columns, and the text of rows), Reading,
// Writing, Faults (what a fault is told as), Files (the two sheets) and Reports (the file of one row). Cases and evidence
// go through one pair, `read` and `write`, proved once for any sheet that is `well_made`: of records it says what
// `case_reading` and `case_text` say, and of items what `evidence_reading` and `evidence_text` do. Whoever adds a column or
// a letter changes the sheet in specs/Files and the `Row` of that file in `row`, and the contracts tie the two together.
// Whoever adds a file gives it a sheet and a `Row`. Whoever needs another order of the refusals changes specs/Reading
// first: the proofs then say where the code differs.
#![tactic(auto)]

mod fault;
mod field;
mod line;
mod put;
mod report;
mod row;
mod rows;

pub use fault::TextFault;
pub use report::{Cell, write_report};
pub use rows::{read, write};
