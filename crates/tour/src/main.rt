// The walkthrough's execution at the docket, and from two files to the verdict.
//
// The program walkthrough takes store buffering through the form check, both machines and both conversions, in chapters 1 to
// 4. This one goes on with chapters 5 and 6. It reads the case from case.csv in the folder that it is run in.
#![tactic(auto)]

mod desk;
mod files;

use case::checked::CheckedCase;
use records::Record;
use std::{fs, io};
use text::read;

// The case of a text, if it reads and is in form.
fn case_of(text: &[u8]) -> Option<CheckedCase> {
    let mut records = [Record::default(); 256];
    let count = read(text, &mut records).ok()?;
    let mut case = CheckedCase::empty();
    case.fill(records.get(..count)?).ok()?;
    Some(case)
}

fn main(rt: HostRuntime) -> io::Result<()> {
    let text = fs::read(&rt, "case.csv")?;
    let Some(case) = case_of(text.as_slice()) else {
        return println!(rt; "case.csv holds no case in form");
    };
    desk::chapter(&rt, &case)?;
    files::chapter(&rt)
}
