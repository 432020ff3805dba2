// Judges the shipped examples: each folder beside it that has a case and its evidence, against the verdict kept there.
//
// It is run in the folder data/. A file that cannot be read counts as empty, as it does for the judge.
#![tactic(auto)]

use console::read_or_empty;
use std::str::from_utf8;
use std::{fs, io};
use verdict::write_verdict;

fn text(rt: &HostRuntime, folder: &str, file: &str) -> io::Result<Vec<u8>> {
    let path = format!(in rt.alloc(); "{folder}/{file}")?;
    read_or_empty(rt, path.as_str(), true)
}

// The second line of a verdict.
fn row(verdict: &[u8]) -> &str {
    from_utf8(verdict)
        .unwrap_or("")
        .lines()
        .nth(1)
        .unwrap_or("")
}

fn judge(rt: &HostRuntime, folder: &str) -> io::Result<()> {
    let case = text(rt, folder, "case.csv")?;
    let evidence = text(rt, folder, "evidence.csv")?;
    let expected = text(rt, folder, "verdict.csv")?;
    let mut out = [0u8; 60];
    let count = match write_verdict(case.as_slice(), evidence.as_slice(), &mut out) {
        Ok(count) => count.min(60),
        Err(_) => 0,
    };
    let verdict = &out[0..count];
    let row = row(verdict);
    if verdict == expected.as_slice() {
        println!(rt; "{folder}: {row} as expected")
    } else {
        println!(rt; "{folder}: {row} DIFFERS")
    }
}

// The names of the folders here, in order.
fn folders(rt: &HostRuntime) -> io::Result<Vec<String>> {
    let mut names = Vec::new(rt.alloc());
    for entry in fs::read_dir(rt, ".")? {
        let entry = entry?;
        if entry.file_type()?.is_dir() {
            names.push(String::from_str(rt.alloc(), entry.file_name())?)?;
        }
    }
    names.sort()?;
    Ok(names)
}

fn main(rt: HostRuntime) -> io::Result<()> {
    for folder in folders(&rt)? {
        judge(&rt, folder.as_str())?;
    }
    Ok(())
}
