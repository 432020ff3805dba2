// The last chapter: the same from two files, as the program judge has it, and as the program convert does.
use std::io::Write;
use std::{fs, io};
use verdict::{write_converted, write_verdict};

// The verdict on two texts, as it is written.
fn show_verdict(rt: &HostRuntime, case: &[u8], evidence: &[u8]) -> io::Result<()> {
    let mut bytes = [0u8; 64];
    match write_verdict(case, evidence, &mut bytes) {
        Ok(count) if count <= 64 => rt.stdout().write_all(&bytes[0..count]),
        _ => println!(rt; "  there is no room for the verdict"),
    }
}

// Evidence of the other kind, as it is written, and the verdict on that.
fn show_converted(rt: &HostRuntime, case: &[u8], evidence: &[u8]) -> io::Result<()> {
    let mut bytes = [0u8; 65_536];
    match write_converted(case, evidence, &mut bytes) {
        Ok(count) if count <= 65_536 => {
            let converted = &bytes[0..count];
            rt.stdout().write_all(converted)?;
            println!(rt; "With that as evidence.csv, the judge writes:")?;
            show_verdict(rt, case, converted)
        }
        _ => println!(rt; "  there is no room for the evidence"),
    }
}

pub fn chapter(rt: &HostRuntime) -> io::Result<()> {
    println!(rt; "")?;
    println!(rt; "6. From two files to the verdict")?;
    println!(rt;
        "On a PC the case and its evidence are two files. case.csv has the records of chapter 1:"
    )?;
    let case = fs::read(rt, "case.csv")?;
    rt.stdout().write_all(case.as_slice())?;
    println!(rt; "evidence.csv has the run of chapter 2:")?;
    let evidence = fs::read(rt, "evidence.csv")?;
    rt.stdout().write_all(evidence.as_slice())?;
    println!(rt;
        "The judge reads both, checks the form, examines the run over a docket, and writes its verdict:"
    )?;
    show_verdict(rt, case.as_slice(), evidence.as_slice())?;
    println!(rt;
        "Verdict allowed, reached in the layer of runs, no refusal, 7 items taken: the memory model allows this execution."
    )?;
    println!(rt; "Converted, the run becomes this certificate:")?;
    show_converted(rt, case.as_slice(), evidence.as_slice())?;
    println!(rt;
        "So it always goes: a case has a complete run exactly if it has a complete certificate."
    )
}
