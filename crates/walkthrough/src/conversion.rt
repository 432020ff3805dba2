// The fourth chapter: the run becomes the certificate, and the certificate a run.
use case::checked::CheckedCase;
use conversions::certificate::to_certificate;
use conversions::replay::to_run;
use machines::items::{CertificateItem, RunItem};
use records::Item;
use std::io;

fn show_certificate(rt: &impl Print, items: &[Item]) -> io::Result<()> {
    for item in items {
        match CertificateItem::try_from(*item) {
            Ok(
                CertificateItem::Move {
                    thread,
                    place,
                    count,
                },
            ) => println!(rt;
                "    M: thread {thread}, place {place}, carrying {count} reads along"
            )?,
            Ok(CertificateItem::Come(thread)) => println!(rt; "    O: thread {thread}")?,
            Err(_) => println!(rt; "    no item of a certificate")?,
        }
    }
    Ok(())
}

fn show_run(rt: &impl Print, items: &[Item]) -> io::Result<()> {
    for item in items {
        match RunItem::try_from(*item) {
            Ok(RunItem::Perform(thread)) => println!(rt; "    A: thread {thread}")?,
            Ok(RunItem::Drain(thread)) => println!(rt; "    D: thread {thread}")?,
            Err(_) => println!(rt; "    no item of a run")?,
        }
    }
    Ok(())
}

pub fn chapter(rt: &impl Print, case: &CheckedCase) -> io::Result<()> {
    println!(rt; "")?;
    println!(rt; "4. The conversions")?;
    let run = [0, 0, 1, 0, 1, 0, 1].map(|thread| Item::from(RunItem::Perform(thread)));
    let mut certificate = [Item::default(); 4352];
    match to_certificate(case, &run, &mut certificate) {
        Err(fault) => {
            let number = fault.number();
            return println!(rt; "  refused with {number}");
        }
        Ok(written) => {
            let items = written.items;
            let moves = written.moves;
            println!(rt;
                "The run of chapter 2 becomes a certificate of {items} items, {moves} of them moves:"
            )?;
        }
    }
    show_certificate(rt, &certificate[0..9])?;
    let mut back = [Item::default(); 512];
    match to_run(case, &certificate[0..9], &mut back) {
        Err(fault) => {
            let number = fault.number();
            println!(rt; "  refused with {number}")
        }
        Ok(count) => {
            println!(rt;
                "And back: a run of {count} items, in which each write drains where the order has it:"
            )?;
            show_run(rt, &back[0..9])
        }
    }
}
