// One execution from its records to an answer, with a note on each step.
//
// The execution is store buffering: two threads each write a location of their own and then read the other's, and both
// reads see the default write. Each chapter below is one layer of the judge; a layer that is added adds a chapter.
#![tactic(auto)]

mod certificate;
mod conversion;
mod run;

use case::checked::CheckedCase;
use form::fault::FormFault;
use records::Record;
use records::action::Action;
use std::io;

// thread, letter, target, value, seen and turn
const STORE_BUFFERING: [(u8, char, u8, u32, u16, u16); 7] = [
    (0, 'B', 0, 0, 0, 1),
    (0, 'S', 1, 0, 0, 2),
    (0, 'w', 0, 1, 0, 0),
    (0, 'r', 1, 0, 513, 0),
    (1, 'B', 0, 0, 0, 3),
    (1, 'w', 1, 1, 0, 0),
    (1, 'r', 0, 0, 512, 0),
];

fn store_buffering() -> [Record; 7] {
    STORE_BUFFERING.map(|(thread, letter, target, value, seen, turn)| Record {
        letter,
        value,
        seen,
        turn,
        thread,
        target,
    })
}

// The short words of this program; the fault's own are longer and speak to whoever reads a verdict.
fn explained(fault: &FormFault) -> &'static str {
    match fault {
        FormFault::Grouping(_) => "too many records, or not grouped by rising thread",
        FormFault::Field(_) => "a field does not fit the letter",
        FormFault::MixedLocation(_) =>
            "the location is plain in one record and volatile in another",
        FormFault::UnknownWrite(_) => "the read saw no write to its location",
        FormFault::Turn(_) => "the turn is too high, taken already, or before the thread's last",
        FormFault::Frame(_) => "B is not first, or something follows E",
        FormFault::Life(_) => "the letter does not fit the state of the thread",
        FormFault::Monitor(_) => "the monitor is held, or is not held by this thread",
    }
}

fn show_action(rt: &impl Print, index: usize, action: Action) -> io::Result<()> {
    match action {
        Action::Read {
            name,
            location,
            seen,
        } => {
            println!(rt;
                "  record {index} is action {name}: reads location {location} and saw write {seen}"
            )
        }
        Action::Write { name, location } => {
            println!(rt; "  record {index} is action {name}: writes location {location}")
        }
        Action::Sync { name, turn, .. } => {
            println!(rt; "  record {index} is action {name}: synchronizes, turn {turn}")
        }
    }
}

// Every record under its name, found again by that name.
fn show_names(rt: &impl Print, case: &CheckedCase) -> io::Result<()> {
    for (index, record) in case.records().iter().enumerate() {
        let Some(name) = case.name(index) else {
            continue;
        };
        if let Some(action) = record.action(name) {
            show_action(rt, index, action)?;
        }
        if case.find(name) != Some(index) {
            println!(rt; "  .. and its name names another record")?;
        }
    }
    Ok(())
}

fn show_check(rt: &impl Print, case: &mut CheckedCase, records: &[Record]) -> io::Result<()> {
    match case.fill(records) {
        Ok(()) => {
            let count = case.records().len();
            println!(rt; "  in form: the case now holds these {count} records")
        }
        Err(fault) => {
            let number = fault.number();
            let place = fault.place();
            let words = explained(&fault);
            println!(rt; "  refused with {number} at record {place}: {words}")
        }
    }
}

fn form_chapter(rt: &impl Print, case: &mut CheckedCase) -> io::Result<()> {
    println!(rt; "1. The records")?;
    println!(rt; "Store buffering, seven records of two threads. Are they in form?")?;
    show_check(rt, case, &store_buffering())?;
    println!(rt; "Each record has a name, 64 times its thread plus its place in the thread:")?;
    show_names(rt, case)?;
    println!(rt;
        "A damaged copy, in which thread 1 begins (turn 2) before thread 0 spawns it (turn 3):"
    )?;
    let mut damaged = store_buffering();
    damaged[1].turn = 3;
    damaged[4].turn = 2;
    show_check(rt, case, &damaged)?;
    let count = case.records().len();
    println!(rt;
        "A refused list changes nothing: the case still holds the {count} records that were in form."
    )
}

fn main(rt: HostRuntime) -> io::Result<()> {
    let mut case = CheckedCase::empty();
    form_chapter(&rt, &mut case)?;
    run::chapter(&rt, &case)?;
    certificate::chapter(&rt, &case)?;
    conversion::chapter(&rt, &case)
}
