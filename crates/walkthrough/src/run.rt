// The second chapter: a run on the store-buffer machine, item by item.
use case::checked::CheckedCase;
use machines::faults::{ItemFault, RunFault};
use machines::items::RunItem;
use machines::items::RunItem::{Drain, Perform};
use machines::rows::Run;
use records::Item;
use std::io;

// The short words of this program; the fault's own are longer and speak to whoever reads a verdict.
fn explained(fault: RunFault) -> &'static str {
    match fault {
        RunFault::NotOfRun => "no item of a run",
        RunFault::NoAction => "the thread has no action left",
        RunFault::NothingWaits => "no write waits in the thread",
        RunFault::WritesWait => "a write still waits in the thread",
        RunFault::NotItsTurn => "it is not this action's turn",
        RunFault::SawAnother => "the read saw another write than the machine gives it",
    }
}

fn show_put(
    rt: &impl Print,
    run: &mut Run,
    case: &CheckedCase,
    step: RunItem,
    words: &str,
) -> io::Result<()> {
    let item = Item::from(step);
    let thread = item.thread;
    match run.put(case, item) {
        Ok(()) => println!(rt; "  thread {thread} {words}: taken"),
        Err(fault) => {
            let number = fault.number();
            let why = explained(fault);
            println!(rt; "  thread {thread} {words}: refused with {number}: {why}")
        }
    }
}

fn show_finished(rt: &impl Print, run: &Run, case: &CheckedCase) -> io::Result<()> {
    if run.finished(case) {
        println!(rt; "  complete: every action is performed (writes may still wait)")
    } else {
        println!(rt; "  not complete yet")
    }
}

pub fn chapter(rt: &impl Print, case: &CheckedCase) -> io::Result<()> {
    println!(rt; "")?;
    println!(rt; "2. The run")?;
    println!(rt;
        "Bring-up says who performed and who drained. The store-buffer machine replays it:"
    )?;
    let mut run = Run::new();
    run.begin(case);
    show_put(rt, &mut run, case, Perform(0), "begins")?;
    show_put(rt, &mut run, case, Perform(0), "spawns thread 1")?;
    show_put(rt, &mut run, case, Perform(1), "begins")?;
    show_put(
        rt,
        &mut run,
        case,
        Perform(0),
        "writes location 0, which waits in its buffer",
    )?;
    show_put(
        rt,
        &mut run,
        case,
        Perform(1),
        "writes location 1, which waits in its buffer",
    )?;
    show_put(
        rt,
        &mut run,
        case,
        Perform(0),
        "reads location 1 from memory, the default",
    )?;
    show_finished(rt, &run, case)?;
    show_put(
        rt,
        &mut run,
        case,
        Perform(1),
        "reads location 0 from memory, the default",
    )?;
    show_finished(rt, &run, case)?;
    println!(rt; "The same, but thread 1 drains its write before thread 0 reads:")?;
    run.begin(case);
    for thread in [0u8, 0, 1, 0, 1] {
        let _ = run.put(case, Perform(thread).into());
    }
    show_put(rt, &mut run, case, Drain(1), "drains its write to memory")?;
    show_put(
        rt,
        &mut run,
        case,
        Perform(0),
        "reads location 1 from memory",
    )
}
