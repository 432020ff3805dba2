// The fifth chapter: both kinds of evidence examined at a docket, with tickets.
//
// A ticket cannot be let go of, and a line that cannot be printed ends a function: so everything is worked off first, every
// ticket goes back, and then it is told.
ghost use Rattle.std.specs.Prelude.{◌≡◌, true};
ghost use Rattle.docket.specs.Slots.{tidy};

use case::checked::CheckedCase;
use conversions::certificate::Written;
use docket::calls::{Answer, Call};
use docket::counts::Counts;
use docket::ticket::Ticket;
use docket::{Docket, Verdict};
use kinds::Evidence;
use machines::faults::{CertificateFault, ItemFault, RunFault};
use machines::items::RunItem;
use machines::lists::Certificate;
use machines::rows::Run;
use promise::{Direction, Served, examine_and_convert};
use records::Item;
use std::io;

// Works calls off on a new docket and converts a piece of evidence, with an old ticket in slot 1, which comes back.
fn serve<K: Evidence>(
    checker: K,
    case: &CheckedCase,
    number: u16,
    old: Ticket,
    calls: &[Call],
    answers: &mut [Option<Answer<K::Fault>>],
    direction: Direction,
    evidence: &[Item],
    out: &mut [Item],
) -> (Served<K>, Ticket)
    requires { tidy 0 calls.now ≡ true }
    ensures back { result.1 ≡ old }
{
    let mut held = [None, Some(old)];
    let served = examine_and_convert(
        checker, case, number, &mut held, calls, answers, direction, evidence, out,
    );
    let [first, second] = held;
    match (first, second) {
        (None, Some(ticket)) => (served, ticket),
        _ => unreachable(),
    }
}

// A first examination that is withdrawn again, an item shown with the old ticket, and the run, item by item.
fn run_calls(run: &[Item; 7]) -> [Call; 12]
    ensures tidy { tidy 0 result ≡ true }
{
    [
        Call::Open(0),
        Call::Withdraw(0),
        Call::Open(0),
        Call::Offer(1, run[0]),
        Call::Offer(0, run[0]),
        Call::Offer(0, run[1]),
        Call::Offer(0, run[2]),
        Call::Offer(0, run[3]),
        Call::Offer(0, run[4]),
        Call::Offer(0, run[5]),
        Call::Offer(0, run[6]),
        Call::Settle(0),
    ]
}

// An item shown with a ticket of another docket, and the certificate, item by item.
fn certificate_calls(items: &[Item; 9]) -> [Call; 12]
    ensures tidy { tidy 0 result ≡ true }
{
    [
        Call::Open(0),
        Call::Offer(1, items[0]),
        Call::Offer(0, items[0]),
        Call::Offer(0, items[1]),
        Call::Offer(0, items[2]),
        Call::Offer(0, items[3]),
        Call::Offer(0, items[4]),
        Call::Offer(0, items[5]),
        Call::Offer(0, items[6]),
        Call::Offer(0, items[7]),
        Call::Offer(0, items[8]),
        Call::Settle(0),
    ]
}

fn first_nine(items: &[Item; 4352]) -> [Item; 9] {
    [
        items[0], items[1], items[2], items[3], items[4], items[5], items[6], items[7], items[8],
    ]
}

fn show_answer<F: ItemFault>(rt: &impl Print, answer: Option<Answer<F>>) -> io::Result<()> {
    match answer {
        None => println!(rt; "  the docket was not asked"),
        Some(Answer::Opened(name)) => {
            let docket = name.docket;
            let examination = name.examination;
            println!(rt; "  opened: here is ticket ({docket}, {examination})")
        }
        Some(Answer::Taken) => println!(rt; "  taken"),
        Some(Answer::Settled(Verdict::Allowed(items))) => {
            println!(rt; "  settled: allowed, by {items} items")
        }
        Some(Answer::Settled(Verdict::Unfinished(items))) => {
            println!(rt; "  settled: unfinished, after {items} items")
        }
        Some(Answer::Withdrawn(items)) => println!(rt; "  withdrawn, after {items} items"),
        Some(Answer::Refused(fault)) => {
            let number = fault.number();
            println!(rt; "  refused with {number}")
        }
    }
}

fn show_counts(rt: &impl Print, counts: Counts) -> io::Result<()> {
    let opened = counts.opened;
    let allowed = counts.allowed;
    let unfinished = counts.unfinished;
    let withdrawn = counts.withdrawn;
    let open = counts.open;
    println!(rt;
        "  counts: {opened} opened = {allowed} allowed + {unfinished} unfinished + {withdrawn} withdrawn + {open} open"
    )
}

// The answers of a docket, its counts, and what its evidence was converted to.
fn show_docket<K: Evidence + Drop>(
    rt: &impl Print,
    served: Served<K>,
    answers: &[Option<Answer<K::Fault>>],
) -> io::Result<()> {
    let Served { docket, converted } = served;
    for answer in answers {
        show_answer(rt, *answer)?;
    }
    if let Ok(docket) = docket {
        show_counts(rt, docket.counts())?;
    }
    match converted {
        Ok(Written { items, moves }) => {
            println!(rt; "  and the evidence was converted: {items} items, {moves} of them moves")
        }
        Err(fault) => {
            let number = fault.number();
            println!(rt; "  the evidence was not converted: {number}")
        }
    }
}

// What both dockets did, with every ticket back.
#[derive(Drop)]
struct Day {
    by_run: Served<Run>,
    run_answers: [Option<Answer<RunFault>>; 12],
    by_certificate: Served<Certificate>,
    certificate_answers: [Option<Answer<CertificateFault>>; 12],
}

// Docket 7 examines the run and converts it; docket 8 examines the certificate and converts it back. A ticket of another
// docket 7 lies in slot 1 of both, and goes back to the docket that gave it out.
fn work_a_day(case: &CheckedCase) -> Option<Day> {
    let mut morning = Docket::new(Run::new(), case, 7);
    let Ok(old) = morning.open() else {
        return None;
    };
    // the run of store buffering in which both writes wait to the end
    let run = [0, 0, 1, 0, 1, 0, 1].map(|thread| Item::from(RunItem::Perform(thread)));
    let mut run_answers = [None; 12];
    let mut certificate = [Item::default(); 4352];
    let (by_run, old) = serve(
        Run::new(),
        case,
        7,
        old,
        &run_calls(&run),
        &mut run_answers,
        Direction::ToCertificate,
        &run,
        &mut certificate,
    );
    let moved = first_nine(&certificate);
    let mut certificate_answers = [None; 12];
    let mut back = [Item::default(); 512];
    let (by_certificate, old) = serve(
        Certificate::new(),
        case,
        8,
        old,
        &certificate_calls(&moved),
        &mut certificate_answers,
        Direction::ToRun,
        &moved,
        &mut back,
    );
    match morning.withdraw(old) {
        Ok(_) => {}
        Err(_) => unreachable(),
    }
    Some(Day {
        by_run,
        run_answers,
        by_certificate,
        certificate_answers,
    })
}

pub fn chapter(rt: &impl Print, case: &CheckedCase) -> io::Result<()> {
    println!(rt; "")?;
    println!(rt; "5. The docket")?;
    println!(rt;
        "Evidence is examined at a docket, with a ticket. Two dockets have this case: 7 for runs, 8 for certificates."
    )?;
    let Some(day) = work_a_day(case) else {
        return println!(rt; "  no examination can be opened");
    };
    let Day {
        by_run,
        run_answers,
        by_certificate,
        certificate_answers,
    } = day;
    println!(rt;
        "Docket 7: an examination is opened and withdrawn again, and a second one opened. Somebody shows ticket (7, 1), from a docket that had the number 7 this morning: examination 1 is over here. Then the run of chapter 2 is offered:"
    )?;
    show_docket(rt, by_run, &run_answers)?;
    println!(rt;
        "Docket 8: the old ticket is one of docket 7. Then the certificate is offered into which the run was converted:"
    )?;
    show_docket(rt, by_certificate, &certificate_answers)?;
    println!(rt;
        "The old ticket went back to the docket that had given it out: a program in which a ticket is lost is not built."
    )
}
