// The third chapter: a certificate for the same execution.
use case::checked::CheckedCase;
use machines::faults::{CertificateFault, ItemFault};
use machines::items::CertificateItem;
use machines::items::CertificateItem::{Come, Move};
use machines::lists::Certificate;
use records::Item;
use std::io;

// The read behind a plain write that carries no reads along comes before it.
fn passes(thread: u8, place: u8) -> CertificateItem {
    Move {
        thread,
        place,
        count: 0,
    }
}

// The short words of this program; the fault's own are longer and speak to whoever reads a verdict.
fn explained(fault: CertificateFault) -> &'static str {
    match fault {
        CertificateFault::NotOfCertificate => "no item of a certificate",
        CertificateFault::MoveInOrder => "a move after the order has begun",
        CertificateFault::PastTheEnd => "the thread's list is too short for the move",
        CertificateFault::NoWrite => "no plain write at that place",
        CertificateFault::NotCarried => "an action that is carried saw another write",
        CertificateFault::CannotPass => "what passes is no read of another location",
        CertificateFault::NoneLeft => "the thread has no action left",
        CertificateFault::NotItsTurn => "it is not this action's turn",
        CertificateFault::SawAnother => "the read saw another write than the last earlier one",
    }
}

// Takes the items one by one, and says where it stops.
fn show_all(
    rt: &impl Print,
    checker: &mut Certificate,
    case: &CheckedCase,
    items: &[Item],
) -> io::Result<()> {
    checker.begin(case);
    for (taken, item) in items.iter().enumerate() {
        if let Err(fault) = checker.put(case, *item) {
            let number = fault.number();
            let why = explained(fault);
            return println!(rt; "  refused with {number} after {taken} items: {why}");
        }
    }
    let count = items.len();
    if checker.finished(case) {
        println!(rt; "  all {count} items are taken, and every action has come: complete")
    } else {
        println!(rt; "  all {count} items are taken, and some actions have not come")
    }
}

pub fn chapter(rt: &impl Print, case: &CheckedCase) -> io::Result<()> {
    println!(rt; "")?;
    println!(rt; "3. The certificate")?;
    println!(rt;
        "The compiler group says which reads were moved before which writes, and then one order of all actions."
    )?;
    let mut checker = Certificate::new();
    let order = [0, 0, 1, 0, 1, 0, 1].map(|thread| Item::from(Come(thread)));
    let mut moved = [Item::default(); 9];
    moved[0] = passes(0, 2).into();
    moved[1] = passes(1, 1).into();
    moved[2..].copy_from_slice(&order);
    println!(rt;
        "In each thread the read passes the write, and then the threads come 0 0 1 0 1 0 1:"
    )?;
    show_all(rt, &mut checker, case, &moved)?;
    println!(rt; "The same order without the moves:")?;
    show_all(rt, &mut checker, case, &order)
}
