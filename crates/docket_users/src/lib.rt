// What it looks like to use a docket, from a crate of its own, and a small kind of evidence to try it with.
//
// That a function here is proved shows that on each of its ways every ticket goes back. A ticket that was not admitted
// would come back from `settle`, and there would be nothing to do with it: so a user shows, from what `open` and `offer`
// promise, that its ticket is admitted.
#![tactic(auto)]

ghost use Rattle.std.specs.Prelude.{◌≡◌, true, false, [], ◌∷◌, length};
ghost use Rattle.docket.specs.Plain.{Plain, item_reply, now_open, joined, now_withdrawn};
ghost use Rattle.docket.specs.Standing.{Stands, vacant, offer_says};
ghost use Rattle.docket_users.specs.Worked.{printed, Printed, counts_at_end};

pub mod tally;

use docket::Docket;
use docket::fault::DocketFault;
use kinds::Evidence;
use records::Item;

// Whether an item would be taken as the first: it is offered in an examination of its own, which is withdrawn. A docket that
// cannot open one is left as it was.
pub fn try_first<K: Evidence>(
    docket: &mut Docket<K>,
    item: Item,
) -> Result<(), DocketFault<K::Fault>>
    ensures answer { (p : Plain) → Stands K.Evidence docket.old p → vacant docket.old ≡ true → offer_says K.Fault.number result ≡ item_reply 0 ((K.machine docket.old.case).step (K.machine docket.old.case).fresh item) }
    ensures stands { (p : Plain) → Stands K.Evidence docket.old p → vacant docket.old ≡ true → Stands K.Evidence docket.new (now_withdrawn (joined (now_open p) item ((K.machine docket.old.case).step (K.machine docket.old.case).fresh item))) }
    ensures kept { vacant docket.old ≡ false → docket.new ≡ docket.old }
{
    let ticket = docket.open()?;
    let offered = docket.offer(&ticket, item);
    docket.withdraw(ticket).unwrap();
    offered
}

// How many calls the example of docs/DOCKET.md has, whose answers and counts are proved to be those printed there.
pub fn worked_calls() -> usize
    ensures count { result ≡ length printed }
    ensures printed { Printed }
    ensures counts { counts_at_end ≡ 2 ∷ 1 ∷ 0 ∷ 1 ∷ 0 ∷ [] }
{
    15
}

#[cfg(test)]
mod tests {
    use super::*;
    use crate::tally::{Tally, TallyFault};
    use case::checked::CheckedCase;
    use docket::Verdict;
    use docket::calls::{Answer, Call};
    use docket::fault::{HandedBack, TicketFault};
    use docket::ticket::{Ticket, TicketName};
    use docket::work::session;
    use records::Record;
    use sessions::examination::examine;
    use std::process::Abort;
    use std::test::Fail;

    // Written out, since a constant calls no trait's method.
    const B: Record = Record {
        letter: 'B',
        value: 0,
        seen: 0,
        turn: 1,
        thread: 0,
        target: 0,
    };

    const A: Item = Item {
        letter: b'A',
        thread: 0,
        place: 0,
        count: 0,
    };

    const D: Item = Item {
        letter: b'D',
        thread: 0,
        place: 0,
        count: 0,
    };

    // A docket over the case that has one record, with a checker in some other state.
    fn docket(number: u16) -> Docket<Tally> {
        let mut case = CheckedCase::empty();
        let _ = case.fill(&[B]);
        Docket::new(Tally { count: 9 }, &case, number)
    }

    // Of any kind, the answers can be compared, and printed where they differ.
    fn foreign<K: Evidence>(docket: &mut Docket<K>, ticket: &Ticket) -> bool {
        docket.offer(ticket, A) == Err(TicketFault::NotThisTicket.into())
    }

    fn twice_alike<K: Evidence>(rt: &impl Abort, docket: &mut Docket<K>, item: Item) {
        let first = try_first(docket, item);
        assert_eq!(rt; try_first(docket, item), first);
    }

    #[test]
    fn verdicts_and_counts(rt: HostRuntime) {
        let mut docket = docket(7);
        assert_eq!(rt; examine(&mut docket, &[A]), Ok(Verdict::Allowed(1)));
        assert_eq!(rt; examine(&mut docket, &[]), Ok(Verdict::Unfinished(0)));
        let foreign = DocketFault::ItemRefused {
            fault: TallyFault::NotOfTally,
            taken: 0,
        };
        assert_eq!(rt; foreign.number(), 20);
        assert_eq!(rt; examine(&mut docket, &[D]), Err(foreign));
        let one_more = DocketFault::ItemRefused {
            fault: TallyFault::NoneLeft,
            taken: 1,
        };
        assert_eq!(rt; one_more.number(), 21);
        assert_eq!(rt; examine(&mut docket, &[A, A]), Err(one_more));
        let counts = docket.counts();
        assert_eq!(rt;
            (
                counts.opened,
                counts.allowed,
                counts.unfinished,
                counts.withdrawn,
                counts.open,
            ),
            (4, 1, 1, 2, 0)
        );
    }

    #[test]
    fn one_at_a_time(rt: HostRuntime) -> Result<(), Fail> {
        let mut docket = docket(7);
        let ticket = docket.open()?;
        let name = ticket.name();
        let second = match docket.open() {
            Ok(_) => unreachable(),
            Err(fault) => fault,
        };
        let items = match docket.withdraw(ticket) {
            Ok(items) => items,
            Err(_) => unreachable(),
        };
        assert_eq!(rt;
            name,
            TicketName {
                docket: 7,
                examination: 1,
            }
        );
        assert_eq!(rt; second, TicketFault::StillOpen);
        assert_eq!(rt; (second.number(), second.place()), (41, 0));
        assert_eq!(rt; items, 0);
        Ok(())
    }

    #[test]
    fn one_item_twice(rt: HostRuntime) {
        let mut docket = docket(7);
        twice_alike(&rt, &mut docket, A);
        twice_alike(&rt, &mut docket, D);
    }

    // A list of calls in slots: a second opening, one into a full slot, an empty slot, and a ticket that went back.
    #[test]
    fn calls_in_slots(rt: HostRuntime) {
        let case = CheckedCase::empty();
        let calls = [
            Call::Open(0),
            Call::Open(1),
            Call::Open(0),
            Call::Offer(1, A),
            Call::Withdraw(0),
            Call::Settle(0),
        ];
        let mut held = [None, None];
        let mut answers = [None; 6];
        let made = session(
            Tally { count: 9 },
            &case,
            7,
            &mut held,
            &calls,
            &mut answers,
        );
        let [first, second] = held;
        match (first, second) {
            (None, None) => {}
            _ => unreachable(),
        }
        assert!(rt; made.is_ok());
        let name = TicketName {
            docket: 7,
            examination: 1,
        };
        assert_eq!(rt; answers[0], Some(Answer::Opened(name)));
        assert_eq!(rt;
            answers[1],
            Some(Answer::Refused(TicketFault::StillOpen.into()))
        );
        assert_eq!(rt; answers[2], None);
        assert_eq!(rt; answers[3], None);
        assert_eq!(rt; answers[4], Some(Answer::Withdrawn(0)));
        assert_eq!(rt; answers[5], None);
    }

    // A ticket of another docket comes back, and still fits its own.
    #[test]
    fn another_ticket(rt: HostRuntime) -> Result<(), Fail> {
        let mut docket7 = docket(7);
        let mut docket8 = docket(8);
        let ticket = docket8.open()?;
        let not_mine = foreign(&mut docket7, &ticket);
        let offered = docket7.offer(&ticket, A);
        let fault: DocketFault<TallyFault> = match docket7.settle(ticket) {
            Ok(_) => return Err(Fail::new("settled")),
            Err(HandedBack { fault, ticket }) => match docket8.settle(ticket) {
                Ok(_) => fault.into(),
                Err(_) => unreachable(),
            },
        };
        assert_eq!(rt; offered, Err(TicketFault::NotThisTicket.into()));
        assert!(rt; not_mine);
        assert_eq!(rt; fault.number(), 42);
        assert_eq!(rt; fault.place(), 0);
        Ok(())
    }
}
