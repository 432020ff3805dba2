// The docket: where evidence for one case is examined, one examination at a time.
//
// `open` begins an examination and gives out its ticket. With the ticket items are offered, and `settle` or `withdraw`
// takes it back and ends the examination. The docket knows its checker only as some kind of evidence (the crate kinds),
// keeps a copy of the case, and counts what was opened and how it ended.
//
// What it answers is told by a plain docket, a list of items and five counts (specs/Plain). The docket itself keeps no
// items: while an examination is open its checker holds the state that they lead to, and `taken` is their number. That
// is the relation `Stands` of specs/Standing, which `new` establishes and every call keeps (`heeds`): whichever plain
// docket it stands for, it answers as that one does and then stands for what that one has become. Whole lists of calls,
// and what follows for them, are in the module work; specs/Promise has the words.
//
// For whoever changes it. A refused call returns before anything is written, so that it can promise that the docket is
// literally as it was; a kind promises the same of its checker. The counts change through one reference to them, since
// they balance only after its last write. A new call is a new case of `Asked` in specs/Plain, with its reply and its next
// plain docket. A new refusal is a variant of `TicketFault` and a line of `ticket_told` in specs/Faults.
#![tactic(auto)]

ghost use Rattle.std.specs.Prelude.{◌≡◌, ◌≤◌, true, false, is_ok, IfOk, IfErr, OnErr};
ghost use Rattle.docket.specs.Plain.{Plain, empty, opens, offers, settles, withdraws};
ghost use Rattle.docket.specs.Standing.{Counted, Balanced, Stands, Heeds, Redeemed, vacant, admits, latest, open_says, offer_says, settle_says, withdraw_says};

pub mod calls;
pub mod counts;
pub mod fault;
pub mod ticket;
pub mod work;

use case::checked::CheckedCase;
use counts::Counts;
use fault::{DocketFault, HandedBack, TicketFault};
use kinds::Evidence;
use records::Item;
use ticket::{Ticket, TicketName};

// A checker of some kind, a copy of a case, and a number, by which tickets name it.
#[derive(Drop)]
pub struct Docket<K: Evidence> {
    checker: K,
    case: CheckedCase,
    number: u16,
    counts: Counts,
    // items taken in the last examination; a kind takes at most 8,192
    taken: u16,
}

// How a settled examination ended, with the number of items taken in it.
#[derive(Clone, Copy, Debug, PartialEq)]
pub enum Verdict {
    // the items are complete evidence
    Allowed(u16),
    // they are not
    Unfinished(u16),
}

impl<K: Evidence> Docket<K> {
    // The checker may be in any state. Give each docket a number of its own: tickets are told apart by numbers alone.
    pub fn new(checker: K, case: &CheckedCase, number: u16) -> Docket<K>
        ensures stands { Stands K.Evidence result empty }
        ensures case { result.case ≡ case.now }
        ensures number { result.number ≡ number }
    {
        let counts = Counts {
            opened: 0,
            allowed: 0,
            unfinished: 0,
            withdrawn: 0,
            open: 0,
        };
        Docket {
            checker,
            case: *case,
            number,
            counts,
            taken: 0,
        }
    }

    // Begins an examination: 41 while one is open, 43 after 65,535.
    pub fn open(&mut self) -> Result<Ticket, TicketFault>
        ensures heeds { Heeds K.Evidence self.old opens (open_says result) self.new }
        ensures granted { is_ok result ≡ vacant self.old }
        ensures unspent { IfOk result (λ t. t.spent ≡ false) }
        ensures admits { IfOk result (λ t. admits self.new t.name ≡ true) }
        ensures kept { OnErr result (self.new ≡ self.old) }
    {
        if self.counts.open == 1 {
            return Err(TicketFault::StillOpen);
        }
        if self.counts.opened == 65535 {
            return Err(TicketFault::NoneLeft);
        }
        self.checker.begin(&self.case);
        self.taken = 0;
        let counts = &mut self.counts;
        counts.opened += 1;
        counts.open = 1;
        Ok(Ticket::new(self.latest()))
    }

    // Puts one item more: 42 if the ticket is not that of the open examination, else the kind's refusal, else taken.
    pub fn offer(&mut self, ticket: &Ticket, item: Item) -> Result<(), DocketFault<K::Fault>>
        ensures heeds { Heeds K.Evidence self.old (offers ticket.now.name item) (offer_says K.Fault.number result) self.new }
        ensures counts { self.new.counts ≡ self.old.counts }
        ensures kept { OnErr result (self.new ≡ self.old) }
    {
        if !self.fits(ticket.name()) {
            return Err(TicketFault::NotThisTicket.into());
        }
        // A `match` and no `map_err` with `?`, whose proof did not close here.
        match self.checker.put(&self.case, item) {
            Ok(()) => {
                self.taken = self.taken.saturating_add(1);
                Ok(())
            }
            Err(fault) => Err(DocketFault::ItemRefused {
                fault,
                taken: self.taken,
            }),
        }
    }

    // Ends the examination with a verdict: 42, and the ticket comes back, if it is not that of the open examination.
    pub fn settle(&mut self, ticket: Ticket) -> Result<Verdict, HandedBack>
        ensures heeds { Heeds K.Evidence self.old (settles ticket.name) (settle_says result) self.new }
        ensures granted { is_ok result ≡ admits self.old ticket.name }
        ensures kept { OnErr result (self.new ≡ self.old) }
        ensures back { IfErr result (λ b. b.ticket ≡ ticket) }
    {
        self.redeem(ticket)?;
        let counts = &mut self.counts;
        if self.checker.finished(&self.case) {
            counts.allowed += 1;
            counts.open = 0;
            Ok(Verdict::Allowed(self.taken))
        } else {
            counts.unfinished += 1;
            counts.open = 0;
            Ok(Verdict::Unfinished(self.taken))
        }
    }

    // Ends the examination with none, and answers the number of items taken: 42 as for `settle`.
    pub fn withdraw(&mut self, ticket: Ticket) -> Result<u16, HandedBack>
        ensures heeds { Heeds K.Evidence self.old (withdraws ticket.name) (withdraw_says result) self.new }
        ensures granted { is_ok result ≡ admits self.old ticket.name }
        ensures kept { OnErr result (self.new ≡ self.old) }
        ensures back { IfErr result (λ b. b.ticket ≡ ticket) }
    {
        self.redeem(ticket)?;
        let counts = &mut self.counts;
        counts.withdrawn += 1;
        counts.open = 0;
        Ok(self.taken)
    }

    // How many examinations were opened, and how they ended.
    pub fn counts(&self) -> Counts
        ensures value { result ≡ self.now.counts }
        ensures plain { (p : Plain) → Stands K.Evidence self.now p → Counted result p }
        ensures balanced { Balanced result }
        ensures single { result.«open» ≤ 1 }
    {
        self.counts
    }

    // The name of the examination that was opened last.
    fn latest(&self) -> TicketName
        ensures { result ≡ latest self.now }
    {
        TicketName {
            docket: self.number,
            examination: self.counts.opened,
        }
    }

    // Whether a ticket of this name is that of the open examination.
    fn fits(&self, name: TicketName) -> bool
        ensures value { result ≡ admits self.now name }
    {
        name == self.latest() && self.counts.open == 1
    }

    // Takes in the ticket of the open examination, and hands any other back.
    fn redeem(&self, ticket: Ticket) -> Result<(), HandedBack>
        ensures redeemed { Redeemed self.now ticket result }
    {
        if !self.fits(ticket.name()) {
            return Err(HandedBack {
                fault: TicketFault::NotThisTicket,
                ticket,
            });
        }
        ticket.spend();
        Ok(())
    }
}
