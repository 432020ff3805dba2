// Calls and answers as values, for whole lists of them.
use crate::Verdict;
use crate::fault::DocketFault;
use crate::ticket::TicketName;
use records::Item;

// A call that names a slot: of the ticket that it shows or hands in, or where an opening puts the new one.
#[derive(Clone, Copy)]
pub enum Call {
    Open(usize),
    Offer(usize, Item),
    Settle(usize),
    Withdraw(usize),
}

#[derive(Clone, Copy, Debug, PartialEq)]
pub enum Answer<F> {
    Opened(TicketName),
    Taken,
    Settled(Verdict),
    Withdrawn(u16),
    Refused(DocketFault<F>),
}
