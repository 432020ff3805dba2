// What a docket refuses, and the ticket that comes back with it.
ghost use Rattle.std.specs.Prelude.{◌≡◌};
ghost use Rattle.docket.specs.Faults.{ticket_told, told};
ghost use Rattle.docket.specs.declared.fault.DocketFault.TheVariants.{Ticket as of_ticket};

use crate::ticket::Ticket;
use machines::faults::ItemFault;
use std::{error, fmt};
use thiserror::Error;

// Why a ticket is not given out, or not taken.
#[derive(Clone, Copy, Debug, PartialEq, Error)]
pub enum TicketFault {
    #[error("an examination is open")]
    StillOpen,
    #[error("the ticket is not that of the open examination, or none is open")]
    NotThisTicket,
    #[error("65,535 examinations have been opened")]
    NoneLeft,
}

impl TicketFault {
    // 41 to 43
    pub fn number(&self) -> u8
        ensures value { result ≡ (ticket_told self.now).number }
    {
        match self {
            TicketFault::StillOpen => 41,
            TicketFault::NotThisTicket => 42,
            TicketFault::NoneLeft => 43,
        }
    }

    // 0, for each
    pub fn place(&self) -> u16
        ensures value { result ≡ (ticket_told self.now).place }
    {
        0
    }
}

// Why a docket refuses a call, where F is the kind's reason for refusing an item.
#[derive(Clone, Copy, Debug, PartialEq)]
pub enum DocketFault<F> {
    Ticket(TicketFault),
    // the kind refuses the item, after so many were taken
    ItemRefused { fault: F, taken: u16 },
}

impl<F: ItemFault> DocketFault<F> {
    // 41 to 43, or the kind's number
    pub fn number(&self) -> u8
        ensures value { result ≡ (told F.number self.now).number }
    {
        match self {
            DocketFault::Ticket(fault) => fault.number(),
            DocketFault::ItemRefused { fault, .. } => fault.number(),
        }
    }

    // 0, or how many items were taken before the refused one
    pub fn place(&self) -> u16
        ensures value { result ≡ (told F.number self.now).place }
    {
        match *self {
            DocketFault::ItemRefused { taken, .. } => taken,
            DocketFault::Ticket(fault) => fault.place(),
        }
    }
}

impl<F> From<TicketFault> for DocketFault<F> {
    ghost from_gives = { λ t f. f ≡ of_ticket t };

    fn from(fault: TicketFault) -> DocketFault<F> {
        Self::Ticket(fault)
    }
}

impl<F: ItemFault> fmt::Display for DocketFault<F> {
    fn fmt<W: fmt::Write>(&self, f: &mut fmt::Formatter<W>) -> fmt::Result {
        match self {
            DocketFault::Ticket(fault) => write!(f, "{fault}"),
            DocketFault::ItemRefused { fault, taken } => {
                write!(f, "the item after {taken} taken ones: {fault}")
            }
        }
    }
}

impl<F: ItemFault + fmt::Debug> error::Error for DocketFault<F> {}

// A refused call that took a ticket hands it back.
pub struct HandedBack {
    pub fault: TicketFault,
    pub ticket: Ticket,
}
