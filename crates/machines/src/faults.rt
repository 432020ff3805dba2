// Why an item is refused, by each machine.
ghost use Rattle.std.specs.Prelude.{◌≡◌, ℕ};
ghost use Rattle.machines.specs.Faults.{run_number, certificate_number, run_fault, certificate_fault};

use std::fmt;
use thiserror::Error;

#[derive(Clone, Copy, Debug, PartialEq, Error)]
pub enum RunFault {
    // a letter that is not of a run, or an unused field that is not 0
    #[error("this is no item of a run: A or D, with place and count 0")]
    NotOfRun,
    // no such thread, or no action left to perform
    #[error("there is no such thread, or it has no action left to perform")]
    NoAction,
    // no such thread, or no write waits in it
    #[error("there is no such thread, or none of its writes waits to be drained")]
    NothingWaits,
    // a synchronization action while writes wait in its thread
    #[error("a capital letter needs an empty store buffer, and a write of its thread still waits")]
    WritesWait,
    // a synchronization action whose turn is not the next
    #[error("the action's turn is not the next one")]
    NotItsTurn,
    // a read that saw another write
    #[error("the read saw another write than the store-buffer machine gives it")]
    SawAnother,
}

#[derive(Clone, Copy, Debug, PartialEq, Error)]
pub enum CertificateFault {
    // a letter that is not of a certificate, or an unused field that is not 0
    #[error("this is no item of a certificate: M, or O with place and count 0")]
    NotOfCertificate,
    // a move after the order has begun
    #[error("a move comes after the order has begun")]
    MoveInOrder,
    // no such thread, or its list is too short for the move
    #[error("there is no such thread, or its list is too short for this move")]
    PastTheEnd,
    // no plain write at the place
    #[error("there is no plain write at that place")]
    NoWrite,
    // an action that is carried is no read of that location that saw that write
    #[error("an action that would be carried is no read that saw this very write")]
    NotCarried,
    // the action that passes is no plain read of another location
    #[error("the action that would pass is no read of another location")]
    CannotPass,
    // no such thread, or no action left to come
    #[error("there is no such thread, or it has no action left to come")]
    NoneLeft,
    // a synchronization action whose turn is not the next
    #[error("the action's turn is not the next one")]
    NotItsTurn,
    // a read that saw another write than the last earlier one
    #[error("the read saw another write than the last earlier one in the order")]
    SawAnother,
}

// Why memory does not let an action come, in either machine.
#[derive(Clone, Copy, Debug, PartialEq)]
pub(crate) enum Mismatch {
    // its turn is not the next
    NotItsTurn,
    // it saw another write than memory holds
    SawAnother,
}

// What a machine gives as its reason: each has a number of its own in the table of refusals, and is told in words.
pub trait ItemFault: Copy + PartialEq + fmt::Debug + fmt::Display {
    ghost number: { Self → ℕ };

    fn number(&self) -> u8
        ensures { result ≡ number self.now };
}

impl ItemFault for RunFault {
    ghost number = { run_number };

    fn number(&self) -> u8 {
        match self {
            RunFault::NotOfRun => 20,
            RunFault::NoAction => 21,
            RunFault::NothingWaits => 22,
            RunFault::WritesWait => 23,
            RunFault::NotItsTurn => 24,
            RunFault::SawAnother => 25,
        }
    }
}

impl ItemFault for CertificateFault {
    ghost number = { certificate_number };

    fn number(&self) -> u8 {
        match self {
            CertificateFault::NotOfCertificate => 20,
            CertificateFault::MoveInOrder => 31,
            CertificateFault::PastTheEnd => 32,
            CertificateFault::NoWrite => 33,
            CertificateFault::NotCarried => 34,
            CertificateFault::CannotPass => 35,
            CertificateFault::NoneLeft => 36,
            CertificateFault::NotItsTurn => 37,
            CertificateFault::SawAnother => 38,
        }
    }
}

impl From<Mismatch> for RunFault {
    ghost from_gives = { λ why r. r ≡ run_fault why };

    fn from(why: Mismatch) -> RunFault {
        match why {
            Mismatch::NotItsTurn => RunFault::NotItsTurn,
            Mismatch::SawAnother => RunFault::SawAnother,
        }
    }
}

impl From<Mismatch> for CertificateFault {
    ghost from_gives = { λ why r. r ≡ certificate_fault why };

    fn from(why: Mismatch) -> CertificateFault {
        match why {
            Mismatch::NotItsTurn => CertificateFault::NotItsTurn,
            Mismatch::SawAnother => CertificateFault::SawAnother,
        }
    }
}
