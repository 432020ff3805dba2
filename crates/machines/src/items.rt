// What an item says to each machine, and how it is said by an item.
ghost use Rattle.std.specs.Prelude.{◌≡◌};
ghost use Rattle.std.specs.Option.{ok_or};
ghost use Rattle.machines.specs.Encoded.{run_encoded, certificate_encoded};
ghost use Rattle.machines.specs.Items.{run_item, certificate_item};
ghost use Rattle.machines.specs.declared.faults.CertificateFault.TheVariants.{NotOfCertificate};
ghost use Rattle.machines.specs.declared.faults.RunFault.TheVariants.{NotOfRun};

use crate::faults::{CertificateFault, RunFault};
use records::Item;

// Of a run: a thread performs its next action, or drains its oldest waiting write.
#[derive(Clone, Copy, Debug, PartialEq)]
pub enum RunItem {
    Perform(u8),
    Drain(u8),
}

// Of a certificate: a move in a thread's list, or the thread's next action comes next.
#[derive(Clone, Copy, Debug, PartialEq)]
pub enum CertificateItem {
    Move { thread: u8, place: u8, count: u8 },
    Come(u8),
}

impl TryFrom<Item> for RunItem {
    type Error = RunFault;

    ghost try_from_gives = { λ item r. r ≡ ok_or (run_item item) NotOfRun };

    // Refused where the letter is not of a run, or place or count is not 0.
    fn try_from(item: Item) -> Result<RunItem, RunFault> {
        match item.letter {
            b'A' if item.place == 0 && item.count == 0 => Ok(RunItem::Perform(item.thread)),
            b'D' if item.place == 0 && item.count == 0 => Ok(RunItem::Drain(item.thread)),
            _ => Err(RunFault::NotOfRun),
        }
    }
}

impl TryFrom<Item> for CertificateItem {
    type Error = CertificateFault;

    ghost try_from_gives = { λ item r. r ≡ ok_or (certificate_item item) NotOfCertificate };

    // Refused where the letter is not of a certificate, or place or count of an O is not 0.
    fn try_from(item: Item) -> Result<CertificateItem, CertificateFault> {
        match item.letter {
            b'M' => Ok(CertificateItem::Move {
                thread: item.thread,
                place: item.place,
                count: item.count,
            }),
            b'O' if item.place == 0 && item.count == 0 => Ok(CertificateItem::Come(item.thread)),
            _ => Err(CertificateFault::NotOfCertificate),
        }
    }
}

impl From<RunItem> for Item {
    ghost from_gives = { λ said r. r ≡ run_encoded said };

    fn from(said: RunItem) -> Item {
        let (letter, thread) = match said {
            RunItem::Perform(thread) => (b'A', thread),
            RunItem::Drain(thread) => (b'D', thread),
        };
        Item {
            letter,
            thread,
            place: 0,
            count: 0,
        }
    }
}

impl From<CertificateItem> for Item {
    ghost from_gives = { λ said r. r ≡ certificate_encoded said };

    fn from(said: CertificateItem) -> Item {
        let (letter, thread, place, count) = match said {
            CertificateItem::Move {
                thread,
                place,
                count,
            } => (b'M', thread, place, count),
            CertificateItem::Come(thread) => (b'O', thread, 0, 0),
        };
        Item {
            letter,
            thread,
            place,
            count,
        }
    }
}
