// Conversions of large cases both ways, held to the checkers.
//
// Four threads of 64 records each is the case with the most moves there can be: thread 0 begins, spawns the others and has
// 30 plain writes and then 30 plain reads, each of the others begins and has 31 writes and 32 reads. With no drain every
// read passes all its thread's writes: 30·30 + 3·31·32 = 3,876 moves. Eight threads of 32 records: thread 0 has 12 writes
// and 12 reads, the others 15 writes and 16 reads: 12·12 + 7·15·16 = 1,824 moves.
#![tactic(auto)]

use case::checked::CheckedCase;
use conversions::certificate::to_certificate;
use conversions::replay::to_run;
use kinds::Evidence;
use machines::items::RunItem;
use machines::lists::Certificate;
use machines::rows::Run;
use records::{Item, Record};

// The record at a place of a thread, of so many threads: first what has a turn, then writes to the
// thread's own location and, from `half` on, reads of a location that nobody writes.
fn record_at(threads: u16, thread: u16, place: u16, half: u16) -> Record {
    let own = (thread & 7) as u8;
    let blank = Record {
        thread: own,
        ..Record::default()
    };
    if place == 0 {
        let turn = if thread == 0 {
            1
        } else {
            threads.wrapping_add(thread)
        };
        Record {
            letter: 'B',
            turn,
            ..blank
        }
    } else if thread == 0 && place < threads {
        Record {
            letter: 'S',
            turn: place.wrapping_add(1),
            target: (place & 7) as u8,
            ..blank
        }
    } else if place < half {
        Record {
            letter: 'w',
            value: 1,
            target: own,
            ..blank
        }
    } else {
        Record {
            letter: 'r',
            seen: 552,
            target: 40,
            ..blank
        }
    }
}

// 256 records of so many threads, where the reads of thread 0 begin at one place and those of the others at another.
fn large(threads: u16, first_half: u16, half: u16) -> [Record; 256] {
    let mut records = [Record::default(); 256];
    let each = (256 / threads.max(1)).max(1);
    for (k, record) in records.iter_mut().enumerate() {
        let k = k as u16;
        let thread = k / each;
        let from = if thread == 0 { first_half } else { half };
        *record = record_at(threads, thread, k % each, from);
    }
    records
}

// Whether a checker takes all the items and finds them complete.
fn complete<K: Evidence + Drop>(mut checker: K, case: &CheckedCase, items: &[Item]) -> bool {
    checker.begin(case);
    items.iter().all(|item| checker.put(case, *item).is_ok()) && checker.finished(case)
}

// The run that performs everything, one thread after the other.
fn thread_by_thread(threads: u16) -> [Item; 256] {
    let mut run = [Item::default(); 256];
    let each = (256 / threads.max(1)).max(1);
    for (k, item) in run.iter_mut().enumerate() {
        *item = Item::from(RunItem::Perform((k as u16 / each & 7) as u8));
    }
    run
}

// That run converted into a certificate and back: the numbers of moves and items,
// and of items of the run at the end; none where something is refused or not complete.
fn there_and_back(records: &[Record], threads: u16) -> Option<(u16, u16, u16)> {
    let mut case = CheckedCase::empty();
    case.fill(records).ok()?;
    let run = thread_by_thread(threads);
    let mut list = [Item::default(); 4352];
    let written = to_certificate(&case, &run, &mut list).ok()?;
    let certificate = list.get(..written.items as usize)?;
    let mut back = [Item::default(); 512];
    let count = to_run(&case, certificate, &mut back).ok()?;
    let whole = complete(Certificate::new(), &case, certificate)
        && complete(Run::new(), &case, back.get(..count as usize)?);
    whole.then_some((written.moves, written.items, count))
}

#[cfg(test)]
mod tests {
    use super::*;

    // the case with the most moves
    #[test]
    fn four_threads(rt: HostRuntime) {
        assert_eq!(rt;
            there_and_back(&large(4, 34, 32), 4),
            Some((3876, 4132, 379))
        );
    }

    #[test]
    fn eight_threads(rt: HostRuntime) {
        assert_eq!(rt;
            there_and_back(&large(8, 20, 16), 8),
            Some((1824, 2080, 373))
        );
    }
}
