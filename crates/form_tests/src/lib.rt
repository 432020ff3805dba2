// The form check on examples: for each rule records that just pass and records that just break it.
//
// The expected answers were worked out by hand from docs/FORM.md: how many records a case in form has, or the number of
// the rule that is broken and the record that breaks it.
#![tactic(auto)]

use case::checked::CheckedCase;
use records::Record;

fn row(thread: u8, letter: char, target: u8, value: u32, seen: u16, turn: u16) -> Record {
    Record {
        letter,
        value,
        seen,
        turn,
        thread,
        target,
    }
}

// A capital, which has a turn and neither writes nor reads a value.
fn capital(thread: u8, letter: char, target: u8, turn: u16) -> Record {
    row(thread, letter, target, 0, 0, turn)
}

fn answer(records: &[Record]) -> Result<usize, (u8, usize)> {
    let mut case = CheckedCase::empty();
    match case.fill(records) {
        Ok(()) => Ok(case.records().len()),
        Err(fault) => Err((fault.number(), fault.place())),
    }
}

#[cfg(test)]
mod tests {
    use super::*;
    use form::fault::FormFault;

    // Written out, since a constant calls no trait's method.
    const B: Record = Record {
        letter: 'B',
        value: 0,
        seen: 0,
        turn: 1,
        thread: 0,
        target: 0,
    };

    const W: Record = Record {
        letter: 'w',
        value: 7,
        seen: 0,
        turn: 0,
        thread: 0,
        target: 0,
    };

    // 11: grouped by rising thread, at most 64 of each
    #[test]
    fn grouping(rt: HostRuntime) {
        let mut many = [W; 65];
        many[0] = B;
        assert_eq!(rt; answer(&many[0..64]), Ok(64));
        assert_eq!(rt; answer(&many), Err((11, 64)));
        assert_eq!(rt; answer(&[B, capital(8, 'B', 0, 2)]), Err((11, 1)));
        assert_eq!(rt;
            answer(&[B, capital(0, 'S', 1, 2), capital(1, 'B', 0, 3), W]),
            Err((11, 3))
        );
        assert_eq!(rt; answer(&[row(255, '?', 255, 9, 9, 9)]), Err((11, 0)));
        assert_eq!(rt; answer(&[W; 257]), Err((11, 64)));
    }

    // 12: fields as the letter says
    #[test]
    fn fields(rt: HostRuntime) {
        assert_eq!(rt; answer(&[B, row(0, 'w', 63, u32::MAX, 0, 0)]), Ok(2));
        assert_eq!(rt; answer(&[B, row(0, 'w', 64, 1, 0, 0)]), Err((12, 1)));
        assert_eq!(rt; answer(&[B, row(0, 'x', 0, 0, 0, 0)]), Err((12, 1)));
        assert_eq!(rt; answer(&[B, row(0, 'r', 0, 1, 512, 0)]), Err((12, 1)));
        assert_eq!(rt; answer(&[B, row(0, 'w', 0, 1, 512, 0)]), Err((12, 1)));
        assert_eq!(rt; answer(&[B, row(0, 'w', 0, 1, 0, 2)]), Err((12, 1)));
        assert_eq!(rt; answer(&[B, capital(0, 'L', 15, 2)]), Ok(2));
        assert_eq!(rt; answer(&[B, capital(0, 'L', 16, 2)]), Err((12, 1)));
        assert_eq!(rt; answer(&[B, capital(0, 'S', 8, 2)]), Err((12, 1)));
        assert_eq!(rt; answer(&[B, capital(0, 'E', 1, 2)]), Err((12, 1)));
        assert_eq!(rt; answer(&[B, capital(0, 'E', 0, 0)]), Err((12, 1)));
        assert_eq!(rt; answer(&[B, capital(0, 'E', 0, 257)]), Err((12, 1)));
    }

    // 13 and 14: locations of one sort, writes that exist
    #[test]
    fn locations(rt: HostRuntime) {
        let volatile = row(0, 'W', 0, 1, 0, 2);
        assert_eq!(rt; answer(&[B, W, volatile]), Err((13, 2)));
        assert_eq!(rt; answer(&[B, volatile, W]), Err((13, 2)));
        assert_eq!(rt; answer(&[B, W, row(0, 'W', 1, 1, 0, 2)]), Ok(3));
        assert_eq!(rt; answer(&[B, row(0, 'r', 0, 0, 512, 0)]), Ok(2));
        assert_eq!(rt; answer(&[B, row(0, 'r', 0, 0, 513, 0)]), Err((14, 1)));
        assert_eq!(rt; answer(&[B, row(0, 'r', 0, 0, 2, 0), W]), Ok(3));
        assert_eq!(rt; answer(&[B, row(0, 'r', 1, 0, 2, 0), W]), Err((14, 1)));
        assert_eq!(rt; answer(&[B, row(0, 'r', 0, 0, 0, 0), W]), Err((14, 1)));
        assert_eq!(rt; answer(&[B, row(0, 'r', 0, 0, 3, 0), W]), Err((14, 1)));
        assert_eq!(rt; answer(&[B, row(0, 'r', 0, 0, 65535, 0)]), Err((14, 1)));
    }

    // 15 and 16: turns, and B first, E last
    #[test]
    fn turns(rt: HostRuntime) {
        let end = capital(0, 'E', 0, 2);
        assert_eq!(rt; answer(&[capital(0, 'B', 0, 2)]), Err((15, 0)));
        assert_eq!(rt; answer(&[B, capital(0, 'E', 0, 1)]), Err((15, 1)));
        assert_eq!(rt;
            answer(&[capital(0, 'B', 0, 2), capital(0, 'E', 0, 1)]),
            Err((15, 1))
        );
        assert_eq!(rt; answer(&[B, end]), Ok(2));
        assert_eq!(rt; answer(&[W]), Err((16, 0)));
        assert_eq!(rt; answer(&[B, capital(0, 'B', 0, 2)]), Err((16, 1)));
        assert_eq!(rt; answer(&[B, end, W]), Err((16, 2)));
        assert_eq!(rt; answer(&[B, W, end]), Ok(3));
    }

    // 17: the life of threads
    #[test]
    fn lives(rt: HostRuntime) {
        let spawn = capital(0, 'S', 1, 2);
        assert_eq!(rt; answer(&[B, spawn]), Ok(2));
        assert_eq!(rt; answer(&[capital(1, 'B', 0, 1)]), Err((17, 0)));
        assert_eq!(rt; answer(&[B, capital(0, 'S', 0, 2)]), Err((17, 1)));
        assert_eq!(rt; answer(&[B, spawn, capital(0, 'S', 1, 3)]), Err((17, 2)));
        assert_eq!(rt; answer(&[B, spawn, capital(0, 'J', 1, 3)]), Err((17, 2)));
        let joined = [
            B,
            spawn,
            capital(0, 'J', 1, 5),
            capital(1, 'B', 0, 3),
            capital(1, 'E', 0, 4),
        ];
        assert_eq!(rt; answer(&joined), Ok(5));
        let early = [
            B,
            spawn,
            capital(0, 'J', 1, 4),
            capital(1, 'B', 0, 3),
            capital(1, 'E', 0, 5),
        ];
        assert_eq!(rt; answer(&early), Err((17, 2)));
    }

    // 18: monitors; 17 is looked for along all turns first
    #[test]
    fn monitors(rt: HostRuntime) {
        let lock = capital(0, 'L', 0, 2);
        assert_eq!(rt;
            answer(&[B, lock, capital(0, 'U', 0, 3), capital(0, 'L', 0, 4)]),
            Ok(4)
        );
        assert_eq!(rt; answer(&[B, lock, capital(0, 'L', 0, 3)]), Err((18, 2)));
        assert_eq!(rt; answer(&[B, lock, capital(0, 'U', 1, 3)]), Err((18, 2)));
        assert_eq!(rt; answer(&[B, capital(0, 'U', 0, 2)]), Err((18, 1)));
        assert_eq!(rt;
            answer(&[B, lock, capital(0, 'L', 0, 3), capital(0, 'J', 1, 4)]),
            Err((17, 3))
        );
        let other = [
            B,
            capital(0, 'S', 1, 2),
            capital(0, 'L', 0, 3),
            capital(1, 'B', 0, 4),
            capital(1, 'U', 0, 5),
        ];
        assert_eq!(rt; answer(&other), Err((18, 4)));
    }

    // what a refusal leaves, and names both ways
    #[test]
    fn names(rt: HostRuntime) {
        let mut case = CheckedCase::empty();
        assert!(rt;
            case.fill(&[B, capital(0, 'S', 1, 2), W, capital(1, 'B', 0, 3)])
                .is_ok()
        );
        assert!(rt; case.fill(&[W]).is_err());
        assert_eq!(rt; case.records().len(), 4);
        assert_eq!(rt; case.name(3), Some(64));
        assert_eq!(rt; case.name(4), None);
        assert_eq!(rt; case.find(64), Some(3));
        assert_eq!(rt; case.find(3), None);
        assert_eq!(rt; case.find(512), None);
        assert_eq!(rt; case.thread(0).len(), 3);
        assert_eq!(rt; case.thread(9).len(), 0);
    }

    // what a fault prints
    #[test]
    fn words(rt: HostRuntime) {
        let held = "the monitor is held already, or is unlocked by a thread that does not hold it";
        let text = format!(in rt.alloc(); "{}", FormFault::Monitor(2)).unwrap_or(String::new(
            rt.alloc(),
        ));
        assert_eq!(rt; text.as_str(), held);
    }
}
