// 18: who holds each monitor, along the turns.
ghost use Rattle.std.specs.Prelude.{◌≡◌, if◌then◌else◌, Some, None, codes, nat_eq};
ghost use Rattle.records.specs.Letters.{letter as code, among};
ghost use Rattle.records.specs.Refusals.{refuse};
ghost use Rattle.form.specs.Form.{along_turns, refusal_in};
ghost use Rattle.form.specs.Monitors.{Held, locks_wrongly, mislocks};

use crate::fault::FormFault;
use crate::turns::{TurnRule, Turns};
use records::Record;

// The thread that holds each monitor.
#[derive(Clone, Copy)]
pub(crate) struct Holders([Option<u8>; 16]);

// The monitor that a record locks or unlocks.
fn monitor(r: &Record) -> Option<u8>
    ensures { result ≡ (if among r.now.letter (codes "LU") then Some r.now.target else None) }
{
    match r.letter {
        'L' | 'U' => Some(r.target),
        _ => None,
    }
}

// Whether a record locks a monitor that is held, or unlocks one that its thread does not hold.
fn locks_wrongly(r: &Record, held: Option<u8>) -> bool
    ensures { result ≡ locks_wrongly r.now held }
{
    match r.letter {
        'L' => held.is_some(),
        'U' => held != Some(r.thread),
        _ => false,
    }
}

// Who holds the monitor after a record that locks or unlocks it.
fn holder_after(r: &Record) -> Option<u8>
    ensures { result ≡ (if nat_eq r.now.letter (code "L") then Some r.now.thread else None) }
{
    (r.letter == 'L').then_some(r.thread)
}

impl TurnRule for Holders {
    ghost breaks = { mislocks };

    ghost Kept = { λ xs n holders. Held xs n holders.0 };

    fn new() -> Self {
        Holders([None; 16])
    }

    fn admits(&mut self, r: &Record) -> bool {
        let Some(m) = monitor(r) else {
            return true;
        };
        let holder = &mut self.0[m as usize];
        if locks_wrongly(r, *holder) {
            return false;
        }
        *holder = holder_after(r);
        true
    }
}

// 18
pub(crate) fn check_monitors(turns: &Turns) -> Result<(), FormFault>
    ensures { refusal_in result ≡ refuse 18 (along_turns mislocks turns.now.formed.records.now) None }
{
    turns
        .first_break::<Holders>()
        .map_or(Ok(()), |k| Err(FormFault::Monitor(k)))
}
