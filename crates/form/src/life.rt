// 17: the life of the threads, along the turns.
ghost use Rattle.std.specs.Prelude.{◌≡◌, if◌then◌else◌, Some, None};
ghost use Rattle.records.specs.Refusals.{refuse};
ghost use Rattle.form.specs.Form.{along_turns, refusal_in};
ghost use Rattle.form.specs.Lives.{Lived, misfits, next, concerns_life, subject as subject_of};

use crate::fault::FormFault;
use crate::turns::{TurnRule, Turns};
use records::Record;

#[derive(Clone, Copy, Debug, PartialEq)]
pub enum Life {
    Unborn,
    Ready,
    Running,
    Ended,
}

// The state of each thread.
#[derive(Clone, Copy)]
pub(crate) struct Lives([Life; 8]);

// What a letter turns a thread's state into, where the two fit.
fn next_life(state: Life, letter: char) -> Option<Life>
    ensures { result ≡ next state letter }
{
    match (state, letter) {
        (Life::Unborn, 'S') => Some(Life::Ready),
        (Life::Ready, 'B') => Some(Life::Running),
        (Life::Running, 'E') => Some(Life::Ended),
        (Life::Ended, 'J') => Some(Life::Ended),
        _ => None,
    }
}

// The thread whose life a record concerns: S and J their target, B and E their own.
fn subject(r: &Record) -> Option<u8>
    ensures { result ≡ (if concerns_life r.now.letter then Some (subject_of r.now) else None) }
{
    match r.letter {
        'S' | 'J' => Some(r.target),
        'B' | 'E' => Some(r.thread),
        _ => None,
    }
}

impl TurnRule for Lives {
    ghost breaks = { misfits };

    ghost Kept = { λ xs n lives. Lived xs n lives.0 };

    fn new() -> Self {
        let mut lives = [Life::Unborn; 8];
        lives[0] = Life::Ready;
        Lives(lives)
    }

    fn admits(&mut self, r: &Record) -> bool {
        let Some(thread) = subject(r) else {
            return true;
        };
        let life = &mut self.0[thread as usize];
        let Some(state) = next_life(*life, r.letter) else {
            return false;
        };
        *life = state;
        true
    }
}

// 17
pub(crate) fn check_lives(turns: &Turns) -> Result<(), FormFault>
    ensures { refusal_in result ≡ refuse 17 (along_turns misfits turns.now.formed.records.now) None }
{
    turns
        .first_break::<Lives>()
        .map_or(Ok(()), |k| Err(FormFault::Life(k)))
}
