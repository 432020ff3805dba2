// 15: which record takes each turn; and how a rule is looked for along the turns.
ghost use Rattle.std.specs.Prelude.{◌≡◌, ℕ, ◌<◌, ◌≤◌, Bool, List, length, Some, None, IfOk, slice_index};
ghost use Rattle.records.specs.declared.Record.{Record};
ghost use Rattle.records.specs.Refusals.{refuse};
ghost use Rattle.form.specs.Form.{along_list, along_turns, refusal_in};
ghost use Rattle.form.specs.Rules.{capitals, clashes, mistimed, InRange};
ghost use Rattle.form.specs.Turns.{place_of, Follows};

use crate::fault::FormFault;
use crate::formed::WellFormed;
use records::Record;

// The turns of records that keep rules 11, 12 and 15: the index of the record that takes each, from turn 1 on.
#[derive(Clone, Copy)]
pub(crate) struct Turns<'a> {
    pub(crate) formed: WellFormed<'a>,
    takers: [u8; 256],
    count: usize,
    ghost within: { count ≤ length takers },
    ghost all: { count ≡ capitals formed.records.now },
    ghost taken: { (n : ℕ) → n < count → place_of formed.records.now n ≡ Some (slice_index takers n) },
}

// A rule that is looked for along the turns, by what is kept of those that have passed.
pub(crate) trait TurnRule: Drop {
    // whether the turn that comes when n have passed breaks the rule, and what is then kept
    ghost breaks: { List Record → ℕ → Bool };

    ghost Kept: { List Record → ℕ → Self → Type 0 };

    // Before the first turn.
    fn new() -> Self
        ensures { (xs : List Record) → Kept xs 0 result };

    // Whether the record that comes fits, which is then taken in.
    fn admits(&mut self, r: &Record) -> bool
        requires { InRange r.now }
        ensures { Follows breaks Kept r.now self.old result self.new };
}

// Whether y, an earlier record, takes the turn of x or a later one of the same thread.
fn clash(x: &Record, y: &Record) -> bool
    ensures { result ≡ clashes x.now y.now }
{
    y.is_capital() && (x.turn == y.turn || x.thread == y.thread && x.turn < y.turn)
}

fn count_capitals(records: &[Record]) -> usize
    ensures { result ≡ capitals records.now }
{
    records.iter().filter(|r| r.is_capital()).count()
}

// Left at the first record that breaks the rule: a capital whose turn is above the number of capitals, or is taken by an
// earlier record, or is below one that its thread has had.
fn first_mistimed(records: &[Record]) -> Option<usize>
    ensures { result ≡ along_list mistimed records.now }
{
    let capitals = count_capitals(records);
    let mut broken = None;
    'records: for (k, x) in records.iter().enumerate() {
        if !x.is_capital() {
            continue;
        }
        if x.turn as usize > capitals {
            broken = Some(k);
            break 'records;
        }
        for y in &records[..k] {
            if clash(x, y) {
                broken = Some(k);
                break 'records;
            }
        }
    }
    broken
}

impl<'a> Turns<'a> {
    // 15
    pub(crate) fn check(formed: WellFormed<'a>) -> Result<Turns<'a>, FormFault>
        ensures verdict { refusal_in result ≡ refuse 15 (along_list mistimed formed.entry.records.now) None }
        ensures kept { IfOk result (λ t. t.formed.records.now ≡ formed.entry.records.now) }
    {
        if let Some(k) = first_mistimed(formed.records) {
            return Err(FormFault::Turn(k));
        }
        let mut takers = [0u8; 256];
        for (k, r) in formed.records.iter().enumerate() {
            if r.is_capital() {
                takers[r.turn as usize - 1] = k as u8;
            }
        }
        let count = count_capitals(formed.records);
        Ok(Turns {
            formed,
            takers,
            count,
        })
    }

    // The record of the first turn that breaks a rule.
    pub(crate) fn first_break<R: TurnRule>(&self) -> Option<usize>
        ensures { result ≡ along_turns R.breaks self.now.formed.records.now }
    {
        let mut rule = R::new();
        for k in &self.takers[..self.count] {
            let k = usize::from(*k);
            if !rule.admits(&self.formed.records[k]) {
                return Some(k);
            }
        }
        None
    }
}
