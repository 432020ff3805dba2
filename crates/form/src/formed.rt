// 12: the fields of a record as its letter says.
ghost use Rattle.std.specs.Prelude.{◌≡◌, ◌<◌, length, None, IfOk};
ghost use Rattle.records.specs.First.{Clear};
ghost use Rattle.records.specs.Refusals.{refuse};
ghost use Rattle.form.specs.Form.{along_list, refusal_in};
ghost use Rattle.form.specs.Layouts.{starts_of};
ghost use Rattle.form.specs.Rules.{misplaced, limit, turn_fits, well_formed, malformed};

use crate::fault::FormFault;
use crate::grouping::Grouped;
use crate::threads::Layout;
use records::Record;

// Records that keep rules 11 and 12, with where their threads start.
#[derive(Clone, Copy)]
pub(crate) struct WellFormed<'a> {
    pub(crate) records: &'a [Record],
    pub(crate) layout: Layout,
    ghost grouped: { Clear (misplaced records.now) (length records.now) },
    ghost formed: { Clear (malformed records.now) (length records.now) },
    ghost laid: { layout.starts ≡ starts_of records.now },
}

fn target_limit(letter: char) -> Option<u8>
    ensures { result ≡ limit letter }
{
    match letter {
        'r' | 'w' | 'R' | 'W' => Some(63),
        'L' | 'U' => Some(15),
        'S' | 'J' => Some(7),
        'B' | 'E' => Some(0),
        _ => None,
    }
}

fn turn_fits(r: &Record) -> bool
    ensures { result ≡ turn_fits r.now }
{
    if r.is_capital() {
        (1..=256).contains(&r.turn)
    } else {
        r.turn == 0
    }
}

fn well_formed(r: &Record) -> bool
    ensures { result ≡ well_formed r.now }
{
    target_limit(r.letter).is_some_and(|most| r.target <= most)
        && (r.is_write() || r.value == 0)
        && (r.is_read() || r.seen == 0)
        && turn_fits(r)
}

fn first_malformed(records: &[Record]) -> Option<usize>
    ensures { result ≡ along_list malformed records.now }
{
    records.iter().position(|r| !well_formed(r))
}

impl<'a> WellFormed<'a> {
    // 12
    pub(crate) fn check(grouped: Grouped<'a>) -> Result<WellFormed<'a>, FormFault>
        ensures verdict { refusal_in result ≡ refuse 12 (along_list malformed grouped.entry.records.now) None }
        ensures kept { IfOk result (λ w. w.records.now ≡ grouped.entry.records.now) }
    {
        if let Some(k) = first_malformed(grouped.records) {
            return Err(FormFault::Field(k));
        }
        Ok(WellFormed {
            records: grouped.records,
            layout: grouped.layout(),
        })
    }
}
