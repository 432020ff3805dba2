// 11: records grouped by thread, at most 64 of each, and where each thread then starts.
ghost use Rattle.std.specs.Prelude.{◌≡◌, ℕ, ◌<◌, ◌||◌, length, None, IfOk, nat_le, slice_index};
ghost use Rattle.records.specs.First.{Clear};
ghost use Rattle.records.specs.Names.{of_thread};
ghost use Rattle.records.specs.Refusals.{refuse};
ghost use Rattle.form.specs.Form.{along_list, refusal_in};
ghost use Rattle.form.specs.Layouts.{starts_of};
ghost use Rattle.form.specs.Rules.{stray as is_stray, misplaced};

use crate::fault::FormFault;
use crate::threads::Layout;
use records::Record;

// Records that keep rule 11, with how many each thread has.
#[derive(Clone, Copy)]
pub(crate) struct Grouped<'a> {
    pub(crate) records: &'a [Record],
    counts: [u16; 8],
    ghost grouped: { Clear (misplaced records.now) (length records.now) },
    ghost counted: { (t : ℕ) → t < 8 → slice_index counts t ≡ length (of_thread t records.now) },
}

fn stray(k: usize, thread: u8, last: u8) -> bool
    ensures { result ≡ is_stray k thread last }
{
    k >= 256 || thread > 7 || thread < last
}

// Whether a record is stray, or the 65th of its thread.
fn misplaces(k: usize, thread: u8, last: u8, counts: &[u16; 8]) -> bool
    ensures { result ≡ (is_stray k thread last || nat_le 64 (slice_index counts.now thread)) }
{
    stray(k, thread, last) || counts[thread as usize] >= 64
}

impl<'a> Grouped<'a> {
    // 11
    pub(crate) fn check(records: &'a [Record]) -> Result<Grouped<'a>, FormFault>
        ensures verdict { refusal_in result ≡ refuse 11 (along_list misplaced records.now) None }
        ensures kept { IfOk result (λ g. g.records.now ≡ records.now) }
    {
        let mut counts = [0u16; 8];
        let mut last = 0;
        for (k, r) in records.iter().enumerate() {
            if misplaces(k, r.thread, last, &counts) {
                return Err(FormFault::Grouping(k));
            }
            counts[r.thread as usize] += 1;
            last = r.thread;
        }
        Ok(Grouped { records, counts })
    }

    // Each thread starts where the one before it ends.
    pub(crate) fn layout(&self) -> Layout
        ensures { result.starts ≡ starts_of self.now.records.now }
    {
        let mut starts = [0u16; 9];
        for (t, count) in self.counts.iter().enumerate() {
            starts[t + 1] = starts[t] + count;
        }
        Layout { starts }
    }
}
