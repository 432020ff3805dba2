// The order of a certificate: which thread's next action comes, one after the other.
//
// `perform` and `drain` are two functions and not one that takes a closure: each says what its own step makes of the rows.
ghost use Rattle.std.specs.Prelude.{◌≡◌};
ghost use Rattle.std.specs.List.{slice_get};
ghost use Rattle.records.specs.Names.{thread as thread_of};
ghost use Rattle.machines.specs.Items.{run_item};
ghost use Rattle.machines.specs.Memory.{upd};
ghost use Rattle.case.specs.Cases.{threads};
ghost use Rattle.conversions.specs.Hosts.{leaving};
ghost use Rattle.conversions.specs.Along.{start, performed_next, comes_next, drained, step_all, step_comes, flushed_from, order_along};
ghost use Rattle.conversions.specs.Rows.{owns};
ghost use Rattle.conversions.specs.Sheets.{Adds, Room};

use crate::rows::Row;
use crate::sheet::Sheet;
use case::checked::CheckedCase;
use machines::items::{CertificateItem, RunItem};
use records::Item;

// A thread performs its next action, if it has one. Answers how many actions come now.
fn perform(case: &CheckedCase, thread: u8, rows: &mut [Row; 8]) -> u8
    ensures value { result ≡ comes_next (slice_get (thread_of (threads case.now) thread) (owns rows.old thread).place) (owns rows.old thread) }
    ensures after { owns rows.new ≡ upd (owns rows.old) thread (performed_next (slice_get (thread_of (threads case.now) thread) (owns rows.old thread).place) (owns rows.old thread)) }
{
    if thread > 7 {
        return 0;
    }
    rows[thread as usize].perform_next(case, thread)
}

// A thread drains its oldest waiting write, if one waits. Answers how many actions come now.
fn drain(thread: u8, rows: &mut [Row; 8]) -> u8
    ensures value { result ≡ leaving (owns rows.old thread).hosts }
    ensures after { owns rows.new ≡ upd (owns rows.old) thread (drained (owns rows.old thread)) }
{
    if thread > 7 {
        return 0;
    }
    rows[thread as usize].leave()
}

// What comes at an item.
fn order_of_item(case: &CheckedCase, item: Item, rows: &mut [Row; 8], sheet: &mut Sheet)
    requires room { Room (step_comes (threads case.now) (run_item item) (owns rows.old)) sheet.old }
    ensures after { owns rows.new ≡ step_all (threads case.now) (run_item item) (owns rows.old) }
    ensures list { Adds (step_comes (threads case.now) (run_item item) (owns rows.old)) sheet.old sheet.new }
{
    let Ok(said) = RunItem::try_from(item) else {
        return;
    };
    let (thread, count) = match said {
        RunItem::Perform(thread) => (thread, perform(case, thread, rows)),
        RunItem::Drain(thread) => (thread, drain(thread, rows)),
    };
    sheet.repeat(
        Item::from(CertificateItem::Come(thread)),
        usize::from(count),
    );
}

// What still waits at the end comes last, thread by thread.
fn flush(rows: &[Row; 8], sheet: &mut Sheet)
    requires room { Room (flushed_from 8 0 (owns rows.now)) sheet.old }
    ensures list { Adds (flushed_from 8 0 (owns rows.now)) sheet.old sheet.new }
{
    for (thread, row) in rows.iter().enumerate() {
        sheet.repeat(Item::from(CertificateItem::Come(thread as u8)), row.width());
    }
}

// The order of all actions.
pub(crate) fn write_order(case: &CheckedCase, run: &[Item], sheet: &mut Sheet)
    requires room { Room (order_along (threads case.now) run.now (λ _. start)) sheet.old }
    ensures list { Adds (order_along (threads case.now) run.now (λ _. start)) sheet.old sheet.new }
{
    let mut rows = [Row::fresh(); 8];
    for item in run {
        order_of_item(case, *item, &mut rows, sheet);
    }
    flush(&rows, sheet);
}
