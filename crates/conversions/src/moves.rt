// The moves of a certificate, thread by thread.
//
// A thread's number goes beside its row and not into it: else each method would have to say that the number stays.
ghost use Rattle.std.specs.Prelude.{◌≡◌, ◌≤◌};
ghost use Rattle.std.specs.List.{slice_get};
ghost use Rattle.records.specs.Names.{thread as thread_of};
ghost use Rattle.machines.specs.Items.{run_item};
ghost use Rattle.case.specs.Cases.{threads};
ghost use Rattle.conversions.specs.Hosts.{width};
ghost use Rattle.conversions.specs.Along.{start, moves_before, moves_next, step_own, step_moves, moves_along, moves_from};
ghost use Rattle.conversions.specs.Rows.{own_of};
ghost use Rattle.conversions.specs.Sheets.{Adds, Room};

use crate::hosts;
use crate::hosts::Host;
use crate::rows::Row;
use crate::sheet::Sheet;
use case::checked::CheckedCase;
use machines::items::{CertificateItem, RunItem};
use records::Item;
use records::action::Action;

// A read at a place passes these hosts, which are the newest of its thread: one move each, the newest first.
fn pass(thread: u8, place: u8, passed: &[Host], sheet: &mut Sheet)
    requires before { width passed.now ≤ place }
    requires room { Room (moves_before thread place passed.now) sheet.old }
    ensures list { Adds (moves_before thread place passed.now) sheet.old sheet.new }
{
    let mut before = place;
    for host in passed.iter().rev() {
        before -= host.joined + 1;
        sheet.push(Item::from(CertificateItem::Move {
            thread,
            place: before,
            count: host.joined,
        }));
    }
}

// The moves of the thread's next action, if it has one: a read passes the hosts that are newer than the one it stays at.
#[tactic(auto, using(crate::proofs::Staying::staying))]
fn moves_of_next(case: &CheckedCase, thread: u8, row: &Row, sheet: &mut Sheet)
    requires room { Room (moves_next thread (slice_get (thread_of (threads case.now) thread) row.now.window.next) (own_of row.now)) sheet.old }
    ensures list { Adds (moves_next thread (slice_get (thread_of (threads case.now) thread) row.now.window.next) (own_of row.now)) sheet.old sheet.new }
{
    if let Some(Action::Read { location, .. }) = case.action(thread, row.window.next) {
        let waiting = row.waiting();
        let stay = hosts::stay_at(waiting, location);
        pass(thread, row.window.next, &waiting[stay..], sheet);
    }
}

// The moves that an item adds to those of a thread.
fn moves_of_item(case: &CheckedCase, item: Item, thread: u8, row: &mut Row, sheet: &mut Sheet)
    requires room { Room (step_moves (thread_of (threads case.now) thread) thread (run_item item) (own_of row.old)) sheet.old }
    ensures after { own_of row.new ≡ step_own (thread_of (threads case.now) thread) thread (run_item item) (own_of row.old) }
    ensures list { Adds (step_moves (thread_of (threads case.now) thread) thread (run_item item) (own_of row.old)) sheet.old sheet.new }
{
    match RunItem::try_from(item) {
        Ok(RunItem::Perform(performer)) if performer == thread => {
            moves_of_next(case, thread, row, sheet);
            row.perform_next(case, thread);
        }
        Ok(RunItem::Drain(drainer)) if drainer == thread => {
            row.leave();
        }
        _ => {}
    }
}

// The moves of a thread, in program order of the reads that pass.
fn moves_of_thread(case: &CheckedCase, run: &[Item], thread: u8, sheet: &mut Sheet)
    requires room { Room (moves_along (thread_of (threads case.now) thread) thread run.now start) sheet.old }
    ensures list { Adds (moves_along (thread_of (threads case.now) thread) thread run.now start) sheet.old sheet.new }
{
    let mut row = Row::fresh();
    for item in run {
        moves_of_item(case, *item, thread, &mut row, sheet);
    }
}

// The moves of all threads.
pub(crate) fn write_moves(case: &CheckedCase, run: &[Item], sheet: &mut Sheet)
    requires room { Room (moves_from (threads case.now) run.now 8 0) sheet.old }
    ensures list { Adds (moves_from (threads case.now) run.now 8 0) sheet.old sheet.new }
{
    for thread in 0..8u8 {
        moves_of_thread(case, run, thread, sheet);
    }
}
