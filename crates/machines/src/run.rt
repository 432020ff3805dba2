// The run checker: the store-buffer machine, one item at a time.
//
// Rows are indexed behind a test of the thread: once a borrow by `get_mut` is over, a proof knows nothing of the rows.
ghost use Rattle.std.specs.Prelude.{◌≡◌, ◌<◌, map, [], OnErr};
ghost use Rattle.records.specs.Names.{Case};
ghost use Rattle.case.specs.Cases.{threads};
ghost use Rattle.machines.specs.Faults.{told, run_number};
ghost use Rattle.machines.specs.Machine.{answer, moved};
ghost use Rattle.machines.specs.Memory.{held};
ghost use Rattle.machines.specs.Rows.{window, waits_of, run_state, newest_of};
ghost use Rattle.machines.specs.Run.{fresh_run, run_step, perform as performed, drain as drained, sees as seen, run_machine};

use crate::faults::RunFault;
use crate::items::RunItem;
use crate::memory::Memory;
use crate::rows::{PendingWrite, Row, Run, Window};
use case::checked::CheckedCase;
use records::Item;
use records::action::Action;
use records::names::named;

// The place of the newest of these writes to a location.
pub fn newest(waiting: &[PendingWrite], location: u8) -> Option<u8>
    ensures { result ≡ newest_of location waiting.now }
{
    let write = waiting
        .iter()
        .rev()
        .find(|write| write.location == location)?;
    Some(write.place)
}

impl Row {
    // Nothing performed, nothing waiting.
    fn fresh() -> Row
        ensures next { result.window.next ≡ 0 }
        ensures waiting { window result ≡ [] }
    {
        Row {
            window: Window::fresh(),
            writes: [PendingWrite {
                place: 0,
                location: 0,
            }; 64],
        }
    }

    fn waiting(&self) -> &[PendingWrite]
        ensures { result.now ≡ window self.now }
    {
        self.window.waiting(&self.writes)
    }

    // What a plain read of a location sees: the newest waiting write to it, or what memory holds.
    fn sees(&self, thread: u8, location: u8, memory: &Memory) -> u16
        requires { location < 64 }
        ensures { result ≡ seen location (map (waits_of thread) (window self.now)) (held memory.now.writes location) }
    {
        match newest(self.waiting(), location) {
            Some(place) => named(thread, place),
            None => memory.held(location),
        }
    }
}

impl Run {
    // A checker that is fresh for every case.
    pub fn new() -> Run
        ensures { (c : Case) → run_state c result ≡ fresh_run c }
    {
        Run {
            rows: [Row::fresh(); 8],
            memory: Memory::fresh(),
        }
    }

    // A: the thread performs its next action.
    fn perform(&mut self, case: &CheckedCase, thread: u8) -> Result<(), RunFault>
        ensures answer { told run_number result ≡ answer (performed thread (run_state (threads case.now) self.old) ((run_state (threads case.now) self.old).rest thread)) }
        ensures after { run_state (threads case.now) self.new ≡ moved (run_state (threads case.now) self.old) (performed thread (run_state (threads case.now) self.old) ((run_state (threads case.now) self.old).rest thread)) }
        ensures kept { OnErr result (self.new ≡ self.old) }
    {
        if thread as usize >= self.rows.len() {
            return Err(RunFault::NoAction);
        }
        let row = &mut self.rows[thread as usize];
        let place = row.window.next;
        let action = case.action(thread, place).ok_or(RunFault::NoAction)?;
        match action {
            Action::Read { location, seen, .. } => {
                if row.sees(thread, location, &self.memory) != seen {
                    return Err(RunFault::SawAnother);
                }
                row.window.pass();
            }
            Action::Write { location, .. } => row
                .window
                .join(&mut row.writes, PendingWrite { place, location }),
            Action::Sync { name, turn, op } => {
                if !row.waiting().is_empty() {
                    return Err(RunFault::WritesWait);
                }
                self.memory.synchronize(name, turn, op)?;
                row.window.pass();
            }
        }
        Ok(())
    }

    // D: the thread's oldest waiting write goes to memory.
    fn drain(&mut self, thread: u8) -> Result<(), RunFault>
        ensures answer { (c : Case) → told run_number result ≡ answer (drained thread (run_state c self.old) ((run_state c self.old).buffer thread)) }
        ensures after { (c : Case) → run_state c self.new ≡ moved (run_state c self.old) (drained thread (run_state c self.old) ((run_state c self.old).buffer thread)) }
        ensures kept { OnErr result (self.new ≡ self.old) }
    {
        if thread as usize >= self.rows.len() {
            return Err(RunFault::NothingWaits);
        }
        let row = &mut self.rows[thread as usize];
        let write = row.window.leave(&row.writes).ok_or(RunFault::NothingWaits)?;
        self.memory
            .store(write.location, named(thread, write.place));
        Ok(())
    }

    // Starts anew for a case.
    pub fn begin(&mut self, case: &CheckedCase)
        ensures { run_state (threads case.now) self.new ≡ fresh_run (threads case.now) }
    {
        *self = Run::new();
    }

    // Takes an item, or says why not and stays as it is.
    pub fn put(&mut self, case: &CheckedCase, item: Item) -> Result<(), RunFault>
        ensures answer { told run_number result ≡ answer (run_step (run_state (threads case.now) self.old) item) }
        ensures after { run_state (threads case.now) self.new ≡ moved (run_state (threads case.now) self.old) (run_step (run_state (threads case.now) self.old) item) }
        ensures kept { OnErr result (self.new ≡ self.old) }
    {
        match RunItem::try_from(item)? {
            RunItem::Perform(thread) => self.perform(case, thread),
            RunItem::Drain(thread) => self.drain(thread),
        }
    }

    // Whether every action is performed; writes may still wait.
    pub fn finished(&self, case: &CheckedCase) -> bool
        ensures { result ≡ (run_machine (threads case.now)).complete (run_state (threads case.now) self.now) }
    {
        let mut rows = self.rows.iter().zip(0..8u8);
        rows.all(|(row, thread)| row.window.next as usize >= case.thread(thread).len())
    }
}
