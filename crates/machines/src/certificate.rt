// The certificate checker: moves in the threads' lists, and then one order of all actions, one item at a time.
//
// Lists are indexed behind a test of the thread: once a borrow by `get_mut` is over, a proof knows nothing of the lists.
ghost use Rattle.std.specs.Prelude.{◌≡◌, ◌-◌, ◌<◌, ◌≤◌, map, length, IfSome, OnErr};
ghost use Rattle.records.specs.Actions.{Located};
ghost use Rattle.records.specs.Names.{thread as thread_of};
ghost use Rattle.case.specs.Cases.{threads};
ghost use Rattle.case.specs.declared.checked.CheckedCase.{CheckedCase};
ghost use Rattle.machines.specs.declared.items.CertificateItem.TheVariants.{Move, Come};
ghost use Rattle.machines.specs.Certificate.{move_at, certifies, fresh_order, certificate_step, certificate_machine};
ghost use Rattle.machines.specs.Faults.{told, certificate_number};
ghost use Rattle.machines.specs.Lists.{action_at, left_of, head_of, order_state};
ghost use Rattle.machines.specs.Machine.{answer, moved};
ghost use Rattle.machines.specs.Moves.{saw, reads_other, shift};

use crate::faults::CertificateFault;
use crate::items::CertificateItem;
use crate::lists::{Certificate, MovedList};
use crate::memory::Memory;
use case::checked::CheckedCase;
use records::Item;
use records::action::{Action, SyncOp};

// The action at a place of a thread; past its end, which only a checker begun for another case asks for, one that
// never comes.
fn action_at(case: &CheckedCase, thread: u8, place: u8) -> Action
    ensures value { result ≡ action_at (thread_of (threads case.now) thread) place }
    ensures located { Located result }
{
    case.action(thread, place).unwrap_or(Action::Sync {
        name: 0,
        turn: 0,
        op: SyncOp::End,
    })
}

// Whether an action is a read of the location that saw the write of this name.
fn carried(action: Action, name: u16, location: u8) -> bool
    ensures { result ≡ saw name location action }
{
    matches!(action, Action::Read { location: x, seen, .. } if seen == name && x == location)
}

// Whether an action is a read of another location.
fn other_read(action: Action, location: u8) -> bool
    ensures { result ≡ reads_other location action }
{
    matches!(action, Action::Read { location: x, .. } if x != location)
}

// Refuses unless the action at the last of these places of a thread may come before the first: a read that passes a
// write and the reads that the write carries.
fn passes(case: &CheckedCase, thread: u8, places: &[u8]) -> Result<(), CertificateFault>
    requires { 2 ≤ length places.now }
    ensures { told certificate_number result ≡ answer (move_at 0 (length places.now - 2) (map (action_at (thread_of (threads case.now) thread)) places.now)) }
{
    let Action::Write { name, location } = action_at(case, thread, places[0]) else {
        return Err(CertificateFault::NoWrite);
    };
    let last = places.len() - 1;
    for place in &places[1..last] {
        if !carried(action_at(case, thread, *place), name, location) {
            return Err(CertificateFault::NotCarried);
        }
    }
    if !other_read(action_at(case, thread, places[last]), location) {
        return Err(CertificateFault::CannotPass);
    }
    Ok(())
}

impl MovedList {
    // The action of this thread that comes next, if one is left.
    fn upcoming(&self, case: &CheckedCase, thread: u8) -> Option<Action>
        ensures value { result ≡ head_of (left_of (thread_of (threads case.now) thread) self.now.next self.now.places) }
        ensures located { IfSome result Located }
    {
        if self.next as usize >= case.thread(thread).len() {
            return None;
        }
        Some(action_at(case, thread, self.places[self.next as usize]))
    }

    // The place at `last` comes before those from `at` on.
    fn advance(&mut self, at: usize, last: usize)
        requires ordered { at < last }
        requires within { last < 64 }
        ensures next { self.new.next ≡ self.old.next }
        ensures places { self.new.places ≡ shift at (last - at - 1) self.old.places }
    {
        self.places[at..last + 1].rotate_right(1);
    }
}

impl Certificate {
    // A checker with nothing moved and nothing come, for any case.
    pub fn new() -> Certificate
        ensures { (k : CheckedCase) → order_state (threads k) result ≡ fresh_order (threads k) }
    {
        let mut places = [0u8; 64];
        for (at, place) in places.iter_mut().enumerate() {
            *place = at as u8;
        }
        Certificate {
            lists: [MovedList { next: 0, places }; 8],
            memory: Memory::fresh(),
            begun: false,
        }
    }

    // Starts anew for a case: program order, nothing come.
    pub fn begin(&mut self, case: &CheckedCase)
        ensures { order_state (threads case.now) self.new ≡ fresh_order (threads case.now) }
    {
        *self = Certificate::new();
    }

    // M: the read behind a write and the reads that it carries comes before that write.
    fn move_read(
        &mut self,
        case: &CheckedCase,
        thread: u8,
        place: u8,
        count: u8,
    ) -> Result<(), CertificateFault>
        ensures answer { told certificate_number result ≡ answer (certifies (order_state (threads case.now) self.old) (Move thread place count)) }
        ensures after { order_state (threads case.now) self.new ≡ moved (order_state (threads case.now) self.old) (certifies (order_state (threads case.now) self.old) (Move thread place count)) }
        ensures kept { OnErr result (self.new ≡ self.old) }
    {
        if self.begun {
            return Err(CertificateFault::MoveInOrder);
        }
        if thread as usize >= self.lists.len() {
            return Err(CertificateFault::PastTheEnd);
        }
        let list = &mut self.lists[thread as usize];
        let at = list.next as usize + place as usize;
        let last = at + count as usize + 1;
        if last >= case.thread(thread).len() {
            return Err(CertificateFault::PastTheEnd);
        }
        passes(case, thread, &list.places[at..last + 1])?;
        list.advance(at, last);
        Ok(())
    }

    // O: the thread's next action comes next.
    fn come(&mut self, case: &CheckedCase, thread: u8) -> Result<(), CertificateFault>
        ensures answer { told certificate_number result ≡ answer (certifies (order_state (threads case.now) self.old) (Come thread)) }
        ensures after { order_state (threads case.now) self.new ≡ moved (order_state (threads case.now) self.old) (certifies (order_state (threads case.now) self.old) (Come thread)) }
        ensures kept { OnErr result (self.new ≡ self.old) }
    {
        if thread as usize >= self.lists.len() {
            return Err(CertificateFault::NoneLeft);
        }
        let list = &mut self.lists[thread as usize];
        let action = list
            .upcoming(case, thread)
            .ok_or(CertificateFault::NoneLeft)?;
        self.memory.come(action)?;
        list.next += 1;
        self.begun = true;
        Ok(())
    }

    // Takes an item, or says why not and stays as it is.
    pub fn put(&mut self, case: &CheckedCase, item: Item) -> Result<(), CertificateFault>
        ensures answer { told certificate_number result ≡ answer (certificate_step (order_state (threads case.now) self.old) item) }
        ensures after { order_state (threads case.now) self.new ≡ moved (order_state (threads case.now) self.old) (certificate_step (order_state (threads case.now) self.old) item) }
        ensures kept { OnErr result (self.new ≡ self.old) }
    {
        match CertificateItem::try_from(item)? {
            CertificateItem::Move {
                thread,
                place,
                count,
            } => self.move_read(case, thread, place, count),
            CertificateItem::Come(thread) => self.come(case, thread),
        }
    }

    // The action of a thread that comes with its next O: the first of what is left of its moved list.
    pub fn upcoming(&self, case: &CheckedCase, thread: u8) -> Option<Action>
        ensures next { result ≡ head_of ((order_state (threads case.now) self.now).left thread) }
    {
        self.lists.get(thread as usize)?.upcoming(case, thread)
    }

    // Whether every action has come.
    pub fn finished(&self, case: &CheckedCase) -> bool
        ensures { result ≡ (certificate_machine (threads case.now)).complete (order_state (threads case.now) self.now) }
    {
        let mut lists = self.lists.iter().zip(0..8u8);
        lists.all(|(list, thread)| list.next as usize >= case.thread(thread).len())
    }
}
