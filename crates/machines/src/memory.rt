// Memory, which both machines have: for each location the name of the write that it holds, and how many turns have passed.
ghost use Rattle.std.specs.Prelude.{◌≡◌, suc, ◌<◌, OnOk, OnErr};
ghost use Rattle.records.specs.Actions.{Located, LocatedOp};
ghost use Rattle.records.specs.Names.{default};
ghost use Rattle.machines.specs.Memory.{upd, held, stored, written, turned, in_step, in_order};

use crate::faults::Mismatch;
use records::action::{Action, SyncOp};
use records::names::default_write;

// A fixed table: there is no heap where this runs.
#[derive(Clone, Copy)]
pub struct Memory {
    pub(crate) writes: [u16; 64],
    pub(crate) turns: u16,
}

impl Memory {
    // Every location at its default write, and no turn passed.
    pub(crate) fn fresh() -> Memory
        ensures writes { held result.writes ≡ default }
        ensures turns { result.turns ≡ 0 }
    {
        let mut writes = [0u16; 64];
        for (location, write) in writes.iter_mut().enumerate() {
            *write = default_write(location as u8);
        }
        Memory { writes, turns: 0 }
    }

    // The name of the write that a location holds.
    pub(crate) fn held(&self, location: u8) -> u16
        requires { location < 64 }
        ensures { result ≡ held self.now.writes location }
    {
        self.writes[location as usize]
    }

    // A location holds the write of this name from now on.
    pub(crate) fn store(&mut self, location: u8, name: u16)
        requires { location < 64 }
        ensures writes { held self.new.writes ≡ upd (held self.old.writes) location name }
        ensures turns { self.new.turns ≡ self.old.turns }
    {
        self.writes[location as usize] = name;
    }

    // A synchronization action comes: its turn passes, and a volatile write is stored under its name.
    pub(crate) fn synchronize(&mut self, name: u16, turn: u16, op: SyncOp) -> Result<(), Mismatch>
        requires { LocatedOp op }
        ensures answer { result ≡ in_step turn op (held self.old.writes) self.old.turns }
        ensures writes { OnOk result (held self.new.writes ≡ stored name op (held self.old.writes)) }
        ensures turns { OnOk result (self.new.turns ≡ suc self.old.turns) }
        ensures kept { OnErr result (self.new ≡ self.old) }
    {
        if u32::from(turn) != u32::from(self.turns) + 1 {
            return Err(Mismatch::NotItsTurn);
        }
        match op {
            SyncOp::VolatileRead { location, seen } if self.held(location) != seen => {
                return Err(Mismatch::SawAnother);
            }
            SyncOp::VolatileWrite { location } => self.store(location, name),
            _ => {}
        }
        self.turns = turn;
        Ok(())
    }

    // An action comes with nothing between it and memory: a read saw what memory holds, a write is stored under its name.
    pub(crate) fn come(&mut self, action: Action) -> Result<(), Mismatch>
        requires { Located action }
        ensures answer { result ≡ in_order action (held self.old.writes) self.old.turns }
        ensures writes { OnOk result (held self.new.writes ≡ written action (held self.old.writes)) }
        ensures turns { OnOk result (self.new.turns ≡ turned action self.old.turns) }
        ensures kept { OnErr result (self.new ≡ self.old) }
    {
        match action {
            Action::Read { location, seen, .. } if self.held(location) != seen => Err(
                Mismatch::SawAnother,
            ),
            Action::Read { .. } => Ok(()),
            Action::Write { name, location } => {
                self.store(location, name);
                Ok(())
            }
            Action::Sync { name, turn, op } => self.synchronize(name, turn, op),
        }
    }
}
