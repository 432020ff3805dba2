// What a record's letter makes of it.
ghost use Rattle.std.specs.Prelude.{◌≡◌};
ghost use Rattle.records.specs.Actions.{action_of, name_of};

use crate::Record;

// What a synchronization action does. Only the first two touch memory.
#[derive(Clone, Copy, Debug, PartialEq)]
pub enum SyncOp {
    VolatileRead { location: u8, seen: u16 },
    VolatileWrite { location: u8 },
    Lock { monitor: u8 },
    Unlock { monitor: u8 },
    Spawn { thread: u8 },
    Join { thread: u8 },
    Begin,
    End,
}

// An action under its name: a plain read, a plain write, or a synchronization action with its turn.
#[derive(Clone, Copy, Debug, PartialEq)]
pub enum Action {
    Read { name: u16, location: u8, seen: u16 },
    Write { name: u16, location: u8 },
    Sync { name: u16, turn: u16, op: SyncOp },
}

impl Record {
    // The action of this record under a name, or none where the letter is no letter of a case.
    pub fn action(&self, name: u16) -> Option<Action>
        ensures { result ≡ action_of name self.now }
    {
        let op = match self.letter {
            'r' => return Some(Action::Read {
                name,
                location: self.target,
                seen: self.seen,
            }),
            'w' => return Some(Action::Write {
                name,
                location: self.target,
            }),
            'R' => SyncOp::VolatileRead {
                location: self.target,
                seen: self.seen,
            },
            'W' => SyncOp::VolatileWrite {
                location: self.target,
            },
            'L' => SyncOp::Lock {
                monitor: self.target,
            },
            'U' => SyncOp::Unlock {
                monitor: self.target,
            },
            'S' => SyncOp::Spawn {
                thread: self.target,
            },
            'J' => SyncOp::Join {
                thread: self.target,
            },
            'B' => SyncOp::Begin,
            'E' => SyncOp::End,
            _ => return None,
        };
        Some(Action::Sync {
            name,
            turn: self.turn,
            op,
        })
    }
}

impl Action {
    pub fn name(&self) -> u16
        ensures { result ≡ name_of self.now }
    {
        match *self {
            Action::Read { name, .. } | Action::Write { name, .. } | Action::Sync { name, .. } =>
                name,
        }
    }
}
