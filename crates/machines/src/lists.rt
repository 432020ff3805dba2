// The certificate checker's table: each thread's moved list, as places in program order, and how many of it have come.
ghost use Rattle.std.specs.Prelude.{◌≡◌, ◌≤◌, length};

use crate::memory::Memory;

// A fixed table, with how many of it have come: there is no heap where this runs.
#[derive(Clone, Copy)]
pub struct MovedList {
    pub(crate) next: u8,
    pub(crate) places: [u8; 64],
    ghost within: { next ≤ 64 },
    ghost full: { length places ≡ 64 },
}

// Moves and then one order of all actions: the moved lists, memory as the actions that came leave it, and whether the
// order has begun. That is a flag and no type for each phase, since an item that comes at run time ends the first phase.
#[derive(Clone, Copy)]
pub struct Certificate {
    pub(crate) lists: [MovedList; 8],
    pub(crate) memory: Memory,
    pub(crate) begun: bool,
}
