// A thread's row of the run checker: its waiting writes as a window of a table. Any table of 64 can have such a window.
ghost use Rattle.std.specs.Prelude.{◌<◌, ◌≤◌};

use crate::memory::Memory;

// How far a thread is, and which part of its table of 64 is in use.
//
// What joins goes to the window's end and what drains leaves its front, so that nothing is ever shifted: a thread has at
// most 64 actions, and each of them joins at most once after a begin.
#[derive(Clone, Copy)]
pub struct Window {
    pub next: u8,
    pub from: u8,
    pub upto: u8,
    ghost ordered: { from ≤ upto },
    ghost behind: { upto ≤ next },
    ghost within: { next ≤ 64 },
}

// A plain write that has not drained yet, by its place in its thread.
#[derive(Clone, Copy)]
pub struct PendingWrite {
    pub(crate) place: u8,
    pub(crate) location: u8,
    ghost small: { location < 64 },
}

// A fixed table with its window beside it: there is no heap where this runs, and a checker is copied as one value.
#[derive(Clone, Copy)]
pub struct Row {
    pub(crate) window: Window,
    pub(crate) writes: [PendingWrite; 64],
}

// The store-buffer machine of eight threads: their rows, and memory.
#[derive(Clone, Copy)]
pub struct Run {
    pub(crate) rows: [Row; 8],
    pub(crate) memory: Memory,
}
