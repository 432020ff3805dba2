// Where each thread's records stand in a list that is grouped by thread.
ghost use Rattle.std.specs.Prelude.{◌≡◌, ◌<◌, ◌^◌};
ghost use Rattle.form.specs.Layouts.{from, upto, slot as slot_at, slot_named};

use std::ops::Range;

// The index at which each thread starts; the last entry is where thread 7 ends.
#[derive(Clone, Copy)]
pub struct Layout {
    pub starts: [u16; 9],
}

impl Layout {
    // The indices of a thread's records; none of a thread above 7.
    pub fn range(&self, thread: u8) -> Range<usize>
        ensures start { result.start ≡ from self.now.starts thread }
        ensures end { result.end ≡ upto self.now.starts thread }
        ensures small { result.start < 2 ^ 16 }
    {
        if thread > 7 {
            return 0..0;
        }
        let t = thread as usize;
        self.starts[t] as usize..self.starts[t + 1] as usize
    }

    // The index of the record at a place of a thread, if the thread is so long.
    pub fn slot(&self, thread: u8, place: u8) -> Option<usize>
        ensures { result ≡ slot_at self.now.starts thread place }
    {
        let range = self.range(thread);
        let at = range.start + place as usize;
        (at < range.end).then_some(at)
    }

    // The index of the record that has a name.
    pub fn find(&self, name: u16) -> Option<usize>
        ensures { result ≡ slot_named self.now.starts name }
    {
        self.slot(u8::try_from(name / 64).ok()?, (name % 64) as u8)
    }
}
