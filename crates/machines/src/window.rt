// What a window does when its thread performs an action or drains. The table stands beside it, with entries of any kind.
//
// A thread has at most 64 actions. Once all are performed, one more changes nothing.
ghost use Rattle.std.specs.Prelude.{◌≡◌, ◌+◌, ◌<◌, ◌≤◌, [], ◌∷◌, ◌++◌, IfNone};
ghost use Rattle.machines.specs.Windows.{waiting, oldest, younger};

use crate::rows::Window;

impl Window {
    // Nothing performed, and nothing waiting.
    pub fn fresh() -> Window
        ensures next { result.next ≡ 0 }
        ensures waiting { result.upto ≡ 0 }
    {
        Window {
            next: 0,
            from: 0,
            upto: 0,
        }
    }

    // What waits, oldest first.
    pub fn waiting<'a, T>(&self, table: &'a [T; 64]) -> &'a [T]
        ensures { result.now ≡ waiting self.now table.now }
    {
        // As a slice first: of a part of an array of any element the checker makes no proof.
        let table: &[T] = table;
        &table[self.from as usize..self.upto as usize]
    }

    // The next action is performed, and nothing joins.
    pub fn pass(&mut self)
        ensures next { self.old.next < 64 → self.new.next ≡ self.old.next + 1 }
        ensures from { self.new.from ≡ self.old.from }
        ensures upto { self.new.upto ≡ self.old.upto }
        ensures past { 64 ≤ self.old.next → self.new ≡ self.old }
    {
        if self.next < 64 {
            self.next += 1;
        }
    }

    // The next action is performed, and what it leaves joins the others that wait.
    pub fn join<T: Copy>(&mut self, table: &mut [T; 64], entry: T)
        ensures next { self.old.next < 64 → self.new.next ≡ self.old.next + 1 }
        ensures waiting { self.old.next < 64 → waiting self.new table.new ≡ waiting self.old table.old ++ (entry ∷ []) }
        ensures past { 64 ≤ self.old.next → (self.new ≡ self.old) × (table.new ≡ table.old) }
    {
        if self.next == 64 {
            return;
        }
        table[self.upto as usize] = entry;
        self.pass();
        self.upto += 1;
    }

    // The oldest that waits leaves; where nothing waits the window stays as it is.
    pub fn leave<T: Copy>(&mut self, table: &[T; 64]) -> Option<T>
        ensures value { result ≡ oldest (waiting self.old table.now) }
        ensures next { self.new.next ≡ self.old.next }
        ensures waiting { waiting self.new table.now ≡ younger (waiting self.old table.now) }
        ensures kept { IfNone result (self.new ≡ self.old) }
    {
        if self.from == self.upto {
            return None;
        }
        let entry = table[self.from as usize];
        self.from += 1;
        Some(entry)
    }
}
