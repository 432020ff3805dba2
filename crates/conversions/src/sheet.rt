// The list that evidence is written into, from its front on.
ghost use Rattle.std.specs.Prelude.{◌≡◌, [], ◌∷◌, replicate};
ghost use Rattle.conversions.specs.Sheets.{Adds, Room};

use records::Item;

// The caller's list, and how many of its items are written.
#[derive(Drop)]
pub(crate) struct Sheet<'a> {
    items: &'a mut [Item],
    at: usize,
}

impl<'a> Sheet<'a> {
    // Nothing is written yet.
    pub(crate) fn new(items: &'a mut [Item]) -> Sheet<'a>
        ensures same { result.items.ghost_name ≡ items.entry.ghost_name }
        ensures items { result.items.now ≡ items.old }
        ensures at { result.at ≡ 0 }
    {
        Sheet { items, at: 0 }
    }

    // How many items are written.
    pub(crate) fn len(&self) -> usize
        ensures { result ≡ self.now.at }
    {
        self.at
    }

    // Writes one item more.
    #[tactic(auto, using(crate::proofs::Fronts::put_one))]
    pub(crate) fn push(&mut self, item: Item)
        requires room { Room (item ∷ []) self.old }
        ensures list { Adds (item ∷ []) self.old self.new }
    {
        self.items[self.at] = item;
        self.at += 1;
    }

    // Writes an item so often.
    pub(crate) fn repeat(&mut self, item: Item, count: usize)
        requires room { Room (replicate count item) self.old }
        ensures list { Adds (replicate count item) self.old self.new }
    {
        let end = self.at + count;
        self.items[self.at..end].fill(item);
        self.at = end;
    }
}
