// What a kind of evidence is: the only thing that a docket knows of the checker it is given.
//
// A kind says which cases its model allows, and gives for each case in form a machine: a fresh state, a step that takes
// an item or refuses it by a number, and which states are complete (`Machine` of the crate machines). A checker is a
// value that holds one state of that machine. Its state is read relative to a case, since a checker may keep no more
// than places in the case's threads.
//
// Every kind owes three duties, the laws below: complete evidence is given only for cases that its model allows, every
// case that the model allows has some, and no case takes more than 8,192 items. What is proved of dockets follows from
// the laws and the three calls alone, so it holds of every kind that comes later. Whoever writes one gives the type of its
// faults (an `ItemFault`: a number and words), the four ghost members, the three calls and the laws, and changes nothing here;
// `bounded` of crates/machines/proofs/Feeds is what `short` mostly wants.
#![tactic(auto)]

ghost use Rattle.std.specs.Prelude.{◌≡◌, ◌≤◌, true, List, length, Ok, OnErr};
ghost use Rattle.records.specs.declared.Item.{Item};
ghost use Rattle.case.specs.declared.checked.CheckedCase.{CheckedCase};
ghost use Rattle.machines.specs.Faults.{told};
ghost use Rattle.machines.specs.Machine.{Machine, reached, completes, answer, moved};

pub mod buffered;

use case::checked::CheckedCase;
use machines::faults::ItemFault;
use records::Item;

pub trait Evidence {
    // why an item is refused
    type Fault: ItemFault;

    // the states of the kind's machines
    ghost State: { Type 0 };

    // the state that a checker holds, read for a case
    ghost state: { CheckedCase → Self → State };

    // the model: which cases it allows
    ghost allows: { CheckedCase → Type 0 };

    // what it takes to check evidence for a case
    ghost machine: { CheckedCase → Machine State };

    // From any state, the fresh one.
    fn begin(&mut self, case: &CheckedCase)
        ensures fresh { state case.now self.new ≡ (machine case.now).fresh };

    // Takes the item, or answers why not and stays exactly as it was.
    fn put(&mut self, case: &CheckedCase, item: Item) -> Result<(), Self::Fault>
        ensures answer { told Self.Fault.number result ≡ answer ((machine case.now).step (state case.now self.old) item) }
        ensures after { state case.now self.new ≡ moved (state case.now self.old) ((machine case.now).step (state case.now self.old) item) }
        ensures kept { OnErr result (self.new ≡ self.old) };

    // Whether the state is complete.
    fn finished(&self, case: &CheckedCase) -> bool
        ensures complete { result ≡ (machine case.now).complete (state case.now self.now) };

    // a case with complete evidence is allowed
    ghost sound: { (k : CheckedCase) (l : List Item) → completes (machine k) l ≡ true → allows k };

    // an allowed case has complete evidence
    ghost full: { (k : CheckedCase) → allows k → ∥ ((l : List Item) × (completes (machine k) l ≡ true)) ∥₁ };

    // few items are taken, whichever are put
    ghost short: { (k : CheckedCase) (l : List Item) (s : State) → reached (machine k) l ≡ Ok s → length l ≤ 8192 };
}
