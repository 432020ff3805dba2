// The smallest kind that is of any use: an item A for each record of the case. It allows every case.
ghost use Rattle.std.specs.Prelude.{ℕ, ◌+◌, ◌-◌, length, replicate};
ghost use Rattle.docket_users.specs.Tallies.{tally, tally_number, tally_step};
ghost use Rattle.std.proofs.Common.{arith, eq-eqb, rules};
ghost use Rattle.case.specs.Cases.{records_of};
ghost use Rattle.docket_users.specs.TallyEvidenceLemmas.{item_a, all-taken, falls, few};
ghost use Rattle.machines.proofs.Feeds.{bounded};

use case::checked::CheckedCase;
use kinds::Evidence;
use machines::faults::ItemFault;
use records::Item;
use thiserror::Error;

#[derive(Drop)]
pub struct Tally {
    pub count: usize,
}

#[derive(Clone, Copy, Debug, PartialEq, Error)]
pub enum TallyFault {
    #[error("this is no item of a tally: A")]
    NotOfTally,
    #[error("there is an item for each record already")]
    NoneLeft,
}

impl ItemFault for TallyFault {
    ghost number = { tally_number };

    fn number(&self) -> u8 {
        match self {
            TallyFault::NotOfTally => 20,
            TallyFault::NoneLeft => 21,
        }
    }
}

impl Evidence for Tally {
    type Fault = TallyFault;

    ghost State = { ℕ };

    ghost state = { λ _ t. t.count };

    ghost allows = { λ _. Unit {0} };

    ghost machine = { tally };

    ghost sound = { Prim.search rules };

    ghost full = { λ k u.
        let n = length (records_of k) in
        ∣ (replicate n item_a, rw (all-taken n n 0 (omega arith)) (eq-eqb (0 + n) n (omega arith))) ∣₁ };

    ghost short = { λ k l s e.
        let n = length (records_of k) in
        omega (arith, few k, bounded (tally_step n) (λ _. Unit {0}) (λ u. n - u) (λ r u i _ q. (tt, falls n r u i q)) l 0 s tt e) };

    fn begin(&mut self, _case: &CheckedCase) {
        self.count = 0;
    }

    fn put(&mut self, case: &CheckedCase, item: Item) -> Result<(), TallyFault> {
        if item.letter != b'A' {
            return Err(TallyFault::NotOfTally);
        }
        if self.count >= case.records().len() {
            return Err(TallyFault::NoneLeft);
        }
        self.count += 1;
        Ok(())
    }

    fn finished(&self, case: &CheckedCase) -> bool {
        self.count == case.records().len()
    }
}
