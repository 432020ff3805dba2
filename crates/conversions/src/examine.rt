// Evidence as it came, put to its own kind's checker item by item before anything is written.
ghost use Rattle.std.specs.Prelude.{◌≡◌, true, OnOk};
ghost use Rattle.machines.specs.Machine.{completes};
ghost use Rattle.conversions.specs.Faults.{refusal_in, examined};

use crate::fault::ConversionFault;
use case::checked::CheckedCase;
use kinds::Evidence;
use records::Item;

// Refuses evidence that the checker refuses or that it does not find complete. The checker is made here and not by the
// caller, so that its table is gone before the converter makes its own.
pub(crate) fn examine<K: Evidence + Drop, F: FnOnce() -> K>(
    new: F,
    case: &CheckedCase,
    evidence: &[Item],
) -> Result<(), ConversionFault<K::Fault>>
    requires { F.IsAlwaysCallable new }
    ensures refusal { refusal_in K.Fault.number result ≡ examined (K.machine case.now) evidence.now }
    ensures complete { OnOk result (completes (K.machine case.now) evidence.now ≡ true) }
{
    let mut checker = new();
    checker.begin(case);
    for (place, item) in evidence.iter().enumerate() {
        checker
            .put(case, *item)
            .map_err(|fault| ConversionFault::Refused { fault, place })?;
    }
    if !checker.finished(case) {
        return Err(ConversionFault::Unfinished);
    }
    Ok(())
}
