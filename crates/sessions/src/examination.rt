// One examination from its opening to its end.
//
// The ticket goes back on every way: a ticket that was not admitted would come back from `settle`, and there would be
// nothing to do with it, so the loop keeps that it is admitted.
ghost use Rattle.std.specs.Prelude.{◌≡◌, false};
ghost use Rattle.docket.specs.Standing.{vacant};
ghost use Rattle.sessions.specs.Examinations.{Examines, examine_says};

use docket::fault::DocketFault;
use docket::{Docket, Verdict};
use kinds::Evidence;
use records::Item;

// The verdict on these items, or the first refusal: the examination is then withdrawn. A docket that cannot open one is
// left as it was.
pub fn examine<K: Evidence>(
    docket: &mut Docket<K>,
    items: &[Item],
) -> Result<Verdict, DocketFault<K::Fault>>
    ensures examines { Examines K.Evidence docket.old items.now (examine_says K.Fault.number result) docket.new }
    ensures kept { vacant docket.old ≡ false → docket.new ≡ docket.old }
{
    let ticket = docket.open()?;
    for item in items {
        if let Err(fault) = docket.offer(&ticket, *item) {
            docket.withdraw(ticket).unwrap();
            return Err(fault);
        }
    }
    Ok(docket.settle(ticket).unwrap())
}
