// From a run to a certificate: the moves thread by thread, and then one order of all actions.
ghost use Rattle.std.specs.Prelude.{◌≡◌, ◌≤◌, true, length, IfOk, MatchResult, OnOk};
ghost use Rattle.case.specs.Cases.{records_of, threads};
ghost use Rattle.machines.specs.Certificate.{certificate_machine};
ghost use Rattle.machines.specs.Faults.{run_number};
ghost use Rattle.machines.specs.Machine.{completes};
ghost use Rattle.machines.specs.Run.{run_machine};
ghost use Rattle.agreement.specs.Convert.{move_count};
ghost use Rattle.agreement.specs.Evidence.{certificate_items, written};
ghost use Rattle.conversions.specs.Counts.{Counted};
ghost use Rattle.conversions.specs.Faults.{refusal_in, conversion_refusal};
ghost use Rattle.conversions.specs.Fronts.{put};

use crate::examine::examine;
use crate::fault::ConversionFault;
use crate::sheet::Sheet;
use crate::{moves, order};
use case::checked::CheckedCase;
use machines::faults::RunFault;
use machines::rows::Run;
use records::Item;

// How many items were written, and how many of them are moves.
#[derive(Clone, Copy, Debug, PartialEq)]
pub struct Written {
    pub items: u16,
    pub moves: u16,
}

// Writes the certificate of a complete run at the front of a list that has room for any.
pub(crate) fn write_certificate(case: &CheckedCase, run: &[Item], out: &mut [Item]) -> Written
    requires complete { completes (run_machine (threads case.now)) run.now ≡ true }
    requires room { 4352 ≤ length out.old }
    ensures list { out.new ≡ put 0 (written (threads case.now) run.now) out.old }
    ensures items { result.items ≡ length (written (threads case.now) run.now) }
    ensures moves { result.moves ≡ move_count (certificate_items (written (threads case.now) run.now)) }
{
    let mut sheet = Sheet::new(out);
    moves::write_moves(case, run, &mut sheet);
    let moves = sheet.len();
    order::write_order(case, run, &mut sheet);
    let items = sheet.len();
    Written {
        items: items as u16,
        moves: moves as u16,
    }
}

// As many items as a certificate can have.
const ROOM: usize = 4352;

// Writes the certificate that a complete run converts to at the front of the list, and answers how many items and moves it
// has; a run that is not complete is refused, and so is a list without room for every certificate: it then stays as it is.
pub fn to_certificate(
    case: &CheckedCase,
    run: &[Item],
    out: &mut [Item],
) -> Result<Written, ConversionFault<RunFault>>
    ensures refusal { refusal_in run_number result ≡ conversion_refusal (run_machine (threads case.now)) 4352 (length out.old) run.now }
    ensures list { MatchResult result (λ _. out.new ≡ put 0 (written (threads case.now) run.now) out.old) (λ _. out.new ≡ out.old) }
    ensures size { length out.new ≡ length out.old }
    ensures counts { IfOk result (λ n. Counted (threads case.now) run.now (length (records_of case.now)) n.items n.moves) }
    ensures complete { OnOk result (completes (certificate_machine (threads case.now)) (written (threads case.now) run.now) ≡ true) }
{
    if out.len() < ROOM {
        return Err(ConversionFault::ListTooShort);
    }
    examine(Run::new, case, run)?;
    Ok(write_certificate(case, run, out))
}
