// From a certificate to a run: for each action that comes its thread performs what it has not performed up to it, and
// drains a plain write.
ghost use Rattle.std.specs.Prelude.{◌≡◌, ◌+◌, ◌<◌, ◌≤◌, true, length, IfOk, MatchResult, slice_index, slice_set};
ghost use Rattle.case.specs.Cases.{threads};
ghost use Rattle.machines.specs.Certificate.{certificate_machine};
ghost use Rattle.machines.specs.Faults.{certificate_number};
ghost use Rattle.machines.specs.Items.{certificate_item};
ghost use Rattle.machines.specs.Lists.{order_state};
ghost use Rattle.machines.specs.Machine.{completes};
ghost use Rattle.machines.specs.Run.{run_machine};
ghost use Rattle.agreement.specs.Evidence.{replayed};
ghost use Rattle.conversions.specs.Faults.{refusal_in, conversion_refusal};
ghost use Rattle.conversions.specs.Fronts.{put};
ghost use Rattle.conversions.specs.Replays.{nexts, missing, performed, item_replay, item_next};
ghost use Rattle.conversions.specs.Sheets.{Adds, Room};

use crate::examine::examine;
use crate::fault::ConversionFault;
use crate::sheet::Sheet;
use case::checked::CheckedCase;
use machines::faults::CertificateFault;
use machines::items::{CertificateItem, RunItem};
use machines::lists::Certificate;
use records::Item;
use records::action::Action;

// As many items as a run can have.
const ROOM: usize = 512;

// Writes what a thread does for the action that comes, and moves on the name of the thread's next action.
fn write_coming(action: Action, thread: u8, next: &mut [u32; 8], sheet: &mut Sheet)
    requires within { thread < 8 }
    requires room { Room (performed thread action (slice_index next.old thread)) sheet.old }
    ensures list { Adds (performed thread action (slice_index next.old thread)) sheet.old sheet.new }
    ensures onward { next.new ≡ slice_set next.old thread (slice_index next.old thread + missing action (slice_index next.old thread)) }
{
    let due = (u32::from(action.name()) + 1).saturating_sub(next[thread as usize]);
    next[thread as usize] += due;
    sheet.repeat(Item::from(RunItem::Perform(thread)), due as usize);
    if let Action::Write { .. } = action {
        sheet.push(Item::from(RunItem::Drain(thread)));
    }
}

// Writes what an item is replayed to, before the checker takes it.
fn write_item(
    case: &CheckedCase,
    checker: &Certificate,
    item: Item,
    next: &mut [u32; 8],
    sheet: &mut Sheet,
)
    requires room { Room (item_replay (order_state (threads case.now) checker.now).left (nexts next.old) (certificate_item item)) sheet.old }
    ensures list { Adds (item_replay (order_state (threads case.now) checker.now).left (nexts next.old) (certificate_item item)) sheet.old sheet.new }
    ensures onward { nexts next.new ≡ item_next (order_state (threads case.now) checker.now).left (nexts next.old) (certificate_item item) }
{
    let Ok(CertificateItem::Come(thread)) = CertificateItem::try_from(item) else {
        return;
    };
    if let Some(action) = checker.upcoming(case, thread) {
        write_coming(action, thread, next, sheet);
    }
}

// Writes the run of a complete certificate, and answers how many items it has.
fn write_run(case: &CheckedCase, certificate: &[Item], out: &mut [Item]) -> u16
    requires complete { completes (certificate_machine (threads case.now)) certificate.now ≡ true }
    requires room { 512 ≤ length out.old }
    ensures list { out.new ≡ put 0 (replayed (threads case.now) certificate.now) out.old }
    ensures count { result ≡ length (replayed (threads case.now) certificate.now) }
{
    let mut checker = Certificate::new();
    let mut next: [u32; 8] = [0, 64, 128, 192, 256, 320, 384, 448];
    let mut sheet = Sheet::new(out);
    for item in certificate {
        write_item(case, &checker, *item, &mut next, &mut sheet);
        let _ = checker.put(case, *item);
    }
    sheet.len() as u16
}

// Writes the run that a complete certificate is replayed to at the front of the list, and answers how many items it has;
// a certificate that is not complete is refused, and so is a list without room for every run: it then stays as it is.
pub fn to_run(
    case: &CheckedCase,
    certificate: &[Item],
    out: &mut [Item],
) -> Result<u16, ConversionFault<CertificateFault>>
    ensures refusal { refusal_in certificate_number result ≡ conversion_refusal (certificate_machine (threads case.now)) 512 (length out.old) certificate.now }
    ensures list { MatchResult result (λ n. (out.new ≡ put 0 (replayed (threads case.now) certificate.now) out.old) × (n ≡ length (replayed (threads case.now) certificate.now))) (λ _. out.new ≡ out.old) }
    ensures size { length out.new ≡ length out.old }
    ensures complete { IfOk result (λ n. (completes (run_machine (threads case.now)) (replayed (threads case.now) certificate.now) ≡ true) × (n ≤ 512)) }
{
    if out.len() < ROOM {
        return Err(ConversionFault::ListTooShort);
    }
    examine(Certificate::new, case, certificate)?;
    Ok(write_run(case, certificate, out))
}
