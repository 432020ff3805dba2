// The promise as a whole, on one call: a list of calls worked off on a docket, and a piece of evidence converted.
//
// `examine_and_convert` is what a user of the library does with a case, in one call, so that what is promised of dockets,
// kinds and conversions stands undivided on its contract. For any kind that keeps its duties, any case in form, any list
// of calls, any tickets in the slots, any evidence and any lists to write into:
// - the answers, the tickets left and the counts are the plain docket's, and each settling rules on the items taken since
//   the last granted opening; the counts balance; calls that keep their ticket in one slot and hand it in leave the slots
//   as they were (`answers`, `rest`, `rulings`, `tickets`, `returned`, `counts`, `balanced`, `single`);
// - the case has complete evidence exactly when the kind's model allows it (`model`);
// - it has a complete run exactly when it has a complete certificate (`agree`), and the evidence is converted into the list
//   that is defined from it, which is complete evidence of the other kind, or refused with nothing written (`converts`).
#![tactic(auto)]

ghost use Rattle.std.specs.Prelude.{◌≡◌, ◌≤◌, length, drop, is_ok, IfOk, IfErr, OnOk, nat_le};
ghost use Rattle.agreement.specs.Agreement.{Agreement};
ghost use Rattle.docket.specs.Plain.{empty};
ghost use Rattle.docket.specs.Standing.{Balanced};
ghost use Rattle.docket.specs.Promise.{ByEvidence, Answered, RuledOnItems, SlotsLeft, TidySlots, CountsLeft};
ghost use Rattle.docket.specs.Slots.{desk};
ghost use Rattle.promise.specs.Conversions.{Converts};

pub mod fault;

use agreement::runs_and_certificates_agree;
use case::checked::CheckedCase;
use conversions::certificate::{Written, to_certificate};
use conversions::replay::to_run;
use docket::Docket;
use docket::calls::{Answer, Call};
use docket::ticket::Ticket;
use docket::work::session;
use fault::NotConverted;
use kinds::Evidence;
use records::Item;

// What a piece of evidence is converted to.
#[derive(Clone, Copy, Debug, PartialEq)]
pub enum Direction {
    ToCertificate,
    ToRun,
}

// The docket after its calls, or the checker again where there was no room for the answers; and what was written of the
// evidence.
#[derive(Drop)]
pub struct Served<K: Evidence> {
    pub docket: Result<Docket<K>, K>,
    pub converted: Result<Written, NotConverted>,
}

// Into the front of a list, and how many items that are; a run has no moves.
fn convert(
    case: &CheckedCase,
    direction: Direction,
    evidence: &[Item],
    out: &mut [Item],
) -> Result<Written, NotConverted>
    ensures converts { Converts case.now evidence.now out.old out.new result direction }
{
    match direction {
        Direction::ToCertificate => Ok(to_certificate(case, evidence, out)?),
        Direction::ToRun => Ok(Written {
            items: to_run(case, evidence, out)?,
            moves: 0,
        }),
    }
}

// Works a list of calls off on a new docket, and converts a piece of evidence for the same case.
pub fn examine_and_convert<K: Evidence>(
    checker: K,
    case: &CheckedCase,
    number: u16,
    held: &mut [Option<Ticket>],
    calls: &[Call],
    answers: &mut [Option<Answer<K::Fault>>],
    direction: Direction,
    evidence: &[Item],
    out: &mut [Item],
) -> Served<K>
    ensures room { is_ok result.docket ≡ nat_le (length calls.now) (length answers.old) }
    ensures untouched { IfErr result.docket (λ k. (k ≡ checker) × (held.new ≡ held.old) × (answers.new ≡ answers.old)) }
    ensures answers { OnOk result.docket (Answered (K.machine case.now) number (desk empty held.old) calls.now K.Fault.number answers.new) }
    ensures rest { drop (length calls.now) answers.new ≡ drop (length calls.now) answers.old }
    ensures rulings { OnOk result.docket (RuledOnItems (K.machine case.now) number (desk empty held.old) calls.now K.Fault.number answers.new) }
    ensures tickets { OnOk result.docket (SlotsLeft (K.machine case.now) number (desk empty held.old) calls.now held.new) }
    ensures returned { OnOk result.docket (TidySlots held.old calls.now held.new) }
    ensures counts { IfOk result.docket (λ d. CountsLeft (K.machine case.now) number (desk empty held.old) calls.now d.counts) }
    ensures balanced { IfOk result.docket (λ d. Balanced d.counts) }
    ensures single { IfOk result.docket (λ d. d.counts.«open» ≤ 1) }
    ensures model { ByEvidence (K.machine case.now) (K.allows case.now) }
    ensures agree { Agreement }
    ensures converts { Converts case.now evidence.now out.old out.new result.converted direction }
{
    runs_and_certificates_agree();
    let docket = session(checker, case, number, held, calls, answers);
    let converted = convert(case, direction, evidence, out);
    Served { docket, converted }
}
