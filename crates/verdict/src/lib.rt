// The judge: the text of a case and the text of its evidence, and one verdict on them.
//
// `write_verdict` is the one call behind the program `judge`. It goes through the layers in their order: the case's text is
// read, the evidence's text is read, the records are checked for form, and the items are examined over a docket. The first
// layer that refuses decides, and its refusal is carried whole (`Fault`); otherwise the docket's verdict is.
//
// What it says is defined in specs/Judging by the definitions of the layers below, and written as specs/Rows has it. Above
// that stands a law (`AllowedExactly`): "allowed" is said exactly if both texts read, the case is in form and the evidence is
// complete, and then the model allows the case.
//
// Nothing here allocates: records and items are read into tables of their greatest size, with a count beside, so that the
// one thing that can fail is that `out` is too short.
#![tactic(auto)]

ghost use Rattle.std.specs.Prelude.{◌≡◌, length, MatchResult, Err};
ghost use Rattle.case.specs.Cases.{records_of};
ghost use Rattle.machines.specs.Outcomes.{outcome};
ghost use Rattle.sessions.specs.Examinations.{examine_says, said as outcome_says};
ghost use Rattle.text.specs.Faults.{answered};
ghost use Rattle.text.specs.Reports.{fitting};
ghost use Rattle.text.specs.Writing.{written};
ghost use Rattle.verdict.specs.Converting.{delivered, converted};
ghost use Rattle.verdict.specs.Judging.{judged, examined_as, AllowedExactly};
ghost use Rattle.verdict.specs.Reads.{Loaded};
ghost use Rattle.verdict.specs.Rows.{verdict_text};
ghost use Rattle.verdict.specs.Rulings.{said};

mod conversion;
pub mod fault;
pub mod judgement;
pub mod layer;

use case::checked::CheckedCase;
use conversion::write_other_kind;
use docket::fault::DocketFault;
use docket::{Docket, Verdict};
use fault::Fault;
use judgement::{Judgement, Ruling, VerdictRow, is_allowed};
use kinds::Evidence;
use layer::Kind;
use machines::lists::Certificate;
use machines::rows::Run;
use records::{Item, Record};
use sessions::examination::examine;
use text::{Cell, TextFault, read, write_report};

// One examination on a docket of its own: opened, offered item by item, and its ticket handed in.
fn over_docket<K: Evidence + Drop>(
    checker: K,
    case: &CheckedCase,
    items: &[Item],
) -> Result<Verdict, DocketFault<K::Fault>>
    ensures value { examine_says K.Fault.number result ≡ outcome_says (outcome (K.machine case.now) items.now) }
{
    let mut docket = Docket::new(checker, case, 0);
    examine(&mut docket, items)
}

fn examined(case: &CheckedCase, items: &[Item]) -> Judgement
    ensures value { said result ≡ examined_as (records_of case.now) items.now }
{
    let kind = Kind::of(items);
    let verdict = match kind {
        Kind::Run => over_docket(Run::new(), case, items)?,
        Kind::Certificate => over_docket(Certificate::new(), case, items)?,
    };
    Ok(Ruling { kind, verdict })
}

// Reads both texts and checks the records, into a case and the front of a list: how many items there are, or the refusal of
// the first layer that refuses.
fn load(
    case_text: &[u8],
    evidence_text: &[u8],
    case: &mut CheckedCase,
    items: &mut [Item; 4352],
) -> Result<usize, Fault>
    ensures loaded { MatchResult result (λ n. Loaded case_text.now evidence_text.now case.new items.new n) (λ f. said (Err f) ≡ judged case_text.now evidence_text.now) }
{
    let mut records = [Record::default(); 256];
    // A `match` and no `map_err`: what a variant makes when it is passed as a function gets no proof here.
    let count = match read(case_text, &mut records) {
        Ok(count) => count,
        Err(fault) => return Err(Fault::CaseText(fault)),
    };
    let taken = match read(evidence_text, items) {
        Ok(taken) => taken,
        Err(fault) => return Err(Fault::EvidenceText(fault)),
    };
    case.fill(&records[..count])?;
    Ok(taken)
}

// What the judge says of a case and its evidence.
pub fn judge(case_text: &[u8], evidence_text: &[u8]) -> Judgement
    ensures value { said result ≡ judged case_text.now evidence_text.now }
    ensures allowed { AllowedExactly case_text.now evidence_text.now }
{
    let mut case = CheckedCase::empty();
    let mut items = [Item::default(); 4352];
    let count = load(case_text, evidence_text, &mut case, &mut items)?;
    examined(&case, &items[..count])
}

// The row of a judgement, over the front of `out`: 6 where that is shorter.
fn write_judgement(judgement: &Judgement, out: &mut [u8]) -> Result<usize, TextFault>
    ensures answer { answered result ≡ fitting (verdict_text (said judgement.now)) (length out.old) }
    ensures after { out.new ≡ written (answered result) (verdict_text (said judgement.now)) out.old }
{
    let row = VerdictRow::of(judgement);
    let fields = [
        Cell::Word(row.verdict),
        Cell::Word(row.layer.name()),
        Cell::Number(u64::from(row.refusal)),
        Cell::Number(row.place as u64),
    ];
    write_report(b"verdict,layer,refusal,place", &fields, out)
}

// Writes the verdict on a case and its evidence over the front of `out`, and answers how many bytes it has; 6, with nothing
// written, where `out` is shorter.
pub fn write_verdict(
    case_text: &[u8],
    evidence_text: &[u8],
    out: &mut [u8],
) -> Result<usize, TextFault>
    ensures answer { answered result ≡ fitting (verdict_text (judged case_text.now evidence_text.now)) (length out.old) }
    ensures after { out.new ≡ written (answered result) (verdict_text (judged case_text.now evidence_text.now)) out.old }
    ensures allowed { AllowedExactly case_text.now evidence_text.now }
{
    write_judgement(&judge(case_text, evidence_text), out)
}

// Evidence of the other kind where these items are complete, else the verdict on them.
fn write_examined(case: &CheckedCase, items: &[Item], out: &mut [u8]) -> Result<usize, TextFault>
    ensures answer { answered result ≡ fitting (delivered (records_of case.now) items.now) (length out.old) }
    ensures after { out.new ≡ written (answered result) (delivered (records_of case.now) items.now) out.old }
{
    let judgement = examined(case, items);
    if is_allowed(&judgement) {
        return write_other_kind(case, items, out);
    }
    write_judgement(&judgement, out)
}

// Writes evidence of the other kind where the verdict is "allowed", and the verdict where it is not, over the front of
// `out`; answers how many bytes that is, or 6, with nothing written, where `out` is shorter.
pub fn write_converted(
    case_text: &[u8],
    evidence_text: &[u8],
    out: &mut [u8],
) -> Result<usize, TextFault>
    ensures answer { answered result ≡ fitting (converted case_text.now evidence_text.now) (length out.old) }
    ensures after { out.new ≡ written (answered result) (converted case_text.now evidence_text.now) out.old }
{
    let mut case = CheckedCase::empty();
    let mut items = [Item::default(); 4352];
    match load(case_text, evidence_text, &mut case, &mut items) {
        Ok(count) => write_examined(&case, &items[..count], out),
        Err(fault) => write_judgement(&Err(fault), out),
    }
}
