// Complete evidence written as evidence of the other kind.
ghost use Rattle.std.specs.Prelude.{◌≡◌, ◌≤◌, true, length, take};
ghost use Rattle.case.specs.Cases.{records_of};
ghost use Rattle.text.specs.Faults.{answered};
ghost use Rattle.text.specs.Files.{evidence_text};
ghost use Rattle.text.specs.Reports.{fitting};
ghost use Rattle.text.specs.Writing.{written};
ghost use Rattle.verdict.specs.Converting.{other_kind};
ghost use Rattle.verdict.specs.Judging.{complete};

use crate::layer::Kind;
use case::checked::CheckedCase;
use conversions::certificate::to_certificate;
use conversions::replay::to_run;
use records::Item;
use text::{TextFault, write};

// Into the front of a list with room for any evidence: how many items that are.
fn convert(case: &CheckedCase, evidence: &[Item], out: &mut [Item; 4352]) -> usize
    requires { complete (records_of case.now) evidence.now ≡ true }
    ensures list { take result out.new ≡ other_kind (records_of case.now) evidence.now }
    ensures few { result ≤ 4352 }
{
    let items = match Kind::of(evidence) {
        Kind::Run => to_certificate(case, evidence, out).unwrap().items,
        Kind::Certificate => to_run(case, evidence, out).unwrap(),
    };
    usize::from(items)
}

// Writes the text of the other kind's evidence over the front of `out`: 6 where that is shorter.
pub(crate) fn write_other_kind(
    case: &CheckedCase,
    evidence: &[Item],
    out: &mut [u8],
) -> Result<usize, TextFault>
    requires { complete (records_of case.now) evidence.now ≡ true }
    ensures answer { answered result ≡ fitting (evidence_text (other_kind (records_of case.now) evidence.now)) (length out.old) }
    ensures after { out.new ≡ written (answered result) (evidence_text (other_kind (records_of case.now) evidence.now)) out.old }
{
    let mut items = [Item::default(); 4352];
    let count = convert(case, evidence, &mut items);
    write(&items[..count], out)
}
