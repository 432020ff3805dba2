// A verdict in plain words: what a refusal means, and where to look.
use crate::options::Options;
use docket::Verdict;
use std::io;
use verdict::fault::Fault;
use verdict::judgement::{Judgement, Ruling};
use verdict::layer::Layer;

// Record or item k stands in line k + 2 of its file.
fn explain_refusal(rt: &HostRuntime, fault: &Fault, options: &Options) -> io::Result<()> {
    let number = fault.number();
    let place = fault.place();
    let line = place.saturating_add(2);
    let case = options.case.as_str();
    let evidence = options.evidence.as_str();
    match fault.layer() {
        Layer::CaseText if place == 0 => eprintln!(rt; "refusal {number}: {fault} ({case})"),
        Layer::CaseText => eprintln!(rt; "refusal {number} at line {place} of {case}: {fault}"),
        Layer::EvidenceText if place == 0 => eprintln!(rt;
            "refusal {number}: {fault} ({evidence})"
        ),
        Layer::EvidenceText => eprintln!(rt;
            "refusal {number} at line {place} of {evidence}: {fault}"
        ),
        Layer::Case => eprintln!(rt;
            "refusal {number} at record {place}, line {line} of {case}: {fault}"
        ),
        Layer::Run | Layer::Certificate => eprintln!(rt;
            "refusal {number} at item {place}, line {line} of {evidence}: {fault}"
        ),
    }
}

// One line on standard error that says what the verdict means and where to look.
pub fn explain(rt: &HostRuntime, judgement: &Judgement, options: &Options) -> io::Result<()> {
    match judgement {
        Ok(
            Ruling {
                kind,
                verdict: Verdict::Allowed(items),
            },
        ) => eprintln!(rt;
            "allowed: the {items} items are a complete {kind} of this case, so the memory model allows it"
        ),
        Ok(
            Ruling {
                kind,
                verdict: Verdict::Unfinished(items),
            },
        ) => eprintln!(rt;
            "unfinished: all {items} items were taken, but they are not a complete {kind}; this does not say that the model forbids the case"
        ),
        Err(fault) => explain_refusal(rt, fault, options),
    }
}
