// The program's fault: the refusal of a lower layer, whole.
ghost use Rattle.std.specs.Prelude.{◌≡◌};
ghost use Rattle.verdict.specs.Faults.{layer_of, refusal_of};
ghost use Rattle.verdict.specs.declared.fault.Fault.TheVariants as faults;

use crate::layer::Layer;
use docket::fault::DocketFault;
use form::fault::FormFault;
use machines::faults::{CertificateFault, RunFault};
use std::error::Error;
use std::fmt;
use text::TextFault;

// A text's fault does not know which of the two texts it is of, so it is turned into the one or the other by its variant;
// the others are turned by `From`.
#[derive(Clone, Copy, Debug, PartialEq)]
pub enum Fault {
    CaseText(TextFault),
    EvidenceText(TextFault),
    Case(FormFault),
    Run(DocketFault<RunFault>),
    Certificate(DocketFault<CertificateFault>),
}

impl Fault {
    // The layer that refuses.
    pub fn layer(&self) -> Layer
        ensures value { result ≡ layer_of self.now }
    {
        match self {
            Fault::CaseText(_) => Layer::CaseText,
            Fault::EvidenceText(_) => Layer::EvidenceText,
            Fault::Case(_) => Layer::Case,
            Fault::Run(_) => Layer::Run,
            Fault::Certificate(_) => Layer::Certificate,
        }
    }

    // The lower layer's number.
    pub fn number(&self) -> u8
        ensures value { result ≡ (refusal_of self.now).number }
    {
        match self {
            Fault::CaseText(fault) | Fault::EvidenceText(fault) => fault.number(),
            Fault::Case(fault) => fault.number(),
            Fault::Run(fault) => fault.number(),
            Fault::Certificate(fault) => fault.number(),
        }
    }

    // The lower layer's place.
    pub fn place(&self) -> usize
        ensures value { result ≡ (refusal_of self.now).place }
    {
        match self {
            Fault::CaseText(fault) | Fault::EvidenceText(fault) => fault.place(),
            Fault::Case(fault) => fault.place(),
            Fault::Run(fault) => usize::from(fault.place()),
            Fault::Certificate(fault) => usize::from(fault.place()),
        }
    }
}

impl From<FormFault> for Fault {
    ghost from_gives = { λ f r. r ≡ faults.Case f };

    fn from(fault: FormFault) -> Fault {
        Fault::Case(fault)
    }
}

impl From<DocketFault<RunFault>> for Fault {
    ghost from_gives = { λ f r. r ≡ faults.Run f };

    fn from(fault: DocketFault<RunFault>) -> Fault {
        Fault::Run(fault)
    }
}

impl From<DocketFault<CertificateFault>> for Fault {
    ghost from_gives = { λ f r. r ≡ faults.Certificate f };

    fn from(fault: DocketFault<CertificateFault>) -> Fault {
        Fault::Certificate(fault)
    }
}

// What a docket refuses is told by the kind's own words, where the kind refused.
fn write_refused<F: fmt::Display, W: fmt::Write>(
    fault: &DocketFault<F>,
    f: &mut fmt::Formatter<W>,
) -> fmt::Result {
    match fault {
        DocketFault::Ticket(fault) => write!(f, "{fault}"),
        DocketFault::ItemRefused { fault, .. } => write!(f, "{fault}"),
    }
}

impl fmt::Display for Fault {
    fn fmt<W: fmt::Write>(&self, f: &mut fmt::Formatter<W>) -> fmt::Result {
        match self {
            Fault::CaseText(fault) | Fault::EvidenceText(fault) => write!(f, "{fault}"),
            Fault::Case(fault) => write!(f, "{fault}"),
            Fault::Run(fault) => write_refused(fault, f),
            Fault::Certificate(fault) => write_refused(fault, f),
        }
    }
}

impl Error for Fault {}
