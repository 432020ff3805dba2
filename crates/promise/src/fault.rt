// Why a piece of evidence is not converted, whichever kind it is of.
ghost use Rattle.std.specs.Prelude.{◌≡◌};
ghost use Rattle.promise.specs.Faults.{told};
ghost use Rattle.promise.specs.declared.fault.NotConverted.TheVariants as refused;

use conversions::fault::ConversionFault;
use machines::faults::{CertificateFault, RunFault};
use std::error::Error;
use std::fmt;

#[derive(Clone, Copy, Debug, PartialEq)]
pub enum NotConverted {
    Run(ConversionFault<RunFault>),
    Certificate(ConversionFault<CertificateFault>),
}

impl NotConverted {
    // The number of the conversion's fault.
    pub fn number(&self) -> u8
        ensures { result ≡ (told self.now).number }
    {
        match self {
            NotConverted::Run(fault) => fault.number(),
            NotConverted::Certificate(fault) => fault.number(),
        }
    }

    // Its place.
    pub fn place(&self) -> usize
        ensures { result ≡ (told self.now).place }
    {
        match self {
            NotConverted::Run(fault) => fault.place(),
            NotConverted::Certificate(fault) => fault.place(),
        }
    }
}

impl From<ConversionFault<RunFault>> for NotConverted {
    ghost from_gives = { λ f r. r ≡ refused.Run f };

    fn from(fault: ConversionFault<RunFault>) -> NotConverted {
        NotConverted::Run(fault)
    }
}

impl From<ConversionFault<CertificateFault>> for NotConverted {
    ghost from_gives = { λ f r. r ≡ refused.Certificate f };

    fn from(fault: ConversionFault<CertificateFault>) -> NotConverted {
        NotConverted::Certificate(fault)
    }
}

impl fmt::Display for NotConverted {
    fn fmt<W: fmt::Write>(&self, f: &mut fmt::Formatter<W>) -> fmt::Result {
        match self {
            NotConverted::Run(fault) => write!(f, "{fault}"),
            NotConverted::Certificate(fault) => write!(f, "{fault}"),
        }
    }
}

impl Error for NotConverted {}
