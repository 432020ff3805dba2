// Why evidence is not converted.
ghost use Rattle.std.specs.Prelude.{◌≡◌};
ghost use Rattle.conversions.specs.Faults.{told};

use machines::faults::ItemFault;
use std::error::Error;
use std::fmt;

// F is why the checker refuses an item.
#[derive(Clone, Copy, Debug, PartialEq)]
pub enum ConversionFault<F> {
    // the list to write has too little room for any evidence of its kind
    ListTooShort,
    // the checker refuses an item, after it took as many as the place says
    Refused { fault: F, place: usize },
    // every item is taken, and the evidence is not complete
    Unfinished,
}

impl<F: ItemFault> ConversionFault<F> {
    // 61 or 62, or the number of the checker's fault
    pub fn number(&self) -> u8
        ensures { result ≡ (told F.number self.now).number }
    {
        match self {
            ConversionFault::ListTooShort => 61,
            ConversionFault::Refused { fault, .. } => fault.number(),
            ConversionFault::Unfinished => 62,
        }
    }

    // how many items the checker took before the one that it refused; 0 where it refused none
    pub fn place(&self) -> usize
        ensures { result ≡ (told F.number self.now).place }
    {
        match self {
            ConversionFault::Refused { place, .. } => *place,
            ConversionFault::ListTooShort | ConversionFault::Unfinished => 0,
        }
    }
}

impl<F: ItemFault> fmt::Display for ConversionFault<F> {
    fn fmt<W: fmt::Write>(&self, f: &mut fmt::Formatter<W>) -> fmt::Result {
        match self {
            ConversionFault::ListTooShort => {
                f.write_str("the list has no room for any evidence of its kind")
            }
            ConversionFault::Refused { fault, place } => write!(f, "item {place}: {fault}"),
            ConversionFault::Unfinished => {
                f.write_str("every item is taken, and the evidence is not complete")
            }
        }
    }
}

impl<F: ItemFault + fmt::Debug> Error for ConversionFault<F> {}
