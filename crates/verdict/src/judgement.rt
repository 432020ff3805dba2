// What the judge says, and the row that it is written as.
ghost use Rattle.std.specs.Prelude.{◌≡◌, Ok};
ghost use Rattle.verdict.specs.Judging.{is_allowed as allowed};
ghost use Rattle.verdict.specs.Rulings.{said};
ghost use Rattle.verdict.specs.Rows.{told, row_of};

use crate::fault::Fault;
use crate::layer::{Kind, Layer};
use docket::Verdict;

// The docket's verdict on evidence of a kind.
#[derive(Clone, Copy, Debug, PartialEq)]
pub struct Ruling {
    pub kind: Kind,
    pub verdict: Verdict,
}

impl Ruling {
    fn row(&self) -> VerdictRow
        ensures value { row_of result ≡ told (said (Ok self.now)) }
    {
        let (verdict, items): (&'static [u8], u16) = match self.verdict {
            Verdict::Allowed(items) => (b"allowed", items),
            Verdict::Unfinished(items) => (b"unfinished", items),
        };
        VerdictRow {
            verdict,
            layer: Layer::from(self.kind),
            refusal: 0,
            place: usize::from(items),
        }
    }
}

// A ruling on the evidence, or the refusal of the first layer that refuses.
pub type Judgement = Result<Ruling, Fault>;

pub fn is_allowed(judgement: &Judgement) -> bool
    ensures value { result ≡ allowed (said judgement.now) }
{
    matches!(
        judgement,
        Ok(Ruling {
            verdict: Verdict::Allowed(_),
            ..
        })
    )
}

// Verdict, layer, refusal and place.
#[derive(Clone, Copy)]
pub struct VerdictRow {
    pub verdict: &'static [u8],
    pub layer: Layer,
    pub refusal: u8,
    pub place: usize,
}

impl VerdictRow {
    // Without a refusal the place is the number of items taken.
    pub fn of(judgement: &Judgement) -> VerdictRow
        ensures value { row_of result ≡ told (said judgement.now) }
    {
        match judgement {
            Ok(ruling) => ruling.row(),
            Err(fault) => VerdictRow {
                verdict: b"refused",
                layer: fault.layer(),
                refusal: fault.number(),
                place: fault.place(),
            },
        }
    }
}
