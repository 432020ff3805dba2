// The layers of the judge, in the order in which they are checked, and the kinds of evidence.
ghost use Rattle.std.specs.Prelude.{◌≡◌, if◌then◌else◌};
ghost use Rattle.verdict.specs.Judging.{is_certificate};
ghost use Rattle.verdict.specs.Layers.{layer_name, layer_of_kind};
ghost use Rattle.verdict.specs.declared.layer.Kind.TheVariants as kinds;

use records::Item;
use std::fmt;

#[derive(Clone, Copy, Debug, PartialEq)]
pub enum Layer {
    CaseText,
    EvidenceText,
    Case,
    Run,
    Certificate,
}

#[derive(Clone, Copy, Debug, PartialEq)]
pub enum Kind {
    Run,
    Certificate,
}

impl Layer {
    // The layer's name in a verdict.
    pub fn name(self) -> &'static [u8]
        ensures value { result.now ≡ layer_name self }
    {
        match self {
            Layer::CaseText => b"case-text",
            Layer::EvidenceText => b"evidence-text",
            Layer::Case => b"case",
            Layer::Run => b"run",
            Layer::Certificate => b"certificate",
        }
    }
}

impl Kind {
    // A certificate is meant if the first item is M or O, else a run.
    pub fn of(items: &[Item]) -> Kind
        ensures value { result ≡ (if is_certificate items.now then kinds.Certificate else kinds.Run) }
    {
        match items {
            [first, ..] if first.letter == b'M' || first.letter == b'O' => Kind::Certificate,
            _ => Kind::Run,
        }
    }
}

impl From<Kind> for Layer {
    ghost from_gives = { λ k r. r ≡ layer_of_kind k };

    fn from(kind: Kind) -> Layer {
        match kind {
            Kind::Run => Layer::Run,
            Kind::Certificate => Layer::Certificate,
        }
    }
}

impl fmt::Display for Kind {
    fn fmt<W: fmt::Write>(&self, f: &mut fmt::Formatter<W>) -> fmt::Result {
        f.write_str(match self {
            Kind::Run => "run",
            Kind::Certificate => "certificate",
        })
    }
}
