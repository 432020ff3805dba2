// The converter: reads a case and its evidence, and writes evidence of the other kind.
#![tactic(auto)]

use console::{Program, Texts, print, run};
use verdict::write_converted;

// The longest text of evidence has 65,305 bytes.
const ROOM: usize = 65_536;

struct Convert;

impl Program for Convert {
    const NAME: &'static str = "convert";

    const HELP: &'static str = "usage: convert [--quiet] [CASE EVIDENCE]

Reads a case and its evidence (case.csv and evidence.csv in this folder, or the two files that are named). Where the
verdict on them is allowed, writes evidence of the other kind to standard output: the certificate that a run converts to,
or the run that a certificate is replayed to. Elsewhere writes the verdict, as the program judge does.

A file that cannot be read counts as empty. A line in plain words about the verdict goes to standard error; --quiet turns
it off. docs/CONVERSION.md has the rules.";

    fn write(rt: &HostRuntime, texts: &Texts) -> anyhow::Result<()> {
        let mut bytes = vec![in rt.alloc(); 0u8; ROOM]?;
        let written = write_converted(texts.case.as_slice(), texts.evidence.as_slice(), &mut bytes);
        print(rt, &bytes, written)
    }
}

fn main(rt: HostRuntime) -> anyhow::Result<()> {
    run::<Convert>(&rt)
}
