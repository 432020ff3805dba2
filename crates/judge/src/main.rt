// The judge: reads a case and its evidence, and writes the verdict on them.
#![tactic(auto)]

use console::{Program, Texts, print, run};
use verdict::write_verdict;

// The longest row has fewer bytes.
const ROOM: usize = 64;

struct Judge;

impl Program for Judge {
    const NAME: &'static str = "judge";

    const HELP: &'static str = "usage: judge [--quiet] [CASE EVIDENCE]

Reads a case and its evidence (case.csv and evidence.csv in this folder, or the two files that are named) and writes the
verdict to standard output: a header and one row, verdict,layer,refusal,place.

  verdict   allowed, unfinished or refused
  layer     case-text, evidence-text, case, run or certificate: where the verdict was reached
  refusal   the number of the refusal, 0 if there is none
  place     where: a line of a text from 1, a record of the case from 0, or the number of items taken before;
            without a refusal the number of items taken

The evidence is a certificate if its first item is M or O, and a run otherwise. A file that cannot be read counts as empty.
A line in plain words goes to standard error; --quiet turns it off. docs/JUDGE.md has the rules.";

    fn write(rt: &HostRuntime, texts: &Texts) -> anyhow::Result<()> {
        let mut bytes = [0; ROOM];
        let written = write_verdict(texts.case.as_slice(), texts.evidence.as_slice(), &mut bytes);
        print(rt, &bytes, written)
    }
}

fn main(rt: HostRuntime) -> anyhow::Result<()> {
    run::<Judge>(&rt)
}
