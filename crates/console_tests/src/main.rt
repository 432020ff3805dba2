// What another crate makes of the parts of console: a program whose name, help, bytes and way of writing come with a call.
// It is run twice on the two files that its arguments name: it writes the verdict, and then evidence of the other kind.
#![tactic(auto)]

use console::words::explain;
use console::{options_or_help, print, read_texts};
use text::TextFault;
use verdict::{judge, write_converted, write_verdict};

const HELP: &str = "usage: console_tests [--quiet] [CASE EVIDENCE]

Writes the verdict on a case and its evidence, and then the evidence of the other kind.";

// Enough for the certificate of the shipped run.
const ROOM: usize = 1_024;

// Writes to standard output what a function or a closure makes of the two texts in these bytes, and says the verdict in words.
fn run_by<W: Fn(&[u8], &[u8], &mut [u8]) -> Result<usize, TextFault>>(
    rt: &HostRuntime,
    name: &str,
    help: &str,
    bytes: &mut [u8],
    write: W,
) -> anyhow::Result<()>
    requires { W.IsAlwaysCallable write }
{
    let Some(options) = options_or_help(rt, name, help)? else {
        return Ok(());
    };
    let texts = read_texts(rt, &options)?;
    let written = write(texts.case.as_slice(), texts.evidence.as_slice(), bytes);
    print(rt, bytes, written)?;
    if !options.quiet {
        let judgement = judge(texts.case.as_slice(), texts.evidence.as_slice());
        explain(rt, &judgement, &options)?;
    }
    Ok(())
}

fn main(rt: HostRuntime) -> anyhow::Result<()> {
    let mut bytes = [b'-'; ROOM];
    for converts in [false, true] {
        let write = |case: &[u8], evidence: &[u8], out: &mut [u8]| match converts {
            true => write_converted(case, evidence, out),
            false => write_verdict(case, evidence, out),
        };
        run_by(&rt, "console_tests", HELP, &mut bytes, write)?;
    }
    Ok(())
}
