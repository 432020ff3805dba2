// What the programs judge and convert share: their arguments, the two files, the way from these to what is written, and a
// verdict in plain words. The program examples reads its files as they do.
//
// Nothing here decides anything: verdicts come from the crate verdict, and only its bytes go to standard output. What is
// said in words goes to standard error.
#![tactic(auto)]

ghost use Rattle.std.specs.Prelude.{◌≡◌, false, IfOk, IfSome};

pub mod options;
pub mod words;

use anyhow::anyhow;
use options::{Options, OptionsError};
use std::io::Write;
use std::rt::Files;
use std::{fs, io};
use text::TextFault;
use verdict::judge;
use words::explain;

// The two texts that a program is run on.
#[derive(Drop)]
pub struct Texts {
    pub case: Vec<u8>,
    pub evidence: Vec<u8>,
}

// A file that cannot be read counts as empty; unless it is to be quiet, a line on standard error says so.
pub fn read_or_empty(rt: &HostRuntime, path: &str, quiet: bool) -> io::Result<Vec<u8>> {
    let Ok(bytes) = fs::read(rt, path) else {
        if !quiet {
            eprintln!(rt; "{path} cannot be read and counts as empty")?;
        }
        return Ok(Vec::new(rt.alloc()));
    };
    Ok(bytes)
}

pub fn read_texts(rt: &HostRuntime, options: &Options) -> io::Result<Texts> {
    let case = read_or_empty(rt, options.case.as_str(), options.quiet)?;
    let evidence = read_or_empty(rt, options.evidence.as_str(), options.quiet)?;
    Ok(Texts { case, evidence })
}

// A program: its name, its help, and what it writes of the two texts.
pub trait Program {
    const NAME: &'static str;

    const HELP: &'static str;

    // Writes to standard output what the program makes of the two texts.
    fn write(rt: &HostRuntime, texts: &Texts) -> anyhow::Result<()>;
}

// Writes to standard output the front of these bytes, as far as they are said to be written.
pub fn print(
    rt: &HostRuntime,
    bytes: &[u8],
    written: Result<usize, TextFault>,
) -> anyhow::Result<()> {
    match written {
        Ok(count) if count <= bytes.len() => rt.stdout().write_all(&bytes[0..count])?,
        _ => {
            let room = bytes.len();
            return Err(anyhow!("what is to be written is longer than {room} bytes"));
        }
    }
    Ok(())
}

// The options that a program of this name was started with; none where they ask for its help, which is then printed. No clause
// says what is read or printed. A `Program` has its name and its help in its type; who knows them only as it runs goes on from
// here by `read_texts`, `print` and `explain`, as the crate console_tests does.
pub fn options_or_help(rt: &HostRuntime, name: &str, help: &str) -> anyhow::Result<Option<Options>>
    ensures helped { IfOk result (λ read. IfSome read (λ options. options.help ≡ false)) }
{
    let options = match Options::read(rt) {
        Ok(options) => options,
        Err(OptionsError::Io(error)) => return Err(error.into()),
        Err(OptionsError::Memory(error)) => return Err(io::Error::from(error).into()),
        Err(misuse) => {
            eprintln!(rt; "{name}: {misuse}")?;
            return Err(anyhow!("wrong arguments"));
        }
    };
    if options.help {
        rt.println(help)?;
        return Ok(None);
    }
    Ok(Some(options))
}

// Runs a program: reads its arguments and the two files, lets it write, and says the verdict in words.
pub fn run<P: Program>(rt: &HostRuntime) -> anyhow::Result<()> {
    let Some(options) = options_or_help(rt, P::NAME, P::HELP)? else {
        return Ok(());
    };
    let texts = read_texts(rt, &options)?;
    P::write(rt, &texts)?;
    if !options.quiet {
        let judgement = judge(texts.case.as_slice(), texts.evidence.as_slice());
        explain(rt, &judgement, &options)?;
    }
    Ok(())
}
