// The arguments of the programs.
use std::alloc::AllocError;
use std::{env, io};
use thiserror::Error;

#[derive(Drop)]
pub struct Options {
    // the paths of the two files
    pub case: String,
    pub evidence: String,
    // no words on standard error
    pub quiet: bool,
    pub help: bool,
}

// Why the arguments are not options of a program.
#[derive(Debug, Drop, Error)]
pub enum OptionsError {
    #[error("there is no option {0}; --help tells what there is")]
    UnknownOption(String),
    #[error("give the paths of a case and of its evidence, or none, and not {0}; --help tells more")]
    PathCount(usize),
    #[error(transparent)]
    Io(#[from] io::Error),
    #[error(transparent)]
    Memory(#[from(alloc)] AllocError),
}

impl Options {
    // The options that the program was started with.
    pub fn read(rt: &HostRuntime) -> Result<Options, OptionsError> {
        let mut paths = Vec::new(rt.alloc());
        let mut quiet = false;
        let mut help = false;
        for arg in env::args(rt)?.skip(1) {
            match arg.as_str() {
                "--quiet" => quiet = true,
                "--help" => help = true,
                other => {
                    if other.starts_with('-') {
                        return Err(OptionsError::UnknownOption(arg));
                    }
                    paths.push(arg)?;
                }
            }
        }
        let (case, evidence) = match paths.as_slice() {
            [] => (
                String::from_str(rt.alloc(), "case.csv")?,
                String::from_str(rt.alloc(), "evidence.csv")?,
            ),
            [case, evidence] => (case.clone()?, evidence.clone()?),
            _ => return Err(OptionsError::PathCount(paths.len())),
        };
        Ok(Options {
            case,
            evidence,
            quiet,
            help,
        })
    }
}
