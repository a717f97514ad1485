//! The program `planar`: it hands the words of the command line and the three standard streams to
//! `topo_cli::perform`, and ends with the status that comes back.
#![tactic(auto)]

use std::process::ExitCode;
use std::rt::Env;
use std::{env, io};
use topo_cli::program::WordsFault;
use topo_cli::{perform, refuse};
use topo_io::reading::CountedReader;

/// A failed write to standard error is passed over: there is nowhere left to tell it.
fn main(rt: HostRuntime) -> ExitCode {
    let mut err = rt.stderr();
    let outcome = match read_words(&rt) {
        Ok(words) => perform(
            &rt,
            rt.alloc(),
            words.as_slice(),
            &mut CountedReader::new(rt.reader()),
            &mut io::writer(&rt),
            &mut err,
        ),
        Err(fault) => refuse(fault, &mut err),
    };
    ExitCode::from(outcome.status)
}

/// The words of the command line, of which the first is the program's name.
fn read_words<R: Env + AllocGlobal>(rt: &R) -> Result<Vec<String>, WordsFault> {
    let words = match env::args(rt) {
        Ok(words) => words,
        Err(error) => if error.kind() == io::ErrorKind::OutOfMemory {
            return Err(WordsFault::Memory);
        } else {
            return Err(WordsFault::NotText);
        },
    };
    match words.collect::<Vec<String>>(rt.alloc()) {
        Ok(words) => Ok(words),
        Err(_) => Err(WordsFault::Memory),
    }
}
