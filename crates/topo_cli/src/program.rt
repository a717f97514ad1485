//! What the program does with the words of a command line.

ghost use Rattle.std.specs.Io.KnownBytes.{Keeps};
ghost use Rattle.std.specs.Prelude.{◌≡◌, IfErr, IfOk, codes, map};
ghost use Rattle.topo_cli.specs.Outcomes.{CarriesOut, IsAsked, IsToldBy, IsUnread, Performs};
ghost use Rattle.topo_cli.specs.Outcomes.{Refuses, Tells, TellsVersion};
ghost use Rattle.topo_io.specs.Statuses.{fault_line, status_of};

use crate::Verb;
use crate::answers::answer;
use crate::telling::{tell, tell_fault};
use crate::verbs::{VERSION_LINE, verb};
use clap::error::ErrorKind;
use std::alloc::Global;
use std::convert::AsStr;
use std::io::{Read, Write};
use std::rt::Clock;
use std::sync::Wait;
use std::thread::Threads;
use topo_io::RunFault;
use topo_io::reading::CountedReader;
use topo_io::writing::write_text;

/// The status of a command that is done.
const DONE: u8 = 0;

/// The status where the words are refused, or ask for help.
const REFUSED: u8 = 2;

/// What is said of words that are no text.
const NOT_TEXT: &str = "planar: the words of the command line are not UTF-8\n";

/// How the program ends.
#[derive(Clone, Copy, Debug, PartialEq, Eq)]
pub struct Outcome {
    /// The exit status: 0 done, 1 a fault other than 8, 2 where the words are refused or ask for
    /// help, 3 for out of memory.
    pub status: u8,
    /// Whether standard error took all that it was given; so too where it was given nothing.
    pub is_told: bool,
}

/// Why the words of a command line cannot be read.
#[derive(Clone, Copy, Debug, PartialEq, Eq)]
pub enum WordsFault {
    /// They are no UTF-8.
    NotText,
    /// A growth of memory was refused.
    Memory,
}

/// What words ask for.
#[derive(Clone, Copy, Debug, PartialEq, Eq)]
enum Asked {
    /// A command with its options.
    Command(Verb),
    /// The version of the program.
    Version,
}

/// Why words ask for nothing that the program does.
#[derive(Debug, Drop)]
enum Unread {
    /// `clap` refuses them, or they ask for help: its text for the user.
    Refused(String),
    /// A growth of memory was refused.
    Memory,
}

/// Reads the words, of which the first is the program's name, and carries out the command that they
/// ask for, on the reader and `out`. Where they ask for the version, it goes to `out`. A fault is one
/// line on `err`, behind the lines that a command was asked to tell on the way. Where `clap` refuses the words, or they ask for help, its text goes to `err`. Only
/// a command reads. A write to `err` that fails changes no status.
pub fn perform<'a, R: Threads + Wait + Clock + Sync, S: AsStr, I: Read, O: Write, E: Write>(
    rt: &R,
    alloc: Global,
    words: &'a [S],
    reader: &mut CountedReader<I>,
    out: &mut O,
    err: &mut E,
) -> Outcome
    ensures { Performs (map S.text words.entry.now) result reader.old reader.new
        (O.contents out.old) (O.contents out.new) (E.contents err.old)
        (E.contents err.new) }
{
    match read_words(alloc, words) {
        Ok(Asked::Command(verb)) => carry_out(rt, alloc, verb, reader, out, err),
        Ok(Asked::Version) => tell_version(out, err),
        Err(unread) => turn_down(&unread, err),
    }
}

/// What the program does where the words of the command line cannot be read: it says so on `err`.
pub fn refuse<E: Write>(fault: WordsFault, err: &mut E) -> Outcome
    ensures { Refuses fault result (E.contents err.old) (E.contents err.new) }
{
    match fault {
        WordsFault::NotText => Outcome {
            status: REFUSED,
            is_told: tell(NOT_TEXT, err),
        },
        WordsFault::Memory => end_by(&RunFault::Memory, err),
    }
}

/// What the words ask for, or why it is nothing that the program does.
fn read_words<'a, S: AsStr>(alloc: Global, words: &'a [S]) -> Result<Asked, Unread>
    ensures asked { IfOk result (IsAsked (map S.text words.entry.now)) }
    ensures none { IfErr result (IsUnread (map S.text words.entry.now)) }
{
    match verb(alloc, words) {
        Ok(verb) => Ok(Asked::Command(verb)),
        Err(error) => match error.kind() {
            ErrorKind::DisplayVersion => Ok(Asked::Version),
            ErrorKind::OutOfMemory => Err(Unread::Memory),
            _ => match format!(in alloc; "{error}") {
                Ok(text) => Err(Unread::Refused(text)),
                Err(_) => Err(Unread::Memory),
            },
        },
    }
}

/// Carries out a command. A fault is written on `err`.
fn carry_out<R: Threads + Wait + Clock + Sync, I: Read, O: Write, E: Write>(
    rt: &R,
    alloc: Global,
    verb: Verb,
    reader: &mut CountedReader<I>,
    out: &mut O,
    err: &mut E,
) -> Outcome
    ensures { CarriesOut verb result reader.old reader.new
        (O.contents out.old) (O.contents out.new) (E.contents err.old) (E.contents err.new) }
{
    match answer(rt, alloc, verb, reader, out, err) {
        Ok(()) => Outcome {
            status: DONE,
            is_told: true,
        },
        Err(fault) => end_by(&fault, err),
    }
}

/// Writes the version to `out`. A fault is written on `err`.
fn tell_version<O: Write, E: Write>(out: &mut O, err: &mut E) -> Outcome
    ensures { TellsVersion result (O.contents out.old) (O.contents out.new) (E.contents err.old)
        (E.contents err.new) }
{
    match write_text(out, VERSION_LINE) {
        Ok(()) => Outcome {
            status: DONE,
            is_told: true,
        },
        Err(lost) => end_by(&lost, err),
    }
}

/// Says on `err` why words ask for nothing that the program does.
fn turn_down<E: Write>(unread: &Unread, err: &mut E) -> Outcome
    ensures { Tells unread.now result (E.contents err.old) (E.contents err.new) }
{
    match unread {
        Unread::Refused(text) => Outcome {
            status: REFUSED,
            is_told: tell(text.as_str(), err),
        },
        Unread::Memory => end_by(&RunFault::Memory, err),
    }
}

/// Writes a fault, and ends with its status.
fn end_by<E: Write>(fault: &RunFault, err: &mut E) -> Outcome
    ensures status { result.status ≡ status_of fault.now }
    ensures line { IsToldBy (fault_line fault.now) result (E.contents err.old)
        (E.contents err.new) }
{
    Outcome {
        status: fault.status(),
        is_told: tell_fault(fault, err),
    }
}
