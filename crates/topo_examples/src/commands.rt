//! The commands that a row can ask for, each carried out on the bytes that it reads.

use std::alloc::{AllocError, Global};
use std::fmt::Display;
use std::sync::Wait;
use std::thread::Threads;
use topo_check::{check_bytes, check_io, replay_bytes, replay_io};
use topo_core::rows::Rows;
use topo_io::reading::CountedReader;
use topo_run::{OpenGate, run_io};
use topo_script::{Report, ScriptFault, picture_text, read_report, read_rows, read_script, report};
use topo_serve::serve_io;

/// What is done with the bytes of a row.
#[derive(Clone, Copy)]
pub(crate) enum Verb {
    /// The script is run.
    Run,
    /// The script is run, and its report is replayed.
    RunAndReplay,
    /// The script is run, and the calls of each caller in its report are counted.
    RunAndCount,
    /// The script is run, and the picture at the end of its report is checked.
    RunAndCheck,
    /// The report is replayed.
    Replay,
    /// The picture is checked.
    Check,
    /// The picture at the start of the report is checked.
    CheckStart,
    /// The picture at the end of the report is checked.
    CheckEnd,
    /// The lines are served.
    Serve,
    /// The script is only read.
    ReadScript,
    /// The report is only read.
    ReadReport,
    /// The report is read and written again.
    RewriteReport,
    /// The picture is read and written again.
    RewritePicture,
}

impl Verb {
    /// The command of this name.
    pub(crate) fn from_name(name: &str) -> Option<Self> {
        match name {
            "run" => Some(Verb::Run),
            "run and replay" => Some(Verb::RunAndReplay),
            "run and count" => Some(Verb::RunAndCount),
            "run and check" => Some(Verb::RunAndCheck),
            "replay" => Some(Verb::Replay),
            "check" => Some(Verb::Check),
            "check start" => Some(Verb::CheckStart),
            "check end" => Some(Verb::CheckEnd),
            "serve" => Some(Verb::Serve),
            "read script" => Some(Verb::ReadScript),
            "read report" => Some(Verb::ReadReport),
            "rewrite report" => Some(Verb::RewriteReport),
            "rewrite picture" => Some(Verb::RewritePicture),
            _ => None,
        }
    }

    /// What the command prints on these bytes: what it writes, or its fault.
    pub(crate) fn printed<R: Threads + Wait + Sync>(
        self,
        rt: &R,
        alloc: Global,
        bytes: &[u8],
    ) -> Result<Vec<u8>, AllocError> {
        match self {
            Verb::Run => run(rt, alloc, bytes),
            Verb::RunAndReplay => replay(alloc, run(rt, alloc, bytes)?.as_slice()),
            Verb::RunAndCount => count_calls(alloc, run(rt, alloc, bytes)?.as_slice()),
            Verb::RunAndCheck => check_end(alloc, run(rt, alloc, bytes)?.as_slice()),
            Verb::Replay => replay(alloc, bytes),
            Verb::Check => check(alloc, bytes),
            Verb::CheckStart => check_start(alloc, bytes),
            Verb::CheckEnd => check_end(alloc, bytes),
            Verb::Serve => serve(alloc, bytes),
            Verb::ReadScript => read(alloc, read_script(alloc, bytes)),
            Verb::ReadReport => read(alloc, read_report(alloc, bytes)),
            Verb::RewriteReport => rewrite_report(alloc, bytes),
            Verb::RewritePicture => rewrite_picture(alloc, bytes),
        }
    }
}

/// What a command printed: what was written where it came to its end, and else the fault, before
/// which nothing is to be written.
fn told<E: Display + Drop>(
    alloc: Global,
    ended: Result<(), E>,
    written: Vec<u8>,
) -> Result<Vec<u8>, AllocError> {
    match ended {
        Ok(()) => Ok(written),
        Err(fault) => {
            let before = if written.is_empty() {
                ""
            } else {
                "after a text: "
            };
            line_of(format!(in alloc; "{before}{fault}")?)
        }
    }
}

/// What a command printed, if the function on bytes that does the same answers just that, and else
/// both.
fn same_on_bytes<E: Display + Drop>(
    alloc: Global,
    printed: Vec<u8>,
    answer: Result<String, E>,
) -> Result<Vec<u8>, AllocError> {
    let line = match answer {
        Ok(line) => line.into_bytes(),
        Err(fault) => line_of(format!(in alloc; "{fault}")?)?,
    };
    let mut seen = printed;
    if seen.as_slice() != line.as_slice() {
        seen.extend_from_slice(b"on bytes: ")?;
        seen.extend_from_slice(line.as_slice())?;
    }
    Ok(seen)
}

fn run<R: Threads + Wait + Sync>(
    rt: &R,
    alloc: Global,
    bytes: &[u8],
) -> Result<Vec<u8>, AllocError> {
    let mut reader = CountedReader::new(bytes);
    let mut written: Vec<u8> = Vec::new(alloc);
    let ended = run_io(rt, alloc, &mut reader, &mut written, &OpenGate);
    told(alloc, ended, written)
}

fn replay(alloc: Global, bytes: &[u8]) -> Result<Vec<u8>, AllocError> {
    let mut reader = CountedReader::new(bytes);
    let mut written: Vec<u8> = Vec::new(alloc);
    let ended = replay_io(alloc, &mut reader, &mut written);
    let printed = told(alloc, ended, written)?;
    same_on_bytes(alloc, printed, replay_bytes(alloc, bytes))
}

fn check(alloc: Global, bytes: &[u8]) -> Result<Vec<u8>, AllocError> {
    let mut reader = CountedReader::new(bytes);
    let mut written: Vec<u8> = Vec::new(alloc);
    let ended = check_io(alloc, &mut reader, &mut written);
    let printed = told(alloc, ended, written)?;
    same_on_bytes(alloc, printed, check_bytes(alloc, bytes))
}

fn serve(alloc: Global, bytes: &[u8]) -> Result<Vec<u8>, AllocError> {
    let mut reader = bytes;
    let mut written: Vec<u8> = Vec::new(alloc);
    let ended = serve_io(alloc, &mut reader, &mut written);
    told(alloc, ended, written)
}

/// How many calls a caller has in a report.
fn calls_of(made: &Report, caller: u32) -> usize {
    made.history
        .as_slice()
        .iter()
        .filter(|entry| entry.caller == caller)
        .count()
}

/// The numbers of calls of the callers of a report, from caller 0 to the last that has any.
fn count_calls(alloc: Global, bytes: &[u8]) -> Result<Vec<u8>, AllocError> {
    let made = match read_report(alloc, bytes) {
        Ok(made) => made,
        Err(fault) => return line_of(format!(in alloc; "{fault}")?),
    };
    let mut line = String::from_str(alloc, "calls")?;
    let mut counted = 0;
    for caller in 0..16 {
        if counted < made.history.len() {
            let calls = calls_of(&made, caller);
            counted = calls.saturating_add(counted);
            line.push_str(format!(in alloc; " {calls}")?.as_str())?;
        }
    }
    line_of(line)
}

fn check_start(alloc: Global, bytes: &[u8]) -> Result<Vec<u8>, AllocError> {
    match read_report(alloc, bytes) {
        Ok(made) => check_rows(alloc, &made.start),
        Err(fault) => line_of(format!(in alloc; "{fault}")?),
    }
}

fn check_end(alloc: Global, bytes: &[u8]) -> Result<Vec<u8>, AllocError> {
    match read_report(alloc, bytes) {
        Ok(made) => check_rows(alloc, &made.picture),
        Err(fault) => line_of(format!(in alloc; "{fault}")?),
    }
}

/// Checks the text of a picture.
fn check_rows(alloc: Global, rows: &Rows) -> Result<Vec<u8>, AllocError> {
    let text = picture_text(alloc, rows)?;
    check(alloc, text.as_bytes())
}

/// The line for a form that was only read.
fn read<T: Drop>(alloc: Global, read: Result<T, ScriptFault>) -> Result<Vec<u8>, AllocError> {
    match read {
        Ok(_) => line_of(String::from_str(alloc, "read")?),
        Err(fault) => line_of(format!(in alloc; "{fault}")?),
    }
}

fn rewrite_report(alloc: Global, bytes: &[u8]) -> Result<Vec<u8>, AllocError> {
    match read_report(alloc, bytes) {
        Ok(made) => line_of(report(alloc, &made)?),
        Err(fault) => line_of(format!(in alloc; "{fault}")?),
    }
}

fn rewrite_picture(alloc: Global, bytes: &[u8]) -> Result<Vec<u8>, AllocError> {
    match read_rows(alloc, bytes) {
        Ok(rows) => line_of(picture_text(alloc, &rows)?),
        Err(fault) => line_of(format!(in alloc; "{fault}")?),
    }
}

/// The bytes of a text and a line feed.
fn line_of(text: String) -> Result<Vec<u8>, AllocError> {
    let mut line = text;
    line.push_str("\n")?;
    Ok(line.into_bytes())
}
