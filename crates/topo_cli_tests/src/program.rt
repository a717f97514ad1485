//! What the program does with the words of a command line: its status, and which bytes go where.

use crate::commands::{CROSSED, REPLAYED, REPORT, SCRIPT, SIZE, TestRuntime, are_of};
use crate::serving::{ANSWERS, SESSION};
use crate::streams::{
    BreakingReader, EndlessReader, FailingWriter, FullWriter, LentReader, SlowWriter,
};
use std::io::{Read, Write};
use std::process::Abort;
use topo_cli::program::WordsFault;
use topo_cli::{Outcome, perform, refuse};
use topo_io::reading::CountedReader;

/// What is said of a command that is not known.
const NO_COMMAND: &str = "\
error: unrecognized subcommand 'walk'

Usage: planar <COMMAND>

For more information, try '--help'.
";

/// What is said of an option that is not known.
const NO_OPTION: &str = "\
error: unexpected argument '--fast' found

Usage: planar run

For more information, try '--help'.
";

/// The summary of one command.
const HELP: &str = "\
Reads a picture and prints how large it is, where it is a lawful one

Usage: planar check

Options:
  -h, --help  Print help (see more with '--help')
";

/// A program that ends with this status, where standard error took all that it was given.
fn ends(status: u8) -> Outcome {
    Outcome {
        status,
        is_told: true,
    }
}

/// What the words on this input end the program with, and these texts are written.
fn check_row<R: TestRuntime>(rt: &R, words: &[&str], input: &str, wanted: (u8, &str, &str)) {
    let (status, written, told) = wanted;
    let mut out: Vec<u8> = Vec::new(rt.alloc());
    let mut err: Vec<u8> = Vec::new(rt.alloc());
    let outcome = perform(
        rt,
        rt.alloc(),
        words,
        &mut CountedReader::new(input.as_bytes()),
        &mut out,
        &mut err,
    );
    are_of(rt, out.as_slice(), written);
    are_of(rt, err.as_slice(), told);
    assert!(rt; outcome == ends(status));
}

/// The name of a command, its input, the status, and what is written to the two writers.
type Row = (&'static str, &'static str, (u8, &'static str, &'static str));

const ROWS: &[Row] = &[
    ("run", SCRIPT, (0, REPORT, "")),
    ("replay", REPORT, (0, REPLAYED, "")),
    ("check", CROSSED, (0, SIZE, "")),
    ("serve", SESSION, (0, ANSWERS, "")),
    // inputs that are at fault
    ("run", "{", (1, "", "planar: 50 NotJson\n")),
    ("run", "{}", (1, "", "planar: 52 BadShape $/version\n")),
    ("replay", SCRIPT, (1, "", "planar: 52 BadShape $\n")),
    ("serve", SCRIPT, (1, "", "planar: 52 BadShape $\n")),
    ("check", "{}", (1, "", "planar: 52 BadShape $/crossings\n")),
    // a command that is not known
    ("walk", SCRIPT, (2, "", NO_COMMAND)),
    // the version: nothing is read
    ("--version", SCRIPT, (0, "planar 0.5.0\n", "")),
    ("-V", "{", (0, "planar 0.5.0\n", "")),
];

#[test]
fn commands(rt: HostRuntime) {
    for (name, input, wanted) in ROWS {
        check_row(&rt, &["planar", *name], *input, *wanted);
    }
}

/// The words cannot be read: the program ends with this status, and tells this.
fn check_refused(rt: &(impl Abort + AllocGlobal), fault: WordsFault, status: u8, told: &str) {
    let mut err: Vec<u8> = Vec::new(rt.alloc());
    let outcome = refuse(fault, &mut err);
    are_of(rt, err.as_slice(), told);
    assert!(rt; outcome == ends(status));
}

/// What is told of words that are no text.
const NOT_TEXT: &str = "planar: the words of the command line are not UTF-8\n";

#[test]
fn words_that_are_refused(rt: HostRuntime) {
    check_row(
        &rt,
        &["planar", "run", "--fast"],
        SCRIPT,
        (2, "", NO_OPTION),
    );
    check_row(&rt, &["planar", "check", "-h"], CROSSED, (2, "", HELP));
    check_refused(&rt, WordsFault::NotText, 2, NOT_TEXT);
    check_refused(&rt, WordsFault::Memory, 3, "planar: 8 Memory\n");
}

/// A run of the script with these writers ends so.
fn run_ends<R: TestRuntime, O: Write, E: Write>(rt: &R, out: &mut O, err: &mut E, due: Outcome) {
    word_ends(rt, "run", out, err, due);
}

/// What the word asks for, over the script and with these writers, ends so.
fn word_ends<R: TestRuntime, O: Write, E: Write>(
    rt: &R,
    word: &str,
    out: &mut O,
    err: &mut E,
    due: Outcome,
) {
    let mut reader = CountedReader::new(SCRIPT.as_bytes());
    let outcome = perform(rt, rt.alloc(), &["planar", word], &mut reader, out, err);
    assert!(rt; outcome == due);
}

/// A run on this reader ends with status 1, writes nothing, and tells this fault.
fn check_reader<R: TestRuntime, I: Read>(rt: &R, reader: &mut I, told: &str) {
    let mut out: Vec<u8> = Vec::new(rt.alloc());
    let mut err: Vec<u8> = Vec::new(rt.alloc());
    let outcome = perform(
        rt,
        rt.alloc(),
        &["planar", "run"],
        &mut CountedReader::new(LentReader { reader }),
        &mut out,
        &mut err,
    );
    are_of(rt, out.as_slice(), "");
    are_of(rt, err.as_slice(), told);
    assert!(rt; outcome == ends(1));
}

#[test]
fn broken_readers(rt: HostRuntime) {
    for turns in 0..=SCRIPT.len() {
        let mut reader = BreakingReader::new(SCRIPT.as_bytes(), turns);
        check_reader(&rt, &mut reader, "planar: 55 ReadFault\n");
    }
    check_reader(&rt, &mut EndlessReader { given: 0 }, "planar: 51 TooLong\n");
}

/// Where the first writer has so much room, the second tells that it failed.
fn check_room<R: TestRuntime>(rt: &R, room: usize) {
    let mut out = FailingWriter::new(rt.alloc(), room);
    let mut err = SlowWriter::new(rt.alloc(), 1);
    run_ends(rt, &mut out, &mut err, ends(1));
    let kept = out.kept.as_slice();
    assert!(rt; kept.len() == room && REPORT.as_bytes().starts_with(kept));
    are_of(rt, err.kept.as_slice(), "planar: 56 WriteFault\n");
    assert!(rt; err.passed_on == err.kept.len());
}

#[test]
fn broken_writers(rt: HostRuntime) {
    for room in [0, 1, 100] {
        check_room(&rt, room);
    }
    let untold = Outcome {
        status: 1,
        is_told: false,
    };
    let mut err = FailingWriter::new(rt.alloc(), 10);
    run_ends(&rt, &mut FullWriter, &mut err, untold);
    are_of(&rt, err.kept.as_slice(), "planar: 56");
}

#[test]
fn a_run_that_tells_nothing(rt: HostRuntime) {
    let mut out = SlowWriter::new(rt.alloc(), 1);
    run_ends(&rt, &mut out, &mut FullWriter, ends(0));
    are_of(&rt, out.kept.as_slice(), REPORT);
    assert!(rt; out.passed_on == REPORT.len());
}

#[test]
fn a_version_that_is_lost(rt: HostRuntime) {
    let mut err: Vec<u8> = Vec::new(rt.alloc());
    word_ends(&rt, "--version", &mut FullWriter, &mut err, ends(1));
    are_of(&rt, err.as_slice(), "planar: 56 WriteFault\n");
}
