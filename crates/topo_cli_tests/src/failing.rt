//! The commands on readers and writers that are slow, fail, or have no end, and at the greatest
//! length.

use crate::commands::{COMMANDS, REPORT, SCRIPT, TestRuntime, are_of, ends, padded, writes};
use crate::streams::{
    BreakingReader, EndlessReader, FailingStream, FailingWriter, FullWriter, InterruptedWriter,
    NeverReader, SlowReader, SlowWriter,
};
use std::io::ErrorKind;
use std::test::Fail;
use topo_cli::Verb;
use topo_io::RunFault;
use topo_script::ScriptFault;

/// The greatest number of bytes that a script may have.
const LONGEST: usize = 1_048_576;

/// A script with spaces behind it is read up to this length.
fn is_read_slowly<R: TestRuntime>(rt: &R, longest: &[u8]) {
    let mut slow = SlowReader::new(longest);
    writes(rt, Verb::Run, &mut slow, Ok(()), REPORT);
    assert_eq!(rt; slow.calls, 2 * 1_048_576 + 2);
}

/// What is told of a text that is too long.
const TOO_LONG: RunFault = RunFault::Script(ScriptFault::TooLong);

#[test]
fn lengths(rt: HostRuntime) -> Result<(), Fail> {
    let longest = padded(rt.alloc(), SCRIPT, LONGEST)?;
    is_read_slowly(&rt, longest.as_slice());
    drop(longest);
    let too_long = padded(rt.alloc(), SCRIPT, LONGEST + 1)?;
    writes(&rt, Verb::Run, &mut too_long.as_slice(), Err(TOO_LONG), "");
    drop(too_long);
    Ok(())
}

/// The commands that end by themselves, and the most calls of a reader that each makes: twice the
/// bytes that its text may have, and two.
const MOST_CALLS: &[(Verb, u64)] = &[
    (Verb::Run, 2 * 1_048_576 + 2),
    (Verb::Replay, 2 * 268_435_456 + 2),
    (Verb::Check, 2 * 268_435_456 + 2),
];

#[test]
fn readers_without_an_end(rt: HostRuntime) {
    for (verb, most) in MOST_CALLS {
        let mut never = NeverReader { calls: 0 };
        writes(&rt, *verb, &mut never, Err(RunFault::ReadFault), "");
        assert_eq!(rt; never.calls, *most);
    }
    let mut endless = EndlessReader { given: 0 };
    writes(&rt, Verb::Run, &mut endless, Err(TOO_LONG), "");
    assert_eq!(rt; endless.given, LONGEST + 1);
}

#[test]
fn slow_readers(rt: HostRuntime) {
    for (verb, read, due) in COMMANDS {
        let mut slow = SlowReader::new(read.as_bytes());
        writes(&rt, *verb, &mut slow, Ok(()), *due);
    }
}

#[test]
fn failing_readers(rt: HostRuntime) {
    for (verb, read, _) in COMMANDS {
        let mut broken = SlowReader::broken(read.as_bytes());
        writes(&rt, *verb, &mut broken, Err(RunFault::ReadFault), "");
    }
}

/// A command whose writer has so much room fails, and leaves the writer with the first bytes of the
/// text, and no others.
fn is_cut<R: TestRuntime>(rt: &R, verb: Verb, read: &str, due: &str, room: usize) {
    let mut writer = FailingWriter::new(rt.alloc(), room);
    ends(
        rt,
        verb,
        &mut read.as_bytes(),
        &mut writer,
        Err(RunFault::WriteFault),
    );
    let kept = writer.kept.as_slice();
    assert!(rt; kept.len() == room && due.as_bytes().starts_with(kept));
}

#[test]
fn failing_writers(rt: HostRuntime) {
    for (verb, read, due) in COMMANDS {
        // no byte, one, and a hundred or all but the last
        for room in [0, 1, due.len().min(101).saturating_sub(1)] {
            is_cut(&rt, *verb, *read, *due, room);
        }
    }
}

#[test]
fn writers_with_just_enough_room(rt: HostRuntime) {
    for (verb, read, due) in COMMANDS {
        let mut writer = FailingWriter::new(rt.alloc(), due.len());
        ends(&rt, *verb, &mut read.as_bytes(), &mut writer, Ok(()));
        are_of(&rt, writer.kept.as_slice(), *due);
    }
}

#[test]
fn readers_that_break(rt: HostRuntime) {
    for (verb, read, _) in COMMANDS {
        for turns in 0..=read.len() {
            let mut reader = BreakingReader::new(read.as_bytes(), turns);
            writes(&rt, *verb, &mut reader, Err(RunFault::ReadFault), "");
        }
    }
    let mut reader = BreakingReader::new(SCRIPT.as_bytes(), SCRIPT.len() + 1);
    writes(&rt, Verb::Run, &mut reader, Ok(()), REPORT);
}

/// A command whose writer is interrupted so often writes all of the text, and lets it be passed on.
fn is_written_slowly<R: TestRuntime>(
    rt: &R,
    verb: Verb,
    read: &str,
    due: &str,
    interruptions: u32,
) {
    let mut writer = SlowWriter::new(rt.alloc(), interruptions);
    ends(rt, verb, &mut read.as_bytes(), &mut writer, Ok(()));
    are_of(rt, writer.kept.as_slice(), due);
    assert!(rt; writer.passed_on == due.len());
}

#[test]
fn slow_writers(rt: HostRuntime) {
    for interruptions in [1, 5] {
        for (verb, read, due) in COMMANDS {
            is_written_slowly(&rt, *verb, *read, *due, interruptions);
        }
    }
}

/// The kinds of failures that are no interruption, and after which nothing is tried again.
const FAILURES: &[ErrorKind] = &[
    ErrorKind::WouldBlock,
    ErrorKind::TimedOut,
    ErrorKind::UnexpectedEof,
    ErrorKind::BrokenPipe,
];

#[test]
fn a_failed_stream_is_not_asked_again(rt: HostRuntime) {
    for kind in FAILURES {
        let mut reader = FailingStream::new(*kind);
        writes(&rt, Verb::Run, &mut reader, Err(RunFault::ReadFault), "");
        assert!(rt; reader.calls == 1);
        let mut writer = FailingStream::new(*kind);
        let fault = RunFault::WriteFault;
        ends(
            &rt,
            Verb::Run,
            &mut SCRIPT.as_bytes(),
            &mut writer,
            Err(fault),
        );
        assert!(rt; writer.calls == 1);
    }
}

/// A text is written in one call, if the writer takes it, and an interrupted flush is no end.
#[test]
fn a_writer_that_is_interrupted_at_the_end(rt: HostRuntime) {
    let mut writer = InterruptedWriter { calls: 0 };
    let fault = RunFault::WriteFault;
    ends(
        &rt,
        Verb::Run,
        &mut SCRIPT.as_bytes(),
        &mut writer,
        Err(fault),
    );
    assert!(rt; writer.calls == 1);
}

#[test]
fn writers_that_take_nothing(rt: HostRuntime) {
    let fault = RunFault::WriteFault;
    for (verb, read, _) in COMMANDS {
        ends(
            &rt,
            *verb,
            &mut read.as_bytes(),
            &mut FullWriter,
            Err(fault),
        );
    }
    let mut stuck = SlowWriter::stuck(rt.alloc());
    ends(
        &rt,
        Verb::Run,
        &mut SCRIPT.as_bytes(),
        &mut stuck,
        Err(fault),
    );
    are_of(&rt, stuck.kept.as_slice(), REPORT);
}
