//! The command `serve` on readers and writers that are slow or break, and on lines that are no
//! text, are too long, or have no line feed.

use crate::commands::{SCRIPT, TestRuntime, are_of, ends, feeds, padded, writes};
use crate::streams::{BreakingReader, FailingWriter, FullWriter, SlowReader, SlowWriter};
use std::alloc::Global;
use std::test::Fail;
use topo_cli::Verb;
use topo_io::RunFault;
use topo_script::ScriptFault;
use topo_script::path::JsonPath;

/// The greatest number of bytes that a line has, but the first.
const LONGEST: usize = 65_536;

/// A session, and the answers to its lines.
pub(crate) const SESSION: &str = "\
{\"version\":1}
[\"grow\",1,0,1]
[\"insert\",0,2,0]
[\"insert\",0,0,0]
[\"delete\",9
[\"delete\",1]
\"counts\"
";

pub(crate) const ANSWERS: &str = "\
{\"crossings\":0,\"edges\":1,\"faces\":1,\"segments\":1,\"vertices\":2}
{\"edge\":1,\"vertex\":2}
{\"crossed\":[],\"edge\":2,\"end\":0,\"price\":0,\"start\":0}
{\"refused\":[2,\"SameEnds\"]}
{\"fault\":[50,\"NotJson\"]}
{\"deleted\":1}
{\"crossings\":0,\"edges\":2,\"faces\":1,\"segments\":2,\"vertices\":3}
";

const OPENED: &str = "{\"crossings\":0,\"edges\":1,\"faces\":1,\"segments\":1,\"vertices\":2}\n";

/// The first lines of the answers, so many of them.
fn first_answers(alloc: Global, count: usize) -> Result<String, Fail> {
    let mut text = String::new(alloc);
    for line in ANSWERS.lines().take(count) {
        text.push_str(line)?;
        text.push_str("\n")?;
    }
    Ok(text)
}

/// Checks that a session answers what is read with these answers.
fn check_session<R: TestRuntime>(rt: &R, read: &[u8], answers: &str) {
    let mut reader = read;
    writes(rt, Verb::Serve, &mut reader, Ok(()), answers);
}

#[test]
fn sessions(rt: HostRuntime) -> Result<(), Fail> {
    check_session(&rt, SESSION.as_bytes(), ANSWERS);
    check_session(&rt, SESSION.trim_end().as_bytes(), ANSWERS);
    check_session(&rt, b"{\"version\":1}", OPENED);
    let told = format!(in rt.alloc(); "{OPENED}{{\"fault\":[50,\"NotJson\"]}}\n{OPENED}")?;
    let not_text = b"{\"version\":1}\n[\"grow\",1,0,\xff]\n\"counts\"\n";
    check_session(&rt, not_text, told.as_str());
    drop(told);
    Ok(())
}

#[test]
fn slow_streams(rt: HostRuntime) {
    let mut slow = SlowReader::new(SESSION.as_bytes());
    let mut writer = SlowWriter::new(rt.alloc(), 1);
    ends(&rt, Verb::Serve, &mut slow, &mut writer, Ok(()));
    are_of(&rt, writer.kept.as_slice(), ANSWERS);
    assert!(rt; writer.passed_on == ANSWERS.len());
}

#[test]
fn sessions_whose_readers_break(rt: HostRuntime) -> Result<(), Fail> {
    for turns in 0..SESSION.len() + 1 {
        let due = first_answers(rt.alloc(), feeds(&SESSION.as_bytes()[..turns]))?;
        let mut reader = BreakingReader::new(SESSION.as_bytes(), turns);
        writes(
            &rt,
            Verb::Serve,
            &mut reader,
            Err(RunFault::ReadFault),
            due.as_str(),
        );
        drop(due);
    }
    Ok(())
}

#[test]
fn sessions_whose_writers_break(rt: HostRuntime) {
    let fault = RunFault::WriteFault;
    for room in 0..ANSWERS.len() {
        let mut writer = FailingWriter::new(rt.alloc(), room);
        ends(
            &rt,
            Verb::Serve,
            &mut SESSION.as_bytes(),
            &mut writer,
            Err(fault),
        );
        assert!(rt; writer.kept.as_slice() == &ANSWERS.as_bytes()[..room]);
    }
    ends(
        &rt,
        Verb::Serve,
        &mut SESSION.as_bytes(),
        &mut FullWriter,
        Err(fault),
    );
    let mut stuck = SlowWriter::stuck(rt.alloc());
    ends(
        &rt,
        Verb::Serve,
        &mut SESSION.as_bytes(),
        &mut stuck,
        Err(fault),
    );
    are_of(&rt, stuck.kept.as_slice(), OPENED);
}

#[test]
fn first_lines_that_open_nothing(rt: HostRuntime) {
    for (read, fault) in [
        ("", ScriptFault::NotJson),
        ("\n{\"version\":1}\n", ScriptFault::NotJson),
        (SCRIPT, ScriptFault::BadShape(JsonPath::WHOLE)),
    ] {
        writes(
            &rt,
            Verb::Serve,
            &mut read.as_bytes(),
            Err(RunFault::Script(fault)),
            "",
        );
    }
}

/// A session with a request behind so many spaces, and another.
fn session_behind(alloc: Global, spaces: usize) -> Result<Vec<u8>, Fail> {
    let opening = "{\"version\":1}\n";
    let mut bytes = padded(alloc, opening, spaces.saturating_add(opening.len()))?;
    bytes.extend_from_slice(b"\"counts\"\n\"counts\"\n")?;
    Ok(bytes)
}

/// The session with so many spaces is answered by the counts of the start, by this, and by the
/// counts again.
fn is_answered_behind<R: TestRuntime>(rt: &R, spaces: usize, told: &str) -> Result<(), Fail> {
    let session = session_behind(rt.alloc(), spaces)?;
    let answers = format!(in rt.alloc(); "{OPENED}{told}{OPENED}");
    if let Ok(answers) = &answers {
        check_session(rt, session.as_slice(), answers.as_str());
    }
    drop(session);
    drop(answers?);
    Ok(())
}

#[test]
fn long_lines(rt: HostRuntime) -> Result<(), Fail> {
    is_answered_behind(&rt, LONGEST - 8, OPENED)?;
    is_answered_behind(&rt, LONGEST - 7, "{\"fault\":[51,\"TooLong\"]}\n")
}
