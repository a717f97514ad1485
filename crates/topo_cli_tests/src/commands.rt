//! Texts that the commands read, what they write then, and what is told of them.

use crate::streams::LentReader;
use std::alloc::Global;
use std::io::{Read, Write};
use std::process::Abort;
use std::rt::Clock;
use std::sync::Wait;
use std::test::Fail;
use std::thread::Threads;
use topo_cli::{Verb, answer};
use topo_io::RunFault;
use topo_io::reading::CountedReader;

pub(crate) const SCRIPT: &str = "{\"version\":1,\"workers\":[[[\"grow\",1,0,0],[\"grow\",1,1,7]]]}";

/// The report of the script, and the line of its replay.
pub(crate) const REPORT: &str = concat!(
    r#"{"history":[{"call":["grow",1,0,0],"caller":0,"reply":{"edge":1,"vertex":2}},"#,
    r#"{"call":["grow",1,1,7],"caller":0,"reply":{"edge":2,"vertex":3}}],"#,
    r#""limits":{"crossings":1048576,"edges":65536,"vertices":65536},"#,
    r#""picture":{"crossings":[],"edges":[{"a":0,"b":1,"crossings":[],"id":0,"kind":0},"#,
    r#"{"a":1,"b":2,"crossings":[],"id":1,"kind":0},{"a":1,"b":3,"crossings":[],"id":2,"#,
    r#""kind":7}],"next_crossing":0,"next_edge":3,"rotations":[[0],[0,2,1],[1],[2]]},"#,
    r#""prices":[],"start":{"crossings":[],"edges":[{"a":0,"b":1,"crossings":[],"id":0,"#,
    r#""kind":0}],"next_crossing":0,"next_edge":1,"rotations":[[0],[0]]},"version":1}"#,
    "\n"
);

pub(crate) const REPLAYED: &str = "replayed 2 calls\n";

/// Two edges that cross.
pub(crate) const CROSSED: &str = concat!(
    r#"{"crossings":[{"crossed":0,"id":0,"newcomer":1,"sign":"ltr"}],"edges":[{"a":0,"b":1,"#,
    r#""crossings":[0],"id":0,"kind":0},{"a":2,"b":3,"crossings":[0],"id":1,"kind":0}],"#,
    r#""next_crossing":1,"next_edge":2,"rotations":[[0],[0],[1],[1]]}"#,
);

/// The line of that picture.
pub(crate) const SIZE: &str = "lawful vertices=4 crossings=1 edges=2 segments=4 faces=1\n";

pub(crate) const GRAPH: &str = "{\"edges\":[[0,1,0]],\"version\":1,\"vertices\":3}";

/// What shows that graph.
pub(crate) const PLANARIZED: &str = concat!(
    r#"{"cost":0,"crossings":0,"lonely":[2],"parts":[{"edges":[0],"picture":{"crossings":[],"#,
    r#""edges":[{"a":0,"b":1,"crossings":[],"id":0,"kind":0}],"next_crossing":0,"#,
    r#""next_edge":1,"rotations":[[0],[0]]},"vertices":[0,1]}],"tries":[0]}"#,
    "\n"
);

/// Commands that read all before they write, a text that each reads, and what it writes then.
pub(crate) const COMMANDS: &[(Verb, &str, &str)] = &[
    (Verb::Run, SCRIPT, REPORT),
    (Verb::Replay, REPORT, REPLAYED),
    (Verb::Check, CROSSED, SIZE),
    (Verb::Planarize, GRAPH, PLANARIZED),
];

/// What a test hands on to what it calls.
pub(crate) trait TestRuntime: Threads + Wait + Clock + Abort + AllocGlobal + Sync {}

impl<R: Threads + Wait + Clock + Abort + AllocGlobal + Sync> TestRuntime for R {}

/// The command ends so on this reader and this writer, and tells nothing on the way.
pub(crate) fn ends<R: TestRuntime, I: Read, O: Write>(
    rt: &R,
    verb: Verb,
    reader: &mut I,
    writer: &mut O,
    due: Result<(), RunFault>,
) {
    let mut counted = CountedReader::new(LentReader { reader });
    let mut way: Vec<u8> = Vec::new(rt.alloc());
    let told = answer(rt, rt.alloc(), verb, &mut counted, writer, &mut way);
    assert!(rt; told == due, "{verb:?}: {told:?}");
    // Nothing is told on the way, since nobody asks for it.
    assert!(rt; way.is_empty());
}

/// The bytes are those of a text.
pub(crate) fn are_of(rt: &impl Abort, bytes: &[u8], text: &str) {
    assert!(rt; bytes == text.as_bytes());
}

/// The command ends so on this reader, and has written this text.
pub(crate) fn writes<R: TestRuntime, I: Read>(
    rt: &R,
    verb: Verb,
    reader: &mut I,
    due: Result<(), RunFault>,
    text: &str,
) {
    let mut written: Vec<u8> = Vec::new(rt.alloc());
    ends(rt, verb, reader, &mut written, due);
    are_of(rt, written.as_slice(), text);
}

/// A text with spaces after it, up to a length.
pub(crate) fn padded(alloc: Global, text: &str, len: usize) -> Result<Vec<u8>, Fail> {
    let mut bytes = Vec::from_slice(alloc, text.as_bytes())?;
    for _ in 0..len.saturating_sub(text.len()) {
        bytes.push(b' ')?;
    }
    Ok(bytes)
}

/// How many line feeds there are.
pub(crate) fn feeds(bytes: &[u8]) -> usize {
    bytes.iter().filter(|byte| **byte == b'\n').count()
}
