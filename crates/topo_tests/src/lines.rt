//! Lines of sessions, read.

use std::alloc::{AllocError, Global};
use std::process::Abort;
use std::test::Fail;
use topo_script::lines::{MAX_ID_BYTES, MAX_LINE_BYTES};
use topo_script::{Asked, Frame, Line, LineId, Request, ScriptFault, read_command, read_line};

/// How a line asks: its id stands behind the word.
fn frame_text(alloc: Global, frame: &Frame) -> Result<String, AllocError> {
    match frame {
        Frame::Opening => String::from_str(alloc, "opening"),
        Frame::Bare => String::from_str(alloc, "bare"),
        Frame::Envelope(None) => String::from_str(alloc, "envelope"),
        Frame::Envelope(Some(LineId::Text(id))) => {
            let text = id.as_str();
            format!(in alloc; "envelope '{text}'")
        }
        Frame::Envelope(Some(LineId::Number(id))) => format!(in alloc; "envelope {id}"),
    }
}

/// The caller and what is asked for. Of an opening it is how many prices it has, of a report how
/// many entries, and of a graph how many edges.
fn asked_text(alloc: Global, asked: &Asked) -> Result<String, AllocError> {
    let caller = asked.caller;
    match &asked.request {
        Request::Open(opening) => {
            let count = opening.prices.len();
            format!(in alloc; "{caller} open with {count} prices")
        }
        Request::Reopen(report) => {
            let count = report.history.len();
            format!(in alloc; "{caller} reopen with {count} entries")
        }
        Request::Planarize(graph) => {
            let count = graph.edges.len();
            format!(in alloc; "{caller} planarize {count} edges")
        }
        request => format!(in alloc; "{caller} {request:?}"),
    }
}

/// What is asked for, or the fault.
fn outcome_text(alloc: Global, outcome: &Result<Asked, ScriptFault>) -> Result<String, AllocError> {
    match outcome {
        Ok(asked) => asked_text(alloc, asked),
        Err(fault) => format!(in alloc; "{fault}"),
    }
}

/// What a line is.
fn line_text(alloc: Global, line: &Line) -> Result<String, AllocError> {
    let frame = frame_text(alloc, &line.frame)?;
    let outcome = outcome_text(alloc, &line.asked)?;
    format!(in alloc; "{frame} {outcome}")
}

/// What bytes are read as.
fn read_text(alloc: Global, first: bool, bytes: &[u8]) -> Result<String, AllocError> {
    let line = read_line(alloc, first, bytes);
    let text = line_text(alloc, &line);
    drop(line);
    text
}

/// The rows of an edge.
const ROWS: &str = concat!(
    r#"{"crossings":[],"edges":[{"a":0,"b":1,"crossings":[],"id":0,"kind":0}],"#,
    r#""next_crossing":0,"next_edge":1,"rotations":[[0],[0]]}"#,
);

/// First lines, and what they are read as.
const FIRST: &[(&str, &str)] = &[
    (r#"{"version":1}"#, "opening 0 open with 0 prices"),
    (
        r#" {"v\u0065rsion":2,"prices":[null,3]}"#,
        "opening 0 open with 2 prices",
    ),
    (
        r#"{"version":2,"prices":[null,3]}"#,
        "opening 0 open with 2 prices",
    ),
    (r#"{"version":1,"call":2}"#, "envelope 52 BadShape $"),
    (r#"{"version":1,"open":2}"#, "bare 52 BadShape $"),
    (r#"{"version":1,"x":2}"#, "opening 52 BadShape $"),
    (r#"{"version":3}"#, "opening 53 BadVersion"),
    ("{}", "opening 52 BadShape $/version"),
    ("", "opening 50 NotJson"),
    (r#""about""#, "bare 0 About"),
    (r#""counts""#, "opening 52 BadShape $"),
    (r#"["delete",1]"#, "opening 52 BadShape $"),
    (r#"{"open":{"version":1}}"#, "bare 0 open with 0 prices"),
    (
        r#"{"reopen":{"version":1}}"#,
        "bare 52 BadShape $/reopen/history",
    ),
    (r#"{"reopen":1,"version":1}"#, "bare 52 BadShape $"),
    (r#"{"call":"counts"}"#, "envelope 0 Counts"),
];

/// Later lines without an envelope, and what they are read as.
const BARE: &[(&str, &str)] = &[
    (
        r#"["grow",1,2,3]"#,
        "0 Carry(Plain(Grow { u: 1, position: 2, kind: 3 }))",
    ),
    (
        r#"[ "insert",1,2,3]"#,
        "0 Carry(Plain(Insert { u: 1, v: 2, kind: 3 }))",
    ),
    (
        r#"["planned",1,2,3]"#,
        "0 Carry(Planned { u: 1, v: 2, kind: 3 })",
    ),
    (r#"["d\u0065lete",1]"#, "0 Carry(Plain(Delete { edge: 1 }))"),
    (r#""about""#, "0 About"),
    (r#""counts""#, "0 Counts"),
    (r#""picture""#, "0 Picture"),
    (r#""report""#, "0 Report"),
    (r#""reports""#, "52 BadShape $"),
    (r#"["route",1,2]"#, "0 Route { u: 1, v: 2 }"),
    (r#"["route",1,-2]"#, "54 BadNumber $/2"),
    (r#"["route",1]"#, "52 BadShape $"),
    (r#"["edge",1]"#, "0 Edge(1)"),
    (r#"["edge","x"]"#, "52 BadShape $/1"),
    (r#"["edge",1,2]"#, "52 BadShape $"),
    (r#"["vertex",1]"#, "0 Vertex(1)"),
    (r#"["vertex",4294967296]"#, "54 BadNumber $/1"),
    (
        r#"["face",1,2,"back"]"#,
        "0 Face(Dart { edge: EdgeId(1), seg: 2, way: Back })",
    ),
    (r#"["face",1,2,"left"]"#, "52 BadShape $/3"),
    (r#"["face",1,2]"#, "52 BadShape $"),
    (r#"["undo",3]"#, "0 Undo(3)"),
    (r#"["undo",-1]"#, "54 BadNumber $/1"),
    (r#"["undo"]"#, "52 BadShape $"),
    (r#""forget""#, "0 Forget"),
    (r#""renumber""#, "0 Renumber"),
    (
        r#"{"open":{"version":2,"prices":[null]}}"#,
        "0 open with 1 prices",
    ),
    (r#"{"open":{"version":1},"reopen":1}"#, "52 BadShape $"),
    (r#"{"open":{"version":1},"x":1}"#, "52 BadShape $"),
    (r#"{"open":{"version":1,"x":1}}"#, "52 BadShape $/open"),
    (r#"{"open":{"version":3}}"#, "53 BadVersion"),
    (r#"{"version":1}"#, "52 BadShape $"),
    ("", "50 NotJson"),
];

/// Envelopes, and what they are read as.
const ENVELOPES: &[(&str, &str)] = &[
    (r#"{"call":"counts"}"#, "0 Counts"),
    (r#"{"call":"counts","call":"report"}"#, "0 Report"),
    (r#"{"caller":15,"call":["edge",2]}"#, "15 Edge(2)"),
    (
        r#"{"id":"a\u00e9\n","call":"about"}"#,
        "'a\u{e9}\n' 0 About",
    ),
    (r#"{"id":"","call":"about"}"#, "'' 0 About"),
    (r#"{"id":4294967295,"call":"about"}"#, "4294967295 0 About"),
    (r#"{"id":4294967296,"call":"about"}"#, "54 BadNumber $/id"),
    (r#"{"id":null,"call":"about"}"#, "52 BadShape $/id"),
    (
        r#"{"id":1,"caller":16,"call":"about"}"#,
        "1 54 BadNumber $/caller",
    ),
    (
        r#"{"id":1,"caller":"0","call":"x"}"#,
        "1 52 BadShape $/caller",
    ),
    (r#"{"id":1,"call":"x"}"#, "1 52 BadShape $/call"),
    (
        r#"{"id":1,"call":{"call":"about"}}"#,
        "1 52 BadShape $/call",
    ),
    (
        r#"{"id":1,"call":["face",1,2,3]}"#,
        "1 52 BadShape $/call/3",
    ),
    (r#"{"id":1,"x":1,"call":"about"}"#, "52 BadShape $"),
    (
        concat!(
            r#"{"call":{"open":{"version":1,"start":{"crossings":[],"edges":[{"a":0,"b":1,"#,
            r#""crossings":[0.5],"id":0,"kind":0}],"next_crossing":0,"next_edge":1,"#,
            r#""rotations":[[0],[0]]}}},"id":"x"}"#,
        ),
        "'x' 54 BadNumber $/call/open/start/edges/0/crossings/0",
    ),
    (
        concat!(
            r#"{"call":{"reopen":{"history":[{"call":["delete",0],"caller":0,"reply":"#,
            r#"{"crossed":[[0,0,1]],"edge":0,"end":0,"price":0,"start":0}}],"limits":0,"#,
            r#""picture":0,"prices":0,"start":0,"version":1}}}"#,
        ),
        "52 BadShape $/call/reopen/history/0/reply/crossed/0/2",
    ),
];

/// Each line is read as what stands behind it, which the word begins.
fn check_rows<R: Abort>(
    rt: &R,
    alloc: Global,
    first: bool,
    word: &str,
    rows: &[(&str, &str)],
) -> Result<(), Fail> {
    for (text, due) in rows {
        let read = read_text(alloc, first, text.as_bytes())?;
        let due = format!(in alloc; "{word}{due}")?;
        assert!(rt; read.as_str() == due.as_str(), "{text}: {read}");
    }
    Ok(())
}

#[test]
fn lines_with_and_without_envelopes(rt: HostRuntime) -> Result<(), Fail> {
    check_rows(&rt, rt.alloc(), true, "", FIRST)?;
    check_rows(&rt, rt.alloc(), false, "bare ", BARE)?;
    check_rows(&rt, rt.alloc(), false, "envelope ", ENVELOPES)?;
    check_rows(&rt, rt.alloc(), true, "envelope ", ENVELOPES)
}

/// A text with blanks behind it up to so many bytes.
fn padded(alloc: Global, text: &str, len: usize) -> Result<String, AllocError> {
    let mut padded = String::from_str(alloc, text)?;
    for _ in text.len()..len {
        padded.push_str(" ")?;
    }
    Ok(padded)
}

/// Lines of so many bytes more than the greatest number for most, and what they are read as.
const LONG: &[(bool, &str, usize, &str)] = &[
    (false, r#"["edge",1]"#, 0, "bare 0 Edge(1)"),
    (false, r#"["edge",1]"#, 1, "bare 51 TooLong"),
    (
        false,
        r#"["delete",1]"#,
        0,
        "bare 0 Carry(Plain(Delete { edge: 1 }))",
    ),
    (false, r#"["delete",1]"#, 1, "bare 51 TooLong"),
    (false, r#" {"call":"about"}"#, 1, "bare 51 TooLong"),
    (false, r#"{"call":"about"}"#, 1, "envelope 0 About"),
    (
        false,
        r#"{"open":{"version":1}}"#,
        1,
        "bare 0 open with 0 prices",
    ),
    (true, r#""about""#, 1, "bare 0 About"),
    (true, r#" {"version":1}"#, 1, "opening 0 open with 0 prices"),
];

#[test]
fn long_lines(rt: HostRuntime) -> Result<(), Fail> {
    for (first, text, more, due) in LONG {
        let line = padded(rt.alloc(), *text, MAX_LINE_BYTES + *more)?;
        let read = read_text(rt.alloc(), *first, line.as_bytes())?;
        assert!(rt; read.as_str() == *due, "{text}: {read}");
    }
    Ok(())
}

/// What an envelope with an id of so many bytes is read as.
fn with_id(alloc: Global, len: usize) -> Result<String, AllocError> {
    let id = padded(alloc, "x", len)?;
    let line = format!(in alloc; "{{\"call\":\"about\",\"id\":\"{id}\"}}")?;
    read_text(alloc, false, line.as_bytes())
}

#[test]
fn long_ids(rt: HostRuntime) -> Result<(), Fail> {
    let read = with_id(rt.alloc(), MAX_ID_BYTES)?;
    assert!(rt; read.len() == MAX_ID_BYTES + "envelope '' 0 About".len());
    let read = with_id(rt.alloc(), MAX_ID_BYTES + 1)?;
    assert!(rt; read.as_str() == "envelope 52 BadShape $/id");
    Ok(())
}

/// A line with a report, up to its first picture.
const REPORT_BEGINS: &str = concat!(
    r#"{"reopen":{"history":[{"call":["delete",1],"caller":0,"reply":{"refused":[4,"NoEdge"]}}],"#,
    r#""limits":{"crossings":0,"edges":5,"vertices":9},"picture":"#,
);

#[test]
fn a_report_to_go_on_with(rt: HostRuntime) -> Result<(), Fail> {
    let pictures = format!(in rt.alloc(); "{ROWS},\"prices\":[],\"start\":{ROWS}")?;
    let line = format!(in rt.alloc(); "{REPORT_BEGINS}{pictures},\"version\":1}}}}")?;
    for first in [true, false] {
        let read = read_text(rt.alloc(), first, line.as_bytes())?;
        assert!(rt; read.as_str() == "bare 0 reopen with 1 entries");
    }
    Ok(())
}

/// Lines, and whether they are read as a command from their tokens.
const COMMANDS: &[(&str, bool)] = &[
    (r#"["grow",1,2,3]"#, true),
    (r#" [ "insert",1,2,3]"#, true),
    (r#"["planned",1,2,3]"#, true),
    (r#"["delete",4294967295]"#, true),
    (r#"["delete",4294967296]"#, false),
    (r#"["edge",1]"#, false),
    (r#""counts""#, false),
    (r#"{"call":["delete",1]}"#, false),
];

#[test]
fn commands_are_read_from_their_tokens(rt: HostRuntime) {
    for (text, is_command) in COMMANDS {
        let read = read_command(rt.alloc(), text.as_bytes());
        assert!(rt; read.is_some() == *is_command, "{text}");
    }
}
