//! Sessions of many lines, with long openings, and with an insertion across many segments.

use crate::starts::Spiral;
use crate::streams::PieceReader;
use crate::texts::{crossing_reply, judgement, pad, push_uncrossed};
use anyhow::Result;
use std::alloc::{AllocError, Global};
use std::io::Read;
use topo_script::picture_text;
use topo_serve::serve_io;

/// So many edges come and go, with the counts in between.
const TRIPLES: u32 = 47_000;

/// What is answered to the first line of a session without a start, and to `"counts"`.
const OPENED: &str = "{\"crossings\":0,\"edges\":1,\"faces\":1,\"segments\":1,\"vertices\":2}\n";

/// What is answered to `"counts"` while there is a second edge.
const TWO_EDGES: &str = "{\"crossings\":0,\"edges\":2,\"faces\":2,\"segments\":2,\"vertices\":2}\n";

/// How a session ends on this reader: whether its answers are those that are due.
fn served<I: Read>(alloc: Global, reader: &mut I, due: &str) -> Result<String> {
    let mut written: Vec<u8> = Vec::new(alloc);
    let ended = serve_io(alloc, reader, &mut written);
    let told = match ended {
        Ok(()) => judgement(alloc, written.as_slice(), due.as_bytes()),
        Err(fault) => format!(in alloc; "{fault}"),
    };
    drop(written);
    Ok(told?)
}

/// The lines of a session in which edges come and go.
fn many_lines(alloc: Global) -> Result<String, AllocError> {
    let mut text = String::new(alloc);
    text.push_str("{\"version\":1}\n")?;
    for edge in 1..=TRIPLES {
        write!(
            text,
            "[\"insert\",0,1,0]\n\"counts\"\n[\"delete\",{edge}]\n"
        )?;
    }
    Ok(text)
}

/// What is answered to them.
fn many_answers(alloc: Global) -> Result<String, AllocError> {
    let mut text = String::new(alloc);
    text.push_str(OPENED)?;
    for edge in 1..=TRIPLES {
        push_uncrossed(&mut text, edge)?;
        write!(text, "\n{TWO_EDGES}{{\"deleted\":{edge}}}\n")?;
    }
    Ok(text)
}

/// A session with these lines, which come in pieces of so many bytes.
fn is_served(alloc: Global, lines: &str, piece: usize, due: &str) -> Result<String> {
    let mut reader = PieceReader::new(lines.as_bytes(), piece);
    served(alloc, &mut reader, due)
}

/// A session with lines and answers that are made first.
fn made_is_served(
    alloc: Global,
    lines: Result<String, AllocError>,
    piece: usize,
    due: Result<String, AllocError>,
) -> Result<String> {
    let (lines, due) = (lines?, due?);
    let told = is_served(alloc, lines.as_str(), piece, due.as_str());
    drop(lines);
    drop(due);
    told
}

/// A session whose first line has so many spaces, and then asks for the counts.
fn long_opening(alloc: Global, spaces: usize) -> Result<String, AllocError> {
    let mut text = String::new(alloc);
    text.push_str("{\"version\":")?;
    pad(&mut text, spaces)?;
    text.push_str("1}\n\"counts\"\n")?;
    Ok(text)
}

/// What is answered to such a session.
fn counted_twice(alloc: Global) -> Result<String, AllocError> {
    format!(in alloc; "{OPENED}{OPENED}")
}

/// The text of a picture in which an edge winds round a ray.
fn spiral_text(alloc: Global, spiral: &Spiral) -> Result<String, AllocError> {
    let rows = spiral.rows(alloc)?;
    let text = picture_text(alloc, &rows);
    drop(rows);
    text
}

/// A session that begins with such a picture, and puts an edge across the ray in each winding but
/// one.
fn crossing_lines(alloc: Global, spiral: &Spiral) -> Result<String, AllocError> {
    let picture = spiral_text(alloc, spiral)?;
    let end = spiral.parts;
    let lines = format!(in alloc;
        "{{\"prices\":[1000],\"start\":{picture},\"version\":1}}\n[\"insert\",0,{end},0]\n"
    );
    drop(picture);
    lines
}

/// What is answered to it.
fn crossing_answers(alloc: Global, spiral: &Spiral) -> Result<String, AllocError> {
    let windings = spiral.windings();
    let edges = spiral.parts.saturating_add(1);
    let crossed = windings.saturating_sub(1);
    let reply = crossing_reply(alloc, edges, crossed, spiral.each)?;
    let segments = windings.saturating_mul(2).saturating_add(edges);
    let vertices = spiral.parts.saturating_add(3);
    let answers = format!(in alloc;
        "{{\"crossings\":{windings},\"edges\":{edges},\"faces\":{windings},\
        \"segments\":{segments},\"vertices\":{vertices}}}\n{reply}\n"
    );
    drop(reply);
    answers
}

/// A line for each session that puts an edge across a ray of so many edges, each crossed so often.
fn tell_crossings<R: Print + AllocGlobal>(rt: &R) -> Result<()> {
    let alloc = rt.alloc();
    for (parts, each) in [(1, 4_097), (1, 5_001), (66, 1_000)] {
        let spiral = Spiral::new(parts, each);
        let lines = crossing_lines(alloc, &spiral);
        let due = crossing_answers(alloc, &spiral);
        let told = made_is_served(alloc, lines, 8_192, due)?;
        let windings = spiral.windings();
        println!(rt; "session with {windings} windings: {told}")?;
    }
    Ok(())
}

/// A line for each session.
pub(crate) fn tell_sessions<R: Print + AllocGlobal>(rt: &R) -> Result<()> {
    let alloc = rt.alloc();
    let told = made_is_served(alloc, many_lines(alloc), 8_192, many_answers(alloc))?;
    println!(rt; "session of 141001 lines: {told}")?;
    for (spaces, piece) in [(100_000, 1), (67_108_864, 8_192)] {
        let lines = long_opening(alloc, spaces);
        let told = made_is_served(alloc, lines, piece, counted_twice(alloc))?;
        println!(rt; "opening with {spaces} spaces, {piece} at a time: {told}")?;
    }
    tell_crossings(rt)
}
