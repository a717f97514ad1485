//! Texts as the formats say them, made by functions: of pairs of calls, of replies, and of padding.

use anyhow::Result;
use std::alloc::{AllocError, Global};

/// What a picture's text is whose only edge is edge 0, after so many edge ids were given.
fn push_seed(text: &mut String, given: u32) -> Result<(), AllocError> {
    write!(
        text,
        "{{\"crossings\":[],\"edges\":[{{\"a\":0,\"b\":1,\"crossings\":[],\"id\":0,\"kind\":0}}],\
        \"next_crossing\":0,\"next_edge\":{given},\"rotations\":[[0],[0]]}}"
    )
}

/// The reply to an insertion that crosses nothing, at position 0 of both ends.
pub(crate) fn push_uncrossed(text: &mut String, edge: u32) -> Result<(), AllocError> {
    write!(
        text,
        "{{\"crossed\":[],\"edge\":{edge},\"end\":0,\"price\":0,\"start\":0}}"
    )
}

/// What is to be wrong in a report.
#[derive(Clone, Copy, PartialEq, Eq)]
pub(crate) enum Flaw {
    Nothing,
    /// The price of the insertion of this edge.
    Price(u32),
    /// The counter of edges in the picture at the end.
    Picture,
}

/// The entries of an edge that is put in between vertices 0 and 1, and taken out again.
fn push_pair(text: &mut String, edge: u32, flaw: Flaw) -> Result<(), AllocError> {
    let price = if flaw == Flaw::Price(edge) { 1 } else { 0 };
    write!(
        text,
        "{{\"call\":[\"insert\",0,1,0],\"caller\":0,\"reply\":{{\"crossed\":[],\"edge\":{edge},\
        \"end\":0,\"price\":{price},\"start\":0}}}},\
        {{\"call\":[\"delete\",{edge}],\"caller\":0,\"reply\":{{\"deleted\":{edge}}}}}"
    )
}

/// The report of so many pairs from the first picture, under the greatest limits and at prices of
/// 1, without a line feed.
pub(crate) fn pairs_report(alloc: Global, pairs: u32, flaw: Flaw) -> Result<String, AllocError> {
    let mut text = String::new(alloc);
    text.push_str("{\"history\":[")?;
    for edge in 1..=pairs {
        if edge > 1 {
            text.push_str(",")?;
        }
        push_pair(&mut text, edge, flaw)?;
    }
    text.push_str(
        "],\"limits\":{\"crossings\":1048576,\"edges\":65536,\"vertices\":65536},\"picture\":",
    )?;
    let given = pairs.saturating_add(if flaw == Flaw::Picture { 2 } else { 1 });
    push_seed(&mut text, given)?;
    text.push_str(",\"prices\":[],\"start\":")?;
    push_seed(&mut text, 1)?;
    text.push_str(",\"version\":1}")?;
    Ok(text)
}

/// The script of so many pairs.
pub(crate) fn pairs_script(alloc: Global, pairs: u32) -> Result<String, AllocError> {
    let mut text = String::new(alloc);
    text.push_str("{\"version\":1,\"workers\":[[")?;
    for edge in 1..=pairs {
        if edge > 1 {
            text.push_str(",")?;
        }
        write!(text, "[\"insert\",0,1,0],[\"delete\",{edge}]")?;
    }
    text.push_str("]]}")?;
    Ok(text)
}

/// The reply to the insertion of an edge that crosses so many segments, at a price of 1000 each: of
/// each edge from edge 0 on the segments 1, 2, .., so many of each.
pub(crate) fn crossing_reply(
    alloc: Global,
    id: u32,
    crossings: u32,
    each: u32,
) -> Result<String, AllocError> {
    let mut text = String::new(alloc);
    text.push_str("{\"crossed\":[[0,1,\"forward\"]")?;
    let (mut edge, mut seg) = (0u32, 1u32);
    for _ in 1..crossings {
        if seg < each {
            seg = seg.saturating_add(1);
        } else {
            seg = 1;
            edge = edge.saturating_add(1);
        }
        write!(text, ",[{edge},{seg},\"forward\"]")?;
    }
    let price = crossings as u64 * 1000;
    write!(
        text,
        "],\"edge\":{id},\"end\":0,\"price\":{price},\"start\":0}}"
    )?;
    Ok(text)
}

/// Puts so many spaces behind a text.
pub(crate) fn pad(text: &mut String, spaces: usize) -> Result<(), AllocError> {
    for _ in 0..spaces {
        text.push(' ')?;
    }
    Ok(())
}

/// Whether a text is the one that is due, or else how long both are, and where they part.
pub(crate) fn judgement(alloc: Global, told: &[u8], due: &[u8]) -> Result<String, AllocError> {
    if told == due {
        return String::from_str(alloc, "as due");
    }
    let alike = told
        .iter()
        .zip(due)
        .take_while(|(told, due)| told == due)
        .count();
    format!(in alloc;
        "{} bytes in place of {}, alike up to byte {alike}",
        told.len(),
        due.len()
    )
}
