//! Edits of an embedding for which there is room, and calls that read it.

use crate::marks::{Console, begin, number, says};
use anyhow::Result;
use std::io;
use topo_map::{Embedding, Half};

/// For how many segments room is made.
const ROOM: usize = 8;

/// Calls that read what is round a half.
fn read<R: Print>(rt: &R, embedding: &Embedding, half: Half, other: Half) -> io::Result<()> {
    if !embedding.contains(half) || !embedding.contains(other) {
        return Ok(());
    }
    begin(rt, "Embedding::room")?;
    let room = embedding.room();
    number(rt, room as u64)?;
    begin(rt, "Embedding::twin, turn and face_next")?;
    let twin = embedding.twin(half);
    let turn = embedding.turn(half);
    let next = embedding.face_next(half);
    says(rt, twin == half || turn == half || next == half)?;
    begin(rt, "Embedding::same_face")?;
    let same = embedding.same_face(half, other);
    says(rt, same)?;
    begin(rt, "Embedding::degree")?;
    let degree = embedding.degree(half);
    number(rt, degree)
}

/// A new point on a new segment.
fn hang<R: Print>(rt: &R, embedding: &mut Embedding, half: Half) -> io::Result<()> {
    if !embedding.contains(half) || embedding.room() == 0 {
        return says(rt, false);
    }
    begin(rt, "Embedding::hang")?;
    let hung = embedding.hang(half, 1);
    number(rt, hung.number() as u64)
}

/// A new segment between two corners, which goes again.
fn chord<R: Print>(rt: &R, embedding: &mut Embedding, a: Half, b: Half) -> io::Result<()> {
    if !embedding.contains(a) || !embedding.contains(b) || embedding.room() == 0 {
        return says(rt, false);
    }
    begin(rt, "Embedding::chord")?;
    let (start, kept) = embedding.chord(a, b, 2);
    says(rt, kept)?;
    begin(rt, "Embedding::unchord")?;
    embedding.unchord(start);
    number(rt, start.number() as u64)
}

/// A new point on a segment.
fn split<R: Print>(rt: &R, embedding: &mut Embedding, half: Half) -> io::Result<()> {
    if !embedding.contains(half) || embedding.room() == 0 {
        return says(rt, false);
    }
    begin(rt, "Embedding::split")?;
    let x = embedding.split(half);
    number(rt, x.number() as u64)?;
    smooth(rt, embedding, x)
}

/// A point of degree two goes.
fn smooth<R: Print>(rt: &R, embedding: &mut Embedding, x: Half) -> io::Result<()> {
    if !embedding.contains(x) {
        return says(rt, false);
    }
    let other = embedding.turn(x);
    if embedding.turn(other) != x || other == x || other == embedding.twin(x) {
        return says(rt, false);
    }
    begin(rt, "Embedding::smooth")?;
    embedding.smooth(x);
    number(rt, x.number() as u64)
}

/// All edits of an embedding with room.
fn edit<R: Print>(rt: &R, embedding: &mut Embedding, half: Half) -> Result<()> {
    embedding.reserve(ROOM)?;
    hang(rt, embedding, half)?;
    chord(rt, embedding, half, half.twin())?;
    split(rt, embedding, half)?;
    read(rt, embedding, half, half.twin())?;
    Ok(())
}

/// An embedding of one segment, which is edited.
pub(crate) fn edit_embedding<R: Console>(rt: &R) -> Result<()> {
    let (mut embedding, half) = Embedding::seed(rt.alloc(), 0)?;
    let told = edit(rt, &mut embedding, half);
    drop(embedding);
    told
}
