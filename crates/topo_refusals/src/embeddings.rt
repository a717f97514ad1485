//! Calls of an embedding.

use crate::judge::{Case, Done, Runtime};
use std::alloc::{AllocError, Global};
use topo_map::{Embedding, Half};

/// A call of an embedding. With what a call makes the next ones go on.
#[derive(Clone, Copy)]
pub(crate) enum EmbeddingRow {
    Seed,
    /// Two segments, whose four halves lie round one point.
    FromTurns,
    Reserve(usize),
    Copy,
}

/// An embedding of at most two segments.
#[derive(Drop)]
pub(crate) struct EmbeddingCase {
    pub embedding: Embedding,
}

impl Case for EmbeddingCase {
    type Row = EmbeddingRow;

    /// For each half its number, the edge that it is on and the next one at its point.
    fn look(&mut self, alloc: Global) -> Result<String, AllocError> {
        let mut text = String::with_capacity(alloc, 200)?;
        for number in 0..4u32 {
            let half = Half::numbered(number);
            if self.embedding.contains(half) {
                let edge = self.embedding.edge(half);
                let turn = self.embedding.turn(half).number();
                write!(text, "half {number} on edge {edge} before {turn}; ")?;
            }
        }
        Ok(text)
    }

    fn make<R: Runtime>(&mut self, rt: &R, row: &EmbeddingRow, told: &mut String) -> Done {
        match *row {
            EmbeddingRow::Seed => {
                told.push_str("Embedding::seed")?;
                let (embedding, half) = Embedding::seed(rt.alloc(), 7)?;
                self.embedding = embedding;
                write!(told, ": {half:?}")
            }
            EmbeddingRow::FromTurns => {
                told.push_str("Embedding::from_turns")?;
                let made = Embedding::from_turns(rt.alloc(), &[2, 3, 1, 0], &[3, 4])?;
                let (embedding, halves) = made;
                self.embedding = embedding;
                write!(told, ": {:?}", halves.as_slice())
            }
            EmbeddingRow::Reserve(more) => {
                told.push_str("Embedding::reserve")?;
                self.embedding.reserve(more)?;
                write!(told, ": {}", self.embedding.room() >= more)
            }
            EmbeddingRow::Copy => {
                told.push_str("Embedding::copy")?;
                let (room, copy) = (self.embedding.room(), self.embedding.copy()?);
                self.embedding = copy;
                write!(
                    told,
                    " with as much room: {}",
                    self.embedding.room() >= room
                )
            }
        }
    }
}
