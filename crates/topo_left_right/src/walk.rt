//! The stack of a depth-first search.

use crate::numbers::{NONE, Numbers};
use std::alloc::{AllocError, Global};

/// The vertices from the root of a search down to where it stands, and for each vertex the place of
/// the edge that comes next there.
#[derive(Drop)]
pub(crate) struct Walk {
    stack: Numbers,
    depth: u32,
    next: Numbers,
}

impl Walk {
    /// A search in a graph without vertices.
    pub(crate) fn new(alloc: Global) -> Self {
        Walk {
            stack: Numbers::new(alloc),
            depth: 0,
            next: Numbers::new(alloc),
        }
    }

    /// Makes it a search that has not begun, in a graph with so many vertices.
    pub(crate) fn reset(&mut self, vertices: u32) -> Result<(), AllocError> {
        self.depth = 0;
        self.stack.reset(vertices, NONE)?;
        self.next.reset(vertices, NONE)
    }

    /// Goes on to a vertex, whose first edge is in this place.
    pub(crate) fn push(&mut self, vertex: u32, first: u32) {
        self.next.set(vertex, first);
        self.stack.set(self.depth, vertex);
        self.depth = self.depth.saturating_add(1);
    }

    /// Goes back from the vertex where the search stands.
    pub(crate) fn pop(&mut self) {
        self.depth = self.depth.saturating_sub(1);
    }

    /// Where the search stands, and none where it is over.
    pub(crate) fn top(&self) -> Option<u32> {
        if self.depth == 0 {
            return None;
        }
        Some(self.stack.at(self.depth.saturating_sub(1)))
    }

    /// The place of the edge that comes next at a vertex.
    pub(crate) fn next(&self, vertex: u32) -> u32 {
        self.next.at(vertex)
    }

    /// Has the edge behind it come next at a vertex.
    pub(crate) fn advance(&mut self, vertex: u32) {
        self.next.increase(vertex);
    }
}
