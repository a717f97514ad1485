//! On which side each edge lies.

use crate::numbers::{NONE, Numbers};
use std::alloc::{AllocError, Global};

/// The sides of the edges, each given by that of another edge or known.
#[derive(Drop)]
pub(crate) struct Sides {
    /// For each edge the one that its side depends on; none where it is known.
    references: Numbers,
    /// For each edge 1 where it lies on the other side than the edge that it refers to, and else 0;
    /// where it refers to none, 1 for the left and 0 for the right side.
    changes: Numbers,
    edges: u32,
}

impl Sides {
    /// The sides of a graph without edges.
    pub(crate) fn new(alloc: Global) -> Self {
        Sides {
            references: Numbers::new(alloc),
            changes: Numbers::new(alloc),
            edges: 0,
        }
    }

    /// So many edges lie on the right side.
    pub(crate) fn reset(&mut self, edges: u32) -> Result<(), AllocError> {
        self.edges = edges;
        self.references.reset(edges, NONE)?;
        self.changes.reset(edges, 0)
    }

    /// The edge that the side of an edge depends on.
    pub(crate) fn reference(&self, edge: u32) -> u32 {
        self.references.at(edge)
    }

    /// Has the side of an edge depend on that of another.
    pub(crate) fn refer(&mut self, edge: u32, other: u32) {
        self.references.set(edge, other);
    }

    /// Has an edge lie on the other side than the one that it refers to, or on the left.
    pub(crate) fn change(&mut self, edge: u32) {
        self.changes.set(edge, 1);
    }

    /// After the search: has no edge refer to another, so that the side of each is known.
    pub(crate) fn resolve(&mut self) {
        for edge in 0..self.edges {
            let side = self.side_of_chain(edge);
            self.resolve_chain(edge, side);
        }
    }

    /// The side of an edge by those that it refers to, one after the other.
    fn side_of_chain(&self, edge: u32) -> u32 {
        let mut at = edge;
        let mut side = 0;
        for _edge in 0..self.edges {
            side ^= self.changes.at(at);
            at = self.references.at(at);
            if at == NONE {
                return side;
            }
        }
        side
    }

    /// Notes the sides of an edge and of those that it refers to, one after the other.
    fn resolve_chain(&mut self, edge: u32, first_side: u32) {
        let mut at = edge;
        let mut side = first_side;
        for _edge in 0..self.edges {
            let next = self.references.at(at);
            if next == NONE {
                return;
            }
            let crossed = self.changes.at(at);
            self.changes.set(at, side);
            self.references.set(at, NONE);
            side ^= crossed;
            at = next;
        }
    }

    /// Whether an edge lies on the left side, once no edge refers to another.
    pub(crate) fn is_left(&self, edge: u32) -> bool {
        self.changes.at(edge) == 1
    }
}
