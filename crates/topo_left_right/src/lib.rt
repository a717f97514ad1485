//! The planar part of a graph, with an embedding.
//!
//! `planar_part` takes the edges of a graph in an order and keeps each that leaves what was kept
//! planar; it answers how the edges kept turn about each vertex. `by_short_cycles` sorts the edges
//! into an order that serves it well, and `bridges` names the edges without which the graph falls
//! apart. Planarity is tested by the left-right criterion, after Brandes, The Left-Right Planarity
//! Test (2009).
//!
//! What is proved: each function is safe and ends, and the lengths of what it answers. What is only
//! tested: that the rotations are an embedding of genus zero, that no edge was left out that would
//! have fitted, and that exactly the bridges are named. So whoever uses the rotations must have
//! them judged; a crate that loads them as a picture does so in any case.
//!
//! A graph has vertices from 0 on and edges numbered by their places in a list of ends. Loops are
//! not allowed, parallel edges are. Of a graph with loops, with ends that are no vertices or with
//! more than 2,147,483,647 edges the answers mean nothing. The same holds for an order that does
//! not name each edge at most once.
#![tactic(auto)]

mod bridge_search;
mod conflict_pairs;
mod constraints;
mod embedding;
mod groups;
mod halves;
mod left_right;
mod numbers;
mod orientation;
mod short_cycles;
mod sides;
#[cfg(test)]
mod tests;
mod walk;

pub use bridge_search::bridges;
pub use halves::{PlanarPart, planar_part};
pub use short_cycles::by_short_cycles;

/// The ends of an edge.
#[derive(Clone, Copy, Debug, Drop, PartialEq, Eq)]
pub struct Ends {
    pub a: u32,
    pub b: u32,
}

impl Ends {
    /// The other end than this one.
    pub(crate) fn other(&self, vertex: u32) -> u32 {
        if self.a == vertex { self.b } else { self.a }
    }
}
