//! Graphs of which pictures with few crossings are wanted.

use topo_core::listed::Listed;
use topo_graph::{Effort, GraphEdge, Part};

/// What a search for few crossings is asked for: the vertices and edges of a graph, the prices of
/// kind 0, 1, .. (a kind past the end has price 1, and edges of a kind without a price must not be
/// crossed), how long is searched, whether it says how far it is, after how many seconds it ends at
/// the latest, the number that its choices begin with, the pictures that it begins with, and how
/// many searches there are side by side.
#[derive(Drop, Debug)]
pub struct GraphAsked {
    pub vertices: u32,
    pub edges: Listed<GraphEdge>,
    pub prices: Listed<Option<u32>>,
    pub effort: Effort,
    pub progress: bool,
    pub seconds: Option<u32>,
    pub seed: u32,
    pub start: Option<GraphStart>,
    pub threads: u32,
}

/// Pictures that a search begins with: those of an answer of before, and its vertices that have no
/// edge.
#[derive(Drop, Debug)]
pub struct GraphStart {
    pub parts: Listed<Part>,
    pub lonely: Listed<u32>,
}
