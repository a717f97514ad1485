//! Pictures of the components of a graph.

use topo_core::listed::Listed;
use topo_core::rows::Rows;

/// A picture of one component of a graph: its rows, and by the numbers of its vertices and edges
/// the vertices of the graph, and the places of its edges, that they stand for.
#[derive(Drop, Debug)]
pub struct Part {
    pub rows: Rows,
    pub vertices: Listed<u32>,
    pub edges: Listed<u32>,
}
