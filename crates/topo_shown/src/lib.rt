//! Pictures that show a graph.
//!
//! A `Planarized` holds a picture for each component of a graph that has an edge, with
//! the vertex and the edge of the graph that each vertex and edge of the picture stands for, and the
//! vertices that have no edge. It is made by `shown` alone, which judges it: what is no such
//! collection is refused. So whoever searches for pictures with few crossings need not be trusted.
//!
//! A caller:
//!
//! ```rust
//! /// Whether pictures show a graph of which each edge may be crossed.
//! pub fn do_show(
//!     alloc: Global,
//!     limits: Limits,
//!     graph: &Graph,
//!     prices: &PriceTable,
//!     parts: Vec<Part>,
//! ) -> bool {
//!     shown(alloc, limits, graph, prices, parts, Vec::new(alloc)).is_ok()
//! }
//! ```
#![tactic(auto)]

pub mod numbering;
mod parts;
pub mod planarized;

pub use planarized::{Planarized, ShowFault, shown};
