//! The search for few crossings: pictures of a connected graph, and the best one that was met.
//!
//! A search goes in steps. It makes the graph smaller first: leaves are left out, and a path whose
//! edges are of one kind is one edge. It draws a planar part of that, puts in the other edges one
//! by one, and then takes edges out and puts them in again, first all that are crossed, and then
//! some that lie close together, which shakes the picture. It keeps the rows of the best picture
//! with all edges. No clause says how good it is, nor that it shows the graph: who wants to know
//! that has the rows judged.
//!
//! A caller:
//!
//! ```rust
//! /// How many crossings the best picture has that a search meets; none where it meets none.
//! pub fn fewest_crossings<F: PriceFn + Drop>(
//!     alloc: Global,
//!     mut search: Search<F>,
//! ) -> Result<Option<usize>, AllocError> {
//!     for _ in 0..u32::MAX {
//!         let Ok(Progress::Going { .. }) = search.step(alloc) else {
//!             break;
//!         };
//!     }
//!     let best = search.into_best(alloc)?;
//!     Ok(best.map(|(rows, _edges)| rows.crossings.len()))
//! }
//! ```
#![tactic(auto)]

mod best;
mod board;
mod expansion;
mod finder;
mod graph;
mod groups;
mod ids;
mod levels;
mod lists;
mod moves;
mod orders;
mod pace;
mod random;
mod reduction;
mod repair;
pub mod search;
mod shakes;
mod simple;
#[cfg(test)]
mod tests;
mod turning;

pub use search::{Options, Progress, Search, SearchFault};
