//! Pictures that threads will share: an embedding of a graph that grows and never stops being one.
//!
//! A `Picture` is seen as its rows and its limits. Its rows are lawful at all times, a connected
//! embedding of genus zero, and its counts never pass its limits. Each call does exactly what the
//! definitions of `topo_core` say, or answers the first reason why it cannot and then changes
//! nothing. `Picture::load` takes rows that are handed in: it answers the picture with these rows
//! and limits exactly where the rows are lawful and within the limits, and else names the first
//! test that they fail.
//!
//! A caller:
//!
//! ```rust
//! /// Three vertices in a row, or the first reason why not.
//! pub fn three_in_a_row(alloc: Global, limits: Limits) -> Result<Picture, Refusal> {
//!     let Ok(mut picture) = Picture::seed(alloc, limits) else {
//!         return Err(Refusal::Memory);
//!     };
//!     picture.grow(alloc, 1, 0, 0)?;
//!     Ok(picture)
//! }
//! ```
#![tactic(auto)]

mod apart;
pub mod counts;
mod faces;
pub mod laws;
pub mod picture;

pub use counts::Counts;
pub use picture::Picture;
pub use topo_dual::Frozen;
pub use topo_rows::LoadFault;
