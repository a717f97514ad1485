//! Changes of plain rows: a new vertex on a new edge, a new edge along a route, and an edge taken
//! out.
//!
//! Each function gives exactly the rows that the definitions say, or leaves them as they were where
//! memory is short. The laws in `proofs/` say what a change does to how the darts turn: by
//! canonical numbers a growth, an insertion and a deletion are edits of the turn, they keep a
//! lawful picture lawful, and a slab of segments that turns as the rows do can follow them edit by
//! edit. The crates above cite these laws, whatever they keep beside the rows.
#![tactic(auto)]

pub mod deletion;
pub mod growth;
pub mod insertion;
pub mod kept;
pub mod rotation;

pub use kept::KeptRows;
pub use rotation::Rotation;
