//! Rows judged, and how their darts turn.
//!
//! `load::judge` makes the tests that rows must pass to be a picture within limits, and names the
//! first that fails, in time that grows with the rows but for a logarithm; of rows that pass them
//! it tells how their darts turn. `by_id` finds rows by their ids, and `id_index` names the places
//! where it looks first. `flat` writes the flat lists of rows: where the darts of each edge begin,
//! and the images of the turn.
#![tactic(auto)]

pub mod by_id;
mod faults;
pub mod flat;
pub mod id_index;
pub mod load;
mod pairs;

pub use flat::Turns;
pub use id_index::IdIndex;
pub use load::LoadFault;
