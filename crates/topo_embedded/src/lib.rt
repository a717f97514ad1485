//! A picture's rows with their embedding: for each edge the halves along its path, and these halves
//! as segments in a slab, with their turn.
//!
//! A half on each segment of an edge leads along the edge, and is in a list of the edge at the
//! place of that segment. So the half of a dart is found at once, and the next dart along a face in
//! one read. The rows tell what is shown. That the halves turn as the rows say is one renumbering
//! of darts (`ShowsRows`), which the edits of the embedding keep. Beside them are the kinds of the
//! edges, by which searches know prices, and it may have potentials of the faces, which guide
//! searches to their targets.
#![tactic(auto)]

mod bounds;
mod cuts;
mod deletion;
pub mod embedded;
mod growth;
mod insertion;
mod kinds;
mod making;
mod padding;
mod parts;
mod path;
pub mod walking;

pub use embedded::Embedded;
pub use walking::EmbeddedRows;
