//! The command `planarize`: a graph in, pictures with few crossings out.
//!
//! The graph is parted into its components, each is searched by itself, and what was found is judged
//! before it is written: it shows the graph, or there is a fault. Nothing is promised of how few the
//! crossings are.
#![tactic(auto)]

mod answers;
mod components;
pub mod planarize;
mod planarizer;
mod searches;
mod side_by_side;

pub use answers::Answer;
pub use planarize::{answer_graph, planarize_io};
pub use planarizer::Planarizer;
pub use searches::Way;
