//! A session: one picture with its history as a value, and the lines that speak to it.
//!
//! A `Session` is opened by limits, prices and a start. It carries calls out, and answers questions
//! about the picture, of which none changes anything. Contracts see a session as where it stands:
//! its limits, prices and start, its history, and its picture. `answer` reads a line, asks the
//! session and gives the line that answers it; a line may open another picture. `planar serve` is
//! the loop over it.
//!
//! A caller:
//!
//! ```rust
//! /// What an insertion would cross, and the insertion.
//! pub fn look_and_leap<F: PriceFn>(
//!     alloc: Global,
//!     session: &mut Session<F>,
//! ) -> Result<(Reply, Reply), AllocError> {
//!     let route = session.route(alloc, 0, 1)?;
//!     let made = session.insert(alloc, 0, 0, 1, 0)?;
//!     Ok((route, made))
//! }
//! ```
#![tactic(auto)]

pub mod edges;
pub mod lines;
pub mod session;
pub mod texts;
pub mod vertices;

pub use lines::{answer, answer_first};
pub use session::Session;
