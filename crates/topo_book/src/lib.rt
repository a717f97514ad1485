//! A picture with its history, for one thread.
//!
//! A `Book` holds the picture that it began with, the picture now, the prices and every call that
//! was answered, refusals too. Each call is a step: it does what the definitions of `topo_core` say
//! and its entry is the last of the history, or it is out of memory and nothing has changed. So the
//! history is legal from the start, each picture on the way is lawful, and the picture now is the
//! replay. `replay` carries a list of entries out again, and names the first whose reply is not the
//! one due.
//!
//! A caller:
//!
//! ```rust
//! /// Inserts an edge of kind 0, and answers what its route costs; none if it is refused.
//! pub fn insert_at<F: PriceFn>(
//!     alloc: Global,
//!     book: &mut Book<F>,
//!     u: u32,
//!     v: u32,
//! ) -> Result<Option<u64>, AllocError> {
//!     match book.insert(alloc, 0, u, v, 0)? {
//!         Reply::Inserted(made) => Ok(Some(made.price)),
//!         _ => Ok(None),
//!     }
//! }
//! ```
#![tactic(auto)]

mod book;
mod following;
mod fullness;
mod next;
mod refused;
mod replaying;
mod replicas;
mod route_source;
mod scratch;
mod search_cost;
mod sparing;
mod steps;

pub use book::Book;
pub use next::Next;
pub use replaying::{ReplayFault, replay};
pub use route_source::RouteSource;
pub use sparing::is_accepted;
pub use steps::apply_entry;
