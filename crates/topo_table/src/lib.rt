//! Values by ids, kept in rising order of the ids.
//!
//! An id is looked for at the place with its number, and by its hash if another is there. So where
//! each id from 0 on has a place, values are found without a hash. Taking a value out leaves its
//! place empty and costs its own time; the empty places can be closed up. `NumberedTable` is for
//! ids that always are the numbers of their places, and hashes none. The caller below puts in two
//! values and takes one out again.
//!
//! ```
//! let mut names = Table::new(alloc);
//! names.reserve(2)?;
//! names.push(3, 'c');
//! names.push(7, 'g');
//! names.remove(3);
//! ```
#![tactic(auto)]

mod numbered;
mod table;

pub use numbered::{NumberedTable, TryCopy};
pub use table::Table;
