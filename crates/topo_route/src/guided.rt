//! Searches that are guided to their target. `landmarks` measures how far the faces lie from four
//! vertices, `potentials` is what is read of a face, `guide` says by it how far the target is at
//! least, and `toward` is the search.
//!
//! They spare time in a large picture whose prices go by kinds, and change no route. Whoever reads
//! about the other searches can pass this folder by.

pub(crate) mod guide;
pub mod landmarks;
pub mod potentials;
pub(crate) mod toward;
