//! Routes that are looked for outside the lock, for `planned` lists and for `Pass::find`. `found` is
//! such a route with its proof, `inbox` is what a pass has missed, by which it brings a version of
//! its own up to date, `lookahead` says when it is worth looking ahead, and `copies` bounds how many
//! versions of their own passes have.
//!
//! A search under the lock would give the same promise. Whoever reads about the lock, passes and
//! receipts can pass this folder by.

pub(crate) mod copies;
pub mod found;
pub(crate) mod inbox;
pub(crate) mod lookahead;
