//! Routes that outlive changes of their picture, as `planned` lists need them. `seen` marks what a
//! search from both ends has seen, `region` is these marks, and `laws` say that the route is still
//! the first where they are kept.
//!
//! Whoever reads about searches and checks on one picture can pass this folder by.

pub mod laws;
pub mod region;
pub(crate) mod seen;
