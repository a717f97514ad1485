//! Planar pictures of graphs as plain data, and everything that is said of them.
//!
//! The types are those that a caller of any crate of the project names: ids, darts, routes, rows,
//! limits, calls and their replies. `specs/` has the definitions that every contract of the project
//! is stated in: rotation systems and their faces, lawful pictures, routes and what is least, what
//! an insertion, a growth and a deletion make of a picture, steps and histories. `laws` has the
//! facts about these definitions that the crates above rest on; `topo_cases` computes them on small
//! named pictures.
#![tactic(auto)]

pub mod calls;
pub mod darts;
mod equality;
pub mod existence_laws;
pub mod ids;
pub mod laws;
pub mod limits;
pub mod listed;
pub mod prices;
pub mod route_laws;
pub mod routes;
pub mod rows;
pub mod step_laws;
