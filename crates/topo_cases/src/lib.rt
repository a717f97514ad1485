//! Tests of the definitions: what they say, computed on small named pictures.
//!
//! The functions do nothing, and each contract is the evidence: of pictures, routes, changes and
//! histories in `evidence`; of edits of half-edges in `edit_cases`; of steps in `step_cases`; of
//! routes that outlive other calls in `route_cases`; and where the definitions say no in
//! `false_cases`. Nothing stands on this crate.
#![tactic(auto)]

pub mod edit_cases;
pub mod evidence;
pub mod false_cases;
pub mod route_cases;
pub mod step_cases;
