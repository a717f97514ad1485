//! The dual graph of lawful rows, with their darts as numbers in canonical order.
//!
//! A picture's darts go by the halves of its embedding. `NumberLists` say for each dart, in
//! canonical order, its half, for each half the number of its dart, and for each dart the next one
//! along its face and the label of that face. With them a `Numbered` answers by the embedding: it
//! is what the check of a plan walks on. A `Frozen` owns a copy of the embedding with its lists,
//! and answers the same: a search walks on it that hands out a plan, and threads share it.
#![tactic(auto)]

pub mod frozen;
pub mod lists;
pub mod numbered;

pub use frozen::Frozen;
pub use lists::NumberLists;
pub use numbered::Numbered;
