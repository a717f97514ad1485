//! The prices of edges: a stored closure that keeps its promise, and the table that the program
//! makes one over.
//!
//! A price is from 1 to `MAX_PRICE`, and an edge without one must not be crossed. `Tariff::new`
//! takes the promise as its condition, and from then on the type keeps it: `price` answers the
//! promised number wherever the tariff goes. A `PriceTable` may stand in the place of a closure:
//! its prices are known by the kind of an edge alone, and with them searches are faster. `Asked` keeps answers, each asked for once.
#![tactic(auto)]

pub mod asked;
pub mod table;
pub mod tariff;
