//! What tests share: named pictures and grids, prices, plans that nobody searched for, calls as
//! values, books, and the texts of errors. It has no tests of its own.
//!
//! A function that calls it is generic in the closure of the prices, so that the closure's promise
//! is proved where it is written, and lets another use the book:
//!
//!     fn joins<F: PriceFn + Drop>(rt: &impl Abort, alloc: Global, ask: F) -> Result<(), Fail>
//!         requires callable { F.is_callable ask }
//!         requires promise { IsPromise (F.may_return ask) }
//!     {
//!         let mut book = book_of(alloc, picture_of(alloc, &BIPYRAMID)?, ask)?;
//!         let told = takes_first(rt, &mut book, insert(3, 4)); // calls `make`
//!         drop(book);
//!         told
//!     }
#![tactic(auto)]

pub mod books;
pub mod calls;
pub mod errors;
pub mod grids;
pub mod lawful;
pub mod pictures;
pub mod plans;
pub mod prices;
