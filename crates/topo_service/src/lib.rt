//! A picture that threads share under one lock, with versions for readers that do not wait.
//!
//! A `Service` holds a book under a lock. Each caller has a `Pass`: a call of the service carries
//! it through the lock, enters what was answered, publishes the version after an accepted call, and
//! leaves a receipt in the pass. `Pass::view` takes the version of now, and `Pass::find` and
//! `Pass::plan` search on it, all without waiting. `Service::close` takes all passes back, compares
//! every receipt with the history, and hands the book out: its Ok says that the history is one
//! thread's, and has as many calls as the passes have receipts. `run_workers` runs lists of
//! commands, each with a pass in a thread of its own.
//!
//! A caller, in a thread with a pass of its own (`planar_editors` is a whole program):
//!
//! ```rust
//! /// Inserts an edge whose route is looked for while others make their calls.
//! pub fn join<F: PriceFn + Drop, K: ServiceBrand<F>, R: Wait>(
//!     rt: &R,
//!     alloc: Global,
//!     service: &Service<F, K>,
//!     pass: &mut Pass<F, K>,
//!     u: u32,
//!     v: u32,
//! ) -> Result<Reply, AllocError> {
//!     match pass.find(alloc, service.tariff(), u, v) {
//!         Ok(found) => service.insert_found(rt, pass, 0, &found),
//!         Err(_) => service.insert(rt, pass, u, v, 0),
//!     }
//! }
//! ```
#![tactic(auto)]

mod checks;
pub mod close;
pub mod faults;
pub mod locked_state;
pub mod pass;
pub mod planned;
pub mod reply_pair;
pub mod service;
mod share_pool;
pub mod workers;

pub use close::{CloseFault, FreshService, Service};
pub use faults::{EndFault, PassFault, ServiceFault};
pub use pass::{Pass, Receipt, View};
pub use planned::found::FoundRoute;
pub use service::ServiceOver;
pub use workers::{Gate, WorkerEnd, between, run_workers};
