//! What the tests of services share: calls of a service as values, and a gate that fixes the order
//! of two calls. It has no tests of its own.
//!
//! Two passes of a service in turn:
//!
//!     drop(make(rt, service, first, insert(0, 1))?);
//!     drop(make(rt, service, second, delete(1))?);
#![tactic(auto)]

pub mod calls;
pub mod gates;
