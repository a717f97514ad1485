//! Versions of a picture, for readers that do not wait.
//!
//! A `Version` is a picture that no longer changes, with the prefix of the log of accepted entries
//! that leads to it from the start (`LogPrefix`). One writer publishes versions in a store of
//! `left_right`, and each reader takes the current version without waiting. Of two prefixes of one
//! log the shorter is a prefix of the longer, so two lengths tell whether a version goes on from
//! what was seen. `ServiceBrand` is the type parameter that says of which service a version is: its
//! start, its prices and its log.
#![tactic(auto)]

pub mod brand;
pub mod log_prefix;
pub mod publishing;
pub mod slot;
pub mod store;
pub mod version;
pub mod wait;

pub use brand::{LogBrand, ServiceBrand};
pub use log_prefix::{FreshLog, LogLength, LogPrefix};
pub use publishing::VersionWriter;
pub use store::{StoreWriter, VersionReader, new_store};
pub use version::Version;
pub use wait::wait_forever;
