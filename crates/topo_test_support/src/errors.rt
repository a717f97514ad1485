//! The texts of errors.

use std::alloc::{AllocError, Global};
use std::error::Error;

/// The fault as an error of any kind.
fn pass_on<E: Error>(fault: E) -> anyhow::Result<()> {
    Err(fault)?
}

/// What is printed of a fault once `?` has made it an error of any kind.
pub fn text_of_error<E: Error>(alloc: Global, fault: E) -> Result<String, AllocError> {
    match pass_on(fault) {
        Ok(()) => Ok(String::new(alloc)),
        Err(error) => format!(in alloc; "{error}"),
    }
}
