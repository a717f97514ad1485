//! What is printed round a call.

use std::io;

/// What takes memory for the calls that are made ready, and prints.
pub(crate) trait Console: Print + AllocGlobal {}

impl<R: Print + AllocGlobal> Console for R {}

/// Prints which call comes.
pub(crate) fn begin<R: Print>(rt: &R, call: &str) -> io::Result<()> {
    println!(rt; "{call}")
}

/// Prints a number that a call has answered.
pub(crate) fn number<R: Print>(rt: &R, answer: u64) -> io::Result<()> {
    println!(rt; "  {answer}")
}

/// Prints whether what a call was to answer is so.
pub(crate) fn says<R: Print>(rt: &R, answer: bool) -> io::Result<()> {
    println!(rt; "  {answer}")
}
