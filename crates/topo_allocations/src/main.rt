//! Makes the calls that take no memory. Before each a line with its name is printed, and behind it
//! a line with what it answered, so that the allocations between the two are those of the call.
//!
//! The script allocations in the repository counts them.
#![tactic(auto)]

use anyhow::Result;
use std::io;
use std::sync::Wait;

mod books;
mod embeddings;
mod marks;
mod pictures;
mod plans;
mod services;
mod values;

use books::use_book;
use embeddings::edit_embedding;
use marks::Console;
use pictures::use_picture;
use plans::use_plan;
use services::serve;
use values::make_values;

/// All calls, one after the other.
fn run<R: Wait + Console + Sync>(rt: &R) -> Result<()> {
    make_values(rt)?;
    edit_embedding(rt)?;
    use_picture(rt)?;
    use_plan(rt)?;
    use_book(rt)?;
    serve(rt)
}

/// Each run ends with the same status, so that any fault shows as other output.
fn main(rt: HostRuntime) -> io::Result<()> {
    match run(&rt) {
        Ok(()) => Ok(()),
        Err(error) => println!(rt; "failed: {error}"),
    }
}
