//! Pictures, histories and texts at the limits, on a machine with ample memory.
//!
//! Every contract of a call that takes memory lets it answer 'out of memory' (8, Memory). So a body
//! that gives up from some size on is proved. Here calls are made on both sides of the limits and of
//! round numbers, and each is answered as the model says, never by 8. What is due was worked out by
//! hand, or is a text that `texts` makes as the formats say.
#![tactic(auto)]

use anyhow::Result;
use std::rt::Clock;
use std::sync::Wait;
use std::thread::Threads;

mod books;
mod lists;
mod replies;
mod reports;
mod services;
mod sessions;
mod starts;
mod streams;
mod texts;

use books::tell_books;
use lists::tell_lists;
use reports::tell_reports;
use services::tell_services;
use sessions::tell_sessions;

fn run<R: Print + AllocGlobal + Threads + Wait + Clock + Sync>(rt: &R) -> Result<()> {
    tell_sessions(rt)?;
    tell_reports(rt)?;
    tell_lists(rt)?;
    tell_services(rt)?;
    tell_books(rt)
}

fn main(rt: HostRuntime) -> Result<()> {
    run(&rt)
}
