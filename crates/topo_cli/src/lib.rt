//! The program without its process: what it does with the words of a command line, a reader and two
//! writers.
//!
//! `perform` reads the words, carries out the command that they ask for and gives the status that
//! the program ends with. What is written where is in its contract. `verbs` tells which command the
//! words ask for. `refuse` is for words that cannot be read at all.
#![tactic(auto)]

mod answers;
pub mod program;
mod telling;
pub mod verbs;

pub use answers::answer;
pub use program::{Outcome, perform, refuse};

/// What a command line asks for.
#[derive(Clone, Copy, Debug, PartialEq, Eq)]
pub enum Verb {
    /// Read a script and print the report of its run.
    Run,
    /// Read a report, carry out its history again and print how many calls it has.
    Replay,
    /// Read a picture and print how large it is.
    Check,
    /// Answer line by line, with one picture.
    Serve,
    /// Read a graph and print pictures of it with few crossings.
    Planarize,
}
