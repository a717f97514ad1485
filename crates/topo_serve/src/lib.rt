//! The command `serve`: lines in, lines out, over a session.
//!
//! The first line opens a picture: a script without its lists. Each further line is a command,
//! carried out in the thread that calls, or asks a question, or opens another picture, or is an
//! envelope of one of these. Each line is answered by exactly one line, before the next is read. What
//! a line means is `topo_session`; this is the loop over any reader and any writer. Where the
//! reader's type says what is still to be read and the writer's what it was given, the contract of
//! `serve_io` says which bytes are written: each line has the answer that is due, and the history of
//! the last picture is legal from its start. A line that is of no form is answered by its first
//! fault, and changes nothing. A fault of an opening on the first line is the first one of what was
//! read, and then nothing is written.
#![tactic(auto)]

pub mod ahead;
pub mod serve;

pub use serve::serve_io;
