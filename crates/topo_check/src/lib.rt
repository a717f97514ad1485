//! The commands `replay` and `check`, which judge what they read and write one line.
//!
//! `replay_io` reads a report, carries out its history again and writes how many calls it has.
//! `check_io` reads a picture and writes how large it is. `replay_bytes` and `check_bytes` are the
//! same from bytes to a line. Where the reader's type says what is still to be read and the
//! writer's what it was given, the contracts say which bytes are written, and nothing else is. A
//! fault is the first one of what was read, in an order that a definition fixes, and then nothing
//! is written, but where the writer itself failed.
#![tactic(auto)]

pub mod check;
pub mod replay;

pub use check::{check_bytes, check_io};
pub use replay::{replay_bytes, replay_io, replay_report};
