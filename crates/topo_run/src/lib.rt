//! The command `run`: it reads a script, carries out its lists and writes the text of the report.
//!
//! Each list of a script is carried out by a thread of its own, with a pass of one service; one
//! list alone is carried out on a book, in the thread that calls. `run_script` is the run itself,
//! and `run_io` the command over any reader and any writer. Where the reader's type says what is
//! still to be read and the writer's what it was given, the contract says which bytes are written,
//! and nothing else is. A fault is the first one of what was read, in an order that a definition
//! fixes, and then nothing is written, but where the writer itself failed.
#![tactic(auto)]

mod alone;
pub mod gate;
mod outcome;
mod passes;
pub mod run;
pub mod scripts;

pub use gate::OpenGate;
pub use run::run_io;
pub use scripts::run_script;
