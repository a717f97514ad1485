//! The JSON forms of the project: scripts, graphs and the lines of a session, which are read, and
//! pictures and reports, which are read and written.
//!
//! `read_script`, `read_rows`, `read_report`, `read_graph` and `read_line` give what the definitions of `specs/`
//! give on the value of a text: the form, or its first fault with its path.
//! `picture_text` and `report` write: compact, keys in the order of their bytes, nothing else. What is
//! written is read back as what was written. `docs/FORMATS.md` has the forms in words.
#![tactic(auto)]

mod calls;
mod fault;
mod form;
mod graph_forms;
mod graphs;
mod keys;
mod lexing;
pub mod lines;
pub mod path;
mod prices;
mod reader;
mod replies;
mod report_text;
mod reports;
pub mod row_forms;
pub mod script_forms;
mod scripts;
mod sessions;
mod slots;
mod token_calls;
mod token_graphs;
mod token_lines;
mod token_replies;
mod token_reports;
mod token_requests;
mod token_rows;
mod token_scripts;
mod token_sessions;
mod token_settings;
mod tokens;
pub mod written;

pub use fault::ScriptFault;
pub use graph_forms::read_graph;
pub use graphs::{GraphAsked, GraphStart};
pub use lines::{Asked, Frame, IdText, Line, LineId, read_command, read_line};
pub use report_text::report;
pub use reports::Report;
pub use row_forms::{picture_text, read_rows};
pub use script_forms::{read_report, read_script};
pub use scripts::{LimitRows, Script};
pub use sessions::{Opening, Request};
