//! What the commands of the program share: reading bytes up to a limit, writing a text, the faults
//! that a command is answered with, and what a script or a report sets beside its calls.
#![tactic(auto)]

pub mod fault;
pub mod reading;
pub mod settings;
pub mod tables;
pub mod writing;

pub use fault::RunFault;
pub use settings::greatest_limits;
pub use tables::FromTable;
