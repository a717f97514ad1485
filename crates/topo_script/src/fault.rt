//! Why bytes are not of a form.

ghost use Rattle.std.specs.Prelude.{◌≡◌, Some};
ghost use Rattle.topo_script.specs.FaultTexts.{fault_of, fault_text};

use crate::path::JsonPath;
use std::fmt;
use thiserror::Error;
use topo_faults::Fault;

/// The first fault of a text, or out of memory: the fault of the same name. It is printed as that
/// and its place.
#[derive(Clone, Copy, Debug, PartialEq, Eq, Error)]
pub enum ScriptFault {
    Memory,
    NotJson,
    TooLong,
    BadShape(JsonPath),
    BadVersion,
    BadNumber(JsonPath),
}

impl ScriptFault {
    /// The fault that it is.
    pub fn fault(&self) -> Fault
        ensures { result ≡ fault_of self.now }
    {
        match self {
            ScriptFault::Memory => Fault::Memory,
            ScriptFault::NotJson => Fault::NotJson,
            ScriptFault::TooLong => Fault::TooLong,
            ScriptFault::BadShape(_) => Fault::BadShape,
            ScriptFault::BadVersion => Fault::BadVersion,
            ScriptFault::BadNumber(_) => Fault::BadNumber,
        }
    }
}

impl fmt::Display for ScriptFault {
    ghost output = { λ fault. Some (fault_text fault) };

    fn fmt<W: fmt::Write>(&self, f: &mut fmt::Formatter<W>) -> fmt::Result {
        let fault = self.fault();
        match self {
            ScriptFault::BadShape(path) => write!(f, "{fault} {path}"),
            ScriptFault::BadNumber(path) => write!(f, "{fault} {path}"),
            _ => write!(f, "{fault}"),
        }
    }
}
