//! What can go wrong with a command.

ghost use Rattle.std.specs.Prelude.{◌≡◌, Some};
ghost use Rattle.topo_io.specs.Statuses.{fault_of, fault_text, status_of};

use std::fmt;
use thiserror::Error;
use topo_faults::Fault;
use topo_graph::GraphFault;
use topo_price::table::PriceFault;
use topo_rows::LoadFault;
use topo_script::ScriptFault;

/// Why a command has no answer: the fault of the same name, or one of a crate below. It is printed
/// as that and its values.
#[derive(Clone, Copy, Debug, PartialEq, Eq, Error)]
pub enum RunFault {
    Memory,
    /// The bytes are not of the form that the command reads.
    Script(ScriptFault),
    BadLimits,
    /// A price of the script or report lies outside its range.
    Price(PriceFault),
    /// The rows are no picture within the limits.
    Load(LoadFault),
    /// The graph has no answer.
    Graph(GraphFault),
    NoSeat,
    /// The receipt at this place, counted from 0, of the list at the first place is not the entry
    /// of its call.
    Mismatch(u32, usize),
    /// The entry of the report's history at this place, counted from 0, is the first whose reply is
    /// not the one due.
    WrongReply(usize),
    WrongPicture,
    ReadFault,
    WriteFault,
}

impl RunFault {
    /// The fault that it is.
    pub fn fault(&self) -> Fault
        ensures { result ≡ fault_of self.now }
    {
        match self {
            RunFault::Memory => Fault::Memory,
            RunFault::Script(script) => script.fault(),
            RunFault::BadLimits => Fault::BadLimits,
            RunFault::Price(price) => price.fault(),
            RunFault::Load(load) => load.fault(),
            RunFault::Graph(graph) => graph.fault(),
            RunFault::NoSeat => Fault::NoSeat,
            RunFault::Mismatch(_, _) => Fault::Mismatch,
            RunFault::WrongReply(_) => Fault::WrongReply,
            RunFault::WrongPicture => Fault::WrongPicture,
            RunFault::ReadFault => Fault::ReadFault,
            RunFault::WriteFault => Fault::WriteFault,
        }
    }

    /// The status that the program ends with: 3 for out of memory, in each of its forms, and else
    /// 1.
    pub fn status(&self) -> u8
        ensures { result ≡ status_of self.now }
    {
        if self.fault().number() == Fault::Memory.number() {
            3
        } else {
            1
        }
    }
}

impl fmt::Display for RunFault {
    ghost output = { λ fault. Some (fault_text fault) };

    fn fmt<W: fmt::Write>(&self, f: &mut fmt::Formatter<W>) -> fmt::Result {
        let fault = self.fault();
        match self {
            RunFault::Price(price) => write!(f, "{price}"),
            RunFault::Script(script) => write!(f, "{script}"),
            RunFault::Graph(graph) => write!(f, "{graph}"),
            RunFault::Mismatch(list, place) => write!(f, "{fault} {list} {place}"),
            RunFault::WrongReply(place) => write!(f, "{fault} {place}"),
            _ => write!(f, "{fault}"),
        }
    }
}
