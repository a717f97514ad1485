//! What refuses a pass, a view, a plan, or the end of a service.

ghost use Rattle.std.specs.Prelude.{◌≡◌, Some};
ghost use Rattle.topo_faults.specs.Faults.{told};
ghost use Rattle.topo_faults.specs.declared.Fault.TheVariants.{NoSeat};
ghost use Rattle.topo_service.specs.FaultTexts.{end_fault, end_text, pass_fault, pass_text};

use std::fmt;
use thiserror::Error;
use topo_core::calls::Refusal;
use topo_faults::Fault;

/// Why no pass was given out: the fault of the same name.
#[derive(Clone, Copy, Debug, Drop, PartialEq, Eq, Error)]
pub enum ServiceFault {
    NoSeat,
}

impl ServiceFault {
    /// The fault that it is.
    pub fn fault(self) -> Fault
        ensures { result ≡ Fault.NoSeat }
    {
        match self {
            ServiceFault::NoSeat => Fault::NoSeat,
        }
    }
}

impl fmt::Display for ServiceFault {
    ghost output = { λ _. Some (told NoSeat) };

    fn fmt<W: fmt::Write>(&self, f: &mut fmt::Formatter<W>) -> fmt::Result {
        let fault = self.fault();
        write!(f, "{fault}")
    }
}

/// Why a pass gave no view, or no plan: the fault of the same name, or a refusal.
#[derive(Clone, Copy, Debug, Drop, PartialEq, Eq, Error)]
pub enum PassFault {
    NoView,
    /// Why there is no plan: NoVertex, SameEnds, NoRoute or Memory.
    Refused(Refusal),
}

impl PassFault {
    /// The fault that it is.
    pub fn fault(self) -> Fault
        ensures { result ≡ pass_fault self }
    {
        match self {
            PassFault::NoView => Fault::NoView,
            PassFault::Refused(why) => why.fault(),
        }
    }
}

impl fmt::Display for PassFault {
    ghost output = { λ fault. Some (pass_text fault) };

    fn fmt<W: fmt::Write>(&self, f: &mut fmt::Formatter<W>) -> fmt::Result {
        let fault = self.fault();
        match self {
            PassFault::NoView => write!(f, "{fault}"),
            PassFault::Refused(why) => write!(f, "{why}"),
        }
    }
}

/// Why a service did not end well: the fault of the same name. It is printed as that and its values.
#[derive(Clone, Copy, Debug, Drop, PartialEq, Eq, Error)]
pub enum EndFault {
    /// The pass of this number is missing; the least such number.
    PassMissing(u32),
    /// Of the pass of this number, the receipt at this place is not its caller's entry at the
    /// place.
    Mismatch(u32, usize),
}

impl EndFault {
    /// The fault that it is.
    pub fn fault(self) -> Fault
        ensures { result ≡ end_fault self }
    {
        match self {
            EndFault::PassMissing(_) => Fault::PassMissing,
            EndFault::Mismatch(_, _) => Fault::Mismatch,
        }
    }
}

impl fmt::Display for EndFault {
    ghost output = { λ fault. Some (end_text fault) };

    fn fmt<W: fmt::Write>(&self, f: &mut fmt::Formatter<W>) -> fmt::Result {
        let fault = self.fault();
        match self {
            EndFault::PassMissing(pass) => write!(f, "{fault} {pass}"),
            EndFault::Mismatch(pass, place) => write!(f, "{fault} {pass} {place}"),
        }
    }
}
