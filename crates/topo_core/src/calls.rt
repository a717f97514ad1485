//! What is asked of a picture, and what is answered.

ghost use Rattle.std.specs.Prelude.{◌≡◌, IfOk};

use crate::ids::{EdgeId, VertexId};
use crate::routes::Inserted;
use std::alloc::{AllocError, Global};
use std::fmt;
use thiserror::Error;
use topo_faults::Fault;

/// A change that is asked for, with the numbers as they were handed in.
#[derive(Clone, Copy, Debug, PartialEq, Eq)]
pub enum Call {
    /// A new vertex, on a new edge that starts in the corner at `position` of `u`.
    Grow { u: u32, position: u32, kind: u32 },
    /// A new edge from `u` to `v` along the first of the cheapest routes.
    Insert { u: u32, v: u32, kind: u32 },
    /// An edge taken out with its crossings.
    Delete { edge: u32 },
}

/// What a script asks for.
#[derive(Clone, Copy, Debug, PartialEq, Eq)]
pub enum Command {
    Plain(Call),
    /// An insertion whose route is looked for on a version of the picture, outside the lock.
    Planned { u: u32, v: u32, kind: u32 },
}

/// Why a call changes nothing: the fault of the same name. It is printed as that and its segment.
#[derive(Clone, Copy, Debug, PartialEq, Eq, Error)]
pub enum Refusal {
    NoVertex,
    SameEnds,
    NoPosition,
    NoEdge,
    BadKind,
    /// The segment is the first at which the picture would fall apart.
    Cut(u32),
    Full,
    Memory,
    NoRoute,
}

impl Refusal {
    ghost use Rattle.topo_core.specs.FaultTexts.{refusal_fault};

    /// The fault that the refusal is.
    pub fn fault(self) -> Fault
        ensures { result ≡ refusal_fault self }
    {
        match self {
            Refusal::NoVertex => Fault::NoVertex,
            Refusal::SameEnds => Fault::SameEnds,
            Refusal::NoPosition => Fault::NoPosition,
            Refusal::NoEdge => Fault::NoEdge,
            Refusal::BadKind => Fault::BadKind,
            Refusal::Cut(_) => Fault::Cut,
            Refusal::Full => Fault::Full,
            Refusal::Memory => Fault::Memory,
            Refusal::NoRoute => Fault::NoRoute,
        }
    }
}

impl fmt::Display for Refusal {
    ghost use Rattle.std.specs.Prelude.{Some};
    ghost use Rattle.topo_core.specs.FaultTexts.{refusal_text};

    ghost output = { λ refusal. Some (refusal_text refusal) };

    fn fmt<W: fmt::Write>(&self, f: &mut fmt::Formatter<W>) -> fmt::Result {
        let fault = self.fault();
        match self {
            Refusal::Cut(segment) => write!(f, "{fault} {segment}"),
            _ => write!(f, "{fault}"),
        }
    }
}

/// The answer to a call.
#[derive(Drop, Debug)]
pub enum Reply {
    Grown { vertex: VertexId, edge: EdgeId },
    Inserted(Inserted),
    Deleted(EdgeId),
    Refused(Refusal),
}

impl Reply {
    /// An equal reply. Only the route of an insertion takes memory.
    pub fn copy(&self, alloc: Global) -> Result<Self, AllocError>
        ensures { IfOk result (λ reply. reply ≡ self.now) }
    {
        match self {
            Reply::Grown { vertex, edge } => Ok(Reply::Grown {
                vertex: *vertex,
                edge: *edge,
            }),
            Reply::Inserted(made) => Ok(Reply::Inserted(made.copy(alloc)?)),
            Reply::Deleted(edge) => Ok(Reply::Deleted(*edge)),
            Reply::Refused(why) => Ok(Reply::Refused(*why)),
        }
    }
}

/// A call with who made it and the answer, as a history keeps it.
#[derive(Drop, Debug)]
pub struct Entry {
    pub caller: u32,
    pub call: Call,
    pub reply: Reply,
}

impl Entry {
    /// A copy of an entry.
    pub fn copy(&self, alloc: Global) -> Result<Self, AllocError>
        ensures { IfOk result (λ entry. entry ≡ self.now) }
    {
        Ok(Entry {
            caller: self.caller,
            call: self.call,
            reply: self.reply.copy(alloc)?,
        })
    }
}
