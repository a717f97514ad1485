//! The faults of the program, each with its number, its name and what it means.
//!
//! Crates that refuse have enums of their own, which only name those that they answer: `fault` of
//! each leads here.
//!
//! A caller:
//!
//! ```rust
//! /// The status of a program that ends with a fault: 3 for want of memory, and else 1.
//! pub fn status(fault: Fault) -> u8 {
//!     if fault.number() == 8 { 3 } else { 1 }
//! }
//! ```
#![tactic(auto)]

ghost use Rattle.std.specs.Prelude.{◌≡◌, Some};
ghost use Rattle.topo_faults.specs.Faults.{name, number, told};

use std::fmt;

/// A fault or a refusal, without the values that it comes with. Its discriminant is its number, and
/// it is printed as its number and its name.
#[derive(Clone, Copy, Debug, PartialEq, Eq)]
pub enum Fault {
    /// A number names no vertex.
    NoVertex = 1,
    /// The two ends of an edge are one vertex.
    SameEnds = 2,
    /// The vertex has no corner at this position.
    NoPosition = 3,
    /// A number names no edge.
    NoEdge = 4,
    /// The kind is above 63.
    BadKind = 5,
    /// Taking the edge out would disconnect the picture.
    Cut = 6,
    /// The call would pass a limit.
    Full = 7,
    /// A growth of memory was refused.
    Memory = 8,
    /// No route crosses only edges that have a price.
    NoRoute = 9,
    /// A price lies outside its range.
    BadPrice = 10,
    /// A limit lies outside its range.
    BadLimits = 11,
    /// There are more vertices than the limit, or a counter is above its limit.
    TooMany = 20,
    /// Edge ids do not rise or are not below the next, an end is no vertex, the ends are equal, a
    /// kind is above 63, or a path names a crossing that is not there.
    BadPath = 21,
    /// Crossing ids do not rise or are not below the next, the two edges are equal or not there, or
    /// a crossing is not once in each of their paths and in no other.
    BadCrossing = 22,
    /// An edge is not once in the list of each of its ends, a list has something else, or it does
    /// not begin with its least id.
    BadRotation = 23,
    /// A point has no dart, or two darts are not joined.
    NotConnected = 24,
    /// Euler's formula does not give 2.
    NotPlanar = 25,
    /// There is not one height for each dart.
    WrongLength = 30,
    /// A dart's height differs from that of the next along its face.
    UnevenFace = 31,
    /// A dart's height exceeds its price and the height of its twin together.
    TooSteep = 32,
    /// A corner at the target has a height other than 0.
    TargetNotZero = 33,
    /// The route is none from start to target, or the price is not its sum.
    NotARoute = 34,
    /// The price is not the least height of a corner at the start.
    NotLeast = 35,
    /// Another start, crossed dart or end comes before the route's own.
    NotFirst = 36,
    /// A receipt is not its caller's entry at its place.
    Mismatch = 40,
    /// All passes were given out, or the version store has no place for a reader.
    NoSeat = 41,
    /// The reader's call, or a further share of the version, is refused.
    NoView = 42,
    /// A pass was given out and is not there.
    PassMissing = 43,
    /// The bytes are no JSON.
    NotJson = 50,
    /// There are more bytes than the form may have.
    TooLong = 51,
    /// A value has another shape than the one that is due at its place.
    BadShape = 52,
    /// The version is none that is known.
    BadVersion = 53,
    /// A number is no whole number, or lies outside its range.
    BadNumber = 54,
    /// The reader failed, or gave neither its end nor enough bytes in the turns that it has.
    ReadFault = 55,
    /// The writer failed. Part of the text may have been written.
    WriteFault = 56,
    /// The reply of an entry is not the one due.
    WrongReply = 60,
    /// The history of the report leads to another picture than the report's.
    WrongPicture = 61,
    /// There are not so many entries to take back.
    NothingToUndo = 70,
    /// The edge has no such segment.
    NoDart = 71,
    /// No session is open.
    NotOpen = 72,
    /// The ends of an edge of a graph are one vertex.
    Loop = 80,
    /// An edge of a graph ends at no vertex.
    NoEnd = 81,
    /// A component has more vertices or edges than a picture may have, or its picture would have
    /// more crossings.
    TooLarge = 82,
    /// No picture was found in which an edge that must not be crossed has no crossing.
    NotPlanarized = 83,
    /// The pictures that a search is to begin with show another graph.
    OtherGraph = 84,
    /// The pictures that were found do not show the graph. No run has this.
    NotShown = 85,
}

impl Fault {
    /// The number of the fault, by which texts and statuses name it.
    pub fn number(self) -> u32
        ensures { result ≡ number self }
    {
        self as u32
    }

    /// The name of the fault.
    pub fn name(self) -> &'static str
        ensures { result.now ≡ name self }
    {
        match self {
            Fault::NoVertex => "NoVertex",
            Fault::SameEnds => "SameEnds",
            Fault::NoPosition => "NoPosition",
            Fault::NoEdge => "NoEdge",
            Fault::BadKind => "BadKind",
            Fault::Cut => "Cut",
            Fault::Full => "Full",
            Fault::Memory => "Memory",
            Fault::NoRoute => "NoRoute",
            Fault::BadPrice => "BadPrice",
            Fault::BadLimits => "BadLimits",
            Fault::TooMany => "TooMany",
            Fault::BadPath => "BadPath",
            Fault::BadCrossing => "BadCrossing",
            Fault::BadRotation => "BadRotation",
            Fault::NotConnected => "NotConnected",
            Fault::NotPlanar => "NotPlanar",
            Fault::WrongLength => "WrongLength",
            Fault::UnevenFace => "UnevenFace",
            Fault::TooSteep => "TooSteep",
            Fault::TargetNotZero => "TargetNotZero",
            Fault::NotARoute => "NotARoute",
            Fault::NotLeast => "NotLeast",
            Fault::NotFirst => "NotFirst",
            Fault::Mismatch => "Mismatch",
            Fault::NoSeat => "NoSeat",
            Fault::NoView => "NoView",
            Fault::PassMissing => "PassMissing",
            Fault::NotJson => "NotJson",
            Fault::TooLong => "TooLong",
            Fault::BadShape => "BadShape",
            Fault::BadVersion => "BadVersion",
            Fault::BadNumber => "BadNumber",
            Fault::ReadFault => "ReadFault",
            Fault::WriteFault => "WriteFault",
            Fault::WrongReply => "WrongReply",
            Fault::WrongPicture => "WrongPicture",
            Fault::NothingToUndo => "NothingToUndo",
            Fault::NoDart => "NoDart",
            Fault::NotOpen => "NotOpen",
            Fault::Loop => "Loop",
            Fault::NoEnd => "NoEnd",
            Fault::TooLarge => "TooLarge",
            Fault::NotPlanarized => "NotPlanarized",
            Fault::OtherGraph => "OtherGraph",
            Fault::NotShown => "NotShown",
        }
    }
}

impl fmt::Display for Fault {
    ghost output = { λ fault. Some (told fault) };

    fn fmt<W: fmt::Write>(&self, f: &mut fmt::Formatter<W>) -> fmt::Result {
        let number = self.number();
        let name = self.name();
        write!(f, "{number} {name}")
    }
}
