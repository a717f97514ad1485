//! The definitions computed on small named pictures. The functions do nothing: their contracts are
//! the evidence.

ghost use Rattle.std.specs.Prelude.{◌≡◌};
ghost use Rattle.topo_cases.specs.Evidence.{BarrierEvidence, BipyramidEvidence, CrossEvidence};
ghost use Rattle.topo_cases.specs.Evidence.{HexagonCallsEvidence, HexagonEvidence};
ghost use Rattle.topo_cases.specs.Evidence.{HistoryEvidence, JoinedApexesEvidence};
ghost use Rattle.topo_cases.specs.Evidence.{RefusalEvidence, SeedEvidence, UnlawfulEvidence};

use topo_core::limits::Limits;

/// Two vertices and the edge between them: one face; insertions and a growth beside the edge.
pub fn seed()
    ensures { SeedEvidence }
{}

/// The order of refusals, under the greatest limits and where the limits leave no room for a
/// vertex.
pub fn refusals(wide: Limits, narrow: Limits)
    requires wide { wide.edges ≡ 65536 }
    requires narrow { narrow.vertices ≡ 2 }
    requires narrow_edges { narrow.edges ≡ 2 }
    ensures { RefusalEvidence wide narrow }
{}

/// A triangle between two apexes: its faces, and the first route from apex to apex.
pub fn bipyramid()
    ensures { BipyramidEvidence }
{}

/// The bipyramid with an edge from apex to apex across the triangle, and with its crossing's sign
/// exchanged.
pub fn joined_apexes()
    ensures { JoinedApexesEvidence }
{}

/// A hexagon with two chords, built from the seed, and a third chord that has to cross one.
pub fn hexagon()
    ensures { HexagonEvidence }
{}

/// A triangle whose base is crossed by one edge, and then twice by another.
pub fn barrier()
    ensures { BarrierEvidence }
{}

/// Two edges that only their crossing joins: neither may be deleted.
pub fn cross()
    ensures { CrossEvidence }
{}

/// Rows that are no pictures.
pub fn unlawful()
    ensures { UnlawfulEvidence }
{}

/// A history of two callers: its replay, its versions, receipts that agree and that do not, and the
/// lists of commands of which it is a run.
pub fn history(wide: Limits)
    requires vertices { wide.vertices ≡ 65536 }
    requires edges { wide.edges ≡ 65536 }
    ensures { HistoryEvidence wide }
{}

/// The eight calls that make the hexagon with three chords from the seed, each a step.
pub fn hexagon_calls(wide: Limits)
    requires vertices { wide.vertices ≡ 65536 }
    requires edges { wide.edges ≡ 65536 }
    requires crossings { wide.crossings ≡ 1048576 }
    ensures { HexagonCallsEvidence wide }
{}
