//! Steps, replays, versions and runs, computed where they are and where they are not. The functions
//! do nothing: their contracts are the evidence.

ghost use Rattle.std.specs.Prelude.{◌≡◌};
ghost use Rattle.topo_cases.specs.StepCases.{NoHistoryEvidence, NoStepEvidence, StepEvidence};

use topo_core::limits::Limits;

/// A deletion, a cut, and each refusal for want of an edge, a route, a vertex id, an edge id or a
/// crossing id.
pub fn steps(wide: Limits, narrow: Limits, single: Limits)
    requires edges { wide.edges ≡ 65536 }
    requires narrow { narrow.vertices ≡ 2 }
    requires narrow_edges { narrow.edges ≡ 1 }
    requires single { single.crossings ≡ 1 }
    requires single_edges { single.edges ≡ 65536 }
    ensures { StepEvidence wide narrow single }
{}

/// Another reply, another picture, a refusal without its cause: none is a step.
pub fn no_steps(wide: Limits)
    requires vertices { wide.vertices ≡ 65536 }
    requires edges { wide.edges ≡ 65536 }
    requires crossings { wide.crossings ≡ 1048576 }
    ensures { NoStepEvidence wide }
{}

/// Lists of entries that are no history of their picture, no version of it, and no run of the
/// lists.
pub fn no_histories(wide: Limits)
    requires vertices { wide.vertices ≡ 65536 }
    requires edges { wide.edges ≡ 65536 }
    requires crossings { wide.crossings ≡ 1048576 }
    ensures { NoHistoryEvidence wide }
{}
