//! The region that a search from both ends has seen.

ghost use Rattle.std.specs.Prelude.{◌≡◌, ◌<◌, ◌≤◌, ℕ, IfOk, IfSome, IsSomeAnd, OnOk, true};
ghost use Rattle.topo_core.specs.Routes.{unreached};
ghost use Rattle.topo_route.specs.Names.{IsName, dart_named};
ghost use Rattle.topo_route.specs.Searches.{HasStopped, HoldsFaces, IsLabelled, heights_on};
ghost use Rattle.topo_route.specs.Regions.{IsRegionOf, holds_edge};
ghost use Rattle.topo_route.specs.Seen.{HoldsBelow, HoldsMore};

use crate::both_ends::Stop;
use crate::face_graph::FaceGraph;
use crate::planned::region::Region;
use crate::spread::SearchState;
use crate::steps::{face_at, next_along};
use crate::workspace::Workspace;
use std::alloc::{AllocError, Global};

/// Marks the edge of a dart. Its facts are not looked up where it is marked already, as most are.
fn mark_edge<W: FaceGraph>(graph: &W, dart: u32, region: &mut Region) -> Result<(), AllocError>
    requires name { IsName (W.named graph.now) dart }
    requires of_rows { IsRegionOf (W.named graph.now).rows region.old }
    ensures of_rows { OnOk result (IsRegionOf (W.named graph.now).rows region.new) }
    ensures more { OnOk result (HoldsMore region.old region.new) }
    ensures itself { OnOk result
        (holds_edge region.new (dart_named (W.named graph.now) dart).edge ≡ true) }
{
    if region.has_edge(graph.edge(dart)) {
        return Ok(());
    }
    region.mark(&graph.facts(dart))?;
    Ok(())
}

/// Marks the edge of each dart of a face.
fn mark_face<W: FaceGraph>(graph: &W, dart: u32, region: &mut Region) -> Result<(), AllocError>
    requires name { IsName (W.named graph.now) dart }
    requires of_rows { IsRegionOf (W.named graph.now).rows region.old }
    ensures of_rows { OnOk result (IsRegionOf (W.named graph.now).rows region.new) }
    ensures more { OnOk result (HoldsMore region.old region.new) }
    ensures round { OnOk result ((k : ℕ) → IsName (W.named graph.now) k
        → W.face_of graph.now k ≡ W.face_of graph.now dart
        → holds_edge region.new (dart_named (W.named graph.now) k).edge ≡ true) }
{
    let mut at = dart;
    for _steps in 0..graph.size() {
        mark_edge(graph, at, region)?;
        at = next_along(graph, at);
        if at == dart {
            return Ok(());
        }
    }
    Ok(())
}

/// Marks the edges of each face that is lower than the bound.
fn mark_below<W: FaceGraph>(
    graph: &W,
    labels: &SearchState,
    bound: u64,
    region: &mut Region,
) -> Result<(), AllocError>
    requires labelled { IsLabelled W.FaceGraph graph.now labels.now }
    requires of_rows { IsRegionOf (W.named graph.now).rows region.old }
    ensures of_rows { OnOk result (IsRegionOf (W.named graph.now).rows region.new) }
    ensures more { OnOk result (HoldsMore region.old region.new) }
    ensures below { OnOk result (HoldsBelow (W.named graph.now)
        (heights_on W.FaceGraph graph.now labels.now.heights) bound region.new) }
{
    let names = labels.names.as_slice();
    for i in 0..names.len() {
        let dart = names[i];
        if labels.heights.get(face_at(graph, dart)) < bound {
            mark_face(graph, dart, region)?;
        }
    }
    Ok(())
}

/// The edges of all faces lower than the level, and of those no farther from the start than the
/// rest of the least price.
fn region_of<W: FaceGraph>(
    alloc: Global,
    graph: &W,
    work: &Workspace,
    stop: Stop,
) -> Result<Region, AllocError>
    requires to_end { IsLabelled W.FaceGraph graph.now work.now.to_end }
    requires to_start { IsLabelled W.FaceGraph graph.now work.now.to_start }
    requires within { stop.level ≤ stop.least }
    requires some { stop.least < unreached }
    ensures { IfOk result (HoldsFaces W.FaceGraph graph.now work.now stop) }
{
    let mut region = Region::new(alloc);
    mark_below(graph, &work.to_end, stop.level, &mut region)?;
    let left = stop.least - stop.level + 1;
    mark_below(graph, &work.to_start, left, &mut region)?;
    Ok(region)
}

/// What a search has seen where its two ends have met; none where they have not, or at the price 0.
pub(crate) fn seen_region<W: FaceGraph>(
    alloc: Global,
    graph: &W,
    work: &Workspace,
    stop: Option<Stop>,
) -> Result<Option<Region>, AllocError>
    requires { IfSome stop (HasStopped W.FaceGraph graph.now work.now) }
    ensures { IfOk result (λ found. IfSome found
        (λ region. IsSomeAnd stop (λ s. (0 < s.least) × (s.least < unreached)
        × HoldsFaces W.FaceGraph graph.now work.now s region))) }
{
    match stop {
        Some(stop) => {
            if stop.least > 0 && stop.least < u64::MAX {
                let region = region_of(alloc, graph, work, stop)?;
                Ok(Some(region))
            } else {
                Ok(None)
            }
        }
        None => Ok(None),
    }
}
