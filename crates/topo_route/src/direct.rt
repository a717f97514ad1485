//! The first route where one crosses nothing.

ghost use Rattle.std.specs.Prelude.{IfSome};
ghost use Rattle.topo_route.specs.Direct.{IsFirstDirect};

use crate::descent::end_corner;
use crate::face_graph::FaceGraph;
use crate::steps::corner_at;
use std::alloc::Global;
use topo_core::listed::Listed;
use topo_core::routes::Route;

/// Beyond the first corner, as many are looked at as take no more questions than these.
const MAX_FACE_TESTS: u32 = 32;

/// The first route from `u` to `v` that crosses nothing, where a face at one of the first corners
/// of `u` is also at `v`. None says nothing of the corners that were not looked at. It takes the
/// time of one round of the target's corners.
pub(crate) fn direct_route<W: FaceGraph>(alloc: Global, graph: &W, u: u32, v: u32) -> Option<Route>
    ensures { IfSome result (IsFirstDirect (W.named graph.now).rows u v) }
{
    let more = MAX_FACE_TESTS / graph.degree(v).max(1);
    for start in 0..graph.degree(u).min(1 + more) {
        if let Some(corner) = corner_at(graph, u, start) {
            if let Some(end) = end_corner(graph, v, corner) {
                return Some(Route {
                    start,
                    crossed: Listed::new(alloc),
                    end,
                });
            }
        }
    }
    None
}
