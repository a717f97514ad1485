//! Darts, plans that nobody searched for, and whether a picture has the ends of a route.

ghost use Rattle.std.specs.Prelude.{◌≡◌, ◌≢◌, ◌<◌, IfOk, IsTrue, length};

use std::alloc::{AllocError, Global};
use topo_core::darts::{Dart, Way};
use topo_core::ids::EdgeId;
use topo_core::listed::Listed;
use topo_core::routes::Route;
use topo_dual::Frozen;
use topo_route::plan::Plan;

/// The least heights of the bipyramid's darts towards apex 4, at prices of 5, 2 and 9.
pub const LEAST_HEIGHTS: [u64; 18] = [0, 3, 0, 2, 0, 3, 3, 3, 3, 2, 2, 3, 0, 0, 0, 0, 0, 0];

/// A dart of an edge.
pub fn dart(edge: u32, seg: u32, way: Way) -> Dart
    ensures { result ≡ record { edge = edge; seg = seg; way = way } }
{
    Dart {
        edge: EdgeId::new(edge),
        seg,
        way,
    }
}

/// A plan with this route across one dart, this price and these heights, whether they are right or
/// not.
pub fn invented(
    alloc: Global,
    start: u32,
    crossed: Dart,
    end: u32,
    price: u64,
    heights: &[u64],
) -> Result<Plan, AllocError>
    ensures heights { IfOk result (λ plan. plan.heights ≡ heights.now) }
    ensures price { IfOk result (λ plan. plan.price ≡ price) }
    ensures ends { IfOk result (λ plan. (plan.route.start ≡ start) × (plan.route.end ≡ end)) }
{
    let heights = Vec::from_slice(alloc, heights)?;
    let crossed = Vec::from_slice(alloc, &[crossed])?;
    Ok(Plan {
        route: Route {
            start,
            crossed: Listed::from_vec(crossed),
            end,
        },
        price,
        heights: Listed::from_vec(heights),
    })
}

/// Whether both are vertices, and different ones: then a route between them can be looked for.
pub fn are_ends(frozen: &Frozen, u: u32, v: u32) -> bool
    ensures u_there { IsTrue result → u < length frozen.now.rows.rotations }
    ensures v_there { IsTrue result → v < length frozen.now.rows.rotations }
    ensures apart { IsTrue result → u ≢ v }
{
    let vertices = frozen.vertex_count();
    u < vertices && v < vertices && u != v
}
