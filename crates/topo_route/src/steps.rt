//! Steps from dart to dart by their names: what a `FaceGraph` answers, and that each dart that it
//! hands out has the name of one.

ghost use Rattle.std.specs.Prelude.{◌≡◌, ◌<◌, ◌≤◌, ◌↔◌, IsTrue, Some, None};
ghost use Rattle.std.specs.Prelude.{MatchOption, IfSome, length, slice_index};
ghost use Rattle.topo_core.specs.Darts.{dart_twin};
ghost use Rattle.topo_core.specs.Picture.{corner, system};
ghost use Rattle.topo_core.specs.Routes.{KeepsPromise};
ghost use Rattle.topo_core.specs.Systems.{SameFace};
ghost use Rattle.topo_price.specs.Prices.{prices_of};
ghost use Rattle.topo_route.specs.Names.{IsName, dart_named, next_name, twin_name};
ghost use Rattle.topo_route.specs.Numbers.{IsPriceFor};
ghost use Rattle.topo_route.specs.Searches.{heights_on};
ghost use Rattle.topo_core.specs.declared.rows.TheConstants.{MAX_PRICE};

use crate::face_graph::FaceGraph;
use crate::stamped_array::StampedArray;
use topo_price::tariff::{PriceFn, Tariff};

/// The next dart along the face on the left.
pub(crate) fn next_along<W: FaceGraph>(graph: &W, dart: u32) -> u32
    requires { IsName (W.named graph.now) dart }
    ensures next { result ≡ next_name (W.named graph.now) dart }
    ensures name { IsName (W.named graph.now) result }
{
    graph.next(dart)
}

/// The dart on the same segment that leads the other way.
pub fn across<W: FaceGraph>(graph: &W, dart: u32) -> u32
    requires { IsName (W.named graph.now) dart }
    ensures twin { result ≡ twin_name (W.named graph.now) dart }
    ensures name { IsName (W.named graph.now) result }
    ensures other { dart_named (W.named graph.now) result
        ≡ dart_twin (dart_named (W.named graph.now) dart) }
{
    graph.twin(dart)
}

/// The label of the face on the left of a dart.
pub fn face_at<W: FaceGraph>(graph: &W, dart: u32) -> u32
    requires { IsName (W.named graph.now) dart }
    ensures face { result ≡ W.face_of graph.now dart }
    ensures within { result < W.face_bound graph.now }
{
    graph.face(dart)
}

/// The next dart along the face on the left, and the label of the face on the other side.
pub fn step<W: FaceGraph>(graph: &W, dart: u32) -> (u32, u32)
    requires { IsName (W.named graph.now) dart }
    ensures next { result.0 ≡ next_name (W.named graph.now) dart }
    ensures name { IsName (W.named graph.now) result.0 }
    ensures beyond { result.1 ≡ W.face_of graph.now (twin_name (W.named graph.now) dart) }
    ensures within { result.1 < W.face_bound graph.now }
{
    graph.step(dart)
}

/// The height of the face on the left of a dart, in a list that has one for each label.
pub(crate) fn height_at<W: FaceGraph>(graph: &W, heights: &StampedArray, dart: u32) -> u64
    requires one_each { length heights.now ≡ W.face_bound graph.now }
    requires name { IsName (W.named graph.now) dart }
    ensures { result ≡ slice_index (heights_on W.FaceGraph graph.now heights.now) dart }
{
    heights.get(face_at(graph, dart))
}

/// Whether two darts have one face on their left. It takes no longer where the face is large.
pub fn same_face<W: FaceGraph>(graph: &W, dart: u32, other: u32) -> bool
    requires dart_there { IsName (W.named graph.now) dart }
    requires other_there { IsName (W.named graph.now) other }
    ensures { IsTrue result ↔ SameFace (system (W.named graph.now).rows)
        (dart_named (W.named graph.now) dart) (dart_named (W.named graph.now) other) }
{
    graph.face(dart) == graph.face(other)
}

/// The dart that names a corner.
pub fn corner_at<W: FaceGraph>(graph: &W, v: u32, position: u32) -> Option<u32>
    ensures { MatchOption result (corner (W.named graph.now).rows v position ≡ None)
        (λ c. IsName (W.named graph.now) c
        × (corner (W.named graph.now).rows v position ≡ Some (dart_named (W.named graph.now) c))) }
{
    graph.corner(v, position)
}

/// The price of crossing a dart. Where prices are known by the kind of an edge, its facts are not
/// read.
pub(crate) fn price_at<W: FaceGraph, F: PriceFn>(
    graph: &W,
    tariff: &Tariff<F>,
    dart: u32,
) -> Option<u32>
    requires { IsName (W.named graph.now) dart }
    ensures price { IsPriceFor (prices_of (F.may_return tariff.now))
        (W.named graph.now).rows (dart_named (W.named graph.now) dart) result }
    ensures in_range { IfSome result (λ p. (1 ≤ p) × (p ≤ MAX_PRICE)) }
    ensures promise { KeepsPromise (prices_of (F.may_return tariff.now)) }
{
    // For the proof: what the types keep.
    let (_edge, _darts) = (graph.edge(dart), graph.size());
    let known = tariff.price_of_kind(graph.kind(dart));
    match known {
        Some(price) => price,
        None => {
            let facts = graph.facts(dart);
            tariff.price(&facts)
        }
    }
}
