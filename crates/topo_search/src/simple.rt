//! Walks that meet no face twice.

ghost use Rattle.std.specs.Prelude.{◌≡◌, [], ◌∷◌, All, IfOk, IfSome, IsTrue, MatchOption, map};
ghost use Rattle.std.specs.List.{AllByRecursion};
ghost use Rattle.topo_core.specs.Darts.{dart_twin};
ghost use Rattle.topo_core.specs.Picture.{system};
ghost use Rattle.topo_core.specs.Routes.{Crosses, IsSimpleRoute, MeetsFacesOnce};
ghost use Rattle.topo_core.specs.Systems.{SameFace};
ghost use Rattle.topo_route.specs.Names.{IsName, dart_named};

use crate::levels::Walk;
use std::alloc::{AllocError, Global};
use topo_core::darts::Dart;
use topo_core::listed::Listed;
use topo_core::routes::Route;
use topo_route::face_graph::FaceGraph;
use topo_route::steps::{across, corner_at, same_face};

/// Longer walks are not looked at.
const MOST_CROSSED: usize = 1000;

/// The first of these darts, by its name, and the others; none where there is none.
fn first_and_rest<'a, W: FaceGraph>(graph: &W, darts: &'a [u32]) -> Option<(u32, &'a [u32])>
    requires { All (IsName (W.named graph.now)) darts.now }
    ensures parts { MatchOption result (darts.now ≡ []) (λ p. darts.now ≡ p.0 ∷ p.1.now) }
    ensures first { IfSome result (λ p. IsName (W.named graph.now) p.0) }
    ensures rest { IfSome result (λ p. All (IsName (W.named graph.now)) p.1.now) }
{
    match darts.split_first() {
        Some((first, rest)) => {
            let first = *first;
            Some((first, rest))
        }
        None => None,
    }
}

/// Whether none of these darts leads into the face on the left of one.
fn leaves_for_good<W: FaceGraph>(graph: &W, at: u32, crossed: &[u32]) -> bool
    requires at { IsName (W.named graph.now) at }
    requires crossed { All (IsName (W.named graph.now)) crossed.now }
    ensures { let g = W.named graph.now in IsTrue result → AllByRecursion
        (λ d. SameFace (system g.rows) (dart_named g at) (dart_twin d) → ⊥)
        (map (dart_named g) crossed.now) }
{
    match first_and_rest(graph, crossed) {
        Some((dart, rest)) => {
            let twin = across(graph, dart);
            if same_face(graph, at, twin) {
                return false;
            }
            leaves_for_good(graph, at, rest)
        }
        None => true,
    }
}

/// Whether crossing these darts leads from the face of one to that of another, and meets no face
/// twice.
fn is_simple<W: FaceGraph>(graph: &W, at: u32, crossed: &[u32], to: u32) -> bool
    requires at { IsName (W.named graph.now) at }
    requires crossed { All (IsName (W.named graph.now)) crossed.now }
    requires to { IsName (W.named graph.now) to }
    ensures walk { let g = W.named graph.now in IsTrue result → Crosses (system g.rows)
        (dart_named g at) (map (dart_named g) crossed.now) (dart_named g to) }
    ensures once { let g = W.named graph.now in IsTrue result → MeetsFacesOnce (system g.rows)
        (dart_named g at) (map (dart_named g) crossed.now) }
{
    match first_and_rest(graph, crossed) {
        Some((dart, rest)) => {
            if !same_face(graph, at, dart) {
                return false;
            }
            if !leaves_for_good(graph, at, crossed) {
                return false;
            }
            let beyond = across(graph, dart);
            is_simple(graph, beyond, rest, to)
        }
        None => same_face(graph, at, to),
    }
}

/// The darts with these names.
fn darts_named<W: FaceGraph>(
    alloc: Global,
    graph: &W,
    names: &[u32],
) -> Result<Vec<Dart>, AllocError>
    requires { All (IsName (W.named graph.now)) names.now }
    ensures { IfOk result (λ darts. darts.items ≡ map (dart_named (W.named graph.now)) names.now) }
{
    let mut darts = Vec::with_capacity(alloc, names.len())?;
    for name in names {
        darts.push(graph.dart(*name))?;
    }
    Ok(darts)
}

/// The route along a walk from `u` to `v`, where it is one and meets no face twice.
pub(crate) fn simple_route<W: FaceGraph>(
    alloc: Global,
    graph: &W,
    u: u32,
    v: u32,
    walk: &Walk,
) -> Result<Option<Route>, AllocError>
    requires { All (IsName (W.named graph.now)) walk.now.crossed.items }
    ensures { IfOk result (λ found. IfSome found
        (λ route. IsSimpleRoute (W.named graph.now).rows u v route)) }
{
    let Some(from) = corner_at(graph, u, walk.start) else {
        return Ok(None);
    };
    let Some(to) = corner_at(graph, v, walk.end) else {
        return Ok(None);
    };
    if walk.crossed.len() > MOST_CROSSED {
        return Ok(None);
    }
    if !is_simple(graph, from, &walk.crossed, to) {
        return Ok(None);
    }
    let crossed = darts_named(alloc, graph, &walk.crossed)?;
    Ok(Some(Route {
        start: walk.start,
        crossed: Listed::from_vec(crossed),
        end: walk.end,
    }))
}
