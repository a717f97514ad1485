//! The route down the heights.

ghost use Rattle.std.specs.Prelude.{◌≡◌, ◌≢◌, ◌<◌, ◌≤◌, ◌↔◌, ℕ, IsTrue, MatchOption};
ghost use Rattle.std.specs.Prelude.{IfOk, IfSome, IsSomeAnd, Some, false, length};
ghost use Rattle.topo_core.specs.declared.darts.Dart.{Dart};
ghost use Rattle.topo_core.specs.Picture.{corner};
ghost use Rattle.topo_core.specs.RouteLaws.{IsTight};
ghost use Rattle.topo_core.specs.Routes.{unreached};
ghost use Rattle.topo_route.specs.Descents.{HasNoEnd, HasNoStart, IsDescent};
ghost use Rattle.topo_route.specs.Descents.{IsEnd, IsFirstOf, IsFirstTight, IsStart};
ghost use Rattle.topo_route.specs.Names.{IsName, dart_named, height_of};
ghost use Rattle.topo_route.specs.Plans.{HasNoneBefore, IsLeastAt};
ghost use Rattle.topo_route.specs.PricedFaces.{heights_over};
ghost use Rattle.topo_route.specs.Searches.{HasHeights, KnowsUpTo};
ghost use Rattle.topo_route.specs.Searches.{heights_on, priced_faces};

use crate::face_graph::FaceGraph;
use crate::priced_graph::PricedGraph;
use crate::stamped_array::StampedArray;
use crate::steps::{across, corner_at, height_at, next_along, same_face};
use std::alloc::{AllocError, Global};
use topo_core::darts::Dart;
use topo_price::tariff::PriceFn;

/// The least height of a corner, and the greatest number where there is none. No corner is asked
/// after one of height 0.
pub(crate) fn least_corner<W: FaceGraph>(graph: &W, u: u32, heights: &StampedArray) -> u64
    requires { length heights.now ≡ W.face_bound graph.now }
    ensures low { (p : ℕ) → (c : Dart) → corner (W.named graph.now).rows u p ≡ Some c
        → result ≤ height_of (W.named graph.now)
        (heights_on W.FaceGraph graph.now heights.now) c }
    ensures attained { result ≢ unreached → IsLeastAt (W.named graph.now).rows u
        (height_of (W.named graph.now) (heights_on W.FaceGraph graph.now heights.now)) result }
{
    let mut least = u64::MAX;
    for position in 0..graph.degree(u) {
        if let Some(corner) = corner_at(graph, u, position) {
            let height = height_at(graph, heights, corner);
            if height == 0 {
                return 0;
            }
            if height < least {
                least = height;
            }
        }
    }
    least
}

/// The first corner of this height: its position and its dart.
fn corner_of_height<W: FaceGraph>(
    graph: &W,
    u: u32,
    heights: &StampedArray,
    height: u64,
) -> Option<(u32, u32)>
    requires { length heights.now ≡ W.face_bound graph.now }
    ensures { let g = W.named graph.now in
        let high = height_of g (heights_on W.FaceGraph graph.now heights.now) in
        MatchOption result
        ((p : ℕ) → (c : Dart) → corner g.rows u p ≡ Some c → high c ≢ height)
        (λ r. IsName g r.1 × (corner g.rows u r.0 ≡ Some (dart_named g r.1))
        × (high (dart_named g r.1) ≡ height) × HasNoneBefore g.rows u high r.0 height) }
{
    for position in 0..graph.degree(u) {
        if let Some(corner) = corner_at(graph, u, position) {
            if height_at(graph, heights, corner) == height {
                return Some((position, corner));
            }
        }
    }
    None
}

/// The first corner with the least height of all, if one is reached: its position and its dart.
pub(crate) fn start_corner<W: FaceGraph>(
    graph: &W,
    u: u32,
    heights: &StampedArray,
) -> Option<(u32, u32)>
    requires { length heights.now ≡ W.face_bound graph.now }
    ensures { let high = heights_on W.FaceGraph graph.now heights.now in
        MatchOption result (HasNoStart (W.named graph.now) u high)
        (λ r. IsStart (W.named graph.now) u high r.0 r.1) }
{
    let least = least_corner(graph, u, heights);
    if least == u64::MAX {
        // For the proof: what the type keeps.
        heights.in_range();
        return None;
    }
    corner_of_height(graph, u, heights, least)
}

/// The first corner in the face of `last`.
pub(crate) fn end_corner<W: FaceGraph>(graph: &W, v: u32, last: u32) -> Option<u32>
    requires { IsName (W.named graph.now) last }
    ensures { MatchOption result
        (HasNoEnd (W.named graph.now).rows v (dart_named (W.named graph.now) last))
        (IsEnd (W.named graph.now).rows v (dart_named (W.named graph.now) last)) }
{
    for position in 0..graph.degree(v) {
        if let Some(corner) = corner_at(graph, v, position) {
            if same_face(graph, last, corner) {
                return Some(position);
            }
        }
    }
    None
}

/// Whether crossing the dart costs just what its height is above that of its twin.
fn is_tight<W: FaceGraph, F: PriceFn>(
    priced: &PricedGraph<W, F>,
    heights: &StampedArray,
    dart: u32,
) -> bool
    requires has { HasHeights (priced_faces W.FaceGraph F.PriceFn priced.now) heights.now }
    requires name { IsName (W.named priced.now.graph.now) dart }
    ensures { let p = priced_faces W.FaceGraph F.PriceFn priced.now in
        IsTrue result ↔ IsTight p.price p.named.rows
        (height_of p.named (heights_over p heights.now)) (dart_named p.named dart) }
{
    let twin = across(priced.graph, dart);
    let other = height_at(priced.graph, heights, twin);
    let height = height_at(priced.graph, heights, dart);
    if height <= other {
        return false;
    }
    match priced.price(dart) {
        Some(price) => height - other == price as u64,
        None => false,
    }
}

/// The first of the tight darts so far, and of this one if it is tight. Only then is it asked which
/// of the two comes first.
fn first_of<W: FaceGraph, F: PriceFn>(
    priced: &PricedGraph<W, F>,
    heights: &StampedArray,
    first: Option<u32>,
    dart: u32,
) -> Option<u32>
    requires has { HasHeights (priced_faces W.FaceGraph F.PriceFn priced.now) heights.now }
    requires first_there { IfSome first (IsName (W.named priced.now.graph.now)) }
    requires name { IsName (W.named priced.now.graph.now) dart }
    ensures { let p = priced_faces W.FaceGraph F.PriceFn priced.now in
        IsFirstOf p.price p.named (heights_over p heights.now) first dart result }
{
    if !is_tight(priced, heights, dart) {
        return first;
    }
    match first {
        Some(before) => {
            if priced.graph.precedes(dart, before) {
                Some(dart)
            } else {
                first
            }
        }
        None => Some(dart),
    }
}

/// The first tight dart of the face of `at`, whose height is known and above 0: there is one.
fn first_tight<W: FaceGraph, F: PriceFn>(
    priced: &PricedGraph<W, F>,
    heights: &StampedArray,
    v: u32,
    at: u32,
) -> Option<u32>
    requires known { KnowsUpTo (priced_faces W.FaceGraph F.PriceFn priced.now) v heights.now at }
    requires above { let p = priced_faces W.FaceGraph F.PriceFn priced.now in
        0 < height_of p.named (heights_over p heights.now) (dart_named p.named at) }
    ensures { let p = priced_faces W.FaceGraph F.PriceFn priced.now in
        IsSomeAnd result (IsFirstTight p.price p.named (heights_over p heights.now) at) }
{
    let mut dart = at;
    let mut first = None;
    for _steps in 0..priced.graph.size() {
        first = first_of(priced, heights, first, dart);
        dart = next_along(priced.graph, dart);
        if dart == at {
            return first;
        }
    }
    first
}

/// Walks down from a dart to the target across the first tight dart of each face: the darts that it
/// crosses, and one of its last face.
pub(crate) fn descend<W: FaceGraph, F: PriceFn>(
    alloc: Global,
    priced: &PricedGraph<W, F>,
    heights: &StampedArray,
    v: u32,
    from: u32,
) -> Result<(Vec<Dart>, u32), AllocError>
    requires { KnowsUpTo (priced_faces W.FaceGraph F.PriceFn priced.now) v heights.now from }
    ensures { let p = priced_faces W.FaceGraph F.PriceFn priced.now in
        IfOk result
        (λ r. IsDescent p.price p.named (heights_over p heights.now) from r.0.items r.1) }
{
    let mut crossed = Vec::new(alloc);
    let mut at = from;
    while height_at(priced.graph, heights, at) > 0 {
        match first_tight(priced, heights, v, at) {
            Some(dart) => {
                crossed.push(priced.graph.dart(dart))?;
                at = across(priced.graph, dart);
            }
            None => unreachable!(),
        }
    }
    Ok((crossed, at))
}
