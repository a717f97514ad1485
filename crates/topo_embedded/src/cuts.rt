//! Cuts: the first segment of an edge that has one face on both sides when those before it are out.
//! Of the first segment the labels of the faces tell it. For one behind it the faces on both sides
//! are walked in step, so that a test costs no more than the smaller of them and takes no memory.

ghost use Rattle.std.specs.Prelude.{◌≡◌, ◌↔◌, IsTrue};
ghost use Rattle.topo_core.specs.Changes.{HasOneFace};
ghost use Rattle.topo_core.specs.Openings.{is_opened};
ghost use Rattle.topo_core.specs.declared.darts.Dart.{Dart};
ghost use Rattle.topo_kept_rows.specs.Cuts.{IsFirstCut, IsLeft, IsNextLeft};
ghost use Rattle.topo_embedded.specs.Cutting.{IsDartBeside, IsOpenedOn};
ghost use Rattle.topo_embedded.specs.Halves.{RowsWithPaths, half_in};
ghost use Rattle.topo_map.specs.Rotation.{Rotation};

use crate::path::Path;
use topo_map::{Embedding, Half};

/// Whether a half of edge `e` is on one of the first `out` segments of its path. A walk round a
/// face mostly meets the last of them, or comes home to the segment behind, so these are compared
/// first.
fn is_among(path: &Path, out: usize, half: Half) -> bool
    requires { (p : RowsWithPaths) × (r : Rotation) × (d : Dart)
        × IsDartBeside p r d.edge out path.now half d }
    ensures { (p : RowsWithPaths) (r : Rotation) (d : Dart)
        → IsDartBeside p r d.edge out path.now half d → result ≡ is_opened d.edge out d }
{
    if path.is_at(out, half) {
        return false;
    }
    if out > 0 && path.is_at(out - 1, half) {
        return true;
    }
    path.place_of(half) < out
}

/// Whether a half is out when the first `out` segments of edge `e` are.
fn is_out(segments: &Embedding, e: u32, path: &Path, out: usize, half: Half) -> bool
    requires { (p : RowsWithPaths) × (d : Dart)
        × IsDartBeside p segments.now e out path.now half d }
    ensures { (p : RowsWithPaths) (d : Dart) → IsDartBeside p segments.now e out path.now half d
        → result ≡ is_opened e out d }
{
    if segments.edge(half) == e {
        is_among(path, out, half)
    } else {
        false
    }
}

/// The next half along the face when the first `out` segments of edge `e` are out.
fn next_left(segments: &Embedding, e: u32, path: &Path, out: usize, half: Half) -> Half
    requires { (p : RowsWithPaths) × IsOpenedOn p segments.now e out path.now × (d : Dart)
        × IsLeft p.rows (half_in p) e out d half }
    ensures { (p : RowsWithPaths) → IsOpenedOn p segments.now e out path.now → (d : Dart)
        → IsLeft p.rows (half_in p) e out d half → (next : Dart)
        × IsNextLeft p.rows (half_in p) e out d next result }
{
    let mut next = segments.face_next(half);
    for _passed in 0..u32::MAX {
        if !is_out(segments, e, path, out, next) {
            return next;
        }
        next = segments.turn(next);
    }
    next
}

/// Whether the segment at which edge `e` is opened has one face on both sides. The faces are walked
/// in step: they are one as soon as either walk comes to the start of the other, and two as soon as
/// either comes home.
fn has_one_face(segments: &Embedding, e: u32, path: &Path, segment: usize) -> bool
    requires { (p : RowsWithPaths) × IsOpenedOn p segments.now e segment path.now }
    ensures { (p : RowsWithPaths) → IsOpenedOn p segments.now e segment path.now
        → (IsTrue result ↔ HasOneFace p.rows e segment) }
{
    let half = path.at(segment);
    let twin = half.twin();
    let mut left = half;
    let mut right = twin;
    for _steps in 0..u32::MAX {
        left = next_left(segments, e, path, segment, left);
        right = next_left(segments, e, path, segment, right);
        if left == twin || right == half {
            return true;
        }
        if left == half || right == twin {
            return false;
        }
    }
    false
}

/// The first segment of an edge with this path that has one face on both sides when those before it
/// are out.
pub(crate) fn first_cut(segments: &Embedding, e: u32, path: &Path) -> Option<u32>
    requires { (p : RowsWithPaths) × IsOpenedOn p segments.now e 0 path.now }
    ensures { (p : RowsWithPaths) → IsOpenedOn p segments.now e 0 path.now
        → IsFirstCut p.rows e result }
{
    let first = path.at(0);
    if segments.same_face(first, first.twin()) {
        return Some(0);
    }
    for segment in 1..path.len() {
        if has_one_face(segments, e, path, segment) {
            return Some(segment as u32);
        }
    }
    None
}
