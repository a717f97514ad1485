//! The labels of faces. Each half has the label of the face on its left, and where a face is parted
//! or two are joined, the smaller of the two is labelled anew by a walk.
//!
//! Labels are counted upwards. Where one was given that is above twice the number of halves that
//! there is place for, and some, all faces are labelled anew from the first on. They then get no
//! more labels than there are halves. So a list by label stays short, and a pass over all halves
//! comes at most once in as many edits: it is amortized constant time for an edit.

ghost use Rattle.std.specs.Prelude.{◌≡◌, ◌≢◌, ◌⊎◌, ◌+◌, ◌<◌, ℕ, true, false};
ghost use Rattle.topo_core.specs.Rotations.{face_next, twin};
ghost use Rattle.topo_map.specs.Building.{AreBlank};
ghost use Rattle.topo_map.specs.Labels.{IsLabelled, IsPainted};
ghost use Rattle.topo_map.specs.Rotation.{PartsLabels, half_limit};
ghost use Rattle.topo_map.specs.Segments.{IsKept, IsTurned, Repaints, face_in};
ghost use Rattle.topo_map.specs.Segments.{holds, next_in, put, without};

use crate::half::Half;
use crate::segments::{Segments, contains, face, limit, next, put_before, set_face, take_out};

/// Above the numbers of all halves.
pub(crate) const HALF_LIMIT: u64 = 4_294_967_294;

/// So many labels are given beyond twice the halves, so that few halves are not labelled anew
/// often.
const SPARE_LABELS: usize = 1024;

/// The whole face of `start` gets this label.
pub(crate) fn paint(segments: &mut Segments, start: Half, label: u32)
    requires kept { IsKept segments.old }
    requires live { holds segments.old start ≡ true }
    ensures { IsPainted segments.old segments.new start label }
{
    let mut at = start;
    for _steps in 0..HALF_LIMIT {
        set_face(segments, at, label);
        at = next(segments, at.twin());
        if at == start {
            return;
        }
    }
}

/// Whether the walk round the face of `a` ends no later than that round the face of `b`, if both go
/// in step.
fn is_shorter(segments: &Segments, a: Half, b: Half) -> bool
    requires kept { IsKept segments.now }
    requires live { holds segments.now a ≡ true }
    requires live_other { holds segments.now b ≡ true }
{
    let mut at = a;
    let mut other = b;
    for _steps in 0..HALF_LIMIT {
        at = next(segments, at.twin());
        if at == a {
            return true;
        }
        other = next(segments, other.twin());
        if other == b {
            return false;
        }
    }
    true
}

/// The smaller of two faces gets the label of the other.
fn share_label(segments: &mut Segments, a: Half, b: Half)
    requires kept { IsKept segments.old }
    requires live { holds segments.old a ≡ true }
    requires live_other { holds segments.old b ≡ true }
    ensures { IsPainted segments.old segments.new a (face_in segments.old b)
        ⊎ IsPainted segments.old segments.new b (face_in segments.old a) }
{
    if is_shorter(segments, a, b) {
        let other = face(segments, b);
        paint(segments, a, other);
    } else {
        let other = face(segments, a);
        paint(segments, b, other);
    }
}

/// The smaller of two faces gets this label.
fn part_label(segments: &mut Segments, a: Half, b: Half, label: u32)
    requires kept { IsKept segments.old }
    requires live { holds segments.old a ≡ true }
    requires live_other { holds segments.old b ≡ true }
    ensures { IsPainted segments.old segments.new a label
        ⊎ IsPainted segments.old segments.new b label }
{
    if is_shorter(segments, a, b) {
        paint(segments, a, label);
    } else {
        paint(segments, b, label);
    }
}

/// Puts `x`, a point by itself, before `c`, and labels the faces of both as they lie then. Answers
/// the label that is unused then, and whether all other faces kept their labels.
pub(crate) fn attach(segments: &mut Segments, unused: u32, x: Half, c: Half) -> (u32, bool)
    requires kept { IsKept segments.old }
    requires live { holds segments.old x ≡ true }
    requires live_corner { holds segments.old c ≡ true }
    requires alone { next_in segments.old x ≡ x }
    requires different { c ≢ x }
    requires labels { IsLabelled segments.old unused }
    ensures turned { IsTurned segments.old segments.new (put (next_in segments.old) x c) }
    ensures labels { IsLabelled segments.new result.0 }
    ensures faces { result.1 ≡ true → PartsLabels (holds segments.old) (face_in segments.old)
        (face_in segments.new) x c x }
{
    if face(segments, x) == face(segments, c) {
        put_before(segments, x, c);
        part_label(segments, x, c, unused);
        label_after(segments, unused)
    } else {
        share_label(segments, x, c);
        put_before(segments, x, c);
        (unused, true)
    }
}

/// `x` becomes a point by itself, and the faces beside it are labelled as they lie then. Answers
/// the label that is unused then.
pub(crate) fn detach(segments: &mut Segments, unused: u32, x: Half) -> u32
    requires kept { IsKept segments.old }
    requires live { holds segments.old x ≡ true }
    requires labels { IsLabelled segments.old unused }
    ensures turned { IsTurned segments.old segments.new (without (next_in segments.old) x) }
    ensures labels { IsLabelled segments.new result }
{
    let other = x.twin();
    if face(segments, x) == face(segments, other) {
        let after = next(segments, x);
        take_out(segments, x);
        part_label(segments, x, after, unused);
        label_after(segments, unused).0
    } else {
        share_label(segments, x, other);
        take_out(segments, x);
        unused
    }
}

/// Whether a half is there and its face has no label.
fn lacks_label(segments: &Segments, half: Half) -> bool
    ensures yes { result ≡ true → (holds segments.now half ≡ true)
        × (face_in segments.now half ≡ 0) }
    ensures no { result ≡ false → holds segments.now half ≡ true → face_in segments.now half ≢ 0 }
{
    contains(segments, half) && face(segments, half) == 0
}

/// The face of a half has no label, if the half is there.
fn unlabel_half(segments: &mut Segments, half: Half)
    ensures same { Repaints segments.old segments.new (face_in segments.new) }
    ensures blank { holds segments.old half ≡ true → face_in segments.new half ≡ 0 }
    ensures others { (a : ℕ) → a ≢ half → face_in segments.new a ≡ face_in segments.old a }
{
    if contains(segments, half) {
        set_face(segments, half, 0);
    }
}

/// No face has a label.
fn unlabel(segments: &mut Segments)
    requires { IsKept segments.old }
    ensures same { Repaints segments.old segments.new (face_in segments.new) }
    ensures blank { AreBlank segments.new }
{
    for number in 0..limit(segments) {
        unlabel_half(segments, Half::numbered(number as u32));
    }
}

/// Each face gets a label of its own, where none has one. Answers the label that is unused then.
pub(crate) fn label_faces(segments: &mut Segments) -> u32
    requires kept { IsKept segments.old }
    requires blank { AreBlank segments.old }
    ensures same { Repaints segments.old segments.new (face_in segments.new) }
    ensures labels { IsLabelled segments.new result }
{
    let mut unused = 1;
    for number in 0..limit(segments) {
        let half = Half::numbered(number as u32);
        if lacks_label(segments, half) {
            paint(segments, half, unused);
            unused += 1;
        }
    }
    unused
}

/// The label from which on all faces are labelled anew. It has room in 32 bits.
fn label_limit(segments: &Segments) -> u32 {
    (2 * limit(segments) + SPARE_LABELS).min(u32::MAX as usize) as u32
}

/// The label after `given`, which was given last. Where labels have grown too large, all faces are
/// labelled anew. Answers the label that is unused then, and whether all faces kept their labels.
fn label_after(segments: &mut Segments, given: u32) -> (u32, bool)
    requires kept { IsKept segments.old }
    requires labels { IsLabelled segments.old (given + 1) }
    ensures same { Repaints segments.old segments.new (face_in segments.new) }
    ensures labels { IsLabelled segments.new result.0 }
    ensures faces { result.1 ≡ true → face_in segments.new ≡ face_in segments.old }
{
    if given < label_limit(segments) {
        return (given + 1, true);
    }
    unlabel(segments);
    (label_faces(segments), false)
}
