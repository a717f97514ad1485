//! Segments by key, each with the halves after and before its two, and the labels of the faces
//! beside it. Both directions are kept, so that a half is put in or taken out in a constant number
//! of steps.
//!
//! What a search reads of a segment lies in a list of its own: the halves after its two, the labels
//! of the faces, and the label of its edge, whose price it asks. These are 20 bytes, so three
//! segments share a line of a cache.

ghost use Rattle.std.specs.Prelude.{◌≡◌, ◌≢◌, ◌+◌, ◌<◌, ◌≤◌, ◌^◌, ℕ, [], true, length, IfOk, OnOk};
ghost use Rattle.std.specs.Prelude.{IsOk, slice_index_or};
ghost use Rattle.topo_map.specs.declared.segments.Walk.{Walk};
ghost use Rattle.slab.specs.Slab.{slab_len};
ghost use Rattle.topo_core.specs.Rotations.{twin};
ghost use Rattle.topo_map.specs.Rotation.{AddsFaces, AddsLabel, KeepsLabels};
ghost use Rattle.topo_map.specs.Segments.{IsInserted, IsKept, IsRemoved};
ghost use Rattle.topo_map.specs.Segments.{IsTurned, Repaints, Rewires, before_in, face_in};
ghost use Rattle.topo_map.specs.Segments.{holds, isolated_segment, label_in, limit_of};
ghost use Rattle.topo_map.specs.Segments.{next_in, put, room_of, without, written};

use crate::half::Half;
use slab::Slab;
use std::alloc::{AllocError, Global};
use std::marker::Model;
use topo_core::darts::Way;

/// A slab of more segments is used for no new one, so that each half's number fits its type, and
/// what is above all of them too.
const MAX_SEGMENTS: usize = 2_147_483_647;

/// The half after a half, clockwise at its point, and the label of the face on its left.
#[derive(Clone, Copy)]
struct Links {
    next: Half,
    face: u32,
}

/// What a walk reads of a segment: the links of its two halves, and the label of its edge.
#[derive(Clone, Copy)]
struct Walk {
    forward: Links,
    back: Links,
    edge: u32,
}

impl Walk {
    // What stands at a key that has no segment.
    fn blank() -> Self {
        Walk {
            forward: Links {
                next: Half::numbered(0),
                face: 0,
            },
            back: Links {
                next: Half::numbered(0),
                face: 0,
            },
            edge: 0,
        }
    }
}

/// What else is kept of a segment: the halves before its two.
#[derive(Clone, Copy)]
struct Rest {
    forward: Half,
    back: Half,
}

/// All that is kept of a segment.
#[derive(Clone, Copy)]
pub(crate) struct Segment {
    walk: Walk,
    rest: Rest,
}

impl Segment {
    // Each half a point by itself.
    fn isolated(key: u32, edge: u32, left: u32, right: u32) -> Self
        requires { key < 2147483648 }
        ensures { result ≡ isolated_segment key edge left right }
    {
        let forward = Half::forward(key);
        let back = forward.twin();
        Segment {
            walk: Walk {
                forward: Links {
                    next: forward,
                    face: left,
                },
                back: Links {
                    next: back,
                    face: right,
                },
                edge,
            },
            rest: Rest { forward, back },
        }
    }
}

/// Segments by key. Contracts see one slab of whole segments. It is kept in two parts: a slab,
/// which gives the keys, and a list of what walks read, which has a place for each key that the
/// slab has room for.
#[derive(Drop)]
pub(crate) struct Segments {
    walks: Vec<Walk>,
    rest: Slab<Rest>,
}

impl Model for Segments {
    ghost use Rattle.slab.specs.Slab.{Slab as Slots};
    ghost use Rattle.std.specs.Prelude.{◌≤◌, length};
    ghost use Rattle.topo_map.specs.Segments.{joined};
    ghost use Rattle.topo_map.specs.declared.segments.Segment.{Segment as Whole};

    ghost Value = { Slots Whole };

    ghost view = { λ s. joined s.walks.items s.rest };

    ghost invariant = { λ s. (length s.rest.slots ≤ s.rest.capacity)
        × (s.rest.capacity ≤ length s.walks.items) };
}

/// No segments. Nothing is allocated.
pub(crate) fn none(alloc: Global) -> Segments
    ensures { result.slots ≡ [] }
{
    Segments {
        walks: Vec::new(alloc),
        rest: Slab::new(alloc),
    }
}

/// A slab's part with room for so many more, in memory of its own. What would pass the bound is
/// refused.
fn with_room(rest: &Slab<Rest>, more: usize) -> Result<Slab<Rest>, AllocError>
    ensures slots { IfOk result (λ copy. copy.slots ≡ rest.now.slots) }
    ensures room { IfOk result (λ copy. slab_len rest.now + more ≤ copy.capacity) }
    ensures narrow { IfOk result (λ copy. copy.capacity ≤ 2147483647) }
    ensures within { IfOk result (λ copy. length copy.slots ≤ copy.capacity) }
{
    let mut copy = rest.clone()?;
    copy.reserve(more)?;
    if copy.capacity() <= MAX_SEGMENTS {
        Ok(copy)
    } else {
        Err(AllocError)
    }
}

/// At least so many places. Out of memory, nothing has changed.
fn extend(walks: &mut Vec<Walk>, places: usize) -> Result<(), AllocError>
    ensures longer { length walks.old.items ≤ length walks.new.items }
    ensures same { (k : ℕ) (w : Walk) → k < length walks.old.items
        → slice_index_or walks.new.items k w ≡ slice_index_or walks.old.items k w }
    ensures places { OnOk result (places ≤ length walks.new.items) }
{
    if walks.len() < places {
        walks.resize(places, Walk::blank())?;
    }
    Ok(())
}

/// A copy of segments at their keys, with no less room, in memory of its own.
pub(crate) fn copy(segments: &Segments) -> Result<Segments, AllocError>
    ensures slots { IfOk result (λ copy. copy.slots ≡ segments.now.slots) }
    ensures room { IfOk result (λ copy. room_of segments.now ≤ room_of copy) }
{
    let mut walks = segments.walks.clone()?;
    let rest = with_room(&segments.rest, room(segments))?;
    extend(&mut walks, rest.capacity())?;
    Ok(Segments { walks, rest })
}

/// Whether a half is one of a segment that is there.
pub(crate) fn contains(segments: &Segments, half: Half) -> bool
    ensures { result ≡ holds segments.now half }
{
    segments.rest.contains(half.key())
}

/// The next half clockwise.
pub(crate) fn next(segments: &Segments, at: Half) -> Half
    requires { holds segments.now at ≡ true }
    ensures { result ≡ next_in segments.now at }
{
    let walk = &segments.walks[at.key()];
    match at.way() {
        Way::Forward => walk.forward.next,
        Way::Back => walk.back.next,
    }
}

/// The next half the other way round.
pub(crate) fn previous(segments: &Segments, at: Half) -> Half
    requires { holds segments.now at ≡ true }
    ensures { result ≡ before_in segments.now at }
{
    let rest = &segments.rest[at.key()];
    match at.way() {
        Way::Forward => rest.forward,
        Way::Back => rest.back,
    }
}

/// The label of the edge that a half is on.
pub(crate) fn edge(segments: &Segments, at: Half) -> u32
    requires { holds segments.now at ≡ true }
    ensures { result ≡ label_in segments.now at }
{
    segments.walks[at.key()].edge
}

/// The label of the face on the left of a half.
pub(crate) fn face(segments: &Segments, at: Half) -> u32
    requires { holds segments.now at ≡ true }
    ensures { result ≡ face_in segments.now at }
{
    let walk = &segments.walks[at.key()];
    match at.way() {
        Way::Forward => walk.forward.face,
        Way::Back => walk.back.face,
    }
}

/// The next half clockwise, and the label of the face on the left, in one look.
pub(crate) fn around(segments: &Segments, at: Half) -> (Half, u32)
    requires { holds segments.now at ≡ true }
    ensures next { result.0 ≡ next_in segments.now at }
    ensures face { result.1 ≡ face_in segments.now at }
{
    let walk = &segments.walks[at.key()];
    match at.way() {
        Way::Forward => (walk.forward.next, walk.forward.face),
        Way::Back => (walk.back.next, walk.back.face),
    }
}

/// The face on the left of a half has this label.
pub(crate) fn set_face(segments: &mut Segments, at: Half, label: u32)
    requires { holds segments.old at ≡ true }
    ensures { Repaints segments.old segments.new (written (face_in segments.old) at label) }
{
    let walk = &mut segments.walks[at.key()];
    match at.way() {
        Way::Forward => walk.forward.face = label,
        Way::Back => walk.back.face = label,
    }
}

fn set_next(segments: &mut Segments, at: Half, to: Half)
    requires { holds segments.old at ≡ true }
    ensures { Rewires segments.old segments.new (written (next_in segments.old) at to)
        (before_in segments.old) }
{
    let walk = &mut segments.walks[at.key()];
    match at.way() {
        Way::Forward => walk.forward.next = to,
        Way::Back => walk.back.next = to,
    }
}

fn set_previous(segments: &mut Segments, at: Half, to: Half)
    requires { holds segments.old at ≡ true }
    ensures { Rewires segments.old segments.new (next_in segments.old)
        (written (before_in segments.old) at to) }
{
    let rest = &mut segments.rest[at.key()];
    match at.way() {
        Way::Forward => rest.forward = to,
        Way::Back => rest.back = to,
    }
}

/// Makes `to` follow `from`.
pub(crate) fn link(segments: &mut Segments, from: Half, to: Half)
    requires from { holds segments.old from ≡ true }
    requires to { holds segments.old to ≡ true }
    ensures { Rewires segments.old segments.new (written (next_in segments.old) from to)
        (written (before_in segments.old) to from) }
{
    set_next(segments, from, to);
    set_previous(segments, to, from);
}

/// Puts `x`, a point by itself, before `c`.
pub(crate) fn put_before(segments: &mut Segments, x: Half, c: Half)
    requires kept { IsKept segments.old }
    requires live { holds segments.old x ≡ true }
    requires live_corner { holds segments.old c ≡ true }
    requires alone { next_in segments.old x ≡ x }
    requires different { c ≢ x }
    ensures turned { IsTurned segments.old segments.new (put (next_in segments.old) x c) }
    ensures faces { face_in segments.new ≡ face_in segments.old }
{
    let before = previous(segments, c);
    link(segments, before, x);
    link(segments, x, c);
}

/// `x` becomes a point by itself, and what led to it leads on.
pub(crate) fn take_out(segments: &mut Segments, x: Half)
    requires kept { IsKept segments.old }
    requires live { holds segments.old x ≡ true }
    ensures turned { IsTurned segments.old segments.new (without (next_in segments.old) x) }
    ensures faces { face_in segments.new ≡ face_in segments.old }
{
    let before = previous(segments, x);
    let after = next(segments, x);
    link(segments, before, after);
    link(segments, x, x);
}

/// A new segment on an edge, with each half a point by itself, and these labels of the faces on the
/// left of the half that is answered and of its twin. The slab gives the key only as it stores, so
/// the segment is written a second time.
pub(crate) fn insert_isolated(segments: &mut Segments, edge: u32, left: u32, right: u32) -> Half
    requires kept { IsKept segments.old }
    requires room { 0 < room_of segments.old }
    ensures inserted { IsInserted segments.old segments.new result }
    ensures label { AddsLabel (holds segments.old) (label_in segments.old)
        (label_in segments.new) result edge }
    ensures faces { AddsFaces (holds segments.old) (face_in segments.old)
        (face_in segments.new) result left right }
{
    let key = segments
        .rest
        .insert_reserved(Segment::isolated(0, edge, left, right).rest);
    // For the proof: the slots are no more than there is room for.
    segments.rest.capacity();
    let Segment { walk, rest } = Segment::isolated(key as u32, edge, left, right);
    segments.rest[key] = rest;
    segments.walks[key] = walk;
    Half::forward(key as u32)
}

/// The segment of `x`, each half of which is a point by itself, is gone.
pub(crate) fn remove_isolated(segments: &mut Segments, x: Half)
    requires kept { IsKept segments.old }
    requires live { holds segments.old x ≡ true }
    requires alone { next_in segments.old x ≡ x }
    requires twin_alone { next_in segments.old (twin x) ≡ twin x }
    ensures removed { IsRemoved segments.old segments.new x }
    ensures labels { KeepsLabels (holds segments.new) (label_in segments.old)
        (label_in segments.new) }
    ensures faces { KeepsLabels (holds segments.new) (face_in segments.old) (face_in segments.new) }
{
    segments.rest.remove(x.key());
    // For the proof: the slots are no more than there is room for.
    segments.rest.capacity();
}

/// Above all halves that there is place for.
pub(crate) fn limit(segments: &Segments) -> usize
    ensures value { result ≡ limit_of segments.now }
    ensures slots { length segments.now.slots ≤ segments.now.capacity }
    ensures fits { result + 1 < 2 ^ 32 }
{
    2 * segments.rest.capacity().min(MAX_SEGMENTS)
}

/// How many segments fit with no memory taken. A slab that is so large that a key might not fit its
/// type has room for none.
pub(crate) fn room(segments: &Segments) -> usize
    ensures { result ≡ room_of segments.now }
{
    let capacity = segments.rest.capacity();
    if capacity <= MAX_SEGMENTS {
        capacity - segments.rest.len()
    } else {
        0
    }
}

/// Makes room for so many more segments. What would pass the bound is refused before anything
/// grows.
pub(crate) fn reserve(segments: &mut Segments, more: usize) -> Result<(), AllocError>
    ensures slots { segments.new.slots ≡ segments.old.slots }
    ensures room { OnOk result (more ≤ room_of segments.new) }
    ensures never_less { OnOk result (room_of segments.old ≤ room_of segments.new) }
    ensures succeeds { more ≤ room_of segments.old → IsOk result }
    ensures had_room { more ≤ room_of segments.old → segments.new ≡ segments.old }
    ensures bounded { 2147483647 < slab_len segments.old + more → segments.new ≡ segments.old }
{
    if more <= room(segments) {
        return Ok(());
    }
    if MAX_SEGMENTS.saturating_sub(segments.rest.len()) < more {
        return Err(AllocError);
    }
    let rest = with_room(&segments.rest, more)?;
    extend(&mut segments.walks, rest.capacity())?;
    segments.rest = rest;
    Ok(())
}
