//! The embedding and its edits.

ghost use Rattle.std.specs.Prelude.{◌≡◌, ◌≢◌, ◌↔◌, ◌+◌, ◌*◌, ℕ, [], ◌∷◌, length};
ghost use Rattle.std.specs.Prelude.{◌<◌, ◌≤◌, ◌^◌, true, IsTrue, IsOk, IfOk, OnOk};
ghost use Rattle.topo_core.specs.Cycles.{IsPermutationList, SameCycle};
ghost use Rattle.topo_core.specs.Edits.{IsChord, IsHang, IsSmooth, IsSplit, IsUnchord};
ghost use Rattle.topo_core.specs.Rotations.{face_next, twin};
ghost use Rattle.topo_map.specs.Rotation.{AddsFaces, AddsLabel, AreLabelled, CountsFewer};
ghost use Rattle.topo_map.specs.Rotation.{CountsMore, Grows, IsDegree, IsEmbedding, IsMadeFrom};
ghost use Rattle.topo_map.specs.Rotation.{IsOneFace, KeepsLabels, PartsFaces, PartsLabels, Shrinks};
ghost use Rattle.topo_map.specs.Rotation.{TellsFaces, edge_of, face_of, half_limit};
ghost use Rattle.topo_map.specs.Rotation.{is_live, segments as segments_of, turn};

use crate::build::{isolated_halves, join_turns};
use crate::faces::{HALF_LIMIT, attach, detach, label_faces};
use crate::half::Half;
use crate::segments::{
    self, Segments, around, face, insert_isolated, next, put_before, remove_isolated, take_out,
};
use std::alloc::{AllocError, Global};
use std::marker::Model;

/// A graph on closed surfaces: segments between points, and round each point its halves in
/// clockwise order.
pub struct Embedding {
    segments: Segments,
    // The label that the next new face gets: each half has a smaller one.
    unused: u32,
}

// Written out, so that it is proved once: a derived one is proved anew in each function that lets
// such a value go.
impl Drop for Embedding {
    fn drop(self) {
        let Embedding {
            segments,
            unused: _,
        } = self;
        drop(segments);
    }
}

impl Model for Embedding {
    ghost use Rattle.topo_map.specs.Rotation.{Rotation};

    ghost Value = { Rotation };

    ghost use Rattle.topo_map.specs.Labels.{IsSound};
    ghost use Rattle.topo_map.specs.Segments.{view_of};

    ghost view = { λ e. view_of e.segments };

    ghost invariant = { λ e. IsSound e.segments e.unused };
}

impl Embedding {
    /// Makes an embedding of one segment with two points, on an edge with this label, and gives one
    /// of its halves.
    pub fn seed(alloc: Global, edge: u32) -> Result<(Self, Half), AllocError>
        ensures made { IfOk result
            (λ made. IsMadeFrom (0 ∷ 1 ∷ []) (made.1 ∷ twin made.1 ∷ []) made.0) }
        ensures labels { IfOk result
            (λ made. (edge_of made.0 made.1 ≡ edge) × (edge_of made.0 (twin made.1) ≡ edge)) }
    {
        let mut segments = segments::none(alloc);
        segments::reserve(&mut segments, 1)?;
        let half = insert_isolated(&mut segments, edge, 0, 0);
        let unused = 1;
        Ok((Embedding { segments, unused }, half))
    }

    /// The embedding of which `turns` are the turns, where `2i` and `2i + 1` are the two halves of
    /// the segment with label `edges[i]`, and its halves in this order.
    pub fn from_turns(
        alloc: Global,
        turns: &[u32],
        edges: &[u32],
    ) -> Result<(Self, Vec<Half>), AllocError>
        requires permutation { IsPermutationList turns.now }
        requires two_each { length turns.now ≡ 2 * length edges.now }
        ensures made { IfOk result (λ made. IsMadeFrom turns.now made.1.items made.0) }
        ensures labels { IfOk result (λ made. AreLabelled edges.now made.1.items (edge_of made.0)) }
    {
        let mut segments = segments::none(alloc);
        let halves = isolated_halves(alloc, &mut segments, edges)?;
        join_turns(&mut segments, &halves, turns);
        let unused = label_faces(&mut segments);
        Ok((Embedding { segments, unused }, halves))
    }

    /// A length for lists by half: above the numbers of all halves, now and while there is room.
    /// Below the greatest that there is, it is as many halves as there are and have room.
    pub fn limit(&self) -> usize
        ensures limit { result ≡ self.now.limit }
        ensures above { (a : ℕ) → is_live self.now a ≡ true → a < result }
        ensures fits { result < 2 ^ 32 }
        ensures size { result < half_limit → result ≡ 2 * (segments_of self.now + self.now.room) }
    {
        segments::limit(&self.segments)
    }

    /// How many segments can be added with no memory taken.
    pub fn room(&self) -> usize
        ensures { result ≡ self.now.room }
    {
        segments::room(&self.segments)
    }

    /// Makes room for so many more segments. An error leaves all halves as they were; the room may
    /// have changed.
    pub fn reserve(&mut self, more: usize) -> Result<(), AllocError>
        ensures same { self.new.slots ≡ self.old.slots }
        ensures same_labels { self.new.labels ≡ self.old.labels }
        ensures room { OnOk result (more ≤ self.new.room) }
        ensures never_less { OnOk result (self.old.room ≤ self.new.room) }
        ensures succeeds { more ≤ self.old.room → IsOk result }
        ensures had_room { more ≤ self.old.room → self.new ≡ self.old }
    {
        segments::reserve(&mut self.segments, more)
    }

    /// A copy of the embedding: its halves with their turn in memory of its own, with no less room.
    pub fn copy(&self) -> Result<Self, AllocError>
        ensures slots { IfOk result (λ copy. copy.slots ≡ self.now.slots) }
        ensures room { IfOk result (λ copy. self.now.room ≤ copy.room) }
    {
        let segments = segments::copy(&self.segments)?;
        let unused = self.unused;
        Ok(Embedding { segments, unused })
    }

    /// What always holds, for a caller that sees the halves and their turn alone. It does nothing.
    pub fn laws(&self)
        ensures { IsEmbedding self.now }
    {
        let _segments = &self.segments;
    }

    /// Whether `h` is a half of this embedding.
    pub fn contains(&self, h: Half) -> bool
        ensures { result ≡ is_live self.now h }
    {
        segments::contains(&self.segments, h)
    }

    /// The other half of the segment of `h`.
    pub fn twin(&self, h: Half) -> Half
        requires { is_live self.now h ≡ true }
        ensures twin { result ≡ twin h }
        ensures live { is_live self.now result ≡ true }
    {
        let _segments = &self.segments;
        h.twin()
    }

    /// The next half clockwise at the point where `h` starts.
    pub fn turn(&self, h: Half) -> Half
        requires { is_live self.now h ≡ true }
        ensures turn { result ≡ turn self.now h }
        ensures live { is_live self.now result ≡ true }
    {
        next(&self.segments, h)
    }

    /// The next half along the face on the left of `h`.
    pub fn face_next(&self, h: Half) -> Half
        requires { is_live self.now h ≡ true }
        ensures next { result ≡ face_next (turn self.now) h }
        ensures live { is_live self.now result ≡ true }
    {
        next(&self.segments, h.twin())
    }

    /// The label of the edge that `h` is on.
    pub fn edge(&self, h: Half) -> u32
        requires { is_live self.now h ≡ true }
        ensures { result ≡ edge_of self.now h }
    {
        segments::edge(&self.segments, h)
    }

    /// The label of the face on the left of `h`.
    pub fn face(&self, h: Half) -> u32
        requires { is_live self.now h ≡ true }
        ensures { result ≡ face_of self.now h }
    {
        face(&self.segments, h)
    }

    /// The next half along the face on the left of `h`, and the label of the face on its right, in
    /// one look.
    pub fn step(&self, h: Half) -> (Half, u32)
        requires { is_live self.now h ≡ true }
        ensures next { result.0 ≡ face_next (turn self.now) h }
        ensures live { is_live self.now result.0 ≡ true }
        ensures beyond { result.1 ≡ face_of self.now (twin h) }
    {
        around(&self.segments, h.twin())
    }

    /// A length for lists by the label of a face: above the labels of all faces. It is at most
    /// about twice that of lists by half.
    pub fn labels(&self) -> u32
        ensures tell { TellsFaces self.now }
        ensures above { (a : ℕ) → is_live self.now a ≡ true → face_of self.now a < result }
    {
        let _segments = &self.segments;
        self.unused
    }

    /// Whether `a` and `b` lie in one face.
    pub fn same_face(&self, a: Half, b: Half) -> bool
        requires live { is_live self.now a ≡ true }
        requires live_other { is_live self.now b ≡ true }
        ensures { IsTrue result ↔ SameCycle (face_next (turn self.now)) a b }
    {
        face(&self.segments, a) == face(&self.segments, b)
    }

    /// How many halves start at the point of `h`. It walks round the point.
    pub fn degree(&self, h: Half) -> u64
        requires { is_live self.now h ≡ true }
        ensures { IsDegree self.now h result }
    {
        self.laws();
        let mut at = self.turn(h);
        for steps in 1..HALF_LIMIT {
            if at == h {
                return steps;
            }
            at = self.turn(at);
        }
        HALF_LIMIT
    }

    /// A new point on a new segment of this edge that starts in the corner before `c`. Answers the
    /// half that leads to the point.
    pub fn hang(&mut self, c: Half, edge: u32) -> Half
        requires live { is_live self.old c ≡ true }
        requires room { 0 < self.old.room }
        ensures edit { IsHang (turn self.old) (turn self.new) half_limit c result }
        ensures grows { Grows self.old self.new result }
        ensures label { AddsLabel (is_live self.old) (edge_of self.old)
            (edge_of self.new) result edge }
        ensures faces { AddsFaces (is_live self.old) (face_of self.old) (face_of self.new) result
            (face_of self.old c) (face_of self.old c) }
        ensures counts { CountsMore self.old self.new 1 0 }
    {
        let label = face(&self.segments, c);
        let x = insert_isolated(&mut self.segments, edge, label, label);
        put_before(&mut self.segments, x, c);
        x
    }

    /// A new segment of this edge from the corner before `c` to the corner before `d`; they may be
    /// one corner, and the segment is then a loop. Where they lie in one face, it parts that face
    /// in two. Answers its half that starts at `c`, and whether labels of faces were kept: no more
    /// than one face, beside the segment, was then labelled anew. Now and then all faces are, since
    /// their labels have grown too large, and the answer is `false`.
    pub fn chord(&mut self, c: Half, d: Half, edge: u32) -> (Half, bool)
        requires live { is_live self.old c ≡ true }
        requires live_end { is_live self.old d ≡ true }
        requires room { 0 < self.old.room }
        ensures edit { IsChord (turn self.old) (turn self.new) half_limit c d result.0 }
        ensures grows { Grows self.old self.new result.0 }
        ensures label { AddsLabel (is_live self.old) (edge_of self.old)
            (edge_of self.new) result.0 edge }
        ensures faces { result.1 ≡ true → PartsLabels (is_live self.old) (face_of self.old)
            (face_of self.new) c d result.0 }
        ensures counts { IsOneFace self.old c d → CountsMore self.old self.new 0 1 }
    {
        let label = face(&self.segments, c);
        let start = insert_isolated(&mut self.segments, edge, label, label);
        put_before(&mut self.segments, start, c);
        let (unused, kept) = attach(&mut self.segments, self.unused, start.twin(), d);
        self.unused = unused;
        (start, kept)
    }

    /// A new point on the segment of `h`, and so on its edge. Answers the half that goes on from
    /// it, in the direction of `h`.
    pub fn split(&mut self, h: Half) -> Half
        requires live { is_live self.old h ≡ true }
        requires room { 0 < self.old.room }
        ensures edit { IsSplit (turn self.old) (turn self.new) half_limit h result }
        ensures grows { Grows self.old self.new result }
        ensures label { AddsLabel (is_live self.old) (edge_of self.old)
            (edge_of self.new) result (edge_of self.old h) }
        ensures faces { AddsFaces (is_live self.old) (face_of self.old) (face_of self.new) result
            (face_of self.old h) (face_of self.old (twin h)) }
        ensures counts { CountsMore self.old self.new 1 0 }
    {
        let end = h.twin();
        let edge = segments::edge(&self.segments, h);
        let left = face(&self.segments, h);
        let right = face(&self.segments, end);
        let x = insert_isolated(&mut self.segments, edge, left, right);
        put_before(&mut self.segments, x.twin(), end);
        take_out(&mut self.segments, end);
        put_before(&mut self.segments, x, end);
        x
    }

    /// The segment of `h` goes. Where two faces lie beside it, they become one.
    pub fn unchord(&mut self, h: Half)
        requires { is_live self.old h ≡ true }
        ensures edit { IsUnchord (turn self.old) (turn self.new) half_limit h }
        ensures shrinks { Shrinks self.old self.new h }
        ensures labels { KeepsLabels (is_live self.new) (edge_of self.old) (edge_of self.new) }
        ensures counts { PartsFaces self.old h → CountsFewer self.old self.new 0 1 }
    {
        self.unused = detach(&mut self.segments, self.unused, h);
        take_out(&mut self.segments, h.twin());
        remove_isolated(&mut self.segments, h);
    }

    /// The point where `x` starts goes, and its two segments become that of the half after `x`.
    pub fn smooth(&mut self, x: Half)
        requires live { is_live self.old x ≡ true }
        requires degree_two { turn self.old (turn self.old x) ≡ x }
        requires not_alone { turn self.old x ≢ x }
        requires two_segments { turn self.old x ≢ twin x }
        ensures edit { IsSmooth (turn self.old) (turn self.new) half_limit x }
        ensures shrinks { Shrinks self.old self.new x }
        ensures labels { KeepsLabels (is_live self.new) (edge_of self.old) (edge_of self.new) }
        ensures counts { CountsFewer self.old self.new 1 0 }
    {
        let other = next(&self.segments, x);
        let end = x.twin();
        take_out(&mut self.segments, x);
        put_before(&mut self.segments, other, end);
        take_out(&mut self.segments, end);
        remove_isolated(&mut self.segments, x);
    }
}
