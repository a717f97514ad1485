//! What the five edits of an embedding do, counted on all darts of its slab.
//!
//! The turn before an edit is `f`, the one after it `g`, and a segment that stands for nothing is
//! isolated: two points of its own, and one face. With live segments alone counted, a hang and a
//! split make one point more, a chord one face more, and an unchord and a smooth take them away.

ghost use Rattle.topo_perm.specs.Edits.{BypassIsPermutation, BypassSplits, BypassStays, ChordFaces};
ghost use Rattle.topo_perm.specs.Edits.{ChordIsPossible, ChordPoints, HangFaces, HangIsPossible};
ghost use Rattle.topo_perm.specs.Edits.{HangPoints, PutBeforeIsBefore, PutBeforeIsPermutation};
ghost use Rattle.topo_perm.specs.Edits.{SmoothFaces, SmoothIsPossible, SmoothPoints};
ghost use Rattle.topo_perm.specs.Edits.{SmoothingIsPermutation, SmoothingIsSmooth, SplitFaces};
ghost use Rattle.topo_perm.specs.Edits.{SplitIsPermutation, SplitIsPossible, SplitPoints};
ghost use Rattle.topo_perm.specs.Edits.{UnchordFaces, UnchordIsPossible, UnchordPoints};
ghost use Rattle.topo_perm.specs.Joins.{ChordConnects, HangConnects, SmoothConnects};
ghost use Rattle.topo_perm.specs.Joins.{SplitConnects, UnchordConnects};

/// A dart by itself is put before another: its two images are written, and all is a turn again.
pub fn put_before()
    ensures permutation { PutBeforeIsPermutation }
    ensures before { PutBeforeIsBefore }
{}

/// A dart is taken out of the turn.
pub fn take_out()
    ensures permutation { BypassIsPermutation }
    ensures splits { BypassSplits }
    ensures stays { BypassStays }
{}

/// A new point on a new segment, from a corner.
pub fn hang()
    ensures possible { HangIsPossible }
    ensures points { HangPoints }
    ensures faces { HangFaces }
    ensures connected { HangConnects }
{}

/// A new segment between two corners of one face.
pub fn chord()
    ensures possible { ChordIsPossible }
    ensures points { ChordPoints }
    ensures faces { ChordFaces }
    ensures connected { ChordConnects }
{}

/// A segment with two faces on its sides goes.
pub fn unchord()
    ensures possible { UnchordIsPossible }
    ensures points { UnchordPoints }
    ensures faces { UnchordFaces }
    ensures connected { UnchordConnects }
{}

/// A new point on a segment.
pub fn split()
    ensures possible { SplitIsPossible }
    ensures permutation { SplitIsPermutation }
    ensures points { SplitPoints }
    ensures faces { SplitFaces }
    ensures connected { SplitConnects }
{}

/// A point of degree two goes, and one of its two segments.
pub fn smooth()
    ensures possible { SmoothIsPossible }
    ensures permutation { SmoothingIsPermutation }
    ensures smooth { SmoothingIsSmooth }
    ensures points { SmoothPoints }
    ensures faces { SmoothFaces }
    ensures connected { SmoothConnects }
{}
