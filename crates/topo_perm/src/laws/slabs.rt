//! What the live darts of a slab count, where the others are of isolated segments, and what the
//! five edits do to these counts.

ghost use Rattle.topo_perm.specs.Live.{LiveBound, LiveComponents, LiveFaces};
ghost use Rattle.topo_perm.specs.Live.{LiveGenusZero, LivePoints, LiveSegments};
ghost use Rattle.topo_perm.specs.LiveEdits.{ChordKeepsSlab, ChordLiveFaces, ChordLivePoints};
ghost use Rattle.topo_perm.specs.LiveEdits.{FreeSegmentsFall, HangKeepsSlab, HangLiveFaces};
ghost use Rattle.topo_perm.specs.LiveEdits.{HangLivePoints, SegmentsGrow, SmoothKeepsSlab};
ghost use Rattle.topo_perm.specs.LiveEdits.{SmoothLiveFaces, SmoothLivePoints, SplitKeepsSlab};
ghost use Rattle.topo_perm.specs.LiveEdits.{SplitLiveFaces, SplitLivePoints, UnchordKeepsSlab};
ghost use Rattle.topo_perm.specs.LiveEdits.{UnchordLiveFaces, UnchordLivePoints};

/// All points, segments and faces are the live ones and those of the free segments: two points and
/// one face each.
pub fn live_counts()
    ensures points { LivePoints }
    ensures segments { LiveSegments }
    ensures faces { LiveFaces }
{}

/// Live darts that hang together are one component, and Euler's formula for them is that of the
/// whole slab.
pub fn live_genus()
    ensures components { LiveComponents }
    ensures bound { LiveBound }
    ensures genus_zero { LiveGenusZero }
{}

/// A segment that becomes live: one live segment more, and one free segment less.
pub fn segments()
    ensures live { SegmentsGrow }
    ensures free { FreeSegmentsFall }
{}

/// A live point more, and as many live faces.
pub fn hang()
    ensures slab { HangKeepsSlab }
    ensures points { HangLivePoints }
    ensures faces { HangLiveFaces }
{}

/// A live face more, and as many live points.
pub fn chord()
    ensures slab { ChordKeepsSlab }
    ensures points { ChordLivePoints }
    ensures faces { ChordLiveFaces }
{}

/// A live point more, and as many live faces.
pub fn split()
    ensures slab { SplitKeepsSlab }
    ensures points { SplitLivePoints }
    ensures faces { SplitLiveFaces }
{}

/// A live face less, and as many live points.
pub fn unchord()
    ensures slab { UnchordKeepsSlab }
    ensures points { UnchordLivePoints }
    ensures faces { UnchordLiveFaces }
{}

/// A live point less, and as many live faces.
pub fn smooth()
    ensures slab { SmoothKeepsSlab }
    ensures points { SmoothLivePoints }
    ensures faces { SmoothLiveFaces }
{}
