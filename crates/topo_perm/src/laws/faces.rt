//! Which darts lie in one face after an edit.

ghost use Rattle.topo_perm.specs.Faces.{ChordKeepsFaces, ChordSides, HangKeepsFaces};
ghost use Rattle.topo_perm.specs.Faces.{HangSides, SmoothKeepsFaces, SplitKeepsFaces};
ghost use Rattle.topo_perm.specs.Faces.{SplitSides, UnchordKeepsFaces};

/// Darts in one face stay together, and both sides of the new segment lie in the face of the
/// corner.
pub fn hang()
    ensures kept { HangKeepsFaces }
    ensures sides { HangSides }
{}

/// All faces but the one that is parted stay, and the new segment has two faces on its sides.
pub fn chord()
    ensures kept { ChordKeepsFaces }
    ensures sides { ChordSides }
{}

/// Darts in one face stay together, and the new segment goes on along both faces of the old one.
pub fn split()
    ensures kept { SplitKeepsFaces }
    ensures sides { SplitSides }
{}

/// The two faces at the segment become one, and no other is parted.
pub fn unchord()
    ensures { UnchordKeepsFaces }
{}

/// Darts in one face stay together.
pub fn smooth()
    ensures { SmoothKeepsFaces }
{}
