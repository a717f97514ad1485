//! Which segments hold a rotation system together.
//!
//! A segment is left out in two ways: walks do not cross it, or its two darts are taken out of the
//! turn. For the darts of all other segments that is the same.

ghost use Rattle.topo_perm.specs.Cuts.{OneFaceParts, TakenOutJoined, TakenOutKeeps};
ghost use Rattle.topo_perm.specs.Cuts.{TakenOutParts, TwoFacesJoined, TwoFacesKeep};

/// Different faces on the two sides: without the segment its ends are still joined.
pub fn two_faces()
    ensures ends { TwoFacesJoined }
    ensures all { TwoFacesKeep }
    ensures taken_out { TakenOutKeeps }
{}

/// Where one face is on both sides, in genus zero: without the segment its ends are apart.
pub fn one_face()
    ensures ends { OneFaceParts }
    ensures taken_out { TakenOutParts }
{}

/// Not to cross a segment is to take its darts out of the turn.
pub fn not_crossed()
    ensures { TakenOutJoined }
{}
