//! Labels of faces: two live darts have one label exactly where they lie in one face.

ghost use Rattle.topo_perm.specs.FaceLabels.{ChordLabels, HangLabels, SmoothLabels};
ghost use Rattle.topo_perm.specs.FaceLabels.{SplitLabels, UnchordLabels};

/// A hung segment has the label of the corner on both sides.
pub fn hang()
    ensures { HangLabels }
{}

/// Each half of the new segment has the label of the half that it goes on from.
pub fn split()
    ensures { SplitLabels }
{}

/// All that is left keeps its labels.
pub fn smooth()
    ensures { SmoothLabels }
{}

/// The whole face on one side of the new segment has a new label, whichever side it is.
pub fn chord()
    ensures { ChordLabels }
{}

/// The two faces at the segment become one, and one of them takes the label of the other, whichever
/// it is.
pub fn unchord()
    ensures { UnchordLabels }
{}
