//! Laws of the definitions. The functions do nothing: their contracts are the laws.

ghost use Rattle.topo_core.specs.Deletions.{DeletionKeepsForm, DeletionShowsTurns};
ghost use Rattle.topo_core.specs.Deletions.{InsertionIsUndone};
ghost use Rattle.topo_core.specs.Insertions.{InsertionKeepsForm, InsertionShowsTurns};
ghost use Rattle.topo_core.specs.Insertions.{SimpleRoutesAreInsertable};
ghost use Rattle.topo_core.specs.Openings.{OpeningBares, OpeningUnchords};
ghost use Rattle.topo_core.specs.Openings.{OpeningsKeepConnection, OpeningsKeepFaces};
ghost use Rattle.topo_core.specs.Laws.{DartOrderIsTotal, DartsAreNumbered, DartsStandOnce};
ghost use Rattle.topo_core.specs.Laws.{GrowthKeepsEmbedding, GrowthKeepsFaces};
ghost use Rattle.topo_core.specs.Laws.{GrowthKeepsGenus, NumbersKeepConnection};
ghost use Rattle.topo_core.specs.Laws.{NumbersKeepFaces, NumbersKeepOrder, TurnIsAPermutation};

/// A growth in a corner of a vertex makes a connected embedding of a connected embedding.
pub fn growth_keeps_embedding()
    ensures { GrowthKeepsEmbedding }
{}

/// A growth keeps the number of faces.
pub fn growth_keeps_faces()
    ensures { GrowthKeepsFaces }
{}

/// A growth keeps genus zero: it makes one vertex and one segment, and no face.
pub fn growth_keeps_genus()
    ensures { GrowthKeepsGenus }
{}

/// The points of well-formed rows have each dart of their edges once, and nothing else.
pub fn darts_stand_once()
    ensures { DartsStandOnce }
{}

/// The turn of well-formed rows is a permutation of their darts, and so is the step along a face.
pub fn turn_is_a_permutation()
    ensures { TurnIsAPermutation }
{}

/// In canonical order each dart has a number of its own, twins stand side by side, and the images
/// hold for each number that of the next dart clockwise.
pub fn darts_are_numbered()
    ensures { DartsAreNumbered }
{}

/// The canonical order of darts is total: by edge, then by segment, then Forward before Back.
pub fn dart_order_is_total()
    ensures { DartOrderIsTotal }
{}

/// The numbers of darts keep the canonical order.
pub fn numbers_keep_order()
    ensures { NumbersKeepOrder }
{}

/// A rotation system is connected just when no point is bare and the numbers of its darts are
/// connected.
pub fn numbers_keep_connection()
    ensures { NumbersKeepConnection }
{}

/// Two darts have one face on their left just when their numbers lie on one cycle of the face map.
pub fn numbers_keep_faces()
    ensures { NumbersKeepFaces }
{}

/// The picture that shows a new edge along a route whose corners and crossed darts are there is
/// well formed.
pub fn insertion_keeps_form()
    ensures { InsertionKeepsForm }
{}

/// An insertion keeps how the darts turn but along its route: each old dart is followed as before,
/// straight or after the new edge, and each new crossing has the crossed edge and the new one in
/// turn.
pub fn insertion_shows_turns()
    ensures { InsertionShowsTurns }
{}

/// The picture without an edge is well formed.
pub fn deletion_keeps_form()
    ensures { DeletionKeepsForm }
{}

/// A deletion changes the rotation along the edge only: a dart before the edge is followed by the
/// one after it. At each crossing of the edge the two segments of the other edge become one.
pub fn deletion_shows_turns()
    ensures { DeletionShowsTurns }
{}

/// A deletion undoes an insertion: without the edge that was just shown the picture is as before,
/// but for the ids that were given.
pub fn insertion_is_undone()
    ensures { InsertionIsUndone }
{}

/// An edge can be shown along a route that meets no face twice: such a route crosses no segment
/// twice.
pub fn simple_routes_are_insertable()
    ensures { SimpleRoutesAreInsertable }
{}

/// Opening an edge takes out one segment after the other: on the numbers of the darts each is one
/// chord less.
pub fn opening_unchords()
    ensures { OpeningUnchords }
{}

/// Two darts that are left have one face of the opened system on their left just when their numbers
/// lie on one cycle of the face map.
pub fn openings_keep_faces()
    ensures { OpeningsKeepFaces }
{}

/// The darts of an opened system are those that are not out, and two of them are joined just when
/// their numbers are.
pub fn openings_keep_connection()
    ensures { OpeningsKeepConnection }
{}

/// An opened edge leaves no crossing bare, and a vertex just where it is the only edge there and
/// its dart at the vertex is out.
pub fn opening_bares()
    ensures { OpeningBares }
{}
