//! Laws of pictures. The functions do nothing: their contracts are the laws.

ghost use Rattle.topo_picture.specs.Laws.{CutsAgree, InsertionKeepsLawful};

/// A new edge shown along a route that meets no face twice makes a lawful picture of a lawful
/// picture: each crossing is a point more, and each of its segments parts a face.
pub fn insertion_keeps_lawful()
    ensures { InsertionKeepsLawful }
{}

/// The first segment of an edge with one face on both sides, when those before it are out, is the
/// first without which the picture falls apart: what a walk round a face finds is what
/// connectedness says.
pub fn cuts_agree()
    ensures { CutsAgree }
{}
