//! The darts of a face.

ghost use Rattle.std.specs.Prelude.{◌≡◌, ◌∷◌, [], IfOk, true};
ghost use Rattle.topo_core.specs.Lawful.{Lawful};
ghost use Rattle.topo_core.specs.Picture.{darts, system};
ghost use Rattle.topo_core.specs.Systems.{has_dart};
ghost use Rattle.topo_picture.specs.Faces.{IsFaceFrom};

use std::alloc::{AllocError, Global};
use topo_core::darts::Dart;
use topo_core::listed::Listed;
use topo_embedded::Embedded;

/// The darts of the face on the left of a dart, from it on.
pub(crate) fn face_from(
    alloc: Global,
    embedded: &Embedded,
    dart: &Dart,
) -> Result<Listed<Dart>, AllocError>
    requires lawful { Lawful embedded.now.rows }
    requires there { has_dart (darts embedded.now.rows) dart.now ≡ true }
    ensures { IfOk result (IsFaceFrom (system embedded.now.rows) dart.now) }
{
    // For the proof: each dart has a half of its own.
    embedded.size();
    let first = embedded.half_of(*dart);
    let mut half = embedded.face_next(first);
    let mut found = one_dart(alloc, dart)?;
    for _ in 0..u64::MAX {
        if half == first {
            return Ok(Listed::from_vec(found));
        }
        let next = embedded.dart_of(half);
        found.push(next)?;
        half = embedded.face_next(half);
    }
    Err(AllocError)
}

/// A list of one dart.
fn one_dart(alloc: Global, dart: &Dart) -> Result<Vec<Dart>, AllocError>
    ensures { IfOk result (λ found. found.items ≡ dart.now ∷ []) }
{
    let mut found = Vec::new(alloc);
    found.push(*dart)?;
    Ok(found)
}
