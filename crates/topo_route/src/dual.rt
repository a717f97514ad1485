//! The darts of a picture by their numbers.

ghost use Rattle.std.specs.Prelude.{◌≡◌, ◌<◌, ◌↔◌, IsTrue, if◌then◌else◌};
ghost use Rattle.std.specs.Prelude.{length, Some, None, slice_get, IsSomeAnd};
ghost use Rattle.topo_core.specs.Picture.{darts, index_of, start};
ghost use Rattle.topo_core.specs.Systems.{has_dart};
ghost use Rattle.topo_core.specs.declared.rows.Rows.{Rows};
ghost use Rattle.topo_route.specs.Names.{IsName, canonical};

use crate::face_graph::FaceGraph;
use topo_core::darts::{Dart, Point};

/// A lawful picture whose darts are numbered in canonical order: 2i and 2i + 1 are the two of one
/// segment. The name of a dart is its canonical number, which is below `size()`.
pub trait Dual: FaceGraph {
    /// The rows that it shows.
    ghost shows: { Self → Rows };

    /// Where a dart starts.
    fn tail(&self, dart: u32) -> Point
        requires { dart < length (darts (shows self.now)) }
        ensures { IsSomeAnd (slice_get (darts (shows self.now)) dart)
            (λ d. result ≡ start (shows self.now) d) };

    /// The number of a dart; none where it is no dart of the picture.
    fn index(&self, dart: Dart) -> Option<u32>
        ensures { result ≡ (if has_dart (darts (shows self.now)) dart then Some
            (index_of (shows self.now) dart) else None) };

    /// The names are the numbers.
    ghost numbered: { (picture : Self) → Self.named picture ≡ canonical (shows picture) };
}

/// Whether this is the number of a dart.
pub fn has_number<D: Dual>(dual: &D, number: u32) -> bool
    ensures number { IsTrue result ↔ number < length (darts (D.shows dual.now)) }
    ensures name { IsTrue result ↔ IsName (D.named dual.now) number }
{
    number < dual.size()
}
