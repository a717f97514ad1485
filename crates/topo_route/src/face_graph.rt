//! The darts of a picture by names.

ghost use Rattle.std.specs.Prelude.{◌≡◌, ◌↔◌, ℕ, IsTrue, length, option_map};
ghost use Rattle.std.specs.declared.cmp.Ordering.TheVariants.{Less};
ghost use Rattle.topo_core.specs.Darts.{dart_cmp};
ghost use Rattle.topo_core.specs.Lawful.{Lawful};
ghost use Rattle.topo_core.specs.Picture.{corner, edge_at, rotation};
ghost use Rattle.topo_core.specs.Routes.{AreFactsOf};
ghost use Rattle.topo_route.specs.Names.{HasFaces, IsName, IsNamed, Named};
ghost use Rattle.topo_route.specs.Names.{dart_named, next_name, twin_name};
ghost use Rattle.topo_route.specs.Potentials.{AreConsistent};
ghost use Rattle.topo_route.specs.declared.guided.potentials.Potentials.{Potentials};

use crate::guided::potentials::Potentials;
use topo_core::darts::Dart;
use topo_core::rows::Facts;

/// A lawful picture whose darts have names: each a number of its own, in no particular order. It is
/// what a search asks that hands out no heights. A name that is handed in is that of a dart.
pub trait FaceGraph {
    /// The rows that it shows, and the names of their darts.
    ghost named: { Self → Named };

    /// A number that all names are below.
    fn size(&self) -> u32
        ensures { result ≡ (named self.now).size };

    /// The next dart along the face on the left.
    fn next(&self, dart: u32) -> u32
        requires { IsName (named self.now) dart }
        ensures { result ≡ next_name (named self.now) dart };

    /// The dart on the same segment that leads the other way.
    fn twin(&self, dart: u32) -> u32
        requires { IsName (named self.now) dart }
        ensures { result ≡ twin_name (named self.now) dart };

    /// The id of the edge that it lies on.
    fn edge(&self, dart: u32) -> u32
        requires { IsName (named self.now) dart }
        ensures { result ≡ (dart_named (named self.now) dart).edge };

    /// The kind of the edge that it lies on.
    fn kind(&self, dart: u32) -> u8
        requires { IsName (named self.now) dart }
        ensures { result ≡ (edge_at
            (named self.now).rows (dart_named (named self.now) dart).edge).kind };

    /// The facts of the edge that it lies on.
    fn facts(&self, dart: u32) -> Facts
        requires { IsName (named self.now) dart }
        ensures { AreFactsOf
            (edge_at (named self.now).rows (dart_named (named self.now) dart).edge) result };

    /// The dart that names the corner at a position of a vertex; none where there is no such
    /// corner.
    fn corner(&self, v: u32, position: u32) -> Option<u32>
        ensures { result ≡ option_map (named self.now).name
            (corner (named self.now).rows v position) };

    /// How many corners a vertex has, and 0 where it is no vertex.
    fn degree(&self, v: u32) -> u32
        ensures { result ≡ length (rotation (named self.now).rows v) };

    /// The dart of a name.
    fn dart(&self, dart: u32) -> Dart
        requires { IsName (named self.now) dart }
        ensures { result ≡ dart_named (named self.now) dart };

    /// Whether one dart comes before another in canonical order.
    fn precedes(&self, dart: u32, other: u32) -> bool
        requires dart_there { IsName (named self.now) dart }
        requires other_there { IsName (named self.now) other }
        ensures { IsTrue result
            ↔ dart_cmp (dart_named (named self.now) dart) (dart_named (named self.now)
            other) ≡ Less };

    /// The label of the face on the left of a dart, by the name of the dart.
    ghost face_of: { Self → ℕ → ℕ };

    /// A number that the labels of all faces are below.
    ghost face_bound: { Self → ℕ };

    /// A number that the labels of all faces are below.
    fn faces(&self) -> u32
        ensures { result ≡ face_bound self.now };

    /// The label of the face on the left of a dart.
    fn face(&self, dart: u32) -> u32
        requires { IsName (named self.now) dart }
        ensures { result ≡ face_of self.now dart };

    /// The next dart along the face on the left, and the label of the face on the other side, which
    /// a walk round a face asks of each dart.
    fn step(&self, dart: u32) -> (u32, u32)
        requires { IsName (named self.now) dart }
        ensures next { result.0 ≡ next_name (named self.now) dart }
        ensures beyond { result.1 ≡ face_of self.now (twin_name (named self.now) dart) };

    /// The potentials of a face, by its label.
    ghost potentials: { Self → ℕ → Potentials };

    /// A number for each kind of edge: the potentials beside its segments differ by no more.
    ghost floor: { Self → ℕ → ℕ };

    /// Whether any potentials are more than 0. No contract rests on it.
    fn has_potentials(&self) -> bool;

    /// The potentials of a face, by its label.
    fn potentials(&self, face: u32) -> Potentials
        ensures { result ≡ potentials self.now face };

    /// The floor of a kind.
    fn floor(&self, kind: u8) -> u16
        ensures { result ≡ floor self.now kind };

    /// What it shows is lawful.
    ghost lawful: { (picture : Self) → Lawful (named picture).rows };

    /// Each dart has a name of its own.
    ghost has_names: { (picture : Self) → IsNamed (named picture) };

    /// Two darts have one label just where one face lies on their left.
    ghost has_faces: { (picture : Self)
        → HasFaces (named picture) (face_of picture) (face_bound picture) };

    /// Across a segment, potentials differ by no more than the floor of its edge's kind.
    ghost is_consistent: { (picture : Self) → AreConsistent
        (named picture) (face_of picture) (potentials picture) (floor picture) };
}
