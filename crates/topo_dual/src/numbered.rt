//! A picture with its darts numbered, over lists that are lent: what a check asks of one.

ghost use Rattle.std.specs.Prelude.{slice_index};
ghost use Rattle.topo_core.specs.Lawful.{Lawful};
ghost use Rattle.topo_route.specs.Names.{HasFaces, canonical};

use crate::lists::NumberLists;
use std::alloc::AllocError;
use std::marker::Model;
use topo_core::darts::{Dart, Point, Way};
use topo_core::ids::EdgeId;
use topo_core::rows::Facts;
use topo_embedded::Embedded;
use topo_route::dual::Dual;
use topo_route::face_graph::FaceGraph;
use topo_route::guided::potentials::Potentials;

/// Lawful rows with their embedding, and with the lists that number their darts, all borrowed.
/// Contracts see the rows. The darts are numbered in canonical order: 2i and 2i + 1 are the two of
/// one segment. The next dart along a face is one read, and the label of the face another. A number
/// is turned into its half in one read, and a half into its number in another; what else is asked
/// is answered by the embedding. No question takes memory. Where a dart lies on its edge is told by
/// how far its number is behind that of the first dart of the edge; `tail` alone looks along the
/// path.
#[derive(Drop)]
pub struct Numbered<'a> {
    pub(crate) embedded: &'a Embedded,
    pub(crate) lists: &'a NumberLists,
    ghost lawful: { ∥ Lawful embedded.now.rows ∥₁ },
    ghost told: { ∥ HasFaces (canonical embedded.now.rows) (slice_index lists.now.faces.items)
        lists.now.bound ∥₁ },
}

impl<'a> Model for Numbered<'a> {
    ghost use Rattle.topo_dual.specs.NumberedRows.{AreListsOf, LawfulRows};

    ghost Value = { LawfulRows };

    ghost view = { λ d. record {
      rows = d.embedded.now.rows;
      lawful = d.lawful;
      faces = d.lists.now.faces.items;
      bound = d.lists.now.bound;
      told = d.told;
    } };

    ghost invariant = { λ d. AreListsOf d.embedded.now d.lists.now.halves.items
        d.lists.now.numbers.items d.lists.now.nexts.items d.lists.now.faces.items
        d.lists.now.bound };
}

impl<'a> Numbered<'a> {
    ghost use Rattle.std.specs.Prelude.{◌≡◌, ◌<◌, ◌^◌, true, IfOk, length};
    ghost use Rattle.topo_core.specs.Lawful.{Lawful};
    ghost use Rattle.topo_core.specs.Picture.{darts, index_of};
    ghost use Rattle.topo_core.specs.Systems.{has_dart};
    ghost use Rattle.topo_core.specs.declared.darts.Dart.{Dart};
    ghost use Rattle.topo_core.specs.declared.darts.Way.TheVariants.{Forward};

    /// Rows with their embedding, and with lists that are written for them. Nothing of the rows is
    /// copied.
    pub fn new(embedded: &'a Embedded, lists: &'a mut NumberLists) -> Result<Self, AllocError>
        requires lawful { Lawful embedded.now.rows }
        requires vertices { length embedded.now.rows.rotations < 2 ^ 32 }
        ensures { IfOk result (λ d. d.rows ≡ embedded.now.rows) }
    {
        lists.fill(embedded)?;
        let lists: &'a NumberLists = &*lists;
        Ok(Numbered { embedded, lists })
    }

    /// The number of the first dart of an edge.
    fn first_on(&self, edge: EdgeId) -> u32
        requires { has_dart (darts self.now.rows)
            (record { edge = edge; seg = 0; way = Forward }) ≡ true }
        ensures { result ≡ index_of self.now.rows (record { edge = edge; seg = 0; way = Forward }) }
    {
        let first = Dart {
            edge,
            seg: 0,
            way: Way::Forward,
        };
        match self.index(first) {
            Some(first) => first,
            None => unreachable!(),
        }
    }
}

ghost use Rattle.std.specs.Prelude.{◌≡◌, ◌+◌, ◌*◌, ℕ};
ghost use Rattle.topo_core.specs.Rotations.{twin};
ghost use Rattle.topo_core.specs.declared.darts.Dart.{Dart};
ghost use Rattle.topo_core.specs.declared.darts.Way.TheVariants.{Forward, Back};

/// The dart of an edge that comes so many darts behind its first.
fn dart_behind(edge: EdgeId, along: u32) -> Dart
    ensures forward { (s : ℕ) → along ≡ 2 * s
        → result ≡ record { edge = edge; seg = s; way = Forward } }
    ensures back { (s : ℕ) → along ≡ 2 * s + 1
        → result ≡ record { edge = edge; seg = s; way = Back } }
{
    let seg = along / 2;
    if along % 2 == 0 {
        Dart {
            edge,
            seg,
            way: Way::Forward,
        }
    } else {
        Dart {
            edge,
            seg,
            way: Way::Back,
        }
    }
}

/// The other dart of the segment.
fn twin_of(dart: u32) -> u32
    ensures { result ≡ twin dart }
{
    if dart % 2 == 0 { dart + 1 } else { dart - 1 }
}

impl FaceGraph for Numbered<'_> {
    ghost use Rattle.topo_rows.specs.Recovering.{lawful_again};
    ghost use Rattle.std.specs.Prelude.{slice_index};
    ghost use Rattle.topo_route.specs.Names.{canonical};
    ghost use Rattle.topo_dual.specs.NumberedRows.{faces_again, names_again, never_guided};
    ghost use Rattle.topo_route.specs.Potentials.{all_four};

    ghost named = { λ d. canonical d.rows };

    fn size(&self) -> u32 {
        self.lists.halves.as_slice().len() as u32
    }

    fn next(&self, dart: u32) -> u32 {
        self.lists.next(dart)
    }

    fn twin(&self, dart: u32) -> u32 {
        twin_of(dart)
    }

    fn edge(&self, dart: u32) -> u32 {
        self.embedded.edge(self.lists.half(dart))
    }

    fn kind(&self, dart: u32) -> u8 {
        self.embedded.kind(self.lists.half(dart))
    }

    fn facts(&self, dart: u32) -> Facts {
        self.embedded.facts(self.lists.half(dart))
    }

    fn corner(&self, v: u32, position: u32) -> Option<u32> {
        match self.embedded.corner(v, position) {
            Some(half) => Some(self.lists.number(half)),
            None => None,
        }
    }

    fn degree(&self, v: u32) -> u32 {
        self.embedded.degree(v) as u32
    }

    fn dart(&self, dart: u32) -> Dart {
        let edge = EdgeId::new(self.embedded.edge(self.lists.half(dart)));
        dart_behind(edge, dart - self.first_on(edge))
    }

    fn precedes(&self, dart: u32, other: u32) -> bool {
        dart < other
    }

    ghost face_of = { λ d. slice_index d.faces };

    ghost face_bound = { λ d. d.bound };

    fn faces(&self) -> u32 {
        self.lists.bound
    }

    fn face(&self, dart: u32) -> u32 {
        self.lists.face(dart)
    }

    fn step(&self, dart: u32) -> (u32, u32) {
        (self.next(dart), self.face(self.twin(dart)))
    }

    ghost potentials = { λ _ _. all_four 0 };

    ghost floor = { λ _ _. 0 };

    fn has_potentials(&self) -> bool {
        false
    }

    fn potentials(&self, _face: u32) -> Potentials {
        Potentials::all(0)
    }

    fn floor(&self, _kind: u8) -> u16 {
        0
    }

    ghost lawful = { λ d. lawful_again d.rows d.lawful };

    ghost has_names = { λ d. names_again d.rows d.lawful };

    ghost has_faces = { faces_again };

    ghost is_consistent = { never_guided };
}

impl Dual for Numbered<'_> {
    ghost use Rattle.std.specs.Prelude.{refl};

    ghost shows = { λ d. d.rows };

    fn tail(&self, dart: u32) -> Point {
        self.embedded.start_of(self.lists.half(dart))
    }

    fn index(&self, dart: Dart) -> Option<u32> {
        match self.embedded.find_half(dart) {
            Some(half) => Some(self.lists.number(half)),
            None => None,
        }
    }

    ghost numbered = { λ d. refl };
}
