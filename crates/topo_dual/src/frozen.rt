//! Frozen pictures: numbered ones that own their embedding.

ghost use Rattle.std.specs.Prelude.{slice_index};
ghost use Rattle.topo_core.specs.Lawful.{Lawful};
ghost use Rattle.topo_route.specs.Names.{HasFaces, canonical};

use crate::lists::NumberLists;
use crate::numbered::Numbered;
use std::alloc::{AllocError, Global};
use std::marker::Model;
use topo_core::darts::{Dart, Point};
use topo_core::rows::{Facts, Rows};
use topo_embedded::Embedded;
use topo_route::dual::Dual;
use topo_route::face_graph::FaceGraph;
use topo_route::guided::potentials::Potentials;

/// A frozen picture: lawful rows with their embedding, and with the lists that number their darts.
/// Contracts see the rows. It answers what `Numbered` does, and nothing has to be lent to it.
pub struct Frozen {
    embedded: Embedded,
    lists: NumberLists,
    ghost lawful: { ∥ Lawful embedded.rows ∥₁ },
    ghost told: { ∥ HasFaces (canonical embedded.rows)
        (slice_index lists.faces.items) lists.bound ∥₁ },
}

// Written out, so that it is proved once: a derived one is proved anew in each function that lets
// such a value go.
impl Drop for Frozen {
    fn drop(self) {
        let Frozen { embedded, lists } = self;
        drop(embedded);
        drop(lists);
    }
}

impl Model for Frozen {
    ghost use Rattle.topo_dual.specs.NumberedRows.{AreListsOf, LawfulRows};

    ghost Value = { LawfulRows };

    ghost view = { λ f. record {
      rows = f.embedded.rows;
      lawful = f.lawful;
      faces = f.lists.faces.items;
      bound = f.lists.bound;
      told = f.told;
    } };

    ghost invariant = { λ f. AreListsOf f.embedded f.lists.halves.items f.lists.numbers.items
        f.lists.nexts.items f.lists.faces.items f.lists.bound };
}

impl Frozen {
    ghost use Rattle.std.specs.Prelude.{◌≡◌, ◌<◌, ◌^◌, IfOk, length};
    ghost use Rattle.topo_core.specs.Lawful.{Lawful};

    /// The frozen picture of these rows with their embedding.
    pub fn new(alloc: Global, embedded: Embedded) -> Result<Self, AllocError>
        requires lawful { Lawful embedded.rows }
        requires vertices { length embedded.rows.rotations < 2 ^ 32 }
        ensures { IfOk result (λ f. f.rows ≡ embedded.rows) }
    {
        let mut lists = NumberLists::new(alloc);
        lists.fill(&embedded)?;
        Ok(Frozen { embedded, lists })
    }

    /// A copy of its rows.
    pub fn rows(&self, alloc: Global) -> Result<Rows, AllocError>
        ensures rows { IfOk result (λ rows. rows ≡ self.now.rows) }
        ensures lawful { Lawful self.now.rows }
    {
        self.embedded.copy_of_rows(alloc)
    }

    /// How many vertices there are.
    pub fn vertex_count(&self) -> u32
        ensures { result ≡ length self.now.rows.rotations }
    {
        self.embedded.vertex_count() as u32
    }

    /// The frozen picture with its numbers, borrowed.
    fn as_numbered(&self) -> Numbered<'_>
        ensures rows { result.rows ≡ self.now.rows }
        ensures faces { result.faces ≡ self.now.faces }
        ensures bound { result.bound ≡ self.now.bound }
    {
        Numbered {
            embedded: &self.embedded,
            lists: &self.lists,
        }
    }
}

impl FaceGraph for Frozen {
    ghost use Rattle.topo_rows.specs.Recovering.{lawful_again};
    ghost use Rattle.std.specs.Prelude.{slice_index};
    ghost use Rattle.topo_route.specs.Names.{canonical};
    ghost use Rattle.topo_dual.specs.NumberedRows.{faces_again, names_again, never_guided};
    ghost use Rattle.topo_route.specs.Potentials.{all_four};

    ghost named = { λ f. canonical f.rows };

    fn size(&self) -> u32 {
        self.as_numbered().size()
    }

    fn next(&self, dart: u32) -> u32 {
        self.as_numbered().next(dart)
    }

    fn twin(&self, dart: u32) -> u32 {
        self.as_numbered().twin(dart)
    }

    fn edge(&self, dart: u32) -> u32 {
        self.as_numbered().edge(dart)
    }

    fn kind(&self, dart: u32) -> u8 {
        self.as_numbered().kind(dart)
    }

    fn facts(&self, dart: u32) -> Facts {
        self.as_numbered().facts(dart)
    }

    fn corner(&self, v: u32, position: u32) -> Option<u32> {
        self.as_numbered().corner(v, position)
    }

    fn degree(&self, v: u32) -> u32 {
        self.as_numbered().degree(v)
    }

    fn dart(&self, dart: u32) -> Dart {
        self.as_numbered().dart(dart)
    }

    fn precedes(&self, dart: u32, other: u32) -> bool {
        self.as_numbered().precedes(dart, other)
    }

    ghost face_of = { λ f. slice_index f.faces };

    ghost face_bound = { λ f. f.bound };

    fn faces(&self) -> u32 {
        self.as_numbered().faces()
    }

    fn face(&self, dart: u32) -> u32 {
        self.as_numbered().face(dart)
    }

    fn step(&self, dart: u32) -> (u32, u32) {
        self.as_numbered().step(dart)
    }

    ghost potentials = { λ _ _. all_four 0 };

    ghost floor = { λ _ _. 0 };

    fn has_potentials(&self) -> bool {
        false
    }

    fn potentials(&self, _face: u32) -> Potentials {
        Potentials::all(0)
    }

    fn floor(&self, _kind: u8) -> u16 {
        0
    }

    ghost lawful = { λ f. lawful_again f.rows f.lawful };

    ghost has_names = { λ f. names_again f.rows f.lawful };

    ghost has_faces = { faces_again };

    ghost is_consistent = { never_guided };
}

impl Dual for Frozen {
    ghost use Rattle.std.specs.Prelude.{refl};

    ghost shows = { λ f. f.rows };

    fn tail(&self, dart: u32) -> Point {
        self.as_numbered().tail(dart)
    }

    fn index(&self, dart: Dart) -> Option<u32> {
        self.as_numbered().index(dart)
    }

    ghost numbered = { λ f. refl };
}
