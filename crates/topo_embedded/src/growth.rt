//! Growth of rows with their embedding. What can fail comes first, so that a failure leaves them as
//! they were.

ghost use Rattle.std.specs.Prelude.{◌≡◌, ◌+◌, ◌<◌, ◌^◌, Some, OnOk, OnErr, length};
ghost use Rattle.topo_core.specs.Changes.{grown};
ghost use Rattle.topo_core.specs.Lawful.{IsWellFormed};
ghost use Rattle.topo_core.specs.Picture.{corner, rotation};
ghost use Rattle.topo_core.specs.declared.darts.Dart.{Dart};
ghost use Rattle.topo_embedded.specs.Halves.{half_in};
ghost use Rattle.topo_embedded.specs.Parts.{Agree, AreForSearches, with_paths};
ghost use Rattle.topo_embedded.specs.Paths.{AreForEdges};
ghost use Rattle.topo_table.specs.Places.{values_in};
ghost use Rattle.topo_core.specs.declared.rows.TheConstants.{KINDS};

use crate::parts::Parts;
use crate::path::Path;
use std::alloc::{AllocError, Global};
use topo_kept_rows::growth::grow_rows;
use topo_map::Half;

impl Parts {
    /// Puts a new vertex on a new edge into a corner of the rows, and its segment before the half
    /// of that corner, or leaves all as it was.
    pub(crate) fn grow(
        &mut self,
        alloc: Global,
        named: Half,
        u: u32,
        position: u32,
        kind: u32,
    ) -> Result<(), AllocError>
        requires formed { IsWellFormed self.old.rows }
        requires vertex { u < length self.old.rows.rotations }
        requires position { position < length (rotation self.old.rows u) }
        requires known { kind < KINDS }
        requires vertices { length self.old.rows.rotations < 2 ^ 32 }
        requires edges { self.old.rows.next_edge + 1 < 2 ^ 32 }
        requires shows { Agree self.old }
        requires kept { AreForEdges self.old.rows self.old.paths }
        requires searches { AreForSearches self.old }
        requires named { (c : Dart) → corner self.old.rows u position ≡ Some c
            → named ≡ half_in (with_paths self.old) c }
        ensures ok { OnOk result (self.new.rows ≡ grown self.old.rows u position kind) }
        ensures err { OnErr result (self.new.rows ≡ self.old.rows) }
        ensures err_paths { OnErr result (values_in self.new.paths ≡ values_in self.old.paths) }
        ensures shows { Agree self.new }
        ensures kept { AreForEdges self.new.rows self.new.paths }
        ensures searches { AreForSearches self.new }
    {
        self.segments.reserve(1)?;
        self.paths.reserve(1)?;
        let edge = self.rows.next_edge();
        grow_rows(alloc, &mut self.rows, u, position, kind)?;
        self.segments.laws();
        let half = self.segments.hang(named, edge);
        self.paths.push(edge, Path::of(half));
        self.kinds.note(edge, kind);
        Ok(())
    }
}
