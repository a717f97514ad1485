//! The kinds of the edges, by their ids, a byte each. So a search knows the price of an edge by its
//! kind without the row of the edge, which often has to come from memory first.

ghost use Rattle.std.specs.Prelude.{◌≡◌, ◌<◌, IfOk, is_some, option_map, slice_get, true};
ghost use Rattle.topo_core.specs.Lawful.{IsWellFormed};
ghost use Rattle.topo_core.specs.Picture.{edge_at, edge_row};
ghost use Rattle.topo_core.specs.declared.rows.TheConstants.{KINDS};
ghost use Rattle.topo_embedded.specs.KnownKinds.{AreKindsOf, IsNoted};

use std::alloc::{AllocError, Global};
use std::marker::Model;
use topo_kept_rows::KeptRows;

/// The kinds of the first edges. An edge that is not there any more has any.
pub(crate) struct Kinds {
    kinds: Vec<u8>,
}

// Written out, so that it is proved once: a derived one is proved anew in each function that lets
// such a value go.
impl Drop for Kinds {
    fn drop(self) {
        let Kinds { kinds } = self;
        drop(kinds);
    }
}

impl Model for Kinds {
    ghost use Rattle.std.specs.Prelude.{ℕ, List};

    ghost Value = { List ℕ };

    ghost view = { λ k. k.kinds.items };
}

/// The kind of an edge of rows, none where there is no such edge.
fn kind_in(rows: &KeptRows, edge: u32) -> Option<u8>
    requires { IsWellFormed rows.now }
    ensures { result ≡ option_map (λ row. row.kind) (edge_row rows.now edge) }
{
    match rows.edge(edge) {
        Some(found) => Some(found.kind as u8),
        None => None,
    }
}

impl Kinds {
    /// The kinds of the edges of rows.
    pub(crate) fn of(alloc: Global, rows: &KeptRows) -> Result<Self, AllocError>
        requires { IsWellFormed rows.now }
        ensures { IfOk result (λ kinds. AreKindsOf rows.now kinds) }
    {
        let mut kinds = Vec::with_capacity(alloc, rows.next_edge() as usize)?;
        for edge in 0..rows.next_edge() {
            kinds.push(kind_in(rows, edge).unwrap_or(0))?;
        }
        Ok(Kinds { kinds })
    }

    /// Equal ones, in memory of their own.
    pub(crate) fn try_copy(&self, alloc: Global) -> Result<Self, AllocError>
        ensures { IfOk result (λ copy. copy ≡ self.now) }
    {
        let kinds = Vec::from_slice(alloc, self.kinds.as_slice())?;
        Ok(Kinds { kinds })
    }

    /// Room for so many more. Out of memory there may be less.
    pub(crate) fn reserve(&mut self, more: usize)
        ensures { self.new ≡ self.old }
    {
        let _lacks = self.kinds.reserve(more).is_err();
    }

    // The kind of an edge, if it is known.
    fn get(&self, edge: u32) -> Option<u8>
        ensures { result ≡ slice_get self.now edge }
    {
        self.kinds.get(edge as usize).copied()
    }

    /// The kind of an edge of the rows that these are of. The row is read only where the kind is
    /// not known.
    pub(crate) fn kind(&self, rows: &KeptRows, edge: u32) -> u8
        requires formed { IsWellFormed rows.now }
        requires kinds { AreKindsOf rows.now self.now }
        requires there { is_some (edge_row rows.now edge) ≡ true }
        ensures { result ≡ (edge_at rows.now edge).kind }
    {
        match self.get(edge) {
            Some(kind) => kind,
            None => match kind_in(rows, edge) {
                Some(kind) => kind,
                None => unreachable!(),
            },
        }
    }

    /// Notes the kind of an edge, if those of all edges before it are known. Out of memory it stays
    /// unknown, and so do those of the edges that come later.
    pub(crate) fn note(&mut self, edge: u32, kind: u32)
        requires { kind < KINDS }
        ensures { IsNoted self.old self.new edge kind }
    {
        if self.kinds.len() == edge as usize {
            let _lacks = self.kinds.push(kind as u8).is_err();
        }
    }
}
