//! A picture as plain data.

ghost use Rattle.std.specs.Prelude.{◌<◌, ◌^◌};
ghost use Rattle.topo_core.specs.declared.rows.TheConstants.{KINDS};

use crate::darts::Sign;
use crate::listed::Listed;

/// An edge with the crossings on its path, from end `a` to end `b`.
#[derive(Drop, Debug)]
pub struct EdgeRow {
    pub id: u32,
    pub a: u32,
    pub b: u32,
    pub kind: u32,
    pub crossings: Listed<u32>,
}

/// A crossing: the newcomer was put in across the crossed edge.
#[derive(Clone, Copy, Debug, PartialEq, Eq)]
pub struct CrossRow {
    pub id: u32,
    pub crossed: u32,
    pub newcomer: u32,
    pub sign: Sign,
}

/// A picture: for each vertex the clockwise list of the ids of its edges, the edges and the
/// crossings in rising order of their ids, and the ids to be given next. `Lawful` says which rows
/// are pictures.
#[derive(Drop, Debug)]
pub struct Rows {
    pub rotations: Listed<Listed<u32>>,
    pub edges: Listed<EdgeRow>,
    pub crossings: Listed<CrossRow>,
    pub next_edge: u32,
    pub next_crossing: u32,
}

/// The kinds of edges are below this number.
pub const KINDS: usize = 64;

/// The greatest price of crossing an edge. The least is 1.
pub const MAX_PRICE: u32 = 1000;

/// What a price may depend on: an edge without its crossings.
#[derive(Clone, Copy, Debug, PartialEq, Eq)]
pub struct Facts {
    pub id: u32,
    pub a: u32,
    pub b: u32,
    pub kind: u8,
    ghost id_in_range: { id < 2 ^ 32 },
    ghost a_in_range: { a < 2 ^ 32 },
    ghost b_in_range: { b < 2 ^ 32 },
    ghost known_kind: { kind < KINDS },
}

impl Facts {
    ghost use Rattle.std.specs.Prelude.{◌≡◌, ◌<◌, IfSome, IsNone, ◌↔◌, ◌≤◌};
    ghost use Rattle.topo_core.specs.Routes.{AreFactsOf};
    ghost use Rattle.topo_core.specs.declared.rows.TheConstants.{KINDS};

    /// The facts of an edge, or nothing where its kind is above 63.
    pub fn from_row(row: &EdgeRow) -> Option<Self>
        ensures facts { IfSome result (AreFactsOf row.now) }
        ensures unknown { IsNone result ↔ (KINDS ≤ row.now.kind) }
    {
        let (id, a, b, kind) = (row.id, row.a, row.b, row.kind);
        if (kind as usize) < KINDS {
            Some(Facts {
                id,
                a,
                b,
                kind: kind as u8,
            })
        } else {
            None
        }
    }
}

impl Rows {
    ghost use Rattle.std.specs.Prelude.{◌≡◌, length, option_copied};
    ghost use Rattle.topo_core.specs.Picture.{edge_row, edge_at, segment_count, rotation};

    /// The row of an edge. It looks at one row after another, so it takes time by the number of
    /// edges.
    pub fn edge(&self, id: u32) -> Option<&EdgeRow>
        ensures { option_copied result ≡ edge_row self.now id }
    {
        self.edges.iter().find(|row| row.id == id)
    }

    /// How many edge ends a vertex has, and 0 where it is none.
    pub fn degree(&self, v: u32) -> usize
        ensures { result ≡ length (rotation self.now v) }
    {
        match self.rotations.as_slice().get(v as usize) {
            Some(around) => around.len(),
            None => 0,
        }
    }
}
