//! The rows of a picture as it keeps them: each edge and each crossing is found by its id in one
//! look, and goes at its own cost.

ghost use Rattle.std.specs.Prelude.{◌≡◌, ◌==◌, ◌+◌, ◌<◌, ◌++◌, ◌∷◌, [], true};
ghost use Rattle.std.specs.Prelude.{IfOk, OnOk, Some, if◌then◌else◌};
ghost use Rattle.std.specs.Prelude.{length, map, option_copied};
ghost use Rattle.topo_core.specs.Items.{rises_below};
ghost use Rattle.topo_core.specs.Lawful.{has_good_crossings, has_good_paths};
ghost use Rattle.topo_core.specs.Picture.{cross_row, edge_row, rotation};
ghost use Rattle.topo_kept_rows.specs.Keeping.{HaveOwnIds, crossing_row, edges_of, rows_of};
ghost use Rattle.topo_table.specs.Places.{AreBelow, entries};

use crate::rotation::{
    Rotation, copied_rotations, listed_rotations, rotations_as_lists, rotations_of,
};
use std::alloc::{AllocError, Global};
use std::marker::Model;
use topo_core::darts::Sign;
use topo_core::listed::Listed;
use topo_core::rows::{CrossRow, EdgeRow, Rows};
use topo_table::Table;

/// A crossing without its id.
#[derive(Clone, Copy, Debug, PartialEq, Eq)]
pub(crate) struct Crossing {
    pub(crate) crossed: u32,
    pub(crate) newcomer: u32,
    pub(crate) sign: Sign,
}

impl Crossing {
    /// The edge of the crossing that is not `e`.
    pub(crate) fn other(&self, e: u32) -> u32
        ensures { result ≡ (if self.now.crossed == e then self.now.newcomer else self.now.crossed) }
    {
        if self.crossed == e {
            self.newcomer
        } else {
            self.crossed
        }
    }
}

/// A copy of a path.
fn copy_path(alloc: Global, path: &[u32]) -> Result<Listed<u32>, AllocError>
    ensures { IfOk result (λ copy. copy ≡ path.now) }
{
    if path.is_empty() {
        return Ok(Listed::new(alloc));
    }
    let crossings = Vec::from_slice(alloc, path)?;
    Ok(Listed::from_vec(crossings))
}

/// A copy of an edge.
fn copy_edge(alloc: Global, row: &EdgeRow) -> Result<EdgeRow, AllocError>
    ensures { IfOk result (λ copy. copy ≡ row.now) }
{
    let crossings = copy_path(alloc, row.crossings.as_slice())?;
    Ok(EdgeRow {
        id: row.id,
        a: row.a,
        b: row.b,
        kind: row.kind,
        crossings,
    })
}

/// The rows of a picture, which contracts see. Its edges and its crossings are in tables.
pub struct KeptRows {
    pub(crate) rotations: Listed<Rotation>,
    pub(crate) edges: Table<EdgeRow>,
    pub(crate) crossings: Table<Crossing>,
    pub(crate) next_edge: u32,
    pub(crate) next_crossing: u32,
}

// Written out, so that it is proved once: a derived one is proved anew in each function that lets
// such a value go.
impl Drop for KeptRows {
    fn drop(self) {
        let KeptRows {
            rotations,
            edges,
            crossings,
            next_edge: _,
            next_crossing: _,
        } = self;
        drop(rotations);
        drop(edges);
        drop(crossings);
    }
}

impl Model for KeptRows {
    ghost use Rattle.topo_core.specs.declared.rows.Rows.{Rows};
    ghost use Rattle.topo_table.specs.Places.{AreBelow};
    ghost use Rattle.topo_kept_rows.specs.Keeping.{HaveOwnIds, edges_of, rows_of};

    ghost Value = { Rows };

    ghost view = { λ k. record {
      rotations = k.rotations;
      edges = edges_of k.edges;
      crossings = rows_of k.crossings;
      next_edge = k.next_edge;
      next_crossing = k.next_crossing;
    } };

    ghost invariant = { λ k. AreBelow k.next_crossing k.crossings.slots
        × AreBelow k.next_edge k.edges.slots
        × HaveOwnIds k.edges };
}

impl KeptRows {
    /// Equal rows as they are kept, in memory of their own. The ids of edges and of crossings rise.
    pub fn of(alloc: Global, rows: &Rows) -> Result<Self, AllocError>
        requires crossings { has_good_crossings rows.now ≡ true }
        requires edges { has_good_paths rows.now ≡ true }
        ensures { IfOk result (λ kept. kept ≡ rows.now) }
    {
        let edges = edge_table(alloc, rows.edges.as_slice(), rows.next_edge)?;
        let crossings = table_of(alloc, rows.crossings.as_slice(), rows.next_crossing)?;
        let rotations = rotations_of(alloc, rows.rotations.as_slice())?;
        Ok(KeptRows {
            rotations: Listed::from_vec(rotations),
            edges,
            crossings,
            next_edge: rows.next_edge,
            next_crossing: rows.next_crossing,
        })
    }

    /// A copy of them as plain rows.
    pub fn show(&self, alloc: Global) -> Result<Rows, AllocError>
        ensures { IfOk result (λ rows. rows ≡ self.now) }
    {
        let rotations = listed_rotations(alloc, self.rotations.as_slice())?;
        let edges = edge_list(alloc, &self.edges)?;
        let crossings = list_of(alloc, &self.crossings)?;
        Ok(Rows {
            rotations: Listed::from_vec(rotations),
            edges: Listed::from_vec(edges),
            crossings: Listed::from_vec(crossings),
            next_edge: self.next_edge,
            next_crossing: self.next_crossing,
        })
    }

    /// The kept rows as plain rows. The lists of the vertices and the paths of the edges are handed
    /// over and not copied.
    pub fn into_rows(self, alloc: Global) -> Result<Rows, AllocError>
        ensures { IfOk result (λ rows. rows ≡ self) }
    {
        let KeptRows {
            rotations,
            edges,
            crossings,
            next_edge,
            next_crossing,
        } = self;
        let rotations = rotations_as_lists(alloc, rotations)?;
        let edges = edges_as_list(alloc, edges)?;
        let crossings = list_of(alloc, &crossings)?;
        Ok(Rows {
            rotations: Listed::from_vec(rotations),
            edges: Listed::from_vec(edges),
            crossings: Listed::from_vec(crossings),
            next_edge,
            next_crossing,
        })
    }

    /// Equal rows, in memory of their own.
    pub fn copy(&self, alloc: Global) -> Result<Self, AllocError>
        ensures { IfOk result (λ kept. kept ≡ self.now) }
    {
        let rotations = copied_rotations(alloc, self.rotations.as_slice())?;
        let edges = copied_edges(alloc, &self.edges, self.next_edge)?;
        let crossings = self.crossings.copy()?;
        Ok(KeptRows {
            rotations: Listed::from_vec(rotations),
            edges,
            crossings,
            next_edge: self.next_edge,
            next_crossing: self.next_crossing,
        })
    }

    /// Room for so many more vertices and edges, so that their lists need not move as they grow.
    pub fn reserve(&mut self, vertices: usize, edges: usize) -> Result<(), AllocError>
        ensures { self.new ≡ self.old }
    {
        self.rotations.as_vec_mut().reserve(vertices)?;
        self.edges.reserve(edges)
    }

    /// For each vertex the clockwise list of the ids of its edges.
    pub fn rotations(&self) -> &[Rotation]
        ensures { result.now ≡ self.now.rotations }
    {
        self.rotations.as_slice()
    }

    /// How many edge ends a vertex has, and 0 where it is none.
    pub fn degree(&self, v: u32) -> usize
        ensures { result ≡ length (rotation self.now v) }
    {
        match self.rotations.as_slice().get(v as usize) {
            Some(around) => around.len(),
            None => 0,
        }
    }

    /// How many edges there are.
    pub fn edge_count(&self) -> usize
        ensures { result ≡ length self.now.edges }
    {
        self.edges.len()
    }

    /// The edge with an id.
    pub fn edge(&self, id: u32) -> Option<&EdgeRow>
        ensures { option_copied result ≡ edge_row self.now id }
    {
        self.edges.get(id)
    }

    /// How many crossings there are.
    pub fn crossing_count(&self) -> usize
        ensures { result ≡ length self.now.crossings }
    {
        self.crossings.len()
    }

    /// The crossing with an id.
    pub fn crossing(&self, id: u32) -> Option<CrossRow>
        ensures { result ≡ cross_row self.now id }
    {
        let crossing = self.crossings.get(id)?;
        Some(shown(id, *crossing))
    }

    /// The id of the next edge.
    pub fn next_edge(&self) -> u32
        ensures { result ≡ self.now.next_edge }
    {
        self.next_edge
    }

    /// The id of the next crossing.
    pub fn next_crossing(&self) -> u32
        ensures { result ≡ self.now.next_crossing }
    {
        self.next_crossing
    }
}

/// A crossing with its id.
fn shown(id: u32, crossing: Crossing) -> CrossRow
    ensures { result ≡ crossing_row (id, crossing) }
{
    CrossRow {
        id,
        crossed: crossing.crossed,
        newcomer: crossing.newcomer,
        sign: crossing.sign,
    }
}

/// The table of crossings whose ids rise and are below `limit`.
fn table_of(alloc: Global, rows: &[CrossRow], limit: u32) -> Result<Table<Crossing>, AllocError>
    requires { rises_below limit (map (λ row. row.id) rows.now) ≡ true }
    ensures rows { IfOk result (λ table. rows_of table ≡ rows.now) }
    ensures below { IfOk result (λ table. AreBelow limit table.slots) }
{
    let mut table = Table::new(alloc);
    table.reserve(rows.len())?;
    for row in rows {
        let crossing = Crossing {
            crossed: row.crossed,
            newcomer: row.newcomer,
            sign: row.sign,
        };
        table.push(row.id, crossing);
    }
    Ok(table)
}

/// The rows of a table of crossings.
fn list_of(alloc: Global, table: &Table<Crossing>) -> Result<Vec<CrossRow>, AllocError>
    ensures { IfOk result (λ rows. rows.items ≡ rows_of table.now) }
{
    let mut rows = Vec::with_capacity(alloc, table.len())?;
    for place in 0..table.places() {
        match table.at(place) {
            Some((id, crossing)) => rows.push(shown(id, *crossing))?,
            None => {}
        }
    }
    Ok(rows)
}

/// Puts an edge behind the others. There is room for it.
pub(crate) fn put_edge(edges: &mut Table<EdgeRow>, row: EdgeRow)
    requires room { 0 < edges.old.room }
    requires below { AreBelow row.id edges.old.slots }
    requires own { HaveOwnIds edges.old }
    ensures edges { edges_of edges.new ≡ edges_of edges.old ++ row ∷ [] }
    ensures below { AreBelow (row.id + 1) edges.new.slots }
    ensures own { HaveOwnIds edges.new }
{
    edges.push(row.id, row);
}

/// Puts a copy of an edge behind the others.
fn push_copy(alloc: Global, edges: &mut Table<EdgeRow>, row: &EdgeRow) -> Result<(), AllocError>
    requires { AreBelow row.now.id edges.old.slots }
    ensures { OnOk result
        (edges.new.slots ≡ edges.old.slots ++ (row.now.id, Some row.now) ∷ []) }
{
    edges.reserve(1)?;
    edges.push(row.id, copy_edge(alloc, row)?);
    Ok(())
}

/// The table of edges whose ids rise and are below `limit`. Each id below it is its own place.
fn edge_table(alloc: Global, rows: &[EdgeRow], limit: u32) -> Result<Table<EdgeRow>, AllocError>
    requires { rises_below limit (map (λ row. row.id) rows.now) ≡ true }
    ensures rows { IfOk result (λ table. edges_of table ≡ rows.now) }
    ensures below { IfOk result (λ table. AreBelow limit table.slots) }
    ensures own { IfOk result HaveOwnIds }
{
    let mut table = Table::new(alloc);
    table.reserve(limit as usize)?;
    for row in rows {
        table.skip_to(row.id)?;
        push_copy(alloc, &mut table, row)?;
    }
    table.skip_to(limit)?;
    Ok(table)
}

/// A copy of a table of edges with ids below `limit`. Each id below it is its own place.
fn copied_edges(
    alloc: Global,
    edges: &Table<EdgeRow>,
    limit: u32,
) -> Result<Table<EdgeRow>, AllocError>
    requires below { AreBelow limit edges.now.slots }
    requires own { HaveOwnIds edges.now }
    ensures entries { IfOk result (λ copy. entries copy ≡ entries edges.now) }
    ensures below { IfOk result (λ copy. AreBelow limit copy.slots) }
{
    let mut copy = Table::new(alloc);
    copy.reserve(limit as usize)?;
    for place in 0..edges.places() {
        match edges.at(place) {
            Some((_, row)) => {
                copy.skip_to(row.id)?;
                push_copy(alloc, &mut copy, row)?;
            }
            None => {}
        }
    }
    copy.skip_to(limit)?;
    Ok(copy)
}

/// The rows of a table of edges, which ends.
fn edges_as_list(alloc: Global, edges: Table<EdgeRow>) -> Result<Vec<EdgeRow>, AllocError>
    ensures { IfOk result (λ rows. rows.items ≡ edges_of edges) }
{
    let mut rows = Vec::with_capacity(alloc, edges.len())?;
    let mut left = edges;
    for place in 0..left.places() {
        if left.at(place).is_some() {
            rows.push(left.take(place))?;
        }
    }
    Ok(rows)
}

/// A copy of the rows of a table of edges.
fn edge_list(alloc: Global, edges: &Table<EdgeRow>) -> Result<Vec<EdgeRow>, AllocError>
    ensures { IfOk result (λ rows. rows.items ≡ edges_of edges.now) }
{
    let mut rows = Vec::with_capacity(alloc, edges.len())?;
    for place in 0..edges.places() {
        match edges.at(place) {
            Some((_, row)) => rows.push(copy_edge(alloc, row)?)?,
            None => {}
        }
    }
    Ok(rows)
}
