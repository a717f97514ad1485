//! The halves of rows, made anew.

ghost use Rattle.std.specs.Prelude.{◌≡◌, ◌+◌, ◌*◌, ◌≤◌, ◌<◌, ◌^◌, IfOk, flat_map, length, map};
ghost use Rattle.std.specs.Prelude.{sum_by, true};
ghost use Rattle.topo_core.specs.Lawful.{IsWellFormed};
ghost use Rattle.topo_core.specs.Items.{rises_below};
ghost use Rattle.topo_core.specs.Picture.{darts_of, segment_count};
ghost use Rattle.topo_embedded.specs.Halves.{ShowsRows};
ghost use Rattle.topo_embedded.specs.Making.{ArePathsOf, IsPathOf, labels_of};
ghost use Rattle.topo_embedded.specs.Paths.{AreForEdges};
ghost use Rattle.topo_rows.specs.Flats.{AreTurnsOf, begins_from};
ghost use Rattle.topo_table.specs.Places.{AreBelow, ids_in, values_in};

use crate::path::Path;
use std::alloc::{AllocError, Global};
use topo_core::rows::{EdgeRow, Rows};
use topo_map::{Embedding, Half};
use topo_rows::Turns;
use topo_table::NumberedTable;

/// For each segment the id of its edge. So many segments are expected.
pub(crate) fn labels_of(
    alloc: Global,
    edges: &[EdgeRow],
    expected: usize,
) -> Result<Vec<u32>, AllocError>
    requires few { 2 * sum_by segment_count edges.now < 2 ^ 32 }
    ensures { IfOk result (λ labels. labels.items ≡ labels_of edges.now) }
{
    let mut labels = Vec::with_capacity(alloc, expected)?;
    for row in edges {
        labels.resize(labels.len() + row.crossings.as_slice().len() + 1, row.id)?;
    }
    Ok(labels)
}

/// The first half of each segment of an edge with so many crossings.
fn path_of(
    alloc: Global,
    halves: &[Half],
    begin: usize,
    crossings: usize,
) -> Result<Path, AllocError>
    requires fits { begin + 2 * (crossings + 1) ≤ length halves.now }
    ensures { IfOk result (IsPathOf halves.now begin (crossings + 1)) }
{
    let mut others = Vec::with_capacity(alloc, crossings)?;
    for i in 0..crossings {
        others.push(halves[begin + 2 + 2 * i])?;
    }
    Path::new(alloc, halves[begin], others)
}

/// The halves along each edge, where the darts of the edges begin as said. The ids of the edges
/// are below `limit`, and each id below it is its own place.
pub(crate) fn paths_of(
    alloc: Global,
    edges: &[EdgeRow],
    begins: &[u32],
    halves: &[Half],
    limit: u32,
) -> Result<NumberedTable<Path>, AllocError>
    requires rise { rises_below limit (map (λ row. row.id) edges.now) ≡ true }
    requires begins { begins.now ≡ begins_from 0 edges.now }
    requires halves { length halves.now ≡ length (flat_map darts_of edges.now) }
    ensures paths { IfOk result (λ paths.
        ArePathsOf edges.now begins.now halves.now (length edges.now) (values_in paths)) }
    ensures ids { IfOk result (λ paths. ids_in paths ≡ map (λ row. row.id) edges.now) }
    ensures below { IfOk result (λ paths. AreBelow limit paths.slots) }
    ensures count { IfOk result (λ paths. length paths.slots ≡ limit) }
{
    let mut paths = NumberedTable::new(alloc);
    paths.reserve(limit as usize)?;
    for place in 0..edges.len() {
        let crossings = edges[place].crossings.as_slice().len();
        let path = path_of(alloc, halves, begins[place] as usize, crossings)?;
        let id = edges[place].id;
        paths.skip_to(id)?;
        paths.reserve(1)?;
        paths.push(id, path);
    }
    paths.skip_to(limit)?;
    Ok(paths)
}

/// The embedding of well-formed rows whose darts turn as said, with the halves along each edge.
pub(crate) fn embedding_of(
    alloc: Global,
    rows: &Rows,
    turns: &Turns,
) -> Result<(Embedding, NumberedTable<Path>), AllocError>
    requires well_formed { IsWellFormed rows.now }
    requires few { 2 * sum_by segment_count rows.now.edges < 2 ^ 32 }
    requires turns { AreTurnsOf rows.now turns.now.begins.items turns.now.images.items }
    ensures shows { IfOk result (λ made.
        ShowsRows (record { rows = rows.now; paths = values_in made.1 }) made.0) }
    ensures kept { IfOk result (λ made. AreForEdges rows.now made.1) }
{
    let edges = rows.edges.as_slice();
    let images = turns.images.as_slice();
    let labels = labels_of(alloc, edges, images.len() / 2)?;
    let (segments, halves) = Embedding::from_turns(alloc, images, labels.as_slice())?;
    let begins = turns.begins.as_slice();
    let paths = paths_of(alloc, edges, begins, halves.as_slice(), rows.next_edge)?;
    Ok((segments, paths))
}
