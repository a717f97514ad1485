//! Named pictures as tables, and the pictures that they are.

ghost use Rattle.std.specs.Prelude.{◌≡◌, IfOk, map};

use std::alloc::{AllocError, Global};
use topo_core::darts::Sign;
use topo_core::limits::Limits;
use topo_core::listed::Listed;
use topo_core::rows::{CrossRow, EdgeRow, Rows};
use topo_picture::Picture;
use topo_rows::LoadFault;

/// A picture as a table: the edges round each vertex; edges as (id, a, b, kind, path); crossings as
/// (id, crossed, newcomer, sign); the next ids.
#[derive(Clone, Copy)]
pub struct Named {
    pub name: &'static str,
    pub rotations: &'static [&'static [u32]],
    pub edges: &'static [(u32, u32, u32, u32, &'static [u32])],
    pub crossings: &'static [(u32, u32, u32, Sign)],
    pub next_edge: u32,
    pub next_crossing: u32,
}

/// Two vertices and the edge between them.
pub const SEED: Named = Named {
    name: "seed",
    rotations: &[&[0], &[0]],
    edges: &[(0, 0, 1, 0, &[])],
    crossings: &[],
    next_edge: 1,
    next_crossing: 0,
};

/// A triangle between two apexes, 3 and 4. The edges of the triangle are of kinds 1, 2 and 3.
pub const BIPYRAMID: Named = Named {
    name: "bipyramid",
    rotations: &[
        &[0, 3, 2, 6],
        &[0, 7, 1, 4],
        &[1, 8, 2, 5],
        &[3, 4, 5],
        &[6, 8, 7],
    ],
    edges: &[
        (0, 0, 1, 1, &[]),
        (1, 1, 2, 2, &[]),
        (2, 2, 0, 3, &[]),
        (3, 3, 0, 0, &[]),
        (4, 3, 1, 0, &[]),
        (5, 3, 2, 0, &[]),
        (6, 4, 0, 0, &[]),
        (7, 4, 1, 0, &[]),
        (8, 4, 2, 0, &[]),
    ],
    crossings: &[],
    next_edge: 9,
    next_crossing: 0,
};

/// The bipyramid with an edge from apex to apex, across edge 1.
pub const JOINED: Named = Named {
    name: "joined bipyramid",
    rotations: &[
        &[0, 3, 2, 6],
        &[0, 7, 1, 4],
        &[1, 8, 2, 5],
        &[3, 4, 9, 5],
        &[6, 8, 9, 7],
    ],
    edges: &[
        (0, 0, 1, 1, &[]),
        (1, 1, 2, 2, &[0]),
        (2, 2, 0, 3, &[]),
        (3, 3, 0, 0, &[]),
        (4, 3, 1, 0, &[]),
        (5, 3, 2, 0, &[]),
        (6, 4, 0, 0, &[]),
        (7, 4, 1, 0, &[]),
        (8, 4, 2, 0, &[]),
        (9, 3, 4, 0, &[0]),
    ],
    crossings: &[(0, 1, 9, Sign::RightToLeft)],
    next_edge: 10,
    next_crossing: 1,
};

/// A triangle whose base is crossed by edge 3. A vertex hangs in either part.
pub const BARRIER: Named = Named {
    name: "barrier",
    rotations: &[&[0, 1, 4], &[0, 5, 2], &[1, 2, 3], &[3], &[4], &[5]],
    edges: &[
        (0, 0, 1, 0, &[0]),
        (1, 0, 2, 1, &[]),
        (2, 1, 2, 1, &[]),
        (3, 2, 3, 1, &[0]),
        (4, 0, 4, 1, &[]),
        (5, 1, 5, 1, &[]),
    ],
    crossings: &[(0, 0, 3, Sign::LeftToRight)],
    next_edge: 6,
    next_crossing: 1,
};

/// A ring of six vertices with two chords that do not cross.
pub const HEXAGON: Named = Named {
    name: "hexagon",
    rotations: &[
        &[0, 5, 6],
        &[0, 1, 7],
        &[1, 2],
        &[2, 6, 3],
        &[3, 4, 7],
        &[4, 5],
    ],
    edges: &[
        (0, 0, 1, 0, &[]),
        (1, 1, 2, 0, &[]),
        (2, 2, 3, 0, &[]),
        (3, 3, 4, 0, &[]),
        (4, 4, 5, 0, &[]),
        (5, 5, 0, 0, &[]),
        (6, 0, 3, 0, &[]),
        (7, 1, 4, 0, &[]),
    ],
    crossings: &[],
    next_edge: 8,
    next_crossing: 0,
};

/// Four edges side by side.
pub const PARALLEL: Named = Named {
    name: "parallel edges",
    rotations: &[&[0, 1, 2, 3], &[0, 3, 2, 1]],
    edges: &[
        (0, 0, 1, 0, &[]),
        (1, 0, 1, 0, &[]),
        (2, 0, 1, 0, &[]),
        (3, 0, 1, 0, &[]),
    ],
    crossings: &[],
    next_edge: 4,
    next_crossing: 0,
};

fn listed(alloc: Global, items: &[u32]) -> Result<Listed<u32>, AllocError>
    ensures { IfOk result (λ l. l ≡ items.now) }
{
    Ok(Listed::from_vec(Vec::from_slice(alloc, items)?))
}

fn rotations(alloc: Global, named: &Named) -> Result<Listed<Listed<u32>>, AllocError>
    ensures { IfOk result (λ lists. lists ≡ map (λ around. around.now) named.now.rotations.now) }
{
    let mut lists = Vec::with_capacity(alloc, named.rotations.len())?;
    for around in named.rotations {
        lists.push(listed(alloc, *around)?)?;
    }
    Ok(Listed::from_vec(lists))
}

fn edges(alloc: Global, named: &Named) -> Result<Listed<EdgeRow>, AllocError>
    ensures { IfOk result (λ rows. rows ≡ map (λ e. record {
      id = e.0;
      a = e.1;
      b = e.2;
      kind = e.3;
      crossings = e.4.now;
    }) named.now.edges.now) }
{
    let mut rows = Vec::with_capacity(alloc, named.edges.len())?;
    for edge in named.edges {
        let (id, a, b, kind, path) = *edge;
        rows.push(EdgeRow {
            id,
            a,
            b,
            kind,
            crossings: listed(alloc, path)?,
        })?;
    }
    Ok(Listed::from_vec(rows))
}

fn crossings(alloc: Global, named: &Named) -> Result<Listed<CrossRow>, AllocError>
    ensures { IfOk result (λ rows. rows ≡ map (λ c. record {
      id = c.0;
      crossed = c.1;
      newcomer = c.2;
      sign = c.3;
    }) named.now.crossings.now) }
{
    let mut rows = Vec::with_capacity(alloc, named.crossings.len())?;
    for crossing in named.crossings {
        let (id, crossed, newcomer, sign) = *crossing;
        rows.push(CrossRow {
            id,
            crossed,
            newcomer,
            sign,
        })?;
    }
    Ok(Listed::from_vec(rows))
}

/// The rows of a named picture. Memory is taken for the list of rotations, for each of them, for
/// the list of edges, for each path that crosses, and for the list of crossings, in this order.
pub fn rows_of(alloc: Global, named: &Named) -> Result<Rows, AllocError>
    ensures rotations { IfOk result
        (λ rows. rows.rotations ≡ map (λ around. around.now) named.now.rotations.now) }
    ensures edges { IfOk result (λ rows. rows.edges ≡ map (λ e. record {
      id = e.0;
      a = e.1;
      b = e.2;
      kind = e.3;
      crossings = e.4.now;
    }) named.now.edges.now) }
    ensures crossings { IfOk result (λ rows. rows.crossings ≡ map (λ c. record {
      id = c.0;
      crossed = c.1;
      newcomer = c.2;
      sign = c.3;
    }) named.now.crossings.now) }
    ensures next_edge { IfOk result (λ rows. rows.next_edge ≡ named.now.next_edge) }
    ensures next_crossing { IfOk result (λ rows. rows.next_crossing ≡ named.now.next_crossing) }
{
    Ok(Rows {
        rotations: rotations(alloc, named)?,
        edges: edges(alloc, named)?,
        crossings: crossings(alloc, named)?,
        next_edge: named.next_edge,
        next_crossing: named.next_crossing,
    })
}

/// The greatest limits of a picture.
pub fn greatest_limits() -> Limits
    ensures vertices { result.vertices ≡ 65536 }
    ensures edges { result.edges ≡ 65536 }
    ensures crossings { result.crossings ≡ 1048576 }
{
    Limits {
        vertices: 65_536,
        edges: 65_536,
        crossings: 1_048_576,
    }
}

/// The named picture within the greatest limits.
pub fn picture_of(alloc: Global, named: &Named) -> Result<Picture, LoadFault>
    ensures vertices { IfOk result (λ picture. picture.limits.vertices ≡ 65536) }
{
    let Ok(rows) = rows_of(alloc, named) else {
        return Err(LoadFault::Memory);
    };
    let picture = Picture::load(alloc, greatest_limits(), &rows);
    drop(rows);
    picture
}
