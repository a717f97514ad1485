//! Small graphs with known answers.

use crate::{Ends, PlanarPart, bridges, by_short_cycles, planar_part};
use std::alloc::{AllocError, Global};
use std::process::Abort;
use std::test::Fail;

/// The ends of edges.
fn ends_of(alloc: Global, pairs: &[(u32, u32)]) -> Result<Vec<Ends>, AllocError> {
    let mut edges = Vec::new(alloc);
    for (a, b) in pairs {
        edges.push(Ends { a: *a, b: *b })?;
    }
    Ok(edges)
}

/// The numbers of all edges.
fn all_of(alloc: Global, edges: &[Ends]) -> Result<Vec<u32>, AllocError> {
    let mut order = Vec::new(alloc);
    let mut next: u32 = 0;
    for _edge in edges {
        order.push(next)?;
        next = next.wrapping_add(1);
    }
    Ok(order)
}

/// Where an edge leads to from a vertex.
fn other_end(edges: &[Ends], edge: u32, vertex: u32) -> u32 {
    edges
        .get(edge as usize)
        .map_or(0, |ends| ends.other(vertex))
}

/// The edge behind another one in a rotation.
fn edge_behind(rotation: &[u32], edge: u32) -> u32 {
    let mut behind = rotation.first().copied().unwrap_or(0);
    for place in 1..rotation.len() {
        if rotation[place - 1] == edge {
            behind = rotation[place];
        }
    }
    behind
}

/// Whether a dart, of an edge at a vertex, is the least on its face: a face is counted there.
fn is_least_on_face(part: &PlanarPart, edges: &[Ends], edge: u32, vertex: u32) -> bool {
    let mut at = vertex;
    let mut over = edge;
    for _dart in 0..edges.len().saturating_mul(2) {
        at = other_end(edges, over, at);
        over = match part.rotations.get(at as usize) {
            Some(rotation) => edge_behind(rotation.as_slice(), over),
            None => 0,
        };
        if over == edge && at == vertex {
            return true;
        }
        if over < edge || over == edge && at < vertex {
            return false;
        }
    }
    false
}

/// How many faces have their least dart at a vertex.
fn count_faces_at(part: &PlanarPart, edges: &[Ends], vertex: u32, rotation: &[u32]) -> u32 {
    let mut faces: u32 = 0;
    for edge in rotation {
        if is_least_on_face(part, edges, *edge, vertex) {
            faces = faces.wrapping_add(1);
        }
    }
    faces
}

/// How many faces the planar part has.
fn count_faces(part: &PlanarPart, edges: &[Ends]) -> u32 {
    let mut faces: u32 = 0;
    let mut vertex: u32 = 0;
    for rotation in &part.rotations {
        let here = count_faces_at(part, edges, vertex, rotation.as_slice());
        faces = faces.wrapping_add(here);
        vertex = vertex.wrapping_add(1);
    }
    faces
}

/// Asserts how many edges of a connected graph are left out, and that the others are an embedding
/// of genus zero.
fn expect<R: Abort>(
    rt: &R,
    alloc: Global,
    vertices: u32,
    pairs: &[(u32, u32)],
    left_out: u32,
) -> Result<(), AllocError> {
    let edges = ends_of(alloc, pairs)?;
    let order = all_of(alloc, edges.as_slice())?;
    let part = planar_part(alloc, vertices as usize, edges.as_slice(), order.as_slice())?;
    assert!(rt; part.left_out.len() == left_out as usize);
    let faces = count_faces(&part, edges.as_slice()) as usize;
    let kept = edges.len().saturating_sub(part.left_out.len());
    assert!(rt; (vertices as usize).wrapping_add(faces) == kept.wrapping_add(2));
    Ok(())
}

const K4: &[(u32, u32)] = &[(0, 1), (0, 2), (0, 3), (1, 2), (1, 3), (2, 3)];

const K5: &[(u32, u32)] = &[
    (0, 1),
    (0, 2),
    (0, 3),
    (0, 4),
    (1, 2),
    (1, 3),
    (1, 4),
    (2, 3),
    (2, 4),
    (3, 4),
];

const K33: &[(u32, u32)] = &[
    (0, 3),
    (0, 4),
    (0, 5),
    (1, 3),
    (1, 4),
    (1, 5),
    (2, 3),
    (2, 4),
    (2, 5),
];

const TREE: &[(u32, u32)] = &[(0, 1), (0, 2), (1, 3), (1, 4), (4, 5)];

const PARALLEL: &[(u32, u32)] = &[(0, 1), (1, 0), (0, 1)];

#[test]
fn planar_graphs(rt: HostRuntime) -> Result<(), Fail> {
    expect(&rt, rt.alloc(), 4, K4, 0)?;
    expect(&rt, rt.alloc(), 6, TREE, 0)?;
    expect(&rt, rt.alloc(), 2, PARALLEL, 0)?;
    Ok(())
}

#[test]
fn graphs_that_are_not_planar(rt: HostRuntime) -> Result<(), Fail> {
    expect(&rt, rt.alloc(), 5, K5, 1)?;
    expect(&rt, rt.alloc(), 6, K33, 1)?;
    Ok(())
}

/// The edges of a 4 x 4 grid.
fn grid(alloc: Global) -> Result<Vec<(u32, u32)>, AllocError> {
    let mut pairs = Vec::new(alloc);
    for vertex in 0..16 {
        if vertex % 4 != 3 {
            pairs.push((vertex, vertex + 1))?;
        }
        if vertex < 12 {
            pairs.push((vertex, vertex + 4))?;
        }
    }
    Ok(pairs)
}

#[test]
fn a_grid(rt: HostRuntime) -> Result<(), Fail> {
    let pairs = grid(rt.alloc())?;
    expect(&rt, rt.alloc(), 16, pairs.as_slice(), 0)?;
    Ok(())
}

#[test]
fn bridges_of_a_path_and_a_cycle(rt: HostRuntime) -> Result<(), Fail> {
    let path = ends_of(rt.alloc(), &[(0, 1), (2, 1), (2, 3)])?;
    let found = bridges(rt.alloc(), 4, path.as_slice())?;
    assert!(rt; found.as_slice() == [true, true, true].as_slice());
    let cycle = ends_of(rt.alloc(), &[(0, 1), (2, 1), (2, 0), (2, 3)])?;
    let found = bridges(rt.alloc(), 4, cycle.as_slice())?;
    assert!(rt; found.as_slice() == [false, false, false, true].as_slice());
    Ok(())
}

#[test]
fn short_cycles_come_first(rt: HostRuntime) -> Result<(), Fail> {
    // A path, a cycle of four edges and two parallel edges.
    let pairs = [(0, 1), (1, 2), (2, 3), (3, 4), (4, 1), (3, 4)];
    let edges = ends_of(rt.alloc(), pairs.as_slice())?;
    let order = by_short_cycles(rt.alloc(), 5, edges.as_slice(), &[0, 1, 2, 3, 4, 5])?;
    assert!(rt; order.as_slice() == [3, 5, 1, 2, 4, 0].as_slice());
    Ok(())
}
