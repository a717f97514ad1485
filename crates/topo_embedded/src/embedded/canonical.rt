//! What is asked of rows with their embedding by the canonical numbers of darts.

ghost use Rattle.std.specs.Prelude.{◌≡◌, ◌+◌, ◌++◌, ◌<◌, ◌≤◌, ℕ, true, IfOk};
ghost use Rattle.std.specs.Prelude.{None, OnOk, Some, flat_map, if◌then◌else◌};
ghost use Rattle.std.specs.Prelude.{length, map, slice_index, slice_index_or};
ghost use Rattle.topo_core.specs.declared.darts.Dart.{Dart};
ghost use Rattle.topo_core.specs.Picture.{darts, points_of, rotation, start, start_place};
ghost use Rattle.topo_core.specs.Systems.{has_dart};
ghost use Rattle.topo_embedded.specs.Canonical.{halves_of};
ghost use Rattle.topo_embedded.specs.Halves.{IsHalf, half_in};
ghost use Rattle.topo_map.specs.Rotation.{face_of, is_live};
ghost use Rattle.topo_route.specs.Names.{HasFaces, canonical};
ghost use Rattle.topo_table.specs.Places.{values_in};

use super::Embedded;
use crate::parts::Parts;
use crate::path::Path;
use crate::walking::led;
use std::alloc::{AllocError, Global};
use topo_core::darts::{Dart, Point, Way};
use topo_core::ids::{CrossId, VertexId};
use topo_core::rows::{EdgeRow, Rows};
use topo_map::{Embedding, Half};
use topo_table::NumberedTable;

/// Writes the two halves of each segment of a path behind those of a list.
fn write_path(halves: &mut Vec<u32>, path: &Path) -> Result<(), AllocError>
    ensures { OnOk result (halves.new.items ≡ halves.old.items ++ halves_of path.now) }
{
    for place in 0..path.len() {
        let half = path.at(place);
        halves.push(half.number())?;
        halves.push(half.twin().number())?;
    }
    Ok(())
}

/// Writes the two halves of each segment of each path in turn.
fn write_paths(halves: &mut Vec<u32>, paths: &NumberedTable<Path>) -> Result<(), AllocError>
    ensures { OnOk result
        (halves.new.items ≡ halves.old.items ++ flat_map halves_of (values_in paths.now)) }
{
    for place in 0..paths.places() {
        match paths.at(place) {
            Some((_, path)) => write_path(halves, path)?,
            None => {}
        }
    }
    Ok(())
}

/// Writes for each half of a list the label of the face on its left.
fn write_faces(faces: &mut [u32], segments: &Embedding, halves: &[u32])
    requires live { (i : ℕ) → i < length halves.now
        → is_live segments.now (slice_index halves.now i) ≡ true }
    requires as_many { length faces.old ≡ length halves.now }
    ensures { (i : ℕ) → i < length halves.now
        → slice_index faces.new i ≡ face_of segments.now (slice_index halves.now i) }
{
    for place in 0..halves.len() {
        faces[place] = segments.face(Half::numbered(halves[place]));
    }
}

/// The point at a place along an edge: its end `a`, the crossings of its path, its end `b`.
fn point_on(edge: &EdgeRow, place: usize) -> Point
    requires { place ≤ length edge.now.crossings + 1 }
    ensures { result ≡ slice_index_or (points_of edge.now) place (Point.Vertex 0) }
{
    let path = edge.crossings.as_slice();
    if place == 0 {
        Point::Vertex(VertexId::new(edge.a))
    } else if place <= path.len() {
        Point::Crossing(CrossId::new(path[place - 1]))
    } else {
        Point::Vertex(VertexId::new(edge.b))
    }
}

/// Which point of its edge a dart starts at.
fn place_of_start(dart: &Dart) -> usize
    ensures { result ≡ start_place dart.now.seg dart.now.way }
{
    match dart.way {
        Way::Forward => dart.seg as usize,
        Way::Back => dart.seg as usize + 1,
    }
}

impl Embedded {
    /// A copy of the rows.
    pub fn copy_of_rows(&self, alloc: Global) -> Result<Rows, AllocError>
        ensures { IfOk result (λ rows. rows ≡ self.now.rows) }
    {
        self.parts.rows.show(alloc)
    }

    /// The rows alone. The halves and the segments go before they are made, so that both need not
    /// be in memory at one time.
    pub fn into_rows(self, alloc: Global) -> Result<Rows, AllocError>
        ensures { IfOk result (λ rows. rows ≡ self.rows) }
    {
        let Embedded { parts } = self;
        let Parts {
            rows,
            paths,
            segments,
            bounds,
            kinds,
        } = parts;
        drop(paths);
        drop(segments);
        drop(bounds);
        drop(kinds);
        rows.into_rows(alloc)
    }

    /// How many vertices there are.
    pub fn vertex_count(&self) -> usize
        ensures { result ≡ length self.now.rows.rotations }
    {
        self.parts.rows.rotations().len()
    }

    /// How many corners a vertex has, and 0 where it is no vertex.
    pub fn degree(&self, v: u32) -> usize
        ensures { result ≡ length (rotation self.now.rows v) }
    {
        self.parts.rows.degree(v)
    }

    /// Writes the half of each dart, in canonical order, over what the list held.
    pub fn fill_halves(&self, halves: &mut Vec<u32>) -> Result<(), AllocError>
        ensures { OnOk result (halves.new.items ≡ map (half_in self.now) (darts self.now.rows)) }
    {
        halves.clear();
        halves.reserve(self.parts.segments.limit())?;
        write_paths(halves, &self.parts.paths)?;
        Ok(())
    }

    /// Writes for each dart, in canonical order, the label of the face on its left, by the halves
    /// of the darts. Answers a number that all labels are below.
    pub fn fill_faces(&self, faces: &mut [u32], halves: &[u32]) -> u32
        requires halves { halves.now ≡ map (half_in self.now) (darts self.now.rows) }
        requires as_many { length faces.old ≡ length halves.now }
        ensures { HasFaces (canonical self.now.rows) (slice_index faces.new) result }
    {
        let segments = &self.parts.segments;
        write_faces(faces, segments, halves);
        segments.labels()
    }

    /// The half of a dart; none where it is no dart of the rows.
    pub fn find_half(&self, dart: Dart) -> Option<Half>
        ensures { result ≡ (if has_dart (darts self.now.rows) dart then Some
            (half_in self.now dart) else None) }
    {
        let path = self.parts.path(dart.edge.number())?;
        let seg = dart.seg as usize;
        if seg < path.len() {
            Some(led(path.at(seg), dart.way))
        } else {
            None
        }
    }

    /// Where the dart of a half starts. It looks along the path of the edge.
    pub fn start_of(&self, half: Half) -> Point
        requires { IsHalf self.now half }
        ensures { (d : Dart) → has_dart (darts self.now.rows) d ≡ true → half_in self.now d ≡ half
            → result ≡ start self.now.rows d }
    {
        let dart = self.dart_of(half);
        match self.parts.edge(dart.edge.number()) {
            Some(edge) => point_on(edge, place_of_start(&dart)),
            None => unreachable!(),
        }
    }
}
