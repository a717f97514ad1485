//! Insertion of an edge into rows with their embedding. What can fail comes first, so that a
//! failure leaves them as they were.

ghost use Rattle.std.specs.Prelude.{◌≡◌, ◌+◌, ◌*◌, ◌≤◌, ◌<◌, ◌^◌, IfOk};
ghost use Rattle.std.specs.Prelude.{OnErr, OnOk, length, map, true};
ghost use Rattle.std.specs.List.{All};
ghost use Rattle.topo_core.specs.Changes.{shown};
ghost use Rattle.topo_core.specs.Rotations.{twin};
ghost use Rattle.topo_map.specs.Rotation.{is_live};
ghost use Rattle.topo_embedded.specs.Bounds.{BoundsState, GoesOn};
ghost use Rattle.topo_embedded.specs.Crossing.{AreChordsAdded, AreSplit, IsMarked, IsReady};
ghost use Rattle.topo_embedded.specs.Crossing.{IsReadyFor, IsRouted, subdivisions_of};
ghost use Rattle.topo_embedded.specs.Crossing.{subdivided_half, crossed_darts};
ghost use Rattle.topo_embedded.specs.Halves.{RowsWithPaths};
ghost use Rattle.topo_embedded.specs.Inserting.{put_halves};
ghost use Rattle.topo_embedded.specs.Padding.{ArePadded, ArePlaced};
ghost use Rattle.topo_embedded.specs.Parts.{Agree, AreForSearches, with_paths};
ghost use Rattle.topo_embedded.specs.Paths.{AreForEdges, KeepsIds};
ghost use Rattle.topo_table.specs.Places.{ids_in, ids_of, values_in};

use crate::bounds::{Bounds, chord};
use crate::padding::{Crossed, pad, split_path, unpad};
use crate::parts::Parts;
use crate::path::Path;
use std::alloc::{AllocError, Global};
use topo_core::routes::Route;
use topo_kept_rows::insertion::apply_rows;
use topo_map::{Embedding, Half};
use topo_table::NumberedTable;

/// Splits the segments of the crossed darts, the last one first.
fn split_crossed(paths: &mut NumberedTable<Path>, segments: &mut Embedding, crossed: &mut [Crossed])
    ghost p: { RowsWithPaths }
    requires ready { IsReady p segments.old crossed.old (values_in paths.old) }
    requires room { length crossed.old ≤ segments.old.room }
    requires ids { ids_in paths.old ≡ map (λ row. row.id) p.rows.edges }
    ensures darts { crossed_darts crossed.new ≡ crossed_darts crossed.old }
    ensures marked { All (IsMarked p) crossed.new }
    ensures split { AreSplit p segments.old segments.new crossed.new }
    ensures paths { values_in paths.new
        ≡ map (put_halves (subdivisions_of p.rows crossed.new)) p.paths }
    ensures same { KeepsIds paths.old paths.new }
    ensures room { segments.new.room + length crossed.old ≡ segments.old.room }
    ensures bounds { (b : BoundsState) → GoesOn segments.old segments.new b b }
{
    segments.laws();
    let mut n = crossed.len();
    while n > 0 {
        n -= 1;
        let cross = crossed[n];
        segments.laws();
        let beyond = segments.split(cross.near);
        split_path(paths, &cross, beyond);
        crossed[n] = Crossed { beyond, ..cross };
    }
}

/// The half that starts where a half started before the crossed segments were split.
fn subdivided(crossed: &[Crossed], half: Half) -> Half
    ensures { result ≡ subdivided_half crossed.now half }
{
    for i in 0..crossed.len() {
        if half == crossed[i].near.twin() {
            return crossed[i].beyond.twin();
        }
    }
    half
}

/// A new edge: its number, and the halves that name the corners of its two ends.
#[derive(Clone, Copy)]
struct NewEdge {
    edge: u32,
    start: Half,
    end: Half,
}

/// Adds the segments of the new edge between the crossings and its ends, the last one first, and
/// writes down their halves.
fn add_chords(
    segments: &mut Embedding,
    bounds: &mut Bounds,
    crossed: &[Crossed],
    new: NewEdge,
    line: &mut Path,
)
    requires start { is_live segments.old new.start ≡ true }
    requires end { is_live segments.old new.end ≡ true }
    requires alive { All (λ c. (is_live segments.old (twin c.near) ≡ true)
        × (is_live segments.old c.beyond ≡ true)) crossed.now }
    requires room { length crossed.now + 1 ≤ segments.old.room }
    requires line { length line.old ≡ length crossed.now + 1 }
    ensures added { AreChordsAdded segments.old segments.new crossed.now new.start new.end
        new.edge line.new }
    ensures bounds { GoesOn segments.old segments.new bounds.old bounds.new }
{
    segments.laws();
    let NewEdge { edge, start, end } = new;
    let mut to = end;
    let mut n = crossed.len();
    while n > 0 {
        n -= 1;
        let cross = crossed[n];
        line.set(n + 1, chord(segments, bounds, cross.near.twin(), to, edge));
        to = cross.beyond;
    }
    line.set(0, chord(segments, bounds, start, to, edge));
}

/// The memory that an insertion takes: room for segments, and for halves in the paths of the
/// crossed edges, and a path for the new edge.
fn make_room(
    alloc: Global,
    paths: &mut NumberedTable<Path>,
    segments: &mut Embedding,
    crossed: &[Crossed],
) -> Result<Path, AllocError>
    requires few { length crossed.now < 2 ^ 32 }
    requires placed { ArePlaced (ids_in paths.old) crossed.now }
    ensures slots { segments.new.slots ≡ segments.old.slots }
    ensures labels { segments.new.labels ≡ segments.old.labels }
    ensures room { OnOk result (2 * length crossed.now + 1 ≤ segments.new.room) }
    ensures line { IfOk result (λ line. length line ≡ length crossed.now + 1) }
    ensures padded { OnOk result (ArePadded (ids_in paths.old) (λ hs. hs) (values_in paths.old)
        crossed.now (values_in paths.new)) }
    ensures path_room { OnOk result (0 < paths.new.room) }
    ensures ids { ids_in paths.new ≡ ids_in paths.old }
    ensures places { ids_of paths.new.slots ≡ ids_of paths.old.slots }
    ensures err { OnErr result (values_in paths.new ≡ values_in paths.old) }
{
    segments.reserve(2 * crossed.len() + 1)?;
    paths.reserve(1)?;
    let mut others = Vec::new(alloc);
    others.resize(crossed.len(), Half::numbered(0))?;
    let line = Path::new(alloc, Half::numbered(0), others)?;
    pad(alloc, paths, crossed)?;
    Ok(line)
}

/// Puts the new edge into the embedding.
fn add_route(
    paths: &mut NumberedTable<Path>,
    segments: &mut Embedding,
    bounds: &mut Bounds,
    crossed: &mut [Crossed],
    new: NewEdge,
    line: &mut Path,
)
    ghost p: { RowsWithPaths }
    requires ready { IsReady p segments.old crossed.old (values_in paths.old) }
    requires room { 2 * length crossed.old + 1 ≤ segments.old.room }
    requires start { is_live segments.old new.start ≡ true }
    requires end { is_live segments.old new.end ≡ true }
    requires line { length line.old ≡ length crossed.old + 1 }
    requires ids { ids_in paths.old ≡ map (λ row. row.id) p.rows.edges }
    ensures darts { crossed_darts crossed.new ≡ crossed_darts crossed.old }
    ensures marked { All (IsMarked p) crossed.new }
    ensures paths { values_in paths.new
        ≡ map (put_halves (subdivisions_of p.rows crossed.new)) p.paths }
    ensures same { KeepsIds paths.old paths.new }
    ensures routed { IsRouted p segments.old segments.new crossed.new new.start new.end
        new.edge line.new }
    ensures bounds { GoesOn segments.old segments.new bounds.old bounds.new }
{
    segments.laws();
    split_crossed(paths, segments, crossed);
    let split = NewEdge {
        edge: new.edge,
        start: subdivided(crossed, new.start),
        end: subdivided(crossed, new.end),
    };
    add_chords(segments, bounds, crossed, split, line);
}

impl Parts {
    /// Puts a new edge with these ends and of this kind along a route, between the corners that the
    /// halves name, into the rows and the embedding, or leaves all as it was.
    pub(crate) fn insert(
        &mut self,
        alloc: Global,
        crossed: &mut [Crossed],
        corners: (Half, Half),
        edge: (u32, u32, u32),
        route: &Route,
    ) -> Result<(), AllocError>
        requires ready { IsReadyFor (with_paths self.old)
            self.old.segments crossed.old edge.0 edge.1 edge.2 route.now corners.0 corners.1 }
        requires kept { AreForEdges self.old.rows self.old.paths }
        requires searches { AreForSearches self.old }
        requires edges { self.old.rows.next_edge + 1 < 2 ^ 32 }
        requires crossing_ids { self.old.rows.next_crossing + length route.now.crossed < 2 ^ 32 }
        ensures ok { OnOk result
            (self.new.rows ≡ shown self.old.rows edge.0 edge.1 edge.2 route.now) }
        ensures err { OnErr result (self.new.rows ≡ self.old.rows) }
        ensures err_paths { OnErr result (values_in self.new.paths ≡ values_in self.old.paths) }
        ensures shows { Agree self.new }
        ensures kept { AreForEdges self.new.rows self.new.paths }
        ensures searches { AreForSearches self.new }
    {
        self.add_edge(alloc, crossed, corners, edge, route)
    }

    // As `insert`, with a name for the proof of what is there before.
    fn add_edge(
        &mut self,
        alloc: Global,
        crossed: &mut [Crossed],
        corners: (Half, Half),
        edge: (u32, u32, u32),
        route: &Route,
    ) -> Result<(), AllocError>
        ghost p: { RowsWithPaths }
        requires was { p ≡ with_paths self.old }
        requires ready { IsReadyFor p self.old.segments crossed.old edge.0 edge.1 edge.2 route.now
            corners.0 corners.1 }
        requires kept { AreForEdges self.old.rows self.old.paths }
        requires searches { AreForSearches self.old }
        requires edges { self.old.rows.next_edge + 1 < 2 ^ 32 }
        requires crossing_ids { self.old.rows.next_crossing + length route.now.crossed < 2 ^ 32 }
        ensures ok { OnOk result
            (self.new.rows ≡ shown self.old.rows edge.0 edge.1 edge.2 route.now) }
        ensures err { OnErr result (self.new.rows ≡ self.old.rows) }
        ensures err_paths { OnErr result (values_in self.new.paths ≡ values_in self.old.paths) }
        ensures shows { Agree self.new }
        ensures kept { AreForEdges self.new.rows self.new.paths }
        ensures searches { AreForSearches self.new }
    {
        let (a, b, kind) = edge;
        let number = self.rows.next_edge();
        let new = NewEdge {
            edge: number,
            start: corners.0,
            end: corners.1,
        };
        let mut line = make_room(alloc, &mut self.paths, &mut self.segments, crossed)?;
        if apply_rows(alloc, &mut self.rows, a, b, kind, route).is_err() {
            unpad(&mut self.paths, crossed);
            return Err(AllocError);
        }
        self.segments.laws();
        let (paths, segments) = (&mut self.paths, &mut self.segments);
        add_route(paths, segments, &mut self.bounds, crossed, new, &mut line);
        self.paths.push(number, line);
        self.kinds.note(number, kind);
        Ok(())
    }
}
