//! Rows with their embedding.

ghost use Rattle.std.specs.Prelude.{◌≡◌, ◌*◌, ◌<◌, ◌≤◌, ◌^◌, true, ℕ, IfOk, Some};
ghost use Rattle.std.specs.Prelude.{is_some, length, option_copied, option_map, sum_by};
ghost use Rattle.topo_core.specs.declared.darts.Dart.{Dart};
ghost use Rattle.topo_core.specs.Lawful.{IsWellFormed};
ghost use Rattle.topo_core.specs.Picture.{corner, darts, edge_at, edge_row};
ghost use Rattle.topo_core.specs.Picture.{end_dart, segment_count, system};
ghost use Rattle.topo_core.specs.Routes.{AreFactsOf};
ghost use Rattle.topo_core.specs.Systems.{face_step, has_dart};
ghost use Rattle.topo_embedded.specs.Bounds.{at_face, floor_of};
ghost use Rattle.topo_embedded.specs.Halves.{IsHalf, ShowsRows, half_in, path_of};
ghost use Rattle.topo_map.specs.Rotation.{face_of};
ghost use Rattle.topo_embedded.specs.Walking.{named_in};
ghost use Rattle.topo_rows.specs.Flats.{AreTurnsOf};
ghost use Rattle.topo_route.specs.Names.{IsNamed};
ghost use Rattle.topo_route.specs.Potentials.{AreConsistent};
ghost use Rattle.topo_core.specs.declared.rows.TheConstants.{KINDS};

mod canonical;

use crate::bounds::{Bounds, are_consistent};
use crate::cuts::first_cut;
use crate::kinds::Kinds;
use crate::making::embedding_of;
use crate::padding::Crossed;
use crate::parts::Parts;
use crate::path::Path;
use crate::walking::{end_of, led, place_on_path};
use std::alloc::{AllocError, Global};
use std::marker::Model;
use topo_core::darts::{Dart, Way};
use topo_core::ids::EdgeId;
use topo_core::listed::Listed;
use topo_core::routes::Route;
use topo_core::rows::{EdgeRow, Facts, Rows};
use topo_kept_rows::KeptRows;
use topo_map::{Embedding, Half};
use topo_route::guided::potentials::Potentials;
use topo_rows::Turns;

/// The facts of an edge of a known kind.
fn facts_of(edge: &EdgeRow) -> Facts
    requires { edge.now.kind < KINDS }
    ensures { AreFactsOf edge.now result }
{
    let (id, a, b, kind) = (edge.id, edge.a, edge.b, edge.kind);
    Facts {
        id,
        a,
        b,
        kind: kind as u8,
    }
}

/// Well-formed rows with their embedding. Contracts see the rows, and for each edge, by its place
/// among the edges, the half that leads along it on each of its segments.
pub struct Embedded {
    parts: Parts,
}

// Written out, so that it is proved once: a derived one is proved anew in each function that lets
// such a value go.
impl Drop for Embedded {
    fn drop(self) {
        let Embedded { parts } = self;
        drop(parts);
    }
}

impl Model for Embedded {
    ghost use Rattle.topo_core.specs.Lawful.{IsWellFormed};
    ghost use Rattle.topo_embedded.specs.Halves.{RowsWithPaths};
    ghost use Rattle.topo_embedded.specs.Parts.{Agree, AreForSearches, with_paths};
    ghost use Rattle.topo_embedded.specs.Paths.{AreForEdges};

    ghost Value = { RowsWithPaths };

    ghost view = { λ e. with_paths e.parts };

    ghost invariant = { λ e. IsWellFormed e.parts.rows × Agree e.parts
        × AreForEdges e.parts.rows e.parts.paths × AreForSearches e.parts };
}

impl Embedded {
    /// The embedding of well-formed rows, few enough for numbers of 32 bits, whose darts turn as
    /// said.
    pub fn of(alloc: Global, rows: &Rows, turns: Turns) -> Result<Self, AllocError>
        requires well_formed { IsWellFormed rows.now }
        requires few { 2 * sum_by segment_count rows.now.edges < 2 ^ 32 }
        requires turns { AreTurnsOf rows.now turns.begins.items turns.images.items }
        ensures { IfOk result (λ e. e.rows ≡ rows.now) }
    {
        let (segments, paths) = embedding_of(alloc, rows, &turns)?;
        let rows = KeptRows::of(alloc, rows)?;
        let kinds = Kinds::of(alloc, &rows)?;
        let parts = Parts {
            rows,
            paths,
            segments,
            bounds: Bounds::none(alloc),
            kinds,
        };
        Ok(Embedded { parts })
    }

    /// An equal one, in memory of its own. Nothing guides its searches.
    pub fn copy(&self, alloc: Global) -> Result<Self, AllocError>
        ensures { IfOk result (λ e. e ≡ self.now) }
    {
        let rows = self.parts.rows.copy(alloc)?;
        let paths = self.parts.paths.try_copy(alloc)?;
        let segments = self.parts.segments.copy()?;
        let kinds = self.parts.kinds.try_copy(alloc)?;
        let parts = Parts {
            rows,
            paths,
            segments,
            bounds: Bounds::none(alloc),
            kinds,
        };
        Ok(Embedded { parts })
    }

    /// Room for so many more vertices, and for so many more edges that cross nothing, so that what
    /// is kept of them need not move as it grows.
    pub fn reserve(&mut self, vertices: usize, edges: usize) -> Result<(), AllocError>
        ensures { self.new ≡ self.old }
    {
        self.parts.rows.reserve(vertices, edges)?;
        self.parts.paths.reserve(edges)?;
        self.parts.segments.reserve(edges)?;
        self.parts.kinds.reserve(edges);
        Ok(())
    }

    /// The rows of the picture.
    pub fn rows(&self) -> &KeptRows
        ensures { result.now ≡ self.now.rows }
    {
        &self.parts.rows
    }

    /// The segments, which show the rows, and the potentials of their faces with the floors of the
    /// kinds.
    pub(crate) fn search_parts(&self) -> (&Embedding, &Bounds)
        ensures shows { ShowsRows self.now result.0.now }
        ensures consistent { (size : ℕ)
            → AreConsistent (named_in self.now size) (face_of result.0.now)
            (at_face result.1.now) (floor_of result.1.now) }
    {
        (&self.parts.segments, &self.parts.bounds)
    }

    /// Takes the potentials out, with their memory.
    pub fn drop_potentials(&mut self, alloc: Global)
        ensures { self.new ≡ self.old }
    {
        self.parts.bounds = Bounds::none(alloc);
    }

    /// Gives the faces potentials, by their labels, which guide searches from then on. They go when
    /// an edge is taken out, when an insertion has all faces labelled anew, and when it finds no
    /// place for those of a new face. They are for prices that are no lower than the floors of the
    /// kinds of edges. Where beside a segment they are farther apart than that, nothing guides
    /// searches. The picture stays as it was.
    pub fn set_potentials(&mut self, alloc: Global, faces: Vec<Potentials>, floors: Vec<u16>)
        ensures { self.new ≡ self.old }
    {
        let bounds = Bounds::new(faces, floors);
        let Parts {
            rows,
            segments,
            kinds,
            ..
        } = &self.parts;
        segments.laws();
        if are_consistent(rows, kinds, segments, &bounds) {
            self.parts.bounds = bounds;
        } else {
            self.drop_potentials(alloc);
        }
    }

    /// Whether anything guides a search.
    pub fn has_potentials(&self) -> bool {
        self.parts.bounds.are_there()
    }

    /// The edge with an id.
    pub fn find_edge(&self, id: u32) -> Option<&EdgeRow>
        ensures { option_copied result ≡ edge_row self.now.rows id }
    {
        self.parts.edge(id)
    }

    // An edge that is there.
    fn known_edge(&self, e: u32) -> &EdgeRow
        requires { is_some (edge_row self.now.rows e) ≡ true }
        ensures { edge_row self.now.rows e ≡ Some result.now }
    {
        match self.parts.edge(e) {
            Some(edge) => edge,
            None => unreachable!(),
        }
    }

    // The path of an edge that is there.
    fn path(&self, e: u32) -> &Path
        requires { is_some (edge_row self.now.rows e) ≡ true }
        ensures { result.now ≡ path_of self.now e }
    {
        match self.parts.path(e) {
            Some(path) => path,
            None => unreachable!(),
        }
    }

    /// The half of a dart.
    pub fn half_of(&self, dart: Dart) -> Half
        requires { has_dart (darts self.now.rows) dart ≡ true }
        ensures { result ≡ half_in self.now dart }
    {
        match self.parts.path(dart.edge.number()) {
            Some(path) => led(path.at(dart.seg as usize), dart.way),
            None => unreachable!(),
        }
    }

    /// The half of the next dart along the face on the left.
    pub fn face_next(&self, half: Half) -> Half
        requires { IsHalf self.now half }
        ensures { (d : Dart) → has_dart (darts self.now.rows) d ≡ true → half_in self.now d ≡ half
            → result ≡ half_in self.now (face_step (system self.now.rows) d) }
    {
        self.parts.segments.face_next(half)
    }

    /// A number that those of all halves are below.
    pub fn size(&self) -> u32
        ensures named { IsNamed (named_in self.now result) }
        ensures many { length (darts self.now.rows) ≤ result }
    {
        self.parts.segments.limit() as u32
    }

    /// The id of the edge of a half.
    pub fn edge(&self, half: Half) -> u32
        requires { IsHalf self.now half }
        ensures { (d : Dart) → has_dart (darts self.now.rows) d ≡ true → half_in self.now d ≡ half
            → result ≡ d.edge }
    {
        self.parts.segments.edge(half)
    }

    /// The kind of the edge of a half.
    pub fn kind(&self, half: Half) -> u8
        requires { IsHalf self.now half }
        ensures { (d : Dart) → has_dart (darts self.now.rows) d ≡ true → half_in self.now d ≡ half
            → result ≡ (edge_at self.now.rows d.edge).kind }
    {
        let edge = self.parts.segments.edge(half);
        self.parts.kinds.kind(&self.parts.rows, edge)
    }

    /// The facts of the edge of a half.
    pub fn facts(&self, half: Half) -> Facts
        requires { IsHalf self.now half }
        ensures { (d : Dart) → has_dart (darts self.now.rows) d ≡ true → half_in self.now d ≡ half
            → AreFactsOf (edge_at self.now.rows d.edge) result }
    {
        facts_of(self.known_edge(self.parts.segments.edge(half)))
    }

    /// The dart of a half. It looks along the path of the edge.
    pub fn dart_of(&self, half: Half) -> Dart
        requires { IsHalf self.now half }
        ensures { (d : Dart) → has_dart (darts self.now.rows) d ≡ true
            → half_in self.now d ≡ half → result ≡ d }
    {
        let label = self.parts.segments.edge(half);
        let (seg, way) = place_on_path(self.path(label), half);
        let edge = EdgeId::new(label);
        Dart { edge, seg, way }
    }

    // The half of edge `e` that starts at its end `v`.
    fn end_half(&self, v: u32, e: u32) -> Half
        requires { is_some (edge_row self.now.rows e) ≡ true }
        ensures { result ≡ half_in self.now (end_dart self.now.rows v e) }
    {
        let Some(edge) = self.parts.edge(e) else {
            unreachable!()
        };
        let (seg, way) = end_of(edge, v);
        led(self.path(e).at(seg), way)
    }

    /// The half that names the corner at a position of a vertex; none where there is no such
    /// corner.
    pub fn corner(&self, v: u32, position: u32) -> Option<Half>
        ensures { result ≡ option_map (half_in self.now) (corner self.now.rows v position) }
    {
        if (position as usize) < self.parts.rows.degree(v) {
            let around = &self.parts.rows.rotations()[v as usize];
            Some(self.end_half(v, around.at(position as usize)))
        } else {
            None
        }
    }
}

impl Embedded {
    ghost use Rattle.topo_kept_rows.specs.Cuts.{IsFirstCut};

    /// The first segment of an edge that has one face on both sides when those before it are out,
    /// if one has. Lawful rows fall apart without these segments, and stay connected where there is
    /// none. It takes no memory.
    pub fn first_cut(&self, edge: u32) -> Option<u32>
        requires { is_some (edge_row self.now.rows edge) ≡ true }
        ensures { IsFirstCut self.now.rows edge result }
    {
        first_cut(&self.parts.segments, edge, self.path(edge))
    }
}

impl Embedded {
    ghost use Rattle.std.specs.Prelude.{◌+◌, OnErr, OnOk};
    ghost use Rattle.topo_core.specs.Changes.{grown};
    ghost use Rattle.topo_core.specs.Picture.{rotation};

    /// Puts a new vertex on a new edge of the given kind into the corner at a position of `u`. An
    /// error is out of memory, and then all is as before.
    pub fn grow(
        &mut self,
        alloc: Global,
        u: u32,
        position: u32,
        kind: u32,
    ) -> Result<(), AllocError>
        requires vertex { u < length self.old.rows.rotations }
        requires position { position < length (rotation self.old.rows u) }
        requires known { kind < KINDS }
        requires vertices { length self.old.rows.rotations < 2 ^ 32 }
        requires edges { self.old.rows.next_edge + 1 < 2 ^ 32 }
        ensures ok { OnOk result (self.new.rows ≡ grown self.old.rows u position kind) }
        ensures err { OnErr result (self.new ≡ self.old) }
    {
        let Some(named) = self.corner(u, position) else {
            unreachable!()
        };
        self.parts.grow(alloc, named, u, position, kind)
    }
}

impl Embedded {
    ghost use Rattle.std.specs.List.{All};
    ghost use Rattle.std.specs.Prelude.{◌+◌, OnErr, OnOk};
    ghost use Rattle.topo_core.specs.Changes.{shown};
    ghost use Rattle.topo_core.specs.Insertions.{IsInsertable};
    ghost use Rattle.topo_core.specs.Routes.{IsSimpleRoute};
    ghost use Rattle.topo_embedded.specs.Crossing.{IsMarked, crossed_darts};

    // The darts that a route crosses, with their halves.
    fn crossed_of(&self, alloc: Global, across: &[Dart]) -> Result<Vec<Crossed>, AllocError>
        requires { All (λ d. has_dart (darts self.now.rows) d ≡ true) across.now }
        ensures marked { IfOk result (λ crossed. All (IsMarked self.now) crossed.items) }
        ensures darts { IfOk result (λ crossed. crossed_darts crossed.items ≡ across.now) }
    {
        let mut crossed = Vec::with_capacity(alloc, across.len())?;
        for i in 0..across.len() {
            crossed.push(self.marked(&across[i]))?;
        }
        Ok(crossed)
    }

    // A dart with its half, and none beyond it yet.
    fn marked(&self, dart: &Dart) -> Crossed
        requires { has_dart (darts self.now.rows) dart.now ≡ true }
        ensures marked { IsMarked self.now result }
        ensures dart { result.dart ≡ dart.now }
    {
        Crossed::new(*dart, self.half_of(*dart))
    }

    /// Adds a new edge of the given kind along a route that meets no face twice, from the first of
    /// the ends to the second. An error is out of memory, and then all is as before.
    pub fn insert(
        &mut self,
        alloc: Global,
        ends: (u32, u32),
        kind: u32,
        route: &Route,
    ) -> Result<(), AllocError>
        requires insertable { IsInsertable self.old.rows ends.0 ends.1 kind route.now }
        requires simple { IsSimpleRoute self.old.rows ends.0 ends.1 route.now }
        requires edges { self.old.rows.next_edge + 1 < 2 ^ 32 }
        requires crossing_ids { self.old.rows.next_crossing + length route.now.crossed < 2 ^ 32 }
        ensures ok { OnOk result
            (self.new.rows ≡ shown self.old.rows ends.0 ends.1 kind route.now) }
        ensures err { OnErr result (self.new ≡ self.old) }
    {
        let Some(start) = self.corner(ends.0, route.start) else {
            unreachable!()
        };
        let Some(end) = self.corner(ends.1, route.end) else {
            unreachable!()
        };
        let mut crossed = self.crossed_of(alloc, route.crossed.as_slice())?;
        let edge = (ends.0, ends.1, kind);
        self.parts
            .insert(alloc, &mut crossed, (start, end), edge, route)
    }
}

impl Embedded {
    ghost use Rattle.topo_core.specs.Changes.{without};
    ghost use Rattle.topo_core.specs.Lawful.{Lawful};

    /// Takes an edge out, with its crossings. It takes no memory.
    pub fn delete(&mut self, edge: u32)
        requires lawful { Lawful self.old.rows }
        requires there { is_some (edge_row self.old.rows edge) ≡ true }
        ensures { self.new.rows ≡ without self.old.rows edge }
    {
        self.parts.delete(edge);
    }
}
