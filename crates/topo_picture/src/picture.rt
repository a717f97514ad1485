//! A picture, with its limits.

use crate::apart::lies_apart;
use crate::counts::{Counts, counted};
use crate::faces::face_from;
use std::alloc::{AllocError, Global};
use std::marker::Model;
use topo_core::calls::Refusal;
use topo_core::darts::Dart;
use topo_core::ids::{EdgeId, VertexId};
use topo_core::limits::Limits;
use topo_core::listed::Listed;
use topo_core::routes::Route;
use topo_core::rows::{EdgeRow, KINDS, Rows};
use topo_dual::{Frozen, NumberLists, Numbered};
use topo_embedded::{Embedded, EmbeddedRows};
use topo_kept_rows::KeptRows;
use topo_kept_rows::growth::one_listed;
use topo_price::tariff::{PriceFn, Tariff};
use topo_route::guided::landmarks::landmark_distances;
use topo_route::plan::Plan;
use topo_route::planned::region::Region;
use topo_rows::Turns;
use topo_rows::flat::turns_of;
use topo_rows::load::{LoadFault, judge};

/// A connected embedding of a graph of genus zero, within limits. It keeps its rows with the halves
/// along their edges, in a slab of segments.
pub struct Picture {
    limits: Limits,
    embedded: Embedded,
}

// Written out, so that it is proved once: a derived one is proved anew in each function that lets
// such a value go.
impl Drop for Picture {
    fn drop(self) {
        let Picture {
            limits: _,
            embedded,
        } = self;
        drop(embedded);
    }
}

impl Model for Picture {
    ghost use Rattle.topo_rows.specs.Shown.{Shown, IsPicture};

    ghost Value = { Shown };

    ghost view = { λ p. record { limits = p.limits; rows = p.embedded.rows } };

    ghost invariant = { λ p. IsPicture p.limits p.embedded.rows };
}

impl Picture {
    ghost use Rattle.std.specs.Prelude.{◌≡◌, ◌≢◌, ◌⊎◌, ◌↔◌, ◌+◌, ◌<◌, ℕ, true, IfOk, IfErr};
    ghost use Rattle.std.specs.Prelude.{IfSome, IsTrue, OnErr, OnOk, length, is_some, nat_le, Some, None};
    ghost use Rattle.topo_core.specs.Pictures.{seed};
    ghost use Rattle.topo_core.specs.Routes.{IsSimpleRoute};
    ghost use Rattle.topo_core.specs.Changes.{IsCut, grown, shown, without};
    ghost use Rattle.topo_core.specs.Picture.{edge_row};
    ghost use Rattle.topo_core.specs.Steps.{HasRoomFor, grow_refusal, insert_refusal};
    ghost use Rattle.topo_route.specs.Regions.{IsApart};
    ghost use Rattle.topo_rows.specs.Loading.{FailsFirst};
    ghost use Rattle.topo_rows.specs.Shown.{IsPicture};
    ghost use Rattle.topo_picture.specs.Ends.{HasVertices, IsEndsRefusal};
    ghost use Rattle.topo_picture.specs.Faces.{IsFaceOf};
    ghost use Rattle.topo_picture.specs.Totals.{AreCountsOf};
    ghost use Rattle.topo_picture.specs.Undoing.{IsShownOn};
    ghost use Rattle.topo_core.specs.declared.rows.Rows.{Rows};

    /// The picture of two vertices, 0 and 1, and edge 0 of kind 0 from the one to the other.
    pub fn seed(alloc: Global, limits: Limits) -> Result<Self, AllocError>
        ensures rows { IfOk result (λ p. p.rows ≡ seed) }
        ensures limits { IfOk result (λ p. p.limits ≡ limits) }
    {
        let rows = seed_rows(alloc)?;
        let turns = turns_of(alloc, &rows)?;
        let embedded = Embedded::of(alloc, &rows, turns)?;
        Ok(Picture { limits, embedded })
    }

    /// The picture with these rows and limits. Rows that are none are refused by the first test
    /// that they fail, in the order of the faults. Memory may be answered in place of any answer.
    pub fn load(alloc: Global, limits: Limits, rows: &Rows) -> Result<Self, LoadFault>
        ensures rows { IfOk result (λ p. p.rows ≡ rows.now) }
        ensures limits { IfOk result (λ p. p.limits ≡ limits) }
        ensures lawful { IfOk result (λ _. IsPicture limits rows.now) }
        ensures refused { IfErr result (FailsFirst limits rows.now) }
    {
        let turns = judged(alloc, &limits, rows)?;
        match new_picture(alloc, limits, rows, turns) {
            Ok(picture) => Ok(picture),
            Err(_) => Err(LoadFault::Memory),
        }
    }

    /// How large it may grow.
    pub fn limits(&self) -> Limits
        ensures { result ≡ self.now.limits }
    {
        self.limits
    }

    /// Whether no crossing id is left.
    pub fn has_no_crossing_left(&self) -> bool
        ensures { result ≡ nat_le self.now.limits.crossings self.now.rows.next_crossing }
    {
        self.limits.crossings <= self.embedded.rows().next_crossing()
    }

    /// How large the picture with these rows and limits is, which is not made. Rows that are none
    /// are refused as `load` refuses them.
    pub fn counts_of(alloc: Global, limits: Limits, rows: &Rows) -> Result<Counts, LoadFault>
        ensures counts { IfOk result (AreCountsOf rows.now) }
        ensures lawful { IfOk result (λ _. IsPicture limits rows.now) }
        ensures refused { IfErr result (FailsFirst limits rows.now) }
    {
        let _turns = judged(alloc, &limits, rows)?;
        Ok(counted(rows.rotations.len(), rows.crossings.len(), rows.edges.len()))
    }

    /// How large it is.
    pub fn counts(&self) -> Counts
        ensures { AreCountsOf self.now.rows result }
    {
        let rows = self.embedded.rows();
        counted(
            rows.rotations().len(),
            rows.crossing_count(),
            rows.edge_count(),
        )
    }

    /// Its rows as they are kept, each of which is looked up by its id.
    pub fn kept_rows(&self) -> &KeptRows
        ensures rows { result.now ≡ self.now.rows }
        ensures lawful { IsPicture self.now.limits self.now.rows }
    {
        self.embedded.rows()
    }

    /// The darts of the face on the left of a dart, from it on, each followed by the next dart along
    /// the face; none where the picture has no such dart.
    pub fn face(&self, alloc: Global, dart: Dart) -> Result<Option<Listed<Dart>>, AllocError>
        ensures { IfOk result (IsFaceOf self.now.rows dart) }
    {
        let Some(edge) = self.embedded.find_edge(dart.edge.number()) else {
            return Ok(None);
        };
        if dart.seg as usize > edge.crossings.len() {
            return Ok(None);
        }
        let found = face_from(alloc, &self.embedded, &dart)?;
        Ok(Some(found))
    }

    /// A copy of its rows.
    pub fn rows(&self, alloc: Global) -> Result<Rows, AllocError>
        ensures rows { IfOk result (λ r. r ≡ self.now.rows) }
        ensures lawful { IsPicture self.now.limits self.now.rows }
    {
        self.embedded.copy_of_rows(alloc)
    }

    /// Its rows. The picture ends, and what it keeps beside its rows goes before these are made, so
    /// that both need not be in memory at one time.
    pub fn into_rows(self, alloc: Global) -> Result<Rows, AllocError>
        ensures { IfOk result (λ r. r ≡ self.rows) }
    {
        let Picture {
            limits: _,
            embedded,
        } = self;
        embedded.into_rows(alloc)
    }

    /// Room for so many more vertices and edges, as far as the limits let them come, so that what
    /// is kept of them need not move as it grows. The picture stays as it is.
    pub fn reserve(&mut self, vertices: usize, edges: usize) -> Result<(), AllocError>
        ensures { self.new ≡ self.old }
    {
        let rows = self.embedded.rows();
        let vertices_left = (self.limits.vertices as usize).saturating_sub(rows.rotations().len());
        let edges_left = self.limits.edges.saturating_sub(rows.next_edge()) as usize;
        self.embedded
            .reserve(vertices.min(vertices_left), edges.min(edges_left))
    }

    /// The frozen picture of its rows, as they are now.
    pub fn freeze(&self, alloc: Global) -> Result<Frozen, AllocError>
        ensures { IfOk result (λ f. f.rows ≡ self.now.rows) }
    {
        Frozen::new(alloc, self.embedded.copy(alloc)?)
    }

    /// Its rows as they are, with their darts numbered in lists that are lent: what its frozen
    /// picture answers, and nothing of it is copied. The lists are written anew.
    pub fn numbered<'a>(&'a self, lists: &'a mut NumberLists) -> Result<Numbered<'a>, AllocError>
        ensures { IfOk result (λ d. d.rows ≡ self.now.rows) }
    {
        Numbered::new(&self.embedded, lists)
    }

    /// Its rows with their embedding, for a search that hands out no heights. It takes no time to
    /// make.
    pub fn embedded(&self) -> EmbeddedRows<'_>
        ensures { result.embedded.rows ≡ self.now.rows }
    {
        EmbeddedRows::new(&self.embedded)
    }

    /// Guides searches to their targets from then on, until an edge is taken out, or an insertion
    /// has all faces labelled anew or finds no place for the numbers of a new face. It measures how
    /// far all faces are from four vertices at these prices, which takes as long as some searches of
    /// the whole picture. Of a price that is not known by the kind of its edge, searches know only
    /// that it is at least 1: if faces on the two sides of such an edge are farther apart than that,
    /// nothing is kept, and searches are not guided. The picture stays as it is, and a copy of it
    /// has none of this.
    pub fn guide_searches<F: PriceFn>(
        &mut self,
        alloc: Global,
        tariff: &Tariff<F>,
    ) -> Result<(), AllocError>
        ensures { self.new ≡ self.old }
    {
        let vertices = self.embedded.vertex_count() as u32;
        if vertices == 0 {
            return Ok(());
        }
        self.embedded.drop_potentials(alloc);
        let floors = floors_of(alloc, tariff)?;
        let faces = landmark_distances(alloc, &self.embedded(), tariff, vertices)?;
        self.embedded.set_potentials(alloc, faces, floors);
        Ok(())
    }

    /// Whether searches are guided.
    pub fn has_guided_searches(&self) -> bool {
        self.embedded.has_potentials()
    }

    /// An equal picture: the same rows and limits.
    pub fn copy(&self, alloc: Global) -> Result<Self, AllocError>
        ensures equal { IfOk result (λ p. p ≡ self.now) }
        ensures lawful { IsPicture self.now.limits self.now.rows }
    {
        let embedded = self.embedded.copy(alloc)?;
        Ok(Picture {
            limits: self.limits,
            embedded,
        })
    }

    /// Whether an edge of this kind may be inserted from `u` to `v`, before a route is looked for.
    /// It is refused as NoVertex where one of them is no vertex, as SameEnds where they are one, as
    /// BadKind where the kind is above 63, and as Full where no edge id is left: the first of these
    /// that holds.
    pub fn admit(&self, u: u32, v: u32, kind: u32) -> Result<(), Refusal>
        ensures admitted { IfOk result
            (λ _. insert_refusal self.now.limits self.now.rows u v kind ≡ None) }
        ensures refused { IfErr result
            (λ why. insert_refusal self.now.limits self.now.rows u v kind ≡ Some why) }
    {
        check_insertion(&self.limits, self.embedded.rows(), u, v, kind)
    }

    /// Whether a route may be looked for between these: both are vertices, and not the same. Else
    /// NoVertex comes before SameEnds.
    pub fn admit_ends(&self, u: u32, v: u32) -> Result<(), Refusal>
        ensures there { OnOk result (HasVertices self.now.rows u v) }
        ensures apart { OnOk result (u ≢ v) }
        ensures refused { IfErr result (IsEndsRefusal self.now.rows u v) }
    {
        check_ends(self.embedded.rows(), u, v)
    }

    /// The numbers that a growth would get, or the first reason why it would be refused, as `grow`
    /// says.
    pub fn admit_growth(
        &self,
        u: u32,
        position: u32,
        kind: u32,
    ) -> Result<(VertexId, EdgeId), Refusal>
        ensures admitted { IfOk result
            (λ _. grow_refusal self.now.limits self.now.rows u position kind ≡ None) }
        ensures numbers { IfOk result
            (λ made. (made.0 ≡ length self.now.rows.rotations)
            × (made.1 ≡ self.now.rows.next_edge)) }
        ensures refused { IfErr result
            (λ why. grow_refusal self.now.limits self.now.rows u position kind ≡ Some why) }
    {
        check_growth(&self.limits, self.embedded.rows(), u, position, kind)
    }

    /// The number that an edge along this route would get. It would be refused as Full where the
    /// crossing ids left are fewer than the route crosses.
    pub fn admit_route(&self, route: &Route) -> Result<EdgeId, Refusal>
        ensures room { IfOk result (λ _. HasRoomFor self.now.limits self.now.rows route.now) }
        ensures number { IfOk result (λ made. made ≡ self.now.rows.next_edge) }
        ensures refused { IfErr result (λ why. (why ≡ Refusal.Full)
            × (self.now.limits.crossings < self.now.rows.next_crossing
            + length route.now.crossed)) }
    {
        check_room(&self.limits, self.embedded.rows(), route)
    }

    /// Whether an edge may be taken out, or the first reason why not, as `delete` says.
    pub fn admit_deletion(&self, edge: u32) -> Result<(), Refusal>
        ensures there { IfOk result (λ _. is_some (edge_row self.now.rows edge) ≡ true) }
        ensures whole { IfOk result (λ _. (i : ℕ) → IsCut self.now.rows edge i → ⊥) }
        ensures refused { IfErr result
            (λ why. ((why ≡ Refusal.NoEdge) × (edge_row self.now.rows edge ≡ None))
            ⊎ ((i : ℕ) × (why ≡ Refusal.Cut i) × (is_some (edge_row self.now.rows edge) ≡ true)
            × IsCut self.now.rows edge i)) }
        ensures lawful { IsPicture self.now.limits self.now.rows }
    {
        if self.embedded.find_edge(edge).is_none() {
            return Err(Refusal::NoEdge);
        }
        match self.embedded.first_cut(edge) {
            Some(segment) => Err(Refusal::Cut(segment)),
            None => Ok(()),
        }
    }

    /// Whether an edge lies apart from a region of this picture: it is not of the region, ends at
    /// no vertex of it, and crosses no edge of it. So does an edge that is not there.
    #[tactic(auto, using(crate::proofs::ApartEdges::is_apart))]
    pub fn is_apart(&self, edge: u32, region: &Region) -> bool
        ensures { IsTrue result
            ↔ IfSome (edge_row self.now.rows edge) (IsApart self.now.rows region.now) }
    {
        let rows = self.embedded.rows();
        match self.embedded.find_edge(edge) {
            Some(found) => lies_apart(rows, region, found),
            None => true,
        }
    }

    /// Puts a new vertex on a new edge of the given kind into the corner at `position` of vertex
    /// `u`, and answers their numbers. It is refused as NoVertex where `u` is no vertex, as
    /// NoPosition where `u` has fewer corners, as BadKind where the kind is above 63, and as Full
    /// where it would pass a limit: the first of these that holds. Memory is answered only where
    /// none of them holds.
    pub fn grow(
        &mut self,
        alloc: Global,
        u: u32,
        position: u32,
        kind: u32,
    ) -> Result<(VertexId, EdgeId), Refusal>
        ensures accepted { IfOk result
            (λ _. grow_refusal self.old.limits self.old.rows u position kind ≡ None) }
        ensures numbers { IfOk result
            (λ made. (made.0 ≡ length self.old.rows.rotations)
            × (made.1 ≡ self.old.rows.next_edge)) }
        ensures grown { IfOk result (λ _. self.new.rows ≡ grown self.old.rows u position kind) }

        ensures refused { IfErr result
            (λ why. (grow_refusal self.old.limits self.old.rows u position kind ≡ Some why)
            ⊎ ((why ≡ Refusal.Memory)
            × (grow_refusal self.old.limits self.old.rows u position kind ≡ None))) }
        ensures unchanged { OnErr result (self.new ≡ self.old) }

        ensures same_limits { self.new.limits ≡ self.old.limits }
        ensures lawful { IsPicture self.new.limits self.new.rows }
    {
        let made = check_growth(&self.limits, self.embedded.rows(), u, position, kind)?;
        match self.embedded.grow(alloc, u, position, kind) {
            Ok(()) => Ok(made),
            Err(_) => Err(Refusal::Memory),
        }
    }

    /// Puts a new edge of the given kind from `u` to `v` along the route, with a crossing on each
    /// segment that it crosses, and answers its number. It is refused as Full where the crossing
    /// ids left are fewer than the route crosses. Memory is answered only where they suffice.
    pub fn apply_route(
        &mut self,
        alloc: Global,
        u: u32,
        v: u32,
        kind: u32,
        route: &Route,
    ) -> Result<EdgeId, Refusal>
        requires admitted { insert_refusal self.old.limits self.old.rows u v kind ≡ None }
        requires simple { IsSimpleRoute self.old.rows u v route.now }
        ensures room { IfOk result (λ _. HasRoomFor self.old.limits self.old.rows route.now) }
        ensures number { IfOk result (λ made. made ≡ self.old.rows.next_edge) }
        ensures shown { IfOk result (λ _. self.new.rows ≡ shown self.old.rows u v kind route.now) }

        ensures refused { IfErr result
            (λ why. ((why ≡ Refusal.Full)
            × (self.old.limits.crossings < self.old.rows.next_crossing + length route.now.crossed))
            ⊎ ((why ≡ Refusal.Memory) × HasRoomFor self.old.limits self.old.rows route.now)) }
        ensures unchanged { OnErr result (self.new ≡ self.old) }

        ensures same_limits { self.new.limits ≡ self.old.limits }
        ensures lawful { IsPicture self.new.limits self.new.rows }
    {
        let made = check_room(&self.limits, self.embedded.rows(), route)?;
        match self.embedded.insert(alloc, (u, v), kind, route) {
            Ok(()) => Ok(made),
            Err(_) => Err(Refusal::Memory),
        }
    }

    /// As `apply_route`, along the plan's route.
    pub fn apply(
        &mut self,
        alloc: Global,
        u: u32,
        v: u32,
        kind: u32,
        plan: &Plan,
    ) -> Result<EdgeId, Refusal>
        requires admitted { insert_refusal self.old.limits self.old.rows u v kind ≡ None }
        requires simple { IsSimpleRoute self.old.rows u v plan.now.route }
        ensures room { IfOk result (λ _. HasRoomFor self.old.limits self.old.rows plan.now.route) }
        ensures number { IfOk result (λ made. made ≡ self.old.rows.next_edge) }
        ensures shown { IfOk result
            (λ _. self.new.rows ≡ shown self.old.rows u v kind plan.now.route) }

        ensures refused { IfErr result
            (λ why. ((why ≡ Refusal.Full)
            × (self.old.limits.crossings < self.old.rows.next_crossing
            + length plan.now.route.crossed))
            ⊎ ((why ≡ Refusal.Memory) × HasRoomFor self.old.limits self.old.rows plan.now.route)) }
        ensures unchanged { OnErr result (self.new ≡ self.old) }

        ensures same_limits { self.new.limits ≡ self.old.limits }
        ensures lawful { IsPicture self.new.limits self.new.rows }
    {
        self.apply_route(alloc, u, v, kind, &plan.route)
    }

    /// Takes an edge out, with its crossings. It is refused as NoEdge where there is no such edge,
    /// and as Cut with a segment where the picture would fall apart: the first segment of the edge
    /// such that the picture falls apart when it and those before it are out. It takes no memory.
    /// The edge that was shown last can always go, and then the picture is as before but for the
    /// ids that were given.
    pub fn delete(&mut self, edge: u32) -> Result<(), Refusal>
        ensures there { IfOk result (λ _. is_some (edge_row self.old.rows edge) ≡ true) }
        ensures whole { IfOk result (λ _. (i : ℕ) → IsCut self.old.rows edge i → ⊥) }
        ensures without { IfOk result (λ _. self.new.rows ≡ without self.old.rows edge) }
        ensures undoes { IfOk result (λ _. (p : Rows) → IsShownOn p self.old.rows edge
            → self.new.rows ≡ record p {
              next_edge = self.old.rows.next_edge;
              next_crossing = self.old.rows.next_crossing;
            }) }
        ensures can_undo { OnErr result ((p : Rows) → IsShownOn p self.old.rows edge → ⊥) }

        ensures refused { IfErr result
            (λ why. ((why ≡ Refusal.NoEdge) × (edge_row self.old.rows edge ≡ None))
            ⊎ ((i : ℕ) × (why ≡ Refusal.Cut i) × (is_some (edge_row self.old.rows edge) ≡ true)
            × IsCut self.old.rows edge i)) }
        ensures unchanged { OnErr result (self.new ≡ self.old) }

        ensures same_limits { self.new.limits ≡ self.old.limits }
        ensures lawful { IsPicture self.new.limits self.new.rows }
    {
        self.admit_deletion(edge)?;
        self.delete_known(edge);
        Ok(())
    }

    /// Takes out an edge without which the picture stays connected, with its crossings. It takes no
    /// memory.
    pub fn delete_known(&mut self, edge: u32)
        requires there { is_some (edge_row self.old.rows edge) ≡ true }
        requires whole { (i : ℕ) → IsCut self.old.rows edge i → ⊥ }
        ensures without { self.new.rows ≡ without self.old.rows edge }
        ensures same_limits { self.new.limits ≡ self.old.limits }
        ensures lawful { IsPicture self.new.limits self.new.rows }
    {
        self.embedded.delete(edge);
    }
}

ghost use Rattle.std.specs.Prelude.{◌≡◌, ◌≢◌, ◌+◌, ◌<◌, ◌≤◌, ℕ, true, IfErr, IfOk, OnOk};
ghost use Rattle.std.specs.Prelude.{None, Some, length, [], ◌∷◌};
ghost use Rattle.topo_core.specs.Pictures.{seed};
ghost use Rattle.topo_core.specs.Steps.{HasRoomFor, grow_refusal, insert_refusal};
ghost use Rattle.topo_rows.specs.Flats.{AreTurnsOf};
ghost use Rattle.topo_rows.specs.Loading.{FailsFirst};
ghost use Rattle.topo_rows.specs.Shown.{IsPicture};
ghost use Rattle.topo_picture.specs.Ends.{HasVertices, IsEndsRefusal};
ghost use Rattle.topo_core.specs.declared.limits.Limits.{Limits};

/// The rotation system of rows that are a picture within the limits. Else the first test that they
/// fail, or Memory.
fn judged(alloc: Global, limits: &Limits, rows: &Rows) -> Result<Turns, LoadFault>
    ensures picture { IfOk result (λ _. IsPicture limits.now rows.now) }
    ensures turns { IfOk result
        (λ turns. AreTurnsOf rows.now turns.begins.items turns.images.items) }
    ensures refused { IfErr result (FailsFirst limits.now rows.now) }
{
    match judge(alloc, limits, rows) {
        Ok(judged) => judged,
        Err(_) => Err(LoadFault::Memory),
    }
}

/// The picture with these rows, which are lawful and whose darts turn as said.
fn new_picture(
    alloc: Global,
    limits: Limits,
    rows: &Rows,
    turns: Turns,
) -> Result<Picture, AllocError>
    requires lawful { IsPicture limits rows.now }
    requires turns { AreTurnsOf rows.now turns.begins.items turns.images.items }
    ensures rows { IfOk result (λ p. p.rows ≡ rows.now) }
    ensures limits { IfOk result (λ p. p.limits ≡ limits) }
{
    let embedded = Embedded::of(alloc, rows, turns)?;
    Ok(Picture { limits, embedded })
}

/// The rows of two vertices and the edge between them.
fn seed_rows(alloc: Global) -> Result<Rows, AllocError>
    ensures { IfOk result (λ rows. rows ≡ seed) }
{
    let mut rotations = Vec::new(alloc);
    rotations.push(one_listed(alloc, 0)?)?;
    rotations.push(one_listed(alloc, 0)?)?;
    let mut edges = Vec::new(alloc);
    edges.push(EdgeRow {
        id: 0,
        a: 0,
        b: 1,
        kind: 0,
        crossings: Listed::new(alloc),
    })?;
    Ok(Rows {
        rotations: Listed::from_vec(rotations),
        edges: Listed::from_vec(edges),
        crossings: Listed::new(alloc),
        next_edge: 1,
        next_crossing: 0,
    })
}

/// The numbers of a new vertex and its edge, or the first reason to refuse the growth.
fn check_growth(
    limits: &Limits,
    rows: &KeptRows,
    u: u32,
    position: u32,
    kind: u32,
) -> Result<(VertexId, EdgeId), Refusal>
    ensures admitted { IfOk result (λ _. grow_refusal limits.now rows.now u position kind ≡ None) }
    ensures numbers { IfOk result
        (λ made. (made.0 ≡ length rows.now.rotations) × (made.1 ≡ rows.now.next_edge)) }
    ensures refused { IfErr result
        (λ why. grow_refusal limits.now rows.now u position kind ≡ Some why) }
{
    let vertices = rows.rotations().len();
    if u as usize >= vertices {
        Err(Refusal::NoVertex)
    } else if position as usize >= rows.degree(u) {
        Err(Refusal::NoPosition)
    } else if kind as usize >= KINDS {
        Err(Refusal::BadKind)
    } else if vertices >= limits.vertices as usize || rows.next_edge() >= limits.edges {
        Err(Refusal::Full)
    } else {
        Ok((
            VertexId::new(vertices as u32),
            EdgeId::new(rows.next_edge()),
        ))
    }
}

/// The number of a new edge along a route, or Full where too few crossing ids are left for it.
fn check_room(limits: &Limits, rows: &KeptRows, route: &Route) -> Result<EdgeId, Refusal>
    requires { rows.now.next_crossing ≤ limits.now.crossings }
    ensures room { IfOk result (λ _. HasRoomFor limits.now rows.now route.now) }
    ensures number { IfOk result (λ made. made ≡ rows.now.next_edge) }
    ensures refused { IfErr result (λ why. (why ≡ Refusal.Full)
        × (limits.now.crossings < rows.now.next_crossing + length route.now.crossed)) }
{
    let needed = route.crossed.as_slice().len();
    let left = limits.crossings - rows.next_crossing();
    if needed > left as usize {
        return Err(Refusal::Full);
    }
    Ok(EdgeId::new(rows.next_edge()))
}

/// Whether a route may be looked for between these: both are vertices, and not the same. That one
/// is no vertex comes first.
fn check_ends(rows: &KeptRows, u: u32, v: u32) -> Result<(), Refusal>
    ensures there { OnOk result (HasVertices rows.now u v) }
    ensures apart { OnOk result (u ≢ v) }
    ensures refused { IfErr result (IsEndsRefusal rows.now u v) }
    ensures first { IfErr result (λ why. (limits : Limits) (kind : ℕ)
        → insert_refusal limits rows.now u v kind ≡ Some why) }
{
    let vertices = rows.rotations().len();
    if u as usize >= vertices || v as usize >= vertices {
        Err(Refusal::NoVertex)
    } else if u == v {
        Err(Refusal::SameEnds)
    } else {
        Ok(())
    }
}

/// Whether an insertion is refused before a route is looked for, and the first reason.
fn check_insertion(
    limits: &Limits,
    rows: &KeptRows,
    u: u32,
    v: u32,
    kind: u32,
) -> Result<(), Refusal>
    ensures admitted { OnOk result (insert_refusal limits.now rows.now u v kind ≡ None) }
    ensures refused { IfErr result
        (λ why. insert_refusal limits.now rows.now u v kind ≡ Some why) }
{
    check_ends(rows, u, v)?;
    if kind as usize >= KINDS {
        Err(Refusal::BadKind)
    } else if rows.next_edge() >= limits.edges {
        Err(Refusal::Full)
    } else {
        Ok(())
    }
}

/// The floor of each kind.
fn floors_of<F: PriceFn>(alloc: Global, tariff: &Tariff<F>) -> Result<Vec<u16>, AllocError> {
    let mut floors = Vec::with_capacity(alloc, KINDS)?;
    for kind in 0..KINDS {
        floors.push(tariff.floor(kind as u8))?;
    }
    Ok(floors)
}
