//! Rows with their embedding as a search walks on them.

ghost use Rattle.std.specs.Prelude.{◌≡◌, ◌==◌, ◌↔◌, ◌<◌, ◌^◌, IsTrue, length, slice_index_or, true};
ghost use Rattle.std.specs.declared.cmp.Ordering.TheVariants.{Less};
ghost use Rattle.topo_core.specs.Darts.{dart_cmp};
ghost use Rattle.topo_core.specs.Lawful.{Lawful};
ghost use Rattle.topo_core.specs.Picture.{darts, system};
ghost use Rattle.topo_core.specs.Rotations.{twin};
ghost use Rattle.topo_core.specs.Systems.{face_step, has_dart};
ghost use Rattle.topo_embedded.specs.Bounds.{at_face, floor_of};
ghost use Rattle.topo_embedded.specs.Halves.{IsHalf, by_way, half_in};
ghost use Rattle.topo_embedded.specs.Walking.{IsOnPath, end_seg, end_way, named_in};
ghost use Rattle.topo_map.specs.Rotation.{turn_in};
ghost use Rattle.topo_route.specs.Names.{HasFaces, IsNamed};
ghost use Rattle.topo_route.specs.Potentials.{AreConsistent};

use crate::bounds::Bounds;
use crate::embedded::Embedded;
use crate::path::Path;
use std::marker::Model;
use topo_core::darts::{Dart, Way};
use topo_core::rows::{EdgeRow, Facts};
use topo_map::{Embedding, Half};
use topo_route::face_graph::FaceGraph;
use topo_route::guided::potentials::Potentials;

/// Where a half lies on the path of its edge, and which way it leads along it.
pub(crate) fn place_on_path(path: &Path, half: Half) -> (u32, Way)
    requires there { IsOnPath path.now half }
    requires few { length path.now < 2 ^ 32 }
    ensures within { result.0 < length path.now }
    ensures found { by_way (slice_index_or path.now result.0 0) result.1 ≡ half }
{
    let seg = path.place_of(half);
    if path.at(seg) == half {
        (seg as u32, Way::Forward)
    } else {
        (seg as u32, Way::Back)
    }
}

/// A half along an edge, or its twin for the way back.
pub(crate) fn led(half: Half, way: Way) -> Half
    ensures { result ≡ by_way half way }
{
    match way {
        Way::Forward => half,
        Way::Back => half.twin(),
    }
}

/// The segment of an edge that ends at its end `v`, and the way along it from there.
pub(crate) fn end_of(edge: &EdgeRow, v: u32) -> (usize, Way)
    ensures seg { result.0 ≡ end_seg edge.now (edge.now.a == v) }
    ensures way { result.1 ≡ end_way (edge.now.a == v) }
{
    if edge.a == v {
        (0, Way::Forward)
    } else {
        (edge.crossings.len(), Way::Back)
    }
}

/// Lawful rows with their embedding: what a search walks on that hands out no heights. Darts go by
/// the numbers of their halves. The next dart along a face takes one read, the twin none, the label
/// of a face one, and no question takes memory. Where a dart lies on its edge is found by a look
/// along the path of the edge, which a search asks only of darts that it may cross.
#[derive(Drop)]
pub struct EmbeddedRows<'a> {
    embedded: &'a Embedded,
    segments: &'a Embedding,
    bounds: &'a Bounds,
    size: u32,
    labels: u32,
    ghost named: { IsNamed (named_in embedded.now size) },
    ghost lawful: { ∥ Lawful embedded.now.rows ∥₁ },
    ghost told: { ∥ HasFaces (named_in embedded.now size) (turn_in segments.now.labels) labels ∥₁ },
    ghost consistent: { AreConsistent (named_in embedded.now size) (turn_in segments.now.labels)
        (at_face bounds.now) (floor_of bounds.now) },
}

impl<'a> Model for EmbeddedRows<'a> {
    ghost use Rattle.std.specs.Prelude.{◌<◌, ◌^◌, length};
    ghost use Rattle.topo_core.specs.Picture.{darts};
    ghost use Rattle.topo_embedded.specs.Halves.{ShowsRows};
    ghost use Rattle.topo_embedded.specs.Walking.{AreLive, FaceGraphRows};

    ghost Value = { FaceGraphRows };

    ghost view = { λ d. record {
      embedded = d.embedded.now;
      size = d.size;
      faces = d.segments.now.labels;
      bound = d.labels;
      named = d.named;
      lawful = d.lawful;
      told = d.told;
      bounds = d.bounds.now;
      consistent = d.consistent;
    } };

    ghost invariant = { λ d. (length (darts d.embedded.now.rows) < 2 ^ 32)
        × (length d.embedded.now.rows.rotations < 2 ^ 32) × AreLive d.embedded.now d.segments.now
        × ShowsRows d.embedded.now d.segments.now };
}

impl<'a> EmbeddedRows<'a> {
    ghost use Rattle.std.specs.Prelude.{◌≡◌, ◌<◌, ◌^◌, length};

    /// Walks on rows with their embedding.
    pub fn new(embedded: &'a Embedded) -> Self
        requires lawful { Lawful embedded.now.rows }
        requires vertices { length embedded.now.rows.rotations < 2 ^ 32 }
        ensures { result.embedded ≡ embedded.now }
    {
        let size = embedded.size();
        let (segments, bounds) = embedded.search_parts();
        let labels = segments.labels();
        EmbeddedRows {
            embedded,
            segments,
            bounds,
            size,
            labels,
        }
    }

    /// The half of the next dart along the face on the left, and the label of the face on the
    /// right, in one look.
    fn step_from(&self, half: Half) -> (Half, u32)
        requires { IsHalf self.now.embedded half }
        ensures next { (d : Dart) → has_dart (darts self.now.embedded.rows) d ≡ true
            → half_in self.now.embedded d ≡ half
            → result.0 ≡ half_in self.now.embedded (face_step (system self.now.embedded.rows) d) }
        ensures beyond { result.1 ≡ turn_in self.now.faces (twin half) }
    {
        self.segments.step(half)
    }
}

impl FaceGraph for EmbeddedRows<'_> {
    ghost use Rattle.topo_rows.specs.Recovering.{lawful_again};
    ghost use Rattle.topo_embedded.specs.Bounds.{at_face, floor_of};
    ghost use Rattle.topo_embedded.specs.Walking.{consistent_potentials, faces_apart, named_rows};
    ghost use Rattle.topo_embedded.specs.Walking.{names_apart};
    ghost use Rattle.topo_map.specs.Rotation.{turn_in};

    ghost named = { named_rows };

    fn size(&self) -> u32 {
        self.size
    }

    fn next(&self, dart: u32) -> u32 {
        self.embedded.face_next(Half::numbered(dart)).number()
    }

    fn twin(&self, dart: u32) -> u32 {
        Half::numbered(dart).twin().number()
    }

    fn edge(&self, dart: u32) -> u32 {
        self.embedded.edge(Half::numbered(dart))
    }

    fn kind(&self, dart: u32) -> u8 {
        self.embedded.kind(Half::numbered(dart))
    }

    fn facts(&self, dart: u32) -> Facts {
        self.embedded.facts(Half::numbered(dart))
    }

    fn corner(&self, v: u32, position: u32) -> Option<u32> {
        match self.embedded.corner(v, position) {
            Some(half) => Some(half.number()),
            None => None,
        }
    }

    fn degree(&self, v: u32) -> u32 {
        self.embedded.rows().degree(v) as u32
    }

    fn dart(&self, dart: u32) -> Dart {
        self.embedded.dart_of(Half::numbered(dart))
    }

    fn precedes(&self, dart: u32, other: u32) -> bool {
        let edge = self.embedded.edge(Half::numbered(dart));
        let across = self.embedded.edge(Half::numbered(other));
        if edge == across {
            comes_before(self.dart(dart), self.dart(other))
        } else {
            edge < across
        }
    }

    ghost face_of = { λ w. turn_in w.faces };

    ghost face_bound = { λ w. w.bound };

    fn faces(&self) -> u32 {
        self.labels
    }

    fn face(&self, dart: u32) -> u32 {
        self.segments.face(Half::numbered(dart))
    }

    fn step(&self, dart: u32) -> (u32, u32) {
        let (next, beyond) = self.step_from(Half::numbered(dart));
        (next.number(), beyond)
    }

    ghost potentials = { λ w. at_face w.bounds };

    ghost floor = { λ w. floor_of w.bounds };

    fn has_potentials(&self) -> bool {
        self.bounds.are_there()
    }

    fn potentials(&self, face: u32) -> Potentials {
        self.bounds.at(face)
    }

    fn floor(&self, kind: u8) -> u16 {
        self.bounds.floor(kind)
    }

    ghost lawful = { λ w. lawful_again w.embedded.rows w.lawful };

    ghost has_names = { names_apart };

    ghost has_faces = { faces_apart };

    ghost is_consistent = { consistent_potentials };
}

/// Whether one dart comes before another of the same edge.
fn comes_before(dart: Dart, other: Dart) -> bool
    requires { dart.edge ≡ other.edge }
    ensures { IsTrue result ↔ dart_cmp dart other ≡ Less }
{
    if dart.seg == other.seg {
        matches!((dart.way, other.way), (Way::Forward, Way::Back))
    } else {
        dart.seg < other.seg
    }
}
