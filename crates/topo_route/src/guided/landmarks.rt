//! Potentials that guide searches: distances of the faces from four vertices.

ghost use Rattle.std.specs.Prelude.{◌≡◌, ◌<◌, [], IfOk, length};
ghost use Rattle.topo_core.specs.Picture.{darts};
ghost use Rattle.topo_route.specs.Searches.{HasPrices, priced_faces};

use crate::both_ends::least_heights;
use crate::face_graph::FaceGraph;
use crate::guided::potentials::Potentials;
use crate::priced_graph::PricedGraph;
use crate::stamped_array::StampedArray;
use crate::steps::{corner_at, face_at};
use crate::workspace::Workspace;
use std::alloc::{AllocError, Global};
use topo_price::tariff::{PriceFn, Tariff};

/// How many landmarks there are.
const LANDMARKS: usize = 4;

impl Potentials {
    /// The one of a landmark.
    fn of_landmark(&self, landmark: usize) -> u16 {
        match landmark {
            0 => self.first,
            1 => self.second,
            2 => self.third,
            _ => self.fourth,
        }
    }

    /// The potentials with another number for a landmark.
    fn with(self, landmark: usize, number: u16) -> Self {
        match landmark {
            0 => Potentials {
                first: number,
                ..self
            },
            1 => Potentials {
                second: number,
                ..self
            },
            2 => Potentials {
                third: number,
                ..self
            },
            _ => Potentials {
                fourth: number,
                ..self
            },
        }
    }

    /// The least of those of the first landmarks.
    fn least_of(&self, landmarks: usize) -> u16 {
        let mut least = u16::MAX;
        for landmark in 0..landmarks {
            least = least.min(self.of_landmark(landmark));
        }
        least
    }
}

/// Notes the distances of all faces from a landmark.
fn note(faces: &mut [Potentials], count: u32, landmark: usize, heights: &StampedArray)
    requires heights { length heights.now ≡ count }
    requires faces { length faces.old ≡ count }
    ensures { length faces.new ≡ length faces.old }
{
    for face in 0..count {
        let distance = heights.get(face).min(u16::MAX as u64) as u16;
        faces[face as usize] = faces[face as usize].with(landmark, distance);
    }
}

/// The vertex whose first corner is farthest from the nearest of the first landmarks.
fn farthest<W: FaceGraph>(graph: &W, vertices: u32, faces: &[Potentials], landmarks: usize) -> u32
    requires { length faces.now ≡ W.face_bound graph.now }
{
    let mut found = 0;
    let mut most = 0;
    for vertex in 0..vertices {
        if let Some(corner) = corner_at(graph, vertex, 0) {
            let distance = faces[face_at(graph, corner) as usize].least_of(landmarks);
            if distance > most {
                most = distance;
                found = vertex;
            }
        }
    }
    found
}

/// The distances of all faces, by their labels, from the faces at a vertex, noted as those from a
/// landmark.
fn measure<W: FaceGraph, F: PriceFn>(
    priced: &PricedGraph<W, F>,
    vertex: u32,
    landmark: usize,
    faces: &mut [Potentials],
    work: &mut Workspace,
) -> Result<(), AllocError>
    requires priced { HasPrices (priced_faces W.FaceGraph F.PriceFn priced.now) }
    requires one_each { length faces.old ≡ W.face_bound priced.now.graph.now }
    requires alone { work.old.to_start.heights ≡ [] }
    ensures same { length faces.new ≡ length faces.old }
    ensures alone { work.new.to_start.heights ≡ [] }
{
    least_heights(priced, vertex, work)?;
    note(faces, priced.graph.faces(), landmark, &work.to_end.heights);
    Ok(())
}

/// Potentials of all faces, by their labels: how far each lies from four vertices that are far from
/// each other, of so many that there are. The first is the one that is farthest from vertex 0.
pub fn landmark_distances<W: FaceGraph, F: PriceFn>(
    alloc: Global,
    graph: &W,
    tariff: &Tariff<F>,
    vertices: u32,
) -> Result<Vec<Potentials>, AllocError>
    requires { 0 < length (darts (W.named graph.now).rows) }
{
    // For the proof: what the type keeps.
    tariff.keeps_promise();
    let priced = PricedGraph {
        graph,
        tariff,
        prices: Vec::new(alloc),
    };
    let mut work = Workspace::with_room(alloc, 0)?;
    let mut faces = vec![in alloc; Potentials::all(0); graph.faces() as usize]?;
    measure(&priced, 0, 0, faces.as_mut_slice(), &mut work)?;
    for landmark in 0..LANDMARKS {
        let vertex = farthest(graph, vertices, faces.as_slice(), landmark.max(1));
        measure(&priced, vertex, landmark, faces.as_mut_slice(), &mut work)?;
    }
    Ok(faces)
}
