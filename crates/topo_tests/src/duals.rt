//! Pictures whose darts are numbered: frozen ones, and ones with lists that served for another
//! picture before.

use std::alloc::{AllocError, Global};
use std::process::Abort;
use std::test::Fail;
use topo_core::darts::{Point, Way};
use topo_core::ids::{CrossId, VertexId};
use topo_dual::NumberLists;
use topo_picture::Picture;
use topo_route::dual::{Dual, has_number};
use topo_route::face_graph::FaceGraph;
use topo_test_support::pictures::{BIPYRAMID, JOINED, Named, PARALLEL, picture_of};
use topo_test_support::plans::dart;

/// What is read off a picture. Darts are given by their numbers.
#[derive(Clone, Copy, Debug)]
enum Fact {
    /// There are so many darts.
    Darts(u32),
    /// A dart is this one: its edge, its segment and its direction.
    Is(u32, (u32, u32, Way)),
    /// This is no dart.
    NoDart(u32, u32, Way),
    /// A dart, and the same segment the other way.
    Twin(u32, u32),
    /// A dart starts at a vertex.
    Starts(u32, u32),
    /// A dart starts at a crossing.
    StartsAtCrossing(u32, u32),
    /// A dart, and the next one along its face.
    Next(u32, u32),
    /// A dart comes before another.
    Precedes(u32, u32),
    /// A vertex has so many corners.
    Degree(u32, u32),
    /// The dart that names the corner at a position of a vertex.
    Corner(u32, u32, Option<u32>),
    /// The edge of a dart: its id, its ends and its kind.
    Edge(u32, (u32, u32, u32, u8)),
}

/// Pictures, and what is read off them.
const PICTURES: &[(&Named, &[Fact])] = &[
    // the last dart goes from vertex 2 to vertex 4, and the one after it to vertex 1
    (
        &BIPYRAMID,
        &[
            Fact::Darts(18),
            Fact::Is(3, (1, 0, Way::Back)),
            Fact::Starts(17, 2),
            Fact::Next(17, 14),
        ],
    ),
    // edge 1 has one segment alone; the last dart goes from vertex 1 to vertex 0, and back along
    // edge 0
    (
        &PARALLEL,
        &[
            Fact::Darts(8),
            Fact::NoDart(1, 1, Way::Back),
            Fact::Starts(7, 1),
            Fact::Next(7, 0),
        ],
    ),
    // edge 1 is crossed by edge 9: its four darts are 2 to 5, those of edge 9 are 20 to 23
    (
        &JOINED,
        &[
            Fact::Darts(24),
            Fact::Is(4, (1, 1, Way::Forward)),
            Fact::Is(5, (1, 1, Way::Back)),
            Fact::NoDart(1, 2, Way::Forward),
            Fact::NoDart(10, 0, Way::Forward),
            Fact::Twin(4, 5),
            Fact::StartsAtCrossing(4, 0),
            Fact::Starts(5, 2),
            Fact::Starts(20, 3),
            // the last dart goes from vertex 4 to the crossing, and the one after it to vertex 2
            Fact::Starts(23, 4),
            Fact::Next(23, 4),
            // from edge 9 at the crossing the face on the left goes on along edge 1 towards its
            // end 1
            Fact::Next(20, 3),
            Fact::Precedes(5, 20),
            Fact::Degree(3, 4),
            Fact::Degree(5, 0),
            Fact::Corner(3, 2, Some(20)),
            Fact::Corner(3, 4, None),
            Fact::Corner(5, 0, None),
            // it is of edge 9, between the apexes
            Fact::Edge(23, (9, 3, 4, 0)),
        ],
    ),
];

/// Whether a fact holds.
fn holds<D: Dual>(dual: &D, fact: Fact) -> bool {
    match fact {
        Fact::Darts(count) => dual.size() == count && !has_number(dual, count),
        Fact::Is(number, (edge, seg, way)) => {
            has_number(dual, number)
                && dual.dart(number) == dart(edge, seg, way)
                && dual.index(dart(edge, seg, way)) == Some(number)
        }
        Fact::NoDart(edge, seg, way) => dual.index(dart(edge, seg, way)) == None,
        Fact::Twin(number, twin) => {
            has_number(dual, number)
                && has_number(dual, twin)
                && dual.twin(number) == twin
                && dual.step(number).1 == dual.face(twin)
        }
        Fact::Starts(number, vertex) => {
            has_number(dual, number) && dual.tail(number) == Point::Vertex(VertexId::new(vertex))
        }
        Fact::StartsAtCrossing(number, id) => {
            has_number(dual, number) && dual.tail(number) == Point::Crossing(CrossId::new(id))
        }
        Fact::Next(number, next) => {
            has_number(dual, number) && dual.next(number) == next && dual.step(number).0 == next
        }
        Fact::Precedes(number, later) => {
            has_number(dual, number)
                && has_number(dual, later)
                && dual.precedes(number, later)
                && !dual.precedes(later, number)
        }
        Fact::Degree(vertex, degree) => dual.degree(vertex) == degree,
        Fact::Corner(vertex, position, number) => dual.corner(vertex, position) == number,
        Fact::Edge(number, due) => {
            if !has_number(dual, number) {
                return false;
            }
            let facts = dual.facts(number);
            (facts.id, facts.a, facts.b, facts.kind) == due
        }
    }
}

/// All facts of a picture hold.
fn hold<D: Dual>(rt: &impl Abort, dual: &D, name: &str, facts: &[Fact]) {
    for fact in facts {
        assert!(rt; holds(dual, *fact), "{name}: {fact:?}");
    }
}

/// They hold of the frozen picture, and of the picture as it is with its darts numbered in lists.
fn are_read(
    rt: &impl Abort,
    alloc: Global,
    picture: &Picture,
    lists: &mut NumberLists,
    name: &str,
    facts: &[Fact],
) -> Result<(), AllocError> {
    let frozen = picture.freeze(alloc)?;
    hold(rt, &frozen, name, facts);
    drop(frozen);
    let numbered = picture.numbered(lists)?;
    hold(rt, &numbered, name, facts);
    Ok(())
}

/// Reads one picture after another.
fn read_all(rt: &impl Abort, alloc: Global, lists: &mut NumberLists) -> Result<(), Fail> {
    for (named, facts) in PICTURES {
        let picture = picture_of(alloc, *named)?;
        let told = are_read(rt, alloc, &picture, lists, named.name, *facts);
        drop(picture);
        told?;
    }
    Ok(())
}

#[test]
fn frozen_and_numbered_pictures_answer(rt: HostRuntime) -> Result<(), Fail> {
    let mut lists = NumberLists::new(rt.alloc());
    let told = read_all(&rt, rt.alloc(), &mut lists);
    drop(lists);
    told
}
