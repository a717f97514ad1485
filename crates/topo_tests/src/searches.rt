//! Searches for the first of the least routes: from one end, from both ends, and with what they
//! have seen.

ghost use Rattle.std.specs.Prelude.{◌≢◌, ◌<◌, IsTrue, length};

use crate::stories::{Story, tell_at};
use std::alloc::Global;
use std::process::Abort;
use std::sync::atomic::{AtomicU32, Ordering};
use std::test::Fail;
use topo_book::Book;
use topo_core::darts::Way;
use topo_core::routes::Route;
use topo_picture::{Frozen, Picture};
use topo_price::tariff::{PriceFn, Tariff};
use topo_route::check::check;
use topo_route::dual::{Dual, has_number};
use topo_route::face_graph::FaceGraph;
use topo_route::plan::SeenRoute;
use topo_route::search::{first_route, first_route_seen, search};
use topo_route::workspace::Workspace;
use topo_test_support::pictures::{BARRIER, BIPYRAMID, JOINED, Named, PARALLEL, SEED, picture_of};
use topo_test_support::plans::{LEAST_HEIGHTS, are_ends as are_ends_of, dart};
use topo_test_support::prices::{CLOSED, Entries, FIVE_TWO_NINE, SECOND_CLOSED, table_of};

/// A route with its price: a start, the crossed darts, an end, and the price.
pub(crate) type Answer = (u32, &'static [(u32, u32, Way)], u32, u64);

/// A route that is looked for, and the first one.
struct Question {
    /// A picture, and what grows on it: vertices and positions.
    on: (&'static Named, &'static [(u32, u32)]),
    /// The price of all kinds but some, and the prices of those.
    at: (Option<u32>, Entries),
    ends: (u32, u32),
    /// The first answer; none where there is no route.
    first: Option<Answer>,
    /// The least height of each dart. None stand here where nobody knows them.
    heights: &'static [u64],
}

/// The prices of `FIVE_TWO_NINE`, but the second edge is dear.
const SECOND_DEAR: Entries = &[(1, Some(5)), (2, Some(1000)), (3, Some(9))];

pub(crate) const APEXES: (u32, u32) = (3, 4);

/// The heights where the way round the second edge is the cheapest.
const FAR: [u64; 18] = [0, 5, 0, 6, 0, 6, 6, 5, 5, 6, 6, 6, 0, 0, 0, 0, 0, 0];

/// The heights where all edges of the triangle cost 4.
pub(crate) const EVEN: [u64; 18] = [0, 4, 0, 4, 0, 4, 4, 4, 4, 4, 4, 4, 0, 0, 0, 0, 0, 0];

/// On larger and smaller pictures, with a route and without.
const QUESTIONS: &[Question] = &[
    // the cheapest edge of the triangle, from the corner before edge 5
    Question {
        on: (&BIPYRAMID, &[]),
        at: (Some(1), FIVE_TWO_NINE),
        ends: APEXES,
        first: Some((2, &[(1, 0, Way::Back)], 2, 2)),
        heights: &LEAST_HEIGHTS,
    },
    // one face has all corners
    Question {
        on: (&SEED, &[]),
        at: (Some(1), &[]),
        ends: (1, 0),
        first: Some((0, &[], 0, 0)),
        heights: &[],
    },
    // the same edge from the other side, beyond its crossing
    Question {
        on: (&JOINED, &[]),
        at: (Some(3), FIVE_TWO_NINE),
        ends: (4, 3),
        first: Some((2, &[(1, 1, Way::Forward)], 3, 2)),
        heights: &[],
    },
    // the triangle is closed
    Question {
        on: (&BIPYRAMID, &[]),
        at: (Some(1), CLOSED),
        ends: APEXES,
        first: None,
        heights: &[],
    },
    // out of the triangle across its cheap base and back in across it
    Question {
        on: (&BARRIER, &[]),
        at: (Some(9), &[(0, Some(1))]),
        ends: (4, 5),
        first: Some((0, &[(0, 0, Way::Forward), (0, 1, Way::Back)], 0, 2)),
        heights: &[],
    },
    // between the last edge and the first
    Question {
        on: (&PARALLEL, &[]),
        at: (Some(1000), &[]),
        ends: (0, 1),
        first: Some((0, &[], 1, 0)),
        heights: &[],
    },
    // all edges but the edge from apex to apex and those at the apexes are closed
    Question {
        on: (&JOINED, &[]),
        at: (None, &[(0, Some(7))]),
        ends: APEXES,
        first: None,
        heights: &[],
    },
    // all three edges cost 4: the first corner decides
    Question {
        on: (&BIPYRAMID, &[]),
        at: (Some(4), &[]),
        ends: (4, 3),
        first: Some((0, &[(0, 0, Way::Forward)], 1, 4)),
        heights: &[],
    },
    // the same from the other side
    Question {
        on: (&BIPYRAMID, &[]),
        at: (Some(4), &[]),
        ends: APEXES,
        first: Some((0, &[(2, 0, Way::Back)], 1, 4)),
        heights: &EVEN,
    },
    // a detour past the dear edge
    Question {
        on: (&BIPYRAMID, &[]),
        at: (Some(1), SECOND_DEAR),
        ends: APEXES,
        first: Some((1, &[(0, 0, Way::Back)], 0, 5)),
        heights: &FAR,
    },
    // the same where it must not be crossed
    Question {
        on: (&BIPYRAMID, &[]),
        at: (Some(1), SECOND_CLOSED),
        ends: APEXES,
        first: Some((1, &[(0, 0, Way::Back)], 0, 5)),
        heights: &FAR,
    },
    // all edges at the greatest price: straight across the edge between the two parts
    Question {
        on: (&BARRIER, &[]),
        at: (Some(1000), &[]),
        ends: (4, 5),
        first: Some((0, &[(3, 0, Way::Back)], 0, 1000)),
        heights: &[],
    },
    // between vertices that have grown in different corners, at the greatest price
    Question {
        on: (&PARALLEL, &[(0, 0), (0, 2)]),
        at: (Some(1000), &[]),
        ends: (2, 3),
        first: Some((0, &[(0, 0, Way::Forward), (1, 0, Way::Forward)], 0, 2000)),
        heights: &[],
    },
    // between vertices that have grown in one corner
    Question {
        on: (&PARALLEL, &[(0, 0), (0, 0)]),
        at: (Some(7), &[]),
        ends: (2, 3),
        first: Some((0, &[], 0, 0)),
        heights: &[],
    },
];

/// Whether a route with its price is the answer.
pub(crate) fn is_answer(route: &Route, price: u64, answer: &Answer) -> bool {
    let (start, crossed, end, due) = *answer;
    let had = route.crossed.as_slice();
    route.start == start
        && route.end == end
        && price == due
        && had.len() == crossed.len()
        && had
            .iter()
            .zip(crossed)
            .all(|(had, (edge, seg, way))| *had == dart(*edge, *seg, *way))
}

/// Whether both are vertices, and different ones.
pub(crate) fn are_ends(picture: &Picture, u: u32, v: u32) -> bool
    ensures u_there { IsTrue result → u < length picture.now.rows.rotations }
    ensures v_there { IsTrue result → v < length picture.now.rows.rotations }
    ensures apart { IsTrue result → u ≢ v }
{
    let vertices = picture.counts().vertices;
    u < vertices && v < vertices && u != v
}

/// Whether a route is that of a question. One that crosses an edge comes with a region that has it
/// and both ends, and any other with none.
fn is_seen(seen: &SeenRoute, question: &Question) -> bool {
    let (u, v) = question.ends;
    let crossed = seen.first.route.crossed.as_slice();
    let has_region = match &seen.region {
        Some(region) => {
            !crossed.is_empty()
                && region.has_vertex(u)
                && region.has_vertex(v)
                && crossed
                    .iter()
                    .all(|dart| region.has_edge(dart.edge.number()))
        }
        None => crossed.is_empty(),
    };
    match &question.first {
        Some(first) => has_region && is_answer(&seen.first.route, seen.first.price, first),
        None => false,
    }
}

/// The edges have the prices of their kinds.
fn have_prices<F: PriceFn>(
    rt: &impl Abort,
    frozen: &Frozen,
    tariff: &Tariff<F>,
    question: &Question,
) {
    let (rest, entries) = question.at;
    for (edge, _a, _b, kind, _crossings) in question.on.0.edges {
        let number = frozen.index(dart(*edge, 0, Way::Forward)).unwrap_or(0);
        assert!(rt; has_number(frozen, number));
        let price = tariff.price(&frozen.facts(number));
        let entry = entries.iter().find(|entry| entry.0 as u32 == *kind);
        let due = match entry {
            Some(entry) => entry.1,
            None => rest,
        };
        assert!(rt; price == due, "edge {edge} of kind {kind}: {price:?}");
    }
}

/// The search from one end finds the route of a question with its heights, and passes the check. It
/// asks for each edge once.
fn is_planned<F: PriceFn>(
    rt: &impl Abort,
    alloc: Global,
    frozen: &Frozen,
    tariff: &Tariff<F>,
    question: &Question,
    asked: &AtomicU32,
) -> Result<(), Fail> {
    let ((named, grown), (u, v), at) = (question.on, question.ends, question.at);
    let name = named.name;
    assert!(rt; are_ends_of(frozen, u, v), "{name}, {u} to {v}");
    asked.store(0, Ordering::SeqCst);
    let plan = search(alloc, frozen, tariff, u, v)?;
    let asked = asked.load(Ordering::SeqCst) as usize;
    assert!(rt;
        asked == named.edges.len().saturating_add(grown.len()),
        "{name}, {u} to {v} at {at:?}: {asked} prices"
    );
    let is_right = match (&plan, &question.first) {
        (Some(plan), Some(first)) => {
            is_answer(&plan.route, plan.price, first)
                && (question.heights.is_empty() || plan.heights.as_slice() == question.heights)
                && check(frozen, tariff, u, v, plan) == Ok(())
        }
        (None, None) => true,
        _ => false,
    };
    assert!(rt; is_right, "{name}, {u} to {v} at {at:?}: {plan:?}");
    drop(plan);
    Ok(())
}

/// The searches from both ends find the route of a question, whatever the workspace served for. For
/// one that crosses nothing they ask for no more prices than there are edges; else each end reaches
/// some faces, and none twice.
fn is_first<F: PriceFn>(
    rt: &impl Abort,
    alloc: Global,
    picture: &Picture,
    prices: (&Tariff<F>, &AtomicU32),
    question: &Question,
    work: &mut Workspace,
) -> Result<(), Fail> {
    let (tariff, asked) = prices;
    let ((u, v), at) = (question.ends, question.at);
    let name = question.on.0.name;
    assert!(rt; are_ends(picture, u, v), "{name}, {u} to {v}");
    asked.store(0, Ordering::SeqCst);
    let found = first_route(alloc, &picture.embedded(), tariff, u, v, work)?;
    let is_right = match (&found, &question.first) {
        (Some(found), Some(first)) => is_answer(&found.route, found.price, first),
        (None, None) => true,
        _ => false,
    };
    assert!(rt; is_right, "{name}, {u} to {v} at {at:?}: {found:?}");
    drop(found);
    let asked = asked.load(Ordering::SeqCst);
    let crosses = match &question.first {
        Some(first) => !first.1.is_empty(),
        None => true,
    };
    assert!(rt;
        crosses || asked <= picture.counts().edges,
        "{name}, {u} to {v} at {at:?}: {asked} prices"
    );
    let (reached, faces) = (work.reached(), picture.counts().faces as usize);
    assert!(rt;
        !crosses || reached > 0 && reached <= faces.saturating_mul(2),
        "{name}, {u} to {v} at {at:?}: {reached} faces of {faces}"
    );
    let seen = first_route_seen(alloc, &picture.embedded(), tariff, u, v, work)?;
    let is_right = match &seen {
        Some(seen) => is_seen(seen, question),
        None => question.first.is_none(),
    };
    drop(seen);
    assert!(rt; is_right, "{name}, {u} to {v} at {at:?}, with its region");
    Ok(())
}

/// A question that all searches are asked, those from both ends on a workspace that is kept.
#[derive(Drop)]
struct Asking<'a> {
    question: &'a Question,
    work: &'a mut Workspace,
}

impl Story for Asking<'_> {
    fn tell<F: PriceFn + Drop, R: Abort>(
        &mut self,
        rt: &R,
        alloc: Global,
        book: &mut Book<F>,
        asked: &AtomicU32,
    ) -> Result<(), Fail> {
        let question = self.question;
        for (v, position) in question.on.1 {
            drop(book.grow(alloc, 0, *v, *position, 0)?);
        }
        let (picture, tariff) = (book.picture(), book.tariff());
        let frozen = picture.freeze(alloc)?;
        have_prices(rt, &frozen, tariff, question);
        let told = is_planned(rt, alloc, &frozen, tariff, question, asked);
        drop(frozen);
        told?;
        is_first(
            rt,
            alloc,
            picture,
            (tariff, asked),
            question,
            &mut *self.work,
        )
    }
}

/// All questions are answered, there and back.
fn are_answered<R: Abort>(rt: &R, alloc: Global, work: &mut Workspace) -> Result<(), Fail> {
    for question in QUESTIONS.iter().chain(QUESTIONS.iter().rev()) {
        let (rest, entries) = question.at;
        let table = table_of(rest, entries)?;
        let mut story = Asking {
            question,
            work: &mut *work,
        };
        let start = picture_of(alloc, question.on.0);
        tell_at(rt, alloc, start, &table, &mut story)?;
    }
    Ok(())
}

#[test]
fn searches_find_the_first_of_the_least_routes(rt: HostRuntime) -> Result<(), Fail> {
    let mut work = Workspace::new(rt.alloc())?;
    let told = are_answered(&rt, rt.alloc(), &mut work);
    drop(work);
    told
}
