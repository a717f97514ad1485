//! The check of plans, and insertions by plans that are handed in.

use crate::searches::{APEXES, Answer, EVEN, is_answer};
use crate::stories::{Story, tell_at};
use std::alloc::{AllocError, Global};
use std::process::Abort;
use std::sync::atomic::{AtomicU32, Ordering};
use std::test::Fail;
use topo_book::Book;
use topo_core::calls::Reply;
use topo_core::darts::Way;
use topo_core::listed::Listed;
use topo_core::routes::Route;
use topo_picture::Picture;
use topo_price::tariff::PriceFn;
use topo_route::check::check;
use topo_route::plan::{Plan, PlanFault};
use topo_rows::LoadFault;
use topo_test_support::pictures::{BIPYRAMID, SEED, picture_of};
use topo_test_support::plans::{LEAST_HEIGHTS, are_ends, dart, invented};
use topo_test_support::prices::{Entries, FIVE_TWO_NINE, table_of};

/// A plan, what the check says of it, and the edge and the route of an insertion by it, if one is
/// made.
#[derive(Drop)]
struct ByPlan<'a> {
    /// Which row of the test it is.
    row: u64,
    plan: &'a Plan,
    ends: (u32, u32),
    said: Result<(), PlanFault>,
    inserted: Option<(u32, &'a Answer)>,
}

/// What the check says of a plan on the picture of a book.
fn said_of<F: PriceFn>(
    rt: &impl Abort,
    alloc: Global,
    book: &Book<F>,
    ends: (u32, u32),
    plan: &Plan,
) -> Result<Result<(), PlanFault>, AllocError> {
    let (u, v) = ends;
    let frozen = book.picture().freeze(alloc)?;
    assert!(rt; are_ends(&frozen, u, v));
    let said = check(&frozen, book.tariff(), u, v, plan);
    drop(frozen);
    Ok(said)
}

/// Whether this edge was put in along this route.
fn is_inserted(reply: &Reply, edge: u32, first: &Answer) -> bool {
    match reply {
        Reply::Inserted(made) => {
            made.id.number() == edge && is_answer(&made.route, made.price, first)
        }
        _ => false,
    }
}

impl Story for ByPlan<'_> {
    /// The check says what is due. An insertion takes the first route, whatever the plan; one that
    /// passes spares the search, so that no price is asked for but by the check.
    fn tell<F: PriceFn + Drop, R: Abort>(
        &mut self,
        rt: &R,
        alloc: Global,
        book: &mut Book<F>,
        asked: &AtomicU32,
    ) -> Result<(), Fail> {
        let (row, (u, v)) = (self.row, self.ends);
        let said = said_of(rt, alloc, book, self.ends, self.plan)?;
        assert!(rt; said == self.said, "row {row}: {said:?}");
        let Some((edge, first)) = self.inserted else {
            return Ok(());
        };
        let checked = asked.swap(0, Ordering::SeqCst);
        let reply = book.insert_planned(alloc, 0, u, v, 0, self.plan)?;
        let inserted = asked.load(Ordering::SeqCst);
        let is_right = is_inserted(&reply, edge, first);
        assert!(rt; is_right, "row {row}: {reply:?}");
        drop(reply);
        assert!(rt;
            said.is_err() || checked > 0 && inserted == checked,
            "row {row}: {checked} and {inserted} prices"
        );
        Ok(())
    }
}

/// A route as its start, the crossed edge and direction, its end and its price.
type Across = (u32, u32, Way, u32, u64);

/// Prices, a route between the apexes of the bipyramid, heights, what the check says, and the first
/// route.
type Judgement<'a> = (
    Entries,
    Across,
    &'a [u64],
    Result<(), PlanFault>,
    &'a Answer,
);

/// All kinds of edges cost 4.
const FOURS: Entries = &[(0, Some(4)), (1, Some(4)), (2, Some(4)), (3, Some(4))];

/// The first route at `FIVE_TWO_NINE`.
const CHEAPEST: Answer = (2, &[(1, 0, Way::Back)], 2, 2);

/// The first route at `FOURS`.
const FIRST: Answer = (0, &[(2, 0, Way::Back)], 1, 4);

const JUDGEMENTS: &[Judgement<'static>] = &[
    // the plan of the search
    (
        FIVE_TWO_NINE,
        (2, 1, Way::Back, 2, 2),
        &LEAST_HEIGHTS,
        Ok(()),
        &CHEAPEST,
    ),
    // edge 0 costs 5, but the least height at the start is 2
    (
        FIVE_TWO_NINE,
        (1, 0, Way::Back, 0, 5),
        &LEAST_HEIGHTS,
        Err(PlanFault::NotLeast),
        &CHEAPEST,
    ),
    // it does not cost 4
    (
        FIVE_TWO_NINE,
        (1, 0, Way::Back, 0, 4),
        &LEAST_HEIGHTS,
        Err(PlanFault::NotARoute),
        &CHEAPEST,
    ),
    // one height is missing
    (
        FIVE_TWO_NINE,
        (1, 0, Way::Back, 0, 5),
        &[3, 0, 2, 0, 3, 3, 3, 3, 2, 2, 3, 0, 0, 0, 0, 0, 0],
        Err(PlanFault::WrongLength),
        &CHEAPEST,
    ),
    // of three routes at price 4 that from the first corner is the first
    (
        FOURS,
        (1, 0, Way::Back, 0, 4),
        &EVEN,
        Err(PlanFault::NotFirst),
        &FIRST,
    ),
    // the target's corners are not at height 0
    (
        FIVE_TWO_NINE,
        (2, 1, Way::Back, 2, 2),
        &[u64::MAX; 18],
        Err(PlanFault::TargetNotZero),
        &CHEAPEST,
    ),
    // heights that prove nothing
    (
        FIVE_TWO_NINE,
        (2, 1, Way::Back, 2, 2),
        &[0; 18],
        Err(PlanFault::NotLeast),
        &CHEAPEST,
    ),
    // there is no edge 99
    (
        FIVE_TWO_NINE,
        (2, 99, Way::Forward, 2, 2),
        &LEAST_HEIGHTS,
        Err(PlanFault::NotARoute),
        &CHEAPEST,
    ),
];

/// A plan is judged as is due, and an insertion by it takes the first route.
fn is_judged<R: Abort>(
    rt: &R,
    alloc: Global,
    row: u64,
    judgement: &Judgement<'_>,
) -> Result<(), Fail> {
    let (entries, (start, edge, way, end, price), heights, said, first) = *judgement;
    let table = table_of(Some(1), entries)?;
    let plan = invented(alloc, start, dart(edge, 0, way), end, price, heights)?;
    let mut story = ByPlan {
        row,
        plan: &plan,
        ends: APEXES,
        said,
        inserted: Some((9, first)),
    };
    let bipyramid = picture_of(alloc, &BIPYRAMID);
    let told = tell_at(rt, alloc, bipyramid, &table, &mut story);
    drop(plan);
    told
}

#[test]
fn any_plan_is_judged_and_gives_the_first_route(rt: HostRuntime) -> Result<(), Fail> {
    for (row, judgement) in JUDGEMENTS.iter().enumerate() {
        is_judged(&rt, rt.alloc(), row as u64, judgement)?;
    }
    Ok(())
}

#[test]
fn one_height_raised_is_uneven(rt: HostRuntime) -> Result<(), Fail> {
    for place in 0..18 {
        let mut heights = LEAST_HEIGHTS;
        heights[place] = heights[place].wrapping_add(1);
        let judgement = (
            FIVE_TWO_NINE,
            (2, 1, Way::Back, 2, 2),
            heights.as_slice(),
            Err(PlanFault::UnevenFace),
            &CHEAPEST,
        );
        is_judged(&rt, rt.alloc(), place as u64, &judgement)?;
    }
    Ok(())
}

/// How many leaves the star has. Its one face has two darts for each.
const LEAVES: u32 = 30_000;

/// How many darts the long routes cross.
const CROSSED: u64 = 1_000_000;

/// The star that the seed grows to. Vertex 0 is its center.
fn star(alloc: Global) -> Result<Picture, LoadFault> {
    let mut picture = picture_of(alloc, &SEED)?;
    for _leaf in 1..LEAVES {
        let _grown = picture.grow(alloc, 0, 0, 0);
    }
    Ok(picture)
}

/// A plan that crosses the first edge from its left so many times. From the twin of that dart the
/// face goes all the way round the star until it comes to the dart again.
fn crossing_again(alloc: Global, price: u64) -> Result<Plan, AllocError> {
    let crossed = vec![in alloc; dart(0, 0, Way::Forward); CROSSED as usize]?;
    let heights = vec![in alloc; 0; 2 * LEAVES as usize]?;
    Ok(Plan {
        route: Route {
            start: 0,
            crossed: Listed::from_vec(crossed),
            end: 0,
        },
        price,
        heights: Listed::from_vec(heights),
    })
}

/// Prices of that plan from one leaf to another, where each edge costs 1, and what the check says.
const LONG: &[(u64, PlanFault)] = &[
    (CROSSED, PlanFault::NotLeast),
    (CROSSED - 1, PlanFault::NotARoute),
];

/// The long routes on the star are judged as is due.
fn are_judged<R: Abort>(rt: &R, alloc: Global, star: &Picture) -> Result<(), Fail> {
    let table = table_of(Some(1), &[])?;
    for (price, fault) in LONG {
        let plan = crossing_again(alloc, *price)?;
        let mut story = ByPlan {
            row: *price,
            plan: &plan,
            ends: (1, 2),
            said: Err(*fault),
            inserted: None,
        };
        let told = tell_at(rt, alloc, star.copy(alloc), &table, &mut story);
        drop(plan);
        told?;
    }
    Ok(())
}

#[test]
fn a_long_route_is_checked_in_little_time(rt: HostRuntime) -> Result<(), Fail> {
    let star = star(rt.alloc())?;
    let told = are_judged(&rt, rt.alloc(), &star);
    drop(star);
    told
}
