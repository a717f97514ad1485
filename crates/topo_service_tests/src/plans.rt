//! Insertions with plans that nobody searched for, and with plans of another picture.

use crate::harness::{Start, TestRuntime, Work, is_due, told_of};
use crate::steps::{Step, Steps};
use std::process::Abort;
use std::test::Fail;
use topo_core::calls::Call;
use topo_core::darts::{Dart, Way};
use topo_test_support::calls::{delete, grow};
use topo_test_support::plans::{LEAST_HEIGHTS, dart, invented};
use topo_test_support::prices::FIVE_TWO_NINE;

/// What these steps tell of a service that begins with the bipyramid.
fn told<R: TestRuntime>(rt: &R, work: Work<'_>, steps: Steps<'_>) -> Result<String, Fail> {
    let prices = (Some(1), FIVE_TWO_NINE);
    told_of(rt, Start::Bipyramid, prices, work, steps)
}

/// What is told of an insertion with a plan that has the ends and the price of the first route, and
/// the picture after it, is what is due.
fn is_told_of<R: TestRuntime>(
    rt: &R,
    crossed: Dart,
    heights: &[u64],
    due: &str,
) -> Result<(), Fail> {
    let plan = invented(rt.alloc(), 2, crossed, 2, 2, heights)?;
    let steps = [(0, Step::InsertGiven(3, 4)), (0, Step::Rows)];
    let told = told(rt, Work::Given(&plan), &steps);
    drop(plan);
    let told = told?;
    is_due(rt, told.as_str(), due);
    Ok(())
}

/// What is told of all invented plans is what is due: of the dart that the first route crosses,
/// with the least heights of which one is raised, with the least heights, and with others that
/// prove nothing; and of a dart that is not there.
fn is_told_of_all<R: TestRuntime>(rt: &R, due: &str) -> Result<(), Fail> {
    for at in 0..LEAST_HEIGHTS.len() {
        let mut heights = LEAST_HEIGHTS;
        heights[at] = heights[at].wrapping_add(1);
        is_told_of(rt, dart(1, 0, Way::Back), &heights, due)?;
    }
    is_told_of(rt, dart(1, 0, Way::Back), &LEAST_HEIGHTS, due)?;
    is_told_of(rt, dart(1, 0, Way::Back), &[u64::MAX; 18], due)?;
    is_told_of(rt, dart(1, 0, Way::Back), &[0; 18], due)?;
    is_told_of(rt, dart(99, 0, Way::Forward), &LEAST_HEIGHTS, due)
}

/// The text begins and ends so.
fn has_ends(rt: &impl Abort, told: &str, begins: &str, ends: &str) {
    assert!(rt; told.starts_with(begins), "{told}");
    assert!(rt; told.ends_with(ends), "{told}");
}

/// What is told of an edge between the apexes without a plan begins so.
const JOINED: &str = "Inserted(Inserted { id: EdgeId(9), route: Route { start: 2, \
    crossed: Listed { items: [Dart { edge: EdgeId(1), seg: 0, way: Back }] }, \
    end: 2 }, price: 2 })\n";

#[test]
fn an_invented_plan_changes_no_answer(rt: HostRuntime) -> Result<(), Fail> {
    let due = told(&rt, Work::Nothing(2), &[(0, JOIN), (0, Step::Rows)])?;
    has_ends(&rt, due.as_str(), JOINED, "; 1 calls, replayed: true");
    is_told_of_all(&rt, due.as_str())
}

/// An edge between the apexes, without a plan.
const JOIN: Step = Step::Make(Call::Insert {
    u: 3,
    v: 4,
    kind: 0,
});

/// What is told of a plan of the picture at the start, where then an edge that it crosses is taken
/// out and another grown, so that there are as many darts as before, and of an insertion.
fn told_of_late<R: TestRuntime>(rt: &R, insertion: Step) -> Result<String, Fail> {
    let deletion = Step::Make(delete(1));
    let growth = Step::Make(grow(3));
    told(
        rt,
        Work::Nothing(2),
        &[
            (0, Step::Plan(3, 4)),
            (0, deletion),
            (0, growth),
            (0, insertion),
            (0, Step::Rows),
        ],
    )
}

/// What is told first of a plan that comes late.
const LATE: &str = "planned for 2\n\
    Deleted(EdgeId(1))\n\
    Grown { vertex: VertexId(5), edge: EdgeId(9) }\n\
    Inserted(Inserted { id: EdgeId(10), ";

/// The edge is put in by the plan or without it.
#[test]
fn a_plan_of_another_picture_changes_no_answer(rt: HostRuntime) -> Result<(), Fail> {
    let due = told_of_late(&rt, JOIN)?;
    has_ends(&rt, due.as_str(), LATE, "; 3 calls, replayed: true");
    let late = told_of_late(&rt, Step::InsertPlanned(3, 4, 0))?;
    is_due(&rt, late.as_str(), due.as_str());
    drop((late, due));
    Ok(())
}
