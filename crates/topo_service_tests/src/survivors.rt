//! Routes that were found before other calls changed the picture.

use crate::gates::Round;
use crate::harness::{Start, TestRuntime, Work, is_due, told_of};
use crate::steps::{Step, Steps};
use std::alloc::{AllocError, Global};
use std::process::Abort;
use std::test::Fail;
use topo_core::calls::{Call, Command};
use topo_test_support::calls::{delete, grow, insert, planned};
use topo_test_support::grids::Grid;

/// The grid of the tests.
pub(crate) const GRID: Grid = Grid { width: 8 };

/// The route is looked for between these two vertices of the grid. It crosses one edge, the one
/// below the face to the right of and below its start.
const FROM: u32 = 9;

const TO: u32 = 26;

/// The first edge that is put in later: a grid of this width has 112 edges.
const FIRST_NEW: u32 = 112;

/// A change of the grid. Vertices are given by their rows and columns.
#[derive(Clone, Copy)]
enum Change {
    /// A vertex grows in the first corner of this one.
    Grow(u8, u8),
    /// An edge is put in between these two.
    Insert((u8, u8), (u8, u8)),
    /// The edge from a vertex to the one on its right is taken out.
    Right(u8, u8),
    /// The edge from a vertex to the one below it is taken out.
    Below(u8, u8),
    /// Any other call of a worker.
    Other(Call),
}

/// Takes the edge out that was put in first.
const TAKEN_BACK: Change = Change::Other(Call::Delete { edge: FIRST_NEW });

/// The call that makes a change.
fn call_of(change: Change) -> Call {
    match change {
        Change::Grow(row, column) => grow(GRID.at(row, column)),
        Change::Insert((row, column), (down, along)) => {
            insert(GRID.at(row, column), GRID.at(down, along))
        }
        Change::Right(row, column) => delete(GRID.right_of(row, column)),
        Change::Below(row, column) => delete(GRID.below(row, column)),
        Change::Other(call) => call,
    }
}

/// The steps of a pass that finds a route, of another that makes these changes, and of the first,
/// which puts an edge in along the route.
fn steps_round(alloc: Global, between: &[Change]) -> Result<Vec<(usize, Step)>, AllocError> {
    let mut steps = vec![in alloc; (1, Step::Find(FROM, TO))]?;
    for change in between {
        steps.push((0, Step::Make(call_of(*change))))?;
    }
    steps.extend_from_slice(&[
        (1, Step::Asked),
        (1, Step::InsertFound(0)),
        (1, Step::Asked),
    ])?;
    Ok(steps)
}

/// What is told of these steps on the grid, where all prices are 1.
fn told_on_grid<R: TestRuntime>(rt: &R, work: Work<'_>, steps: Steps<'_>) -> Result<String, Fail> {
    told_of(rt, Start::Grid, (Some(1), &[]), work, steps)
}

/// What is told of a route that one pass finds, of changes by another, and of an insertion along
/// the route.
fn told_after<R: TestRuntime>(rt: &R, between: &[Change]) -> Result<String, Fail> {
    let steps = steps_round(rt.alloc(), between)?;
    let told = told_on_grid(rt, Work::Nothing(2), steps.as_slice());
    drop(steps);
    told
}

/// How what is told ends where so many changes come between, behind how many prices the last step
/// has asked for.
const ENDS: [&str; 4] = [
    "times\n[]; 1 calls, replayed: true",
    "times\n[]; 2 calls, replayed: true",
    "times\n[]; 3 calls, replayed: true",
    "times\n[]; 4 calls, replayed: true",
];

/// All calls are entered and replayed, and a route that is still known is taken with no price
/// asked.
fn is_end(rt: &impl Abort, told: &str, end: &str, is_known: bool) {
    let rest = told.strip_suffix(end);
    assert!(rt; rest.is_some(), "{told}");
    let asks_none = rest.unwrap_or("").ends_with("asked 0 ");
    assert!(rt; asks_none == is_known, "{told}");
}

/// Each row says what is changed between, and whether the route is then known.
fn are_told<R: TestRuntime>(rt: &R, rows: &[&[Change]], is_known: bool) -> Result<(), Fail> {
    for between in rows {
        let end = *ENDS.get(between.len()).ok_or("so many changes")?;
        let told = told_after(rt, *between)?;
        is_end(rt, told.as_str(), end, is_known);
        drop(told);
    }
    Ok(())
}

/// Changes elsewhere in the picture.
const ELSEWHERE: &[&[Change]] = &[
    &[],
    &[Change::Grow(7, 7)],
    &[Change::Insert((5, 5), (7, 6))],
    &[Change::Right(6, 5)],
    &[Change::Insert((5, 5), (7, 6)), TAKEN_BACK],
    &[
        Change::Other(Call::Grow {
            u: 999,
            position: 0,
            kind: 0,
        }),
        Change::Other(Call::Delete { edge: 999 }),
        Change::Insert((6, 6), (6, 6)),
    ],
    &[
        Change::Insert((5, 5), (7, 6)),
        Change::Below(5, 6),
        Change::Grow(6, 6),
    ],
    &[
        Change::Insert((0, 6), (2, 6)),
        Change::Insert((6, 0), (7, 2)),
    ],
];

#[test]
fn a_route_outlives_what_changes_elsewhere(rt: HostRuntime) -> Result<(), Fail> {
    are_told(&rt, ELSEWHERE, true)
}

/// A route outlives a growth elsewhere and refused calls, if they are no more than are looked
/// through.
fn outlives_calls<R: TestRuntime>(
    rt: &R,
    refused: u32,
    end: &str,
    is_known: bool,
) -> Result<(), Fail> {
    let mut between = vec![in rt.alloc(); Change::Grow(7, 7)]?;
    for _call in 0..refused {
        between.push(Change::Other(Call::Delete { edge: 999 }))?;
    }
    let told = told_after(rt, between.as_slice());
    drop(between);
    let told = told?;
    is_end(rt, told.as_str(), end, is_known);
    Ok(())
}

#[test]
fn a_route_outlives_as_many_calls_as_are_looked_through(rt: HostRuntime) -> Result<(), Fail> {
    outlives_calls(&rt, 255, "times\n[]; 257 calls, replayed: true", true)?;
    outlives_calls(&rt, 256, "times\n[]; 258 calls, replayed: true", false)
}

/// Changes of the region of the search. The route leads from the vertex at (1, 1), that is, row and
/// column, to the one at (3, 2).
const NEARBY: &[&[Change]] = &[
    &[Change::Grow(1, 1)],
    &[Change::Grow(3, 2)],
    &[Change::Insert((1, 1), (2, 2))],
    &[Change::Insert((2, 0), (3, 1))],
    &[Change::Below(1, 2)],
    &[Change::Insert((1, 0), (3, 1)), TAKEN_BACK],
    &[Change::Insert((5, 5), (7, 6)), Change::Grow(2, 2)],
];

#[test]
fn a_route_is_looked_for_again_if_its_region_changed(rt: HostRuntime) -> Result<(), Fail> {
    are_told(&rt, NEARBY, false)
}

/// The ends of insertions, of which some have the greater number first.
const INSERTED: [(u32, u32); 5] = [
    (FROM, TO),
    (TO, FROM),
    (5 * 8 + 5, 7 * 8 + 6),
    (7 * 8, 7),
    (6 * 8 + 6, 8 + 2),
];

/// The insertions as commands, planned or not.
fn insertions(alloc: Global, is_planned: bool) -> Result<Vec<Command>, AllocError> {
    let mut list = Vec::new(alloc);
    for (u, v) in INSERTED {
        list.push(if is_planned {
            planned(u, v)
        } else {
            Command::Plain(insert(u, v))
        })?;
    }
    Ok(list)
}

/// What one list of the insertions tells, planned or not: how many prices it asks for, and how it
/// ends.
fn told_of_insertions<R: TestRuntime>(rt: &R, is_planned: bool) -> Result<String, Fail> {
    let list = insertions(rt.alloc(), is_planned)?;
    let work = Work::Lists(&[list.as_slice()], &Round::Still);
    let told = told_on_grid(rt, work, &[(0, Step::Asked)]);
    drop(list);
    told
}

#[test]
fn planned_insertions_of_one_list_ask_for_no_more_prices(rt: HostRuntime) -> Result<(), Fail> {
    let planned = told_of_insertions(&rt, true)?;
    let plain = told_of_insertions(&rt, false)?;
    is_due(&rt, planned.as_str(), plain.as_str());
    drop((planned, plain));
    Ok(())
}
