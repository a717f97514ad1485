//! A list of seventy thousand commands, all of which are accepted.

use crate::gates::Round;
use crate::harness::{Scene, Start, are_carried_out};
use crate::steps::Step;
use std::alloc::{AllocError, Global};
use std::test::Fail;
use topo_core::calls::Command;
use topo_test_support::calls::{delete, insert};

/// How many edges are put in and taken out again, one after the other: more calls than there are
/// edge ids.
const PAIRS: u32 = 35_000;

const SCENE: Scene<'static> = Scene {
    start: Start::Seed,
    prices: (Some(1), &[]),
    steps: &[(0, Step::Seen), (0, Step::View), (0, Step::Find(0, 1))],
    due: "[Done]\n\
        70000 seen, 70000 receipts\n\
        version 70000 with 1 edges\n\
        (0, 1) for 0\n\
        [(70000, 1)]; 70000 calls, replayed: true",
};

/// The commands of the list.
fn commands(alloc: Global) -> Result<Vec<Command>, AllocError> {
    let mut list = Vec::new(alloc);
    for edge in 1..=PAIRS {
        list.push(Command::Plain(insert(0, 1)))?;
        list.push(Command::Plain(delete(edge)))?;
    }
    Ok(list)
}

/// Then the pass looks at the version, and finds a route.
#[test]
fn a_list_may_have_more_calls_than_there_are_edge_ids(rt: HostRuntime) -> Result<(), Fail> {
    let list = commands(rt.alloc())?;
    let told = are_carried_out(&rt, &SCENE, &[list.as_slice()], &Round::Still);
    drop(list);
    told
}
