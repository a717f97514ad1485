//! How far a search goes on a large grid: the prices that an insertion asks for, between near and
//! between far vertices. A search that went over the whole picture would ask for thousands.

use crate::books::{Step, Steps};
use crate::stories::tell_at;
use std::test::Fail;
use topo_test_support::grids::Grid;
use topo_test_support::prices::table_of;

/// The grid, of 1,104 edges.
const GRID: Grid = Grid { width: 24 };

/// Insertions from a row and a column to others, and how many prices each asks for at most. On a
/// grid as wide as this one a search over the whole picture asks for more than two thousand.
const INSERTIONS: &[(Step, &str)] = &[
    // across the edge between two faces
    (Step::Cross(11 * 24 + 11, 13 * 24 + 12, 40), "crosses 1"),
    // across three rows
    (Step::Cross(4 * 24 + 18, 8 * 24 + 19, 150), "crosses 3"),
    // half across the grid
    (Step::Cross(12 * 24 + 6, 12 * 24 + 17, 600), "crosses 11"),
];

#[test]
fn a_search_stops_where_its_ends_have_met(rt: HostRuntime) -> Result<(), Fail> {
    let table = table_of(Some(7), &[])?;
    let grid = GRID.picture(rt.alloc());
    tell_at(&rt, rt.alloc(), grid, &table, &mut Steps(INSERTIONS))
}
