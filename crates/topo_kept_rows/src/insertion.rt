//! Insertion on plain rows. What can fail comes before what cannot, and what was changed before a
//! failure is changed back.

ghost use Rattle.std.specs.Prelude.{◌≡◌, ◌≢◌, ◌+◌, ◌<◌, ◌≤◌, ◌^◌, ℕ, List, true};
ghost use Rattle.std.specs.Prelude.{nat_lt, IfOk, OnOk, OnErr, length, map};
ghost use Rattle.std.specs.Prelude.{drop, filter, take, slice_index_or, [], ◌∷◌, ◌++◌};
ghost use Rattle.std.specs.List.{count_by, enumerate_from, list_all};
ghost use Rattle.topo_core.specs.Changes.{shown, sign_of, with_end};
ghost use Rattle.topo_core.specs.Insertions.{IsInsertable};
ghost use Rattle.topo_core.specs.Lawful.{IsWellFormed};
ghost use Rattle.topo_kept_rows.specs.Keeping.{HaveOwnIds, edges_of, new_entry};
ghost use Rattle.topo_table.specs.Places.{AreBelow, KeepsPlaces, entries, ids_of};
ghost use Rattle.topo_kept_rows.specs.Inserting.{AreOnPaths, crossed_by, crossed_path};
ghost use Rattle.topo_kept_rows.specs.Inserting.{paths_below, repathed, segment_end};

use crate::kept::{Crossing, KeptRows, put_edge};
use crate::rotation::Rotation;
use std::alloc::{AllocError, Global};
use topo_core::darts::{Dart, Sign, Way};
use topo_core::listed::Listed;
use topo_core::routes::Route;
use topo_core::rows::EdgeRow;
use topo_table::Table;

/// How many ids of a path are looked at at once.
const BLOCK: usize = 32;

/// How many of these ids are before this one. All are looked at, so that several can be at once.
fn count_below(ids: &[u32], first: u32) -> u32
    requires { length ids.now < 2 ^ 32 }
    ensures { result ≡ count_by (λ x. nat_lt x first) ids.now }
{
    let mut count = 0;
    for x in ids {
        count += (*x < first) as u32;
    }
    count
}

/// Passes over the first blocks of a path, in which a segment does not end: where it goes on behind
/// them, and how many crossings count there before the end.
fn pass_blocks(path: &[u32], segment: u32, first: u32) -> (usize, u32)
    ensures within { result.0 ≤ length path.now }
    ensures same { result.0 + segment_end first result.1 (drop result.0 path.now)
        ≡ segment_end first segment path.now }
{
    let mut place = 0;
    let mut left = segment;
    while path.len() - place >= BLOCK {
        let below = count_below(&path[place..place + BLOCK], first);
        if below > left {
            break;
        }
        left -= below;
        place += BLOCK;
    }
    (place, left)
}

/// The place on a path where a segment ends, when only the crossings with ids before `first` count.
fn segment_end(path: &[u32], segment: u32, first: u32) -> usize
    ensures { result ≡ segment_end first segment path.now }
{
    let (place, mut left) = pass_blocks(path, segment, first);
    for i in place..path.len() {
        if path[i] < first {
            if left == 0 {
                return i;
            }
            left -= 1;
        }
    }
    path.len()
}

/// Puts crossing `x` on a path at the end of a segment, when only the crossings with ids before
/// `first` count.
fn cross_path(path: &mut Listed<u32>, segment: u32, first: u32, x: u32) -> Result<(), AllocError>
    ensures ok { OnOk result (path.new ≡ crossed_path first segment x path.old) }
    ensures err { OnErr result (path.new ≡ path.old) }
{
    let at = segment_end(path.as_slice(), segment, first);
    path.as_vec_mut().insert(at, x)?;
    Ok(())
}

/// Takes the ids from `first` on out of a list.
fn keep_below(list: &mut Listed<u32>, first: u32)
    ensures { list.new ≡ filter (λ x. nat_lt x first) list.old }
{
    list.as_vec_mut().retain(|x| *x < first);
}

/// Puts crossing `x` on the path of edge `e`.
fn cross_edge(
    edges: &mut Table<EdgeRow>,
    e: u32,
    segment: u32,
    first: u32,
    x: u32,
) -> Result<(), AllocError>
    requires { HaveOwnIds edges.old }
    ensures ok { OnOk result
        (edges_of edges.new
        ≡ map (repathed e (crossed_path first segment x)) (edges_of edges.old)) }
    ensures err { OnErr result (edges_of edges.new ≡ edges_of edges.old) }
    ensures places { KeepsPlaces edges.old edges.new }
    ensures own { HaveOwnIds edges.new }
{
    match edges.place_of(e) {
        Some(place) => {
            let mut row = edges.take(place);
            let done = cross_path(&mut row.crossings, segment, first, x);
            edges.put(place, row);
            done
        }
        None => Ok(()),
    }
}

/// Takes the crossings from `first` on out of the path of edge `e`.
fn uncross_edge(edges: &mut Table<EdgeRow>, e: u32, first: u32)
    requires { HaveOwnIds edges.old }
    ensures edges { edges_of edges.new
        ≡ map (repathed e (filter (λ x. nat_lt x first))) (edges_of edges.old) }
    ensures places { KeepsPlaces edges.old edges.new }
    ensures own { HaveOwnIds edges.new }
{
    match edges.place_of(e) {
        Some(place) => {
            let mut row = edges.take(place);
            keep_below(&mut row.crossings, first);
            edges.put(place, row);
        }
        None => {}
    }
}

/// Puts crossings on the segments of the darts, with ids from `first` on, as far as there is
/// memory, and answers how many.
fn cross_some(edges: &mut Table<EdgeRow>, darts: &[Dart], first: u32) -> usize
    requires own { HaveOwnIds edges.old }
    requires below { paths_below first (edges_of edges.old) ≡ true }
    requires there { AreOnPaths (edges_of edges.old) darts.now }
    requires ids { first + length darts.now < 2 ^ 32 }
    ensures within { result ≤ length darts.now }
    ensures crossed { edges_of edges.new
        ≡ map (crossed_by first (take result darts.now)) (edges_of edges.old) }
    ensures places { KeepsPlaces edges.old edges.new }
    ensures own { HaveOwnIds edges.new }
{
    for (i, dart) in darts.iter().enumerate() {
        let x = first + i as u32;
        if cross_edge(edges, dart.edge.number(), dart.seg, first, x).is_err() {
            return i;
        }
    }
    darts.len()
}

/// Takes the crossings of the darts out again, the last one first.
fn uncross(edges: &mut Table<EdgeRow>, darts: &[Dart], first: u32)
    requires own { HaveOwnIds edges.old }
    requires ids { first + length darts.now < 2 ^ 32 }
    ensures edges { (was : List EdgeRow) → paths_below first was ≡ true
        → edges_of edges.old ≡ map (crossed_by first darts.now) was → edges_of edges.new ≡ was }
    ensures places { KeepsPlaces edges.old edges.new }
    ensures own { HaveOwnIds edges.new }
{
    let mut n = darts.len();
    while n > 0 {
        n -= 1;
        uncross_edge(edges, darts[n].edge.number(), first + n as u32);
    }
}

/// Puts crossings on the segments of the darts, with ids from `first` on, or none where memory is
/// short.
fn cross(edges: &mut Table<EdgeRow>, darts: &[Dart], first: u32) -> Result<(), AllocError>
    requires own { HaveOwnIds edges.old }
    requires below { paths_below first (edges_of edges.old) ≡ true }
    requires there { AreOnPaths (edges_of edges.old) darts.now }
    requires ids { first + length darts.now < 2 ^ 32 }
    ensures ok { OnOk result
        (edges_of edges.new ≡ map (crossed_by first darts.now) (edges_of edges.old)) }
    ensures err { OnErr result (edges_of edges.new ≡ edges_of edges.old) }
    ensures places { KeepsPlaces edges.old edges.new }
    ensures own { HaveOwnIds edges.new }
{
    let done = cross_some(edges, darts, first);
    if done < darts.len() {
        uncross(edges, &darts[..done], first);
        return Err(AllocError);
    }
    Ok(())
}

/// Puts the edge of a row into the corners where a route starts and ends, or into none.
fn join_ends(rotations: &mut [Rotation], row: &EdgeRow, route: &Route) -> Result<(), AllocError>
    requires a { row.now.a < length rotations.old }
    requires b { row.now.b < length rotations.old }
    requires apart { row.now.a ≢ row.now.b }
    requires start { route.now.start ≤ length (slice_index_or rotations.old row.now.a []) }
    requires end { route.now.end ≤ length (slice_index_or rotations.old row.now.b []) }
    requires new { list_all (λ e. nat_lt e row.now.id)
        (slice_index_or rotations.old row.now.a []) ≡ true }
    ensures ok { OnOk result
        (rotations.new ≡ with_end (with_end rotations.old row.now.a route.now.start row.now.id)
        row.now.b route.now.end row.now.id) }
    ensures err { OnErr result (rotations.new ≡ rotations.old) }
{
    rotations[row.a as usize].put_in(route.start, row.id)?;
    if rotations[row.b as usize].put_in(route.end, row.id).is_err() {
        rotations[row.a as usize].keep_below(row.id);
        return Err(AllocError);
    }
    Ok(())
}

/// The ids of the crossings of the darts, from `first` on: the path of an edge that crosses them.
fn path_across(alloc: Global, darts: &[Dart], first: u32) -> Result<Listed<u32>, AllocError>
    requires { first + length darts.now < 2 ^ 32 }
    ensures { IfOk result (λ path. path ≡ map (λ x. x.0) (enumerate_from first darts.now)) }
{
    let mut path = Vec::with_capacity(alloc, darts.len())?;
    for i in 0..darts.len() {
        path.push(first + i as u32)?;
    }
    Ok(Listed::from_vec(path))
}

/// The sign of a crossing where the newcomer crosses a dart of this direction.
fn sign_of(way: Way) -> Sign
    ensures { result ≡ sign_of way }
{
    match way {
        Way::Forward => Sign::LeftToRight,
        Way::Back => Sign::RightToLeft,
    }
}

/// Puts the crossings of an edge that crosses the darts behind the others, with ids from `first`
/// on. There is room for them.
fn add_crossings(crossings: &mut Table<Crossing>, darts: &[Dart], first: u32, edge: u32)
    requires ids { first + length darts.now < 2 ^ 32 }
    requires room { length darts.now ≤ crossings.old.room }
    requires below { AreBelow first crossings.old.slots }
    ensures entries { entries crossings.new ≡ entries crossings.old
        ++ map (new_entry edge) (enumerate_from first darts.now) }
    ensures below { AreBelow (first + length darts.now) crossings.new.slots }
{
    for i in 0..darts.len() {
        let dart = darts[i];
        let crossing = Crossing {
            crossed: dart.edge.number(),
            newcomer: edge,
            sign: sign_of(dart.way),
        };
        crossings.push(first + i as u32, crossing);
    }
}

/// Puts the edge of a row and its crossings into the lists and the tables, or leaves them as they
/// were.
fn insert_lists(
    rotations: &mut [Rotation],
    edges: &mut Table<EdgeRow>,
    crossings: &mut Table<Crossing>,
    row: EdgeRow,
    route: &Route,
    first: u32,
) -> Result<(), AllocError>
    requires a { row.a < length rotations.old }
    requires b { row.b < length rotations.old }
    requires apart { row.a ≢ row.b }
    requires start { route.now.start ≤ length (slice_index_or rotations.old row.a []) }
    requires end { route.now.end ≤ length (slice_index_or rotations.old row.b []) }
    requires new { list_all (λ e. nat_lt e row.id) (slice_index_or rotations.old row.a []) ≡ true }
    requires below { paths_below first (edges_of edges.old) ≡ true }
    requires there { AreOnPaths (edges_of edges.old) route.now.crossed }
    requires edges_below { AreBelow row.id edges.old.slots }
    requires own { HaveOwnIds edges.old }
    requires crossings_below { AreBelow first crossings.old.slots }
    requires ids { first + length route.now.crossed < 2 ^ 32 }
    ensures rotations { OnOk result (rotations.new
        ≡ with_end (with_end rotations.old row.a route.now.start row.id)
        row.b route.now.end row.id) }
    ensures edges { OnOk result (edges_of edges.new
        ≡ map (crossed_by first route.now.crossed) (edges_of edges.old) ++ row ∷ []) }
    ensures edges_below { OnOk result (AreBelow (row.id + 1) edges.new.slots) }
    ensures own { HaveOwnIds edges.new }
    ensures crossings { OnOk result (entries crossings.new ≡ entries crossings.old
        ++ map (new_entry row.id) (enumerate_from first route.now.crossed)) }
    ensures crossings_below { OnOk result
        (AreBelow (first + length route.now.crossed) crossings.new.slots) }
    ensures rotations_stay { OnErr result (rotations.new ≡ rotations.old) }
    ensures edges_stay { OnErr result (edges_of edges.new ≡ edges_of edges.old) }
    ensures edge_ids_stay { OnErr result (ids_of edges.new.slots ≡ ids_of edges.old.slots) }
    ensures crossings_stay { OnErr result (crossings.new.slots ≡ crossings.old.slots) }
{
    let darts = route.crossed.as_slice();
    edges.reserve(1)?;
    crossings.reserve(darts.len())?;
    cross(edges, darts, first)?;
    if join_ends(rotations, &row, route).is_err() {
        uncross(edges, darts, first);
        return Err(AllocError);
    }
    add_crossings(crossings, darts, first, row.id);
    put_edge(edges, row);
    Ok(())
}

/// Puts a new edge from `u` to `v` along a route, with a crossing on each segment that the route
/// crosses.
pub fn apply_rows(
    alloc: Global,
    rows: &mut KeptRows,
    u: u32,
    v: u32,
    kind: u32,
    route: &Route,
) -> Result<(), AllocError>
    requires formed { IsWellFormed rows.old }
    requires insertable { IsInsertable rows.old u v kind route.now }
    requires edges { rows.old.next_edge + 1 < 2 ^ 32 }
    requires crossings { rows.old.next_crossing + length route.now.crossed < 2 ^ 32 }
    ensures ok { OnOk result (rows.new ≡ shown rows.old u v kind route.now) }
    ensures err { OnErr result (rows.new ≡ rows.old) }
{
    let first = rows.next_crossing;
    let row = EdgeRow {
        id: rows.next_edge,
        a: u,
        b: v,
        kind,
        crossings: path_across(alloc, route.crossed.as_slice(), first)?,
    };
    insert_lists(
        rows.rotations.as_vec_mut(),
        &mut rows.edges,
        &mut rows.crossings,
        row,
        route,
        first,
    )?;
    rows.next_edge += 1;
    rows.next_crossing += route.crossed.as_slice().len() as u32;
    Ok(())
}
