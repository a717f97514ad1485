//! The search on small graphs.

ghost use Rattle.topo_price.specs.Prices.{IsPromise};

use crate::finder::Finder;
use crate::search::{Options, Progress, Search, SearchFault};
use std::alloc::Global;
use std::process::Abort;
use std::sync::Arc;
use std::test::Fail;
use topo_core::limits::Limits;
use topo_core::rows::{KINDS, Rows};
use topo_graph::{Effort, GraphEdge};
use topo_picture::Picture;
use topo_price::table::PriceTable;
use topo_price::tariff::{PriceFn, Tariff};

/// What a search has come to: crossings, or the fault.
#[derive(Clone, Copy, Debug, PartialEq, Eq)]
enum Outcome {
    Crossings(usize),
    Fault(SearchFault),
}

/// The edges of a complete graph.
fn complete(alloc: Global, vertices: u32, kind: u32) -> Result<Vec<GraphEdge>, Fail> {
    let mut edges = Vec::new(alloc);
    for a in 0..vertices {
        for b in 0..a {
            edges.push(GraphEdge { a, b, kind })?;
        }
    }
    Ok(edges)
}

/// The next number round a circle.
fn after(number: u32, count: u32) -> u32 {
    let next = number.wrapping_add(1);
    if next < count { next } else { 0 }
}

/// The product of two cycles of so many vertices.
fn torus(alloc: Global, width: u8) -> Result<Vec<GraphEdge>, Fail> {
    let width = width as u32;
    let mut edges = Vec::new(alloc);
    for row in 0..width {
        for column in 0..width {
            let a = row.wrapping_mul(width).wrapping_add(column);
            let right = row.wrapping_mul(width).wrapping_add(after(column, width));
            let below = after(row, width).wrapping_mul(width).wrapping_add(column);
            edges.push(GraphEdge {
                a,
                b: right,
                kind: 0,
            })?;
            edges.push(GraphEdge {
                a,
                b: below,
                kind: 0,
            })?;
        }
    }
    Ok(edges)
}

/// How many crossings rows have, which are a picture of these edges.
fn crossings_of(
    rt: &impl Abort,
    alloc: Global,
    edges: &[GraphEdge],
    found: Option<(Rows, Vec<u32>)>,
) -> Result<usize, Fail> {
    let (rows, places) = found.expect(rt, "a picture");
    let limits = Limits {
        vertices: 65_536,
        edges: 65_536,
        crossings: 1_048_576,
    };
    let _picture = Picture::load(alloc, limits, &rows)?;
    assert_eq!(rt; rows.edges.len(), edges.len());
    let mut seen = Vec::new(alloc);
    for row in rows.edges.iter() {
        let place = *places.get(row.id as usize).expect(rt, "an edge");
        let edge = *edges.get(place as usize).expect(rt, "an edge of the graph");
        let shown = GraphEdge {
            a: row.a,
            b: row.b,
            kind: row.kind,
        };
        assert_eq!(rt; shown, edge);
        assert!(rt; row.kind != 1 || row.crossings.len() == 0);
        seen.push(place)?;
    }
    seen.sort_unstable();
    seen.dedup();
    assert_eq!(rt; seen.len(), edges.len());
    Ok(rows.crossings.len())
}

/// What a search comes to.
fn outcome_of<F: PriceFn + Drop>(
    rt: &impl Abort,
    alloc: Global,
    vertices: u32,
    edges: &[GraphEdge],
    effort: Effort,
    ask: F,
) -> Result<Outcome, Fail>
    requires callable { F.is_callable ask }
    requires promise { IsPromise (F.may_return ask) }
{
    let tariff = Arc::new(alloc, Tariff::new(ask))?;
    let options = Options { seed: 1, effort };
    let copy = Vec::from_slice(alloc, edges)?;
    let mut search = Search::new(alloc, vertices as usize, copy, tariff, options)?;
    for _ in 0..1000 {
        match search.step(alloc) {
            Ok(Progress::Going { .. }) => {}
            Ok(Progress::Done) => break,
            Err(why) => return Ok(Outcome::Fault(why)),
        }
    }
    let best = search.into_best(alloc)?;
    Ok(Outcome::Crossings(crossings_of(rt, alloc, edges, best)?))
}

/// What a search comes to where kind 0 costs 1, kind 1 must not be crossed, and all others cost 10.
fn outcome_at_prices(
    rt: &impl Abort,
    alloc: Global,
    vertices: u32,
    edges: &[GraphEdge],
    effort: Effort,
) -> Result<Outcome, Fail> {
    let mut prices = [Some(10); KINDS];
    prices[0] = Some(1);
    prices[1] = None;
    let table = PriceTable::new(prices)?;
    table.laws();
    outcome_of(rt, alloc, vertices, edges, effort, table)
}

#[test]
fn complete_graphs(rt: HostRuntime) -> Result<(), Fail> {
    let alloc = rt.alloc();
    for (vertices, want) in [(2, 0), (4, 0), (5, 1), (6, 3), (8, 18)] {
        let edges = complete(alloc, vertices, 0)?;
        let found = outcome_at_prices(&rt, alloc, vertices, &edges, Effort::Default)?;
        assert_eq!(rt; found, Outcome::Crossings(want));
    }
    Ok(())
}

#[test]
fn a_torus(rt: HostRuntime) -> Result<(), Fail> {
    let alloc = rt.alloc();
    let edges = torus(alloc, 4)?;
    let found = outcome_at_prices(&rt, alloc, 16, &edges, Effort::Default)?;
    assert_eq!(rt; found, Outcome::Crossings(8));
    Ok(())
}

/// Parallel edges, and edges that must not be crossed: four of the five at vertex 0.
#[test]
fn forbidden_edges(rt: HostRuntime) -> Result<(), Fail> {
    let alloc = rt.alloc();
    let mut edges = complete(alloc, 6, 2)?;
    for b in 1..5 {
        edges.push(GraphEdge { a: 0, b, kind: 1 })?;
    }
    let found = outcome_at_prices(&rt, alloc, 6, &edges, Effort::Default)?;
    assert!(rt; matches!(found, Outcome::Crossings(_)));
    let found = outcome_at_prices(&rt, alloc, 5, &complete(alloc, 5, 1)?, Effort::Quick)?;
    assert!(rt; matches!(found, Outcome::Fault(SearchFault::NotPlanarized(_))));
    Ok(())
}

/// A graph that is not connected.
#[test]
fn not_connected(rt: HostRuntime) -> Result<(), Fail> {
    let alloc = rt.alloc();
    let edge = GraphEdge {
        a: 0,
        b: 1,
        kind: 0,
    };
    let found = outcome_at_prices(&rt, alloc, 3, &[edge], Effort::Quick)?;
    assert!(rt; matches!(found, Outcome::Fault(SearchFault::NotLoaded(_))));
    Ok(())
}

/// A graph whose edges are paths of so many edges, each, and whose vertices have so many leaves.
fn lengthened(
    alloc: Global,
    vertices: u32,
    edges: &[GraphEdge],
    length: u32,
    leaves: u32,
) -> Result<(u32, Vec<GraphEdge>), Fail> {
    let mut long = Vec::new(alloc);
    let mut next = vertices;
    for edge in edges {
        let mut from = edge.a;
        for i in 0..length {
            let is_last = i.wrapping_add(1) == length;
            let to = if is_last { edge.b } else { next };
            if !is_last {
                next = next.wrapping_add(1);
            }
            // Every other one leads back.
            let (a, b) = if i % 2 == 0 { (from, to) } else { (to, from) };
            long.push(GraphEdge {
                a,
                b,
                kind: edge.kind,
            })?;
            from = to;
        }
    }
    for vertex in 0..vertices {
        for _ in 0..leaves {
            long.push(GraphEdge {
                a: next,
                b: vertex,
                kind: 0,
            })?;
            next = next.wrapping_add(1);
        }
    }
    Ok((next, long))
}

/// Leaves and paths of one kind change no crossings.
#[test]
fn leaves_and_paths(rt: HostRuntime) -> Result<(), Fail> {
    let alloc = rt.alloc();
    let edges = complete(alloc, 6, 0)?;
    for (length, leaves) in [(1, 2), (3, 0), (2, 1)] {
        let (vertices, long) = lengthened(alloc, 6, &edges, length, leaves)?;
        let found = outcome_at_prices(&rt, alloc, vertices, &long, Effort::Default)?;
        assert_eq!(rt; found, Outcome::Crossings(3));
    }
    Ok(())
}

/// Edges of a vertex of two that are of different kinds stay two.
#[test]
fn paths_of_two_kinds(rt: HostRuntime) -> Result<(), Fail> {
    let alloc = rt.alloc();
    let (vertices, mut edges) = lengthened(alloc, 6, &complete(alloc, 6, 0)?, 2, 0)?;
    for i in 0..edges.len() {
        edges[i].kind = (i % 2) as u32;
    }
    let found = outcome_at_prices(&rt, alloc, vertices, &edges, Effort::Default)?;
    assert_eq!(rt; found, Outcome::Crossings(3));
    Ok(())
}

/// Graphs of which little is left: trees, cycles, a cycle on a stem, parallel edges.
#[test]
fn small_remains(rt: HostRuntime) -> Result<(), Fail> {
    let alloc = rt.alloc();
    for ends in [
        [(0, 1), (0, 2), (3, 0), (1, 4), (5, 4)].as_slice(),
        &[(0, 1), (1, 2), (3, 2), (3, 0)],
        &[(0, 1), (1, 2), (2, 3), (3, 4), (4, 2)],
        &[(0, 1), (1, 0), (1, 0), (1, 2)],
        &[(0, 1), (1, 0)],
        &[(0, 1)],
        &[(0, 1), (1, 2), (2, 0), (0, 3), (3, 4), (4, 0)],
    ] {
        let mut edges = Vec::new(alloc);
        let mut vertices = 0;
        for ends in ends {
            let (a, b) = *ends;
            edges.push(GraphEdge { a, b, kind: 0 })?;
            vertices = vertices.max(a.max(b).wrapping_add(1));
        }
        let found = outcome_at_prices(&rt, alloc, vertices, &edges, Effort::Default)?;
        assert_eq!(rt; found, Outcome::Crossings(0));
    }
    Ok(())
}

/// Goes on to the end of a search, and answers what it has found.
fn found_by<F: PriceFn + Drop>(
    rt: &impl Abort,
    alloc: Global,
    mut search: Search<F>,
) -> Result<(Rows, Vec<u32>), Fail> {
    for _ in 0..1000 {
        if search.step(alloc)? == Progress::Done {
            break;
        }
    }
    Ok(search.into_best(alloc)?.expect(rt, "a picture"))
}

/// How many crossings a search has that begins with the picture that a quick one has found.
fn crossings_again<F: PriceFn + Drop>(
    rt: &impl Abort,
    alloc: Global,
    vertices: u32,
    edges: &[GraphEdge],
    ask: F,
) -> Result<usize, Fail>
    requires callable { F.is_callable ask }
    requires promise { IsPromise (F.may_return ask) }
{
    let tariff = Arc::new(alloc, Tariff::new(ask))?;
    let vertices = vertices as usize;
    let options = Options {
        seed: 1,
        effort: Effort::Quick,
    };
    let copy = Vec::from_slice(alloc, edges)?;
    let first = Search::new(alloc, vertices, copy, Arc::clone(&tariff)?, options)?;
    let (rows, places) = found_by(rt, alloc, first)?;
    let mut sorted = Vec::new(alloc);
    for place in &places {
        sorted.push(*edges.get(*place as usize).expect(rt, "an edge"))?;
    }
    let copy = Vec::from_slice(alloc, &sorted)?;
    let mut second = Search::new(alloc, vertices, copy, tariff, options)?;
    second.begin_from(alloc, &rows)?;
    let best = found_by(rt, alloc, second)?;
    crossings_of(rt, alloc, &sorted, Some(best))
}

/// A search that begins with a picture that has leaves and paths.
#[test]
fn begun_from_a_picture(rt: HostRuntime) -> Result<(), Fail> {
    let alloc = rt.alloc();
    let (vertices, edges) = lengthened(alloc, 6, &complete(alloc, 6, 0)?, 2, 1)?;
    let table = PriceTable::new([Some(1); KINDS])?;
    table.laws();
    let crossings = crossings_again(&rt, alloc, vertices, &edges, table)?;
    assert_eq!(rt; crossings, 3);
    Ok(())
}

/// A search by levels finds a route from this vertex to each other one, and it crosses as few edges
/// as the first of the least routes.
fn cross_as_few<F: PriceFn + Drop>(
    rt: &impl Abort,
    alloc: Global,
    picture: &Picture,
    tariff: &Tariff<F>,
    u: u32,
) -> Result<(), Fail> {
    let mut plain = Finder::new(alloc, true, 1)?;
    let mut priced = Finder::new(alloc, false, 1)?;
    for v in 0..16 {
        if u != v && picture.admit(u, v, 0).is_ok() {
            let found = plain.by_levels(alloc, picture, u, v)?.expect(rt, "a route");
            let first = priced
                .route(alloc, picture, tariff, u, v)?
                .expect(rt, "a route");
            assert_eq!(rt; found.price, first.price);
            assert_eq!(rt; found.route.crossed.len(), first.route.crossed.len());
        }
    }
    Ok(())
}

/// The same from all vertices of a torus.
fn cross_as_few_on_a_torus<F: PriceFn + Drop>(
    rt: &impl Abort,
    alloc: Global,
    ask: F,
) -> Result<(), Fail>
    requires callable { F.is_callable ask }
    requires promise { IsPromise (F.may_return ask) }
{
    let tariff = Arc::new(alloc, Tariff::new(ask))?;
    let options = Options {
        seed: 1,
        effort: Effort::Quick,
    };
    let search = Search::new(alloc, 16, torus(alloc, 4)?, Arc::clone(&tariff)?, options)?;
    let (rows, _places) = found_by(rt, alloc, search)?;
    let limits = Limits {
        vertices: 16,
        edges: 32,
        crossings: 256,
    };
    let picture = Picture::load(alloc, limits, &rows)?;
    for u in 0..16 {
        cross_as_few(rt, alloc, &picture, &tariff, u)?;
    }
    Ok(())
}

#[test]
fn routes_by_levels(rt: HostRuntime) -> Result<(), Fail> {
    let alloc = rt.alloc();
    let table = PriceTable::new([Some(1); KINDS])?;
    table.laws();
    cross_as_few_on_a_torus(&rt, alloc, table)
}
