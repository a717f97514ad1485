//! The plain types: each call once, with values worked out by hand.

ghost use Rattle.topo_price.specs.Prices.{IsPromise};

use std::alloc::Global;
use std::process::Abort;
use std::test::Fail;
use topo_core::ids::{CrossId, EdgeId, VertexId};
use topo_core::limits::{Limits, LimitsFault};
use topo_core::listed::Listed;
use topo_core::rows::{Facts, Rows};
use topo_price::asked::Asked;
use topo_price::table::PriceFault;
use topo_price::tariff::{PriceFn, Tariff};
use topo_test_support::pictures::{BIPYRAMID, Named, rows_of};
use topo_test_support::prices::{FIVE_TWO_NINE, table_of};

#[test]
fn ids_are_their_numbers(rt: HostRuntime) {
    assert!(rt; VertexId::new(5).number() == 5);
    assert!(rt; EdgeId::new(6).number() == 6);
    assert!(rt; CrossId::new(7).number() == 7);
}

/// Limits as vertices, edges and crossings, and whether they are within their ranges.
const LIMITS: &[(u32, u32, u32, bool)] = &[
    (2, 1, 0, true),
    (65_536, 65_536, 1_048_576, true),
    (1, 1, 0, false),
    (65_537, 1, 0, false),
    (2, 0, 0, false),
    (2, 65_537, 0, false),
    (2, 1, 1_048_577, false),
];

#[test]
fn limits_have_ranges(rt: HostRuntime) {
    for limits in LIMITS {
        let (vertices, edges, crossings, accepted) = *limits;
        let is_right = match Limits::new(vertices, edges, crossings) {
            Ok(made) => {
                accepted
                    && (made.vertices, made.edges, made.crossings) == (vertices, edges, crossings)
            }
            Err(fault) => !accepted && fault == LimitsFault::BadLimits,
        };
        assert!(rt; is_right, "{limits:?}");
    }
}

/// Entries of kind 7, and why a table does not take them.
const ENTRIES: &[(u32, Option<PriceFault>)] = &[
    (0, Some(PriceFault::BadPrice(7))),
    (1001, Some(PriceFault::BadPrice(7))),
    (1, None),
    (1000, None),
];

/// Kind 0 costs 1, kind 1 costs 1000, and kind 2 has no price: so its floor is the greatest. All is
/// known before an edge is asked for its price.
fn is_known_by_kind<F: PriceFn + Drop>(rt: &impl Abort, ask: F)
    requires callable { F.is_callable ask }
    requires promise { IsPromise (F.may_return ask) }
{
    let tariff = Tariff::new(ask);
    assert!(rt; tariff.is_by_kind());
    assert!(rt; tariff.price_of_kind(1) == Some(Some(1000)));
    assert!(rt; tariff.price_of_kind(2) == Some(None));
    assert!(rt; (tariff.floor(0), tariff.floor(1), tariff.floor(2)) == (1, 1000, 65_535));
}

#[test]
fn prices_of_a_table_are_known_by_kind(rt: HostRuntime) -> Result<(), Fail> {
    let table = table_of(Some(1), &[(1, Some(1000)), (2, None)])?;
    table.laws();
    is_known_by_kind(&rt, table);
    Ok(())
}

/// The first two edges of the bipyramid, asked for at these prices.
fn are_asked_for<F: PriceFn + Drop>(alloc: Global, rows: &Rows, ask: F) -> Result<Asked, Fail>
    requires callable { F.is_callable ask }
    requires promise { IsPromise (F.may_return ask) }
{
    let tariff = Tariff::new(ask);
    let mut asked = Asked::new(alloc);
    for edge in 0..2 {
        let row = rows.edge(edge).ok_or("an edge")?;
        let facts = Facts::from_row(row).ok_or("facts of an edge")?;
        asked.ask(&tariff, &facts)?;
    }
    Ok(asked)
}

#[test]
fn answers_are_kept_in_order(rt: HostRuntime) -> Result<(), Fail> {
    let rows = rows_of(rt.alloc(), &BIPYRAMID)?;
    let table = table_of(Some(1), FIVE_TWO_NINE)?;
    table.laws();
    let asked = are_asked_for(rt.alloc(), &rows, table);
    drop(rows);
    let asked = asked?;
    assert_eq!(rt; asked.count(), 2);
    assert!(rt; (asked.price(0), asked.price(1)) == (Some(5), Some(2)));
    drop(asked);
    Ok(())
}

#[test]
fn tables_with_bad_entries_are_refused(rt: HostRuntime) {
    for (entry, due) in ENTRIES {
        let fault = table_of(Some(1), &[(7, Some(*entry))]).err();
        assert!(rt; fault == *due, "{entry}: {fault:?}");
    }
}

/// Three vertices, and the edges 4 and 6 from vertex 2 to vertex 1.
const TWO_EDGES: Named = Named {
    name: "two edges",
    rotations: &[&[], &[4, 6], &[4, 6]],
    edges: &[(4, 2, 1, 63, &[]), (6, 2, 1, 64, &[])],
    crossings: &[],
    next_edge: 7,
    next_crossing: 0,
};

/// Degrees and edges of these rows.
fn are_found(rt: &impl Abort, rows: &Rows) -> Result<(), Fail> {
    assert!(rt; (rows.degree(0), rows.degree(2), rows.degree(3)) == (0, 2, 0));
    assert!(rt; rows.edge(5).is_none());
    let row = rows.edge(4).ok_or("edge 4")?;
    let facts = Facts::from_row(row).ok_or("facts of edge 4")?;
    assert!(rt; (facts.id, facts.a, facts.b, facts.kind) == (4, 2, 1, 63));
    let row = rows.edge(6).ok_or("edge 6")?;
    assert!(rt; Facts::from_row(row).is_none());
    Ok(())
}

#[test]
fn rows_are_found_by_id(rt: HostRuntime) -> Result<(), Fail> {
    let rows = rows_of(rt.alloc(), &TWO_EDGES)?;
    let told = are_found(&rt, &rows);
    drop(rows);
    told
}

#[test]
fn lists_give_their_items_back(rt: HostRuntime) -> Result<(), Fail> {
    let mut listed = Listed::from_vec(vec![in rt.alloc(); 3u32]?);
    let is_pushed = listed.push(1).is_ok();
    assert!(rt; is_pushed && listed.as_slice() == [3, 1].as_slice());
    assert!(rt; listed.len() == 2 && listed.iter().max() == Some(&3));
    assert!(rt; (listed[0], listed[1]) == (3, 1));
    let items = listed.into_vec();
    let are_given_back = items.as_slice() == [3, 1].as_slice();
    drop(items);
    assert!(rt; are_given_back);
    Ok(())
}
