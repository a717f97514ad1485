//! Edges that lie apart from what a search has seen.

ghost use Rattle.std.specs.Prelude.{◌≡◌};
ghost use Rattle.std.specs.List.{list_all};
ghost use Rattle.topo_core.specs.Picture.{cross_row};
ghost use Rattle.topo_picture.specs.Apart.{is_of_others, lies_apart};

use topo_core::rows::EdgeRow;
use topo_kept_rows::KeptRows;
use topo_route::planned::region::Region;

/// Whether a crossing, if it is there, is of two edges that are not of the region.
fn is_of_others(rows: &KeptRows, region: &Region, crossing: u32) -> bool
    ensures { result ≡ is_of_others region.now (cross_row rows.now crossing) }
{
    match rows.crossing(crossing) {
        Some(row) => !region.has_edge(row.crossed) && !region.has_edge(row.newcomer),
        None => true,
    }
}

/// Whether all of these crossings are.
fn are_of_others(rows: &KeptRows, region: &Region, crossings: &[u32]) -> bool
    ensures { result ≡ list_all
        (λ x. is_of_others region.now (cross_row rows.now x)) crossings.now }
{
    crossings
        .iter()
        .all(|crossing| is_of_others(rows, region, *crossing))
}

/// Whether an edge is not of the region, ends at no vertex of it, and crosses no edge of it.
pub(crate) fn lies_apart(rows: &KeptRows, region: &Region, edge: &EdgeRow) -> bool
    ensures { result ≡ lies_apart rows.now region.now edge.now }
{
    !region.has_edge(edge.id)
        && !region.has_vertex(edge.a)
        && !region.has_vertex(edge.b)
        && are_of_others(rows, region, edge.crossings.as_slice())
}
