//! What a session answers about an edge.

ghost use Rattle.std.specs.Prelude.{◌≡◌, ℕ, IfOk, List, Option};
ghost use Rattle.topo_core.specs.Picture.{cross_row};
ghost use Rattle.topo_io.specs.Settings.{price_of_kind};
ghost use Rattle.topo_session.specs.Questions.{edge_found, meeting_of, meetings_on};
ghost use Rattle.topo_session.specs.Questions.{other_edge, sign_along};

use std::alloc::{AllocError, Global};
use topo_core::darts::Sign;
use topo_core::listed::Listed;
use topo_core::rows::{CrossRow, EdgeRow};
use topo_kept_rows::KeptRows;

/// A crossing as it is met along an edge.
#[derive(Clone, Copy, Debug, PartialEq, Eq)]
pub struct Meeting {
    /// The id of the crossing.
    pub crossing: u32,
    /// The other edge of the crossing.
    pub other: u32,
    /// How the other edge passes, as seen along this one.
    pub sign: Sign,
}

/// What is to be known of an edge. Its crossings stand in order from its end `a` to its end `b`. The
/// price is what a later edge pays to cross it, and none where none may.
#[derive(Drop, Debug)]
pub struct EdgeAnswer {
    pub a: u32,
    pub b: u32,
    pub crossings: Listed<Meeting>,
    pub id: u32,
    pub kind: u32,
    pub price: Option<u32>,
}

/// A crossing as it is met along edge `e`.
fn meeting_of(e: u32, row: CrossRow) -> Meeting
    ensures { result ≡ meeting_of e row }
{
    if row.crossed == e {
        Meeting {
            crossing: row.id,
            other: row.newcomer,
            sign: row.sign,
        }
    } else {
        Meeting {
            crossing: row.id,
            other: row.crossed,
            sign: row.sign.opposite(),
        }
    }
}

/// The crossings along an edge.
fn meetings_on(
    alloc: Global,
    rows: &KeptRows,
    e: u32,
    crossings: &[u32],
) -> Result<Listed<Meeting>, AllocError>
    ensures { IfOk result (λ found. found ≡ meetings_on rows.now e crossings.now) }
{
    let mut found = Vec::with_capacity(alloc, crossings.len())?;
    for crossing in crossings {
        if let Some(row) = rows.crossing(*crossing) {
            found.push(meeting_of(e, row))?;
        }
    }
    Ok(Listed::from_vec(found))
}

/// What is to be known of an edge of these rows, which has this price.
pub(crate) fn edge_found(
    alloc: Global,
    rows: &KeptRows,
    edge: &EdgeRow,
    price: Option<u32>,
) -> Result<EdgeAnswer, AllocError>
    ensures { IfOk result (λ found. (prices : List (Option ℕ))
        → price ≡ price_of_kind prices edge.now.kind
        → found ≡ edge_found prices rows.now edge.now) }
{
    let crossings = meetings_on(alloc, rows, edge.id, edge.crossings.as_slice())?;
    Ok(EdgeAnswer {
        a: edge.a,
        b: edge.b,
        crossings,
        id: edge.id,
        kind: edge.kind,
        price,
    })
}
