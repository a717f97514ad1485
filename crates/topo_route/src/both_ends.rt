//! The search from both ends.

ghost use Rattle.std.specs.Prelude.{◌≡◌, [], IfOk, OnOk};
ghost use Rattle.topo_route.specs.Searches.{BothMeet, HasLeastHeights, HasPrices, KeepsPrices};
ghost use Rattle.topo_route.specs.Searches.{SpreadsFrom, priced_faces};

use crate::face_graph::FaceGraph;
use crate::priced_graph::PricedGraph;
use crate::spread::Ends;
use crate::workspace::Workspace;
use std::alloc::AllocError;
use topo_price::tariff::PriceFn;

/// No two heights that are reached make up more than this.
const MAX_HEIGHT_SUM: u64 = u64::MAX - 1;

/// Where a search from both ends has stopped.
#[derive(Clone, Copy)]
pub(crate) struct Stop {
    /// The target's end has settled all darts lower than this, and the start's end those that are
    /// no farther from it than the rest of the least price.
    pub level: u64,
    /// The least price of a route; the greatest number where there is none.
    pub least: u64,
}

/// Gives the faces at both ends height 0: the least sum of the two heights of a face so far.
pub(crate) fn start_both<W: FaceGraph, F: PriceFn>(
    priced: &PricedGraph<W, F>,
    work: &mut Workspace,
    u: u32,
    v: u32,
) -> Result<u64, AllocError>
    ensures { IfOk result
        (SpreadsFrom (priced_faces W.FaceGraph F.PriceFn priced.now) u v work.new) }
{
    let faces = priced.graph.faces() as usize;
    work.to_end.clear(faces)?;
    work.to_start.clear(faces)?;
    let mut least = u64::MAX;
    work.to_end
        .start_at(priced, &work.to_start.heights, &mut least, v)?;
    work.to_start
        .start_at(priced, &work.to_end.heights, &mut least, u)?;
    Ok(least)
}

/// Spreads from both ends until no face that waits can be on a route that is cheaper than the
/// cheapest found, or until one end has nothing left. The end for which fewer wait goes on. The
/// answer is how high the darts are that the target's end has taken. What is known does not rest on
/// it: whatever the number, what is left to do from there is done.
fn spread_both<W: FaceGraph, F: PriceFn>(
    priced: &PricedGraph<W, F>,
    work: &mut Workspace,
    least: &mut u64,
    u: u32,
    v: u32,
) -> Result<u64, AllocError>
    requires right { KeepsPrices (priced_faces W.FaceGraph F.PriceFn priced.now) }
    requires both { SpreadsFrom (priced_faces W.FaceGraph F.PriceFn priced.now)
        u v work.old least.old }
    ensures { IfOk result (λ _.
        SpreadsFrom (priced_faces W.FaceGraph F.PriceFn priced.now) u v work.new least.new) }
{
    let mut level = 0;
    let mut far = 0u64;
    while far.saturating_add(level) <= *least {
        if work.to_start.waiting.count() < work.to_end.waiting.count() {
            match work
                .to_start
                .spread_next(priced, &work.to_end.heights, least, u)?
            {
                Some(height) => far = height,
                None => return Ok(1),
            }
        } else {
            match work
                .to_end
                .spread_next(priced, &work.to_start.heights, least, v)?
            {
                Some(height) => level = height,
                None => return Ok(u64::MAX),
            }
        }
    }
    Ok(level)
}

/// From where the two ends have met: spreads from the start to all darts that a route which passes
/// the level can have on its way there, and then from the target to all below the level, and on
/// along the cheapest routes alone. The level is no higher than the least price, so that the faces
/// at the start are among those that its end has settled.
fn finish<W: FaceGraph, F: PriceFn>(
    priced: &PricedGraph<W, F>,
    work: &mut Workspace,
    mut least: u64,
    u: u32,
    v: u32,
    level: u64,
) -> Result<Stop, AllocError>
    requires priced { HasPrices (priced_faces W.FaceGraph F.PriceFn priced.now) }
    requires both { SpreadsFrom (priced_faces W.FaceGraph F.PriceFn priced.now) u v work.old least }
    ensures { IfOk result
        (BothMeet (priced_faces W.FaceGraph F.PriceFn priced.now) u v work.new) }
{
    let reach = least.saturating_add(1);
    let level = level.clamp(1, least.clamp(1, MAX_HEIGHT_SUM));
    let ends = Ends {
        v: u,
        other: &work.to_end.heights,
        guide: None,
    };
    work.to_start
        .spread(priced, &ends, &mut least, reach - level, 0)?;
    let level = level.min(least.max(1));
    let ends = Ends {
        v,
        other: &work.to_start.heights,
        guide: None,
    };
    work.to_end
        .spread(priced, &ends, &mut least, level, MAX_HEIGHT_SUM)?;
    Ok(Stop {
        level: level.min(least.max(1)),
        least,
    })
}

/// The least prices of the darts' faces to a face at the target, as far as routes from `u` need
/// them.
pub(crate) fn heights_for<W: FaceGraph, F: PriceFn>(
    priced: &PricedGraph<W, F>,
    u: u32,
    v: u32,
    work: &mut Workspace,
) -> Result<Stop, AllocError>
    requires { HasPrices (priced_faces W.FaceGraph F.PriceFn priced.now) }
    ensures { IfOk result
        (BothMeet (priced_faces W.FaceGraph F.PriceFn priced.now) u v work.new) }
{
    let mut least = start_both(priced, work, u, v)?;
    let level = spread_both(priced, work, &mut least, u, v)?;
    finish(priced, work, least, u, v, level)
}

/// For each dart the least price from its face to a face at the target.
pub(crate) fn least_heights<W: FaceGraph, F: PriceFn>(
    priced: &PricedGraph<W, F>,
    v: u32,
    work: &mut Workspace,
) -> Result<(), AllocError>
    requires priced { HasPrices (priced_faces W.FaceGraph F.PriceFn priced.now) }
    requires alone { work.old.to_start.heights ≡ [] }
    ensures heights { OnOk result
        (HasLeastHeights (priced_faces W.FaceGraph F.PriceFn priced.now) v work.new.to_end.heights) }
    ensures alone { work.new.to_start.heights ≡ [] }
{
    let faces = priced.graph.faces();
    work.to_end.clear(faces as usize)?;
    let mut least = u64::MAX;
    work.to_end
        .start_at(priced, &work.to_start.heights, &mut least, v)?;
    let ends = Ends {
        v,
        other: &work.to_start.heights,
        guide: None,
    };
    work.to_end.spread(priced, &ends, &mut least, u64::MAX, 0)?;
    Ok(())
}
