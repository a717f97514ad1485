//! The search that is guided to the start.

ghost use Rattle.std.specs.Prelude.{◌≡◌, ◌<◌, ◌≤◌, ℕ, OnOk, length, Some};
ghost use Rattle.topo_core.specs.Picture.{corner};
ghost use Rattle.topo_core.specs.declared.darts.Dart.{Dart};
ghost use Rattle.topo_core.specs.declared.rows.Facts.{Facts};
ghost use Rattle.topo_core.specs.declared.rows.TheConstants.{KINDS};
ghost use Rattle.topo_price.specs.Prices.{prices_of};
ghost use Rattle.topo_route.specs.Descents.{AreHeightsFor};
ghost use Rattle.topo_route.specs.Potentials.{IsOfGuide};
ghost use Rattle.topo_route.specs.PricedFaces.{heights_over};
ghost use Rattle.topo_route.specs.Searches.{HasPrices, priced_faces};

use crate::both_ends::start_both;
use crate::face_graph::FaceGraph;
use crate::guided::guide::Guide;
use crate::priced_graph::PricedGraph;
use crate::workspace::Workspace;
use std::alloc::AllocError;
use topo_price::tariff::PriceFn;

/// The least prices of the darts' faces to a face at the target, as far as routes from `u` need
/// them. The guide is that of `u`, and the potentials are made for prices that are no higher.
pub(crate) fn heights_toward<W: FaceGraph, F: PriceFn>(
    priced: &PricedGraph<W, F>,
    u: u32,
    v: u32,
    guide: &Guide,
    work: &mut Workspace,
) -> Result<(), AllocError>
    requires priced { HasPrices (priced_faces W.FaceGraph F.PriceFn priced.now) }
    requires corners { let p = priced_faces W.FaceGraph F.PriceFn priced.now in
        (n : ℕ) (c : Dart) → corner p.named.rows u n ≡ Some c → IsOfGuide guide.now
        (W.potentials priced.now.graph.now (p.face (p.named.name c))) }
    requires floors { (facts : Facts) (n : ℕ) → facts.kind < KINDS
        → prices_of (F.may_return priced.now.tariff.now) facts n
        → W.floor priced.now.graph.now facts.kind ≤ n }
    ensures heights { let p = priced_faces W.FaceGraph F.PriceFn priced.now in
        OnOk result (AreHeightsFor p.price p.named u v (heights_over p work.new.to_end.heights)) }
    ensures one_each { OnOk result
        (length work.new.to_end.heights ≡ W.face_bound priced.now.graph.now) }
{
    let mut least = start_both(priced, work, u, v)?;
    work.to_end
        .spread_toward(priced, &work.to_start.heights, guide, &mut least, v)?;
    Ok(())
}
