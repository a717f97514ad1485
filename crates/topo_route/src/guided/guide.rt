//! What guides a search to the faces at a vertex.

ghost use Rattle.std.specs.Prelude.{◌≡◌, ◌<◌, ◌≤◌, ◌-◌, ℕ, Some, max, true};
ghost use Rattle.topo_core.specs.Picture.{corner};
ghost use Rattle.topo_core.specs.declared.darts.Dart.{Dart};
ghost use Rattle.topo_core.specs.declared.rows.Facts.{Facts};
ghost use Rattle.topo_core.specs.declared.rows.TheConstants.{KINDS};
ghost use Rattle.topo_price.specs.Prices.{prices_of};
ghost use Rattle.topo_route.specs.Potentials.{IsOfGuide, bound_by, outside};

use crate::face_graph::FaceGraph;
use crate::guided::potentials::Potentials;
use crate::steps::{corner_at, face_at};
use topo_core::rows::KINDS;
use topo_price::tariff::{PriceFn, Tariff};

/// The least and the greatest potentials of the faces at a vertex.
#[derive(Clone, Copy)]
pub(crate) struct Guide {
    pub low: Potentials,
    pub high: Potentials,
}

impl Guide {
    /// That of the faces at a vertex.
    pub(crate) fn to<W: FaceGraph>(graph: &W, u: u32) -> Self
        ensures { (p : ℕ) (c : Dart) → corner (W.named graph.now).rows u p ≡ Some c
            → IsOfGuide result
            (W.potentials graph.now (W.face_of graph.now ((W.named graph.now).name c))) }
    {
        let mut guide = Guide {
            low: Potentials::all(u16::MAX),
            high: Potentials::all(0),
        };
        for position in 0..graph.degree(u) {
            if let Some(corner) = corner_at(graph, u, position) {
                guide = guide.with(graph.potentials(face_at(graph, corner)));
            }
        }
        guide
    }

    /// The guide for the faces so far and one more.
    fn with(self, face: Potentials) -> Self
        ensures itself { IsOfGuide result face }
        ensures others { (p : Potentials) → IsOfGuide self p → IsOfGuide result p }
    {
        Guide {
            low: Potentials {
                first: self.low.first.min(face.first),
                second: self.low.second.min(face.second),
                third: self.low.third.min(face.third),
                fourth: self.low.fourth.min(face.fourth),
            },
            high: Potentials {
                first: self.high.first.max(face.first),
                second: self.high.second.max(face.second),
                third: self.high.third.max(face.third),
                fourth: self.high.fourth.max(face.fourth),
            },
        }
    }

    /// How far at least a face with these potentials lies from the nearest of the guide's.
    pub(crate) fn bound(&self, here: Potentials) -> u64
        ensures { result ≡ bound_by self.now here }
    {
        let first = outside(self.low.first, self.high.first, here.first);
        let second = outside(self.low.second, self.high.second, here.second);
        let third = outside(self.low.third, self.high.third, here.third);
        let fourth = outside(self.low.fourth, self.high.fourth, here.fourth);
        first.max(second).max(third.max(fourth)) as u64
    }
}

/// How far a number lies below or above two others.
fn outside(low: u16, high: u16, number: u16) -> u16
    ensures { result ≡ outside low high number }
{
    low.saturating_sub(number).max(number.saturating_sub(high))
}

/// Whether the potentials of a graph say something, and that of these prices: no price is below the
/// floor of its kind that they were made for.
pub(crate) fn is_guided<W: FaceGraph, F: PriceFn>(graph: &W, tariff: &Tariff<F>) -> bool
    ensures { result ≡ true → (facts : Facts) (n : ℕ) → facts.kind < KINDS
        → prices_of (F.may_return tariff.now) facts n → W.floor graph.now facts.kind ≤ n }
{
    if !graph.has_potentials() {
        return false;
    }
    for kind in 0..KINDS {
        if tariff.floor(kind as u8) < graph.floor(kind as u8) {
            return false;
        }
    }
    true
}
