//! When it pays to measure a picture, so that its searches are guided to their targets.

ghost use Rattle.std.specs.Prelude.{◌≡◌};

use std::alloc::Global;
use topo_core::calls::{Refusal, Reply};
use topo_picture::Picture;
use topo_price::tariff::{PriceFn, Tariff};

/// A picture is measured for the first time when its searches have reached so many times its faces.
/// To measure it looks at each face five times.
const WORTH_MEASURING: u64 = 15;

/// And they have reached so many faces for each that their routes have added. Where it is fewer,
/// what is measured is too old before it has spared enough.
const FAR_SEARCHES: u64 = 50;

/// What the searches of a picture have cost, by the faces that they have reached; how many faces
/// their routes have added; and how large the picture was when it was measured.
#[derive(Clone, Copy)]
pub(crate) struct SearchCost {
    reached: u64,
    added: u64,
    faces_measured: u32,
}

impl SearchCost {
    /// The cost while no search was made.
    pub(crate) fn none() -> Self {
        SearchCost {
            reached: 0,
            added: 0,
            faces_measured: 0,
        }
    }

    /// Notes a call, and how many faces the last search has reached. What was measured goes with a
    /// deletion, and the count begins anew.
    pub(crate) fn note(&mut self, reply: &Reply, reached: usize) {
        match reply {
            Reply::Inserted(made) if made.route.crossed.len() == 0 => {}
            Reply::Inserted(made) => {
                let crossed = made.route.crossed.len() as u64;
                self.reached = self.reached.saturating_add(reached as u64);
                self.added = self.added.saturating_add(crossed).saturating_add(1);
            }
            Reply::Refused(Refusal::NoRoute) => {
                self.reached = self.reached.saturating_add(reached as u64);
            }
            Reply::Deleted(_) => {
                self.reached = 0;
                self.added = 0;
            }
            _ => {}
        }
    }

    /// Whether a picture with so many faces is to be measured: for the first time, or again where
    /// it has half as many faces more.
    fn is_due(&self, is_measured: bool, faces: u32) -> bool {
        if is_measured {
            faces / 3 * 2 > self.faces_measured
        } else {
            self.reached / WORTH_MEASURING > faces as u64
                && self.reached / FAR_SEARCHES > self.added
        }
    }
}

/// Measures a picture where that is due. No answer depends on it, so out of memory it is left.
pub(crate) fn measure_if_due<F: PriceFn>(
    alloc: Global,
    picture: &mut Picture,
    tariff: &Tariff<F>,
    cost: &mut SearchCost,
)
    ensures { picture.new ≡ picture.old }
{
    let faces = picture.counts().faces;
    if tariff.is_by_kind() && cost.is_due(picture.has_guided_searches(), faces) {
        *cost = SearchCost {
            reached: 0,
            added: 0,
            faces_measured: faces,
        };
        let _lacks = picture.guide_searches(alloc, tariff).is_err();
    }
}
