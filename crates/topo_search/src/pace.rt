//! How much a search has done, by which it knows when shakes are worth no more.

/// The shakes of a search take at most so many times the work of its first order.
const SHAKES: u64 = 20;

/// Shakes that save nothing go on for so many at least,
const IDLE_SHAKES: u64 = 25;

/// for so many times the work of the first order,
const IDLE_ORDERS: u64 = 4;

/// and besides for such a part of the work of the shakes before them.
const IDLE_PART: u64 = 2;

/// The work that was done when parts of a search came to their end, in faces looked at.
#[derive(Clone, Copy)]
pub(crate) struct Pace {
    /// When the step before this one ended.
    pub steps: u64,
    /// When the first order had ended; without end where the search began with a picture.
    pub first_order: u64,
    /// When all orders had ended.
    pub orders: u64,
    /// When a shake had saved something last, or the orders had ended.
    pub saved: u64,
}

impl Pace {
    /// Nothing was done yet.
    pub(crate) const NONE: Pace = Pace {
        steps: 0,
        first_order: 0,
        orders: 0,
        saved: 0,
    };

    /// Whether shakes have done enough, now that so many in a row have saved nothing and so much is
    /// done.
    pub(crate) fn is_enough(self, idle_shakes: u64, now: u64) -> bool {
        let shakes = now.saturating_sub(self.orders);
        let saving = self.saved.saturating_sub(self.orders);
        let idle = now.saturating_sub(self.saved);
        let may_idle = self
            .first_order
            .saturating_mul(IDLE_ORDERS)
            .saturating_add(saving / IDLE_PART);
        let is_idle = idle_shakes >= IDLE_SHAKES && idle > may_idle;
        is_idle || shakes > self.first_order.saturating_mul(SHAKES)
    }
}
