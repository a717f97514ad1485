//! Pairs of intervals of back edges that conflict.

use crate::numbers::NONE;
use crate::orientation::Orientation;

/// Back edges on one side, from the one that leads back farthest up to the one that leads back
/// least far; each refers to the next below it. Both ends are `NONE` where there are none.
#[derive(Clone, Copy, Drop)]
pub(crate) struct Interval {
    pub(crate) low: u32,
    pub(crate) high: u32,
}

impl Interval {
    /// An interval without back edges.
    pub(crate) const EMPTY: Interval = Interval {
        low: NONE,
        high: NONE,
    };

    /// Whether there are none.
    pub(crate) fn is_empty(self) -> bool {
        self.low == NONE
    }
}

/// Back edges that must lie on different sides.
#[derive(Clone, Copy, Drop)]
pub(crate) struct ConflictPair {
    pub(crate) left: Interval,
    pub(crate) right: Interval,
}

impl ConflictPair {
    /// A pair without back edges.
    pub(crate) const EMPTY: ConflictPair = ConflictPair {
        left: Interval::EMPTY,
        right: Interval::EMPTY,
    };

    /// The pair with its sides exchanged.
    pub(crate) fn exchanged(self) -> Self {
        ConflictPair {
            left: self.right,
            right: self.left,
        }
    }

    /// Whether the interval on the right ends with an edge that leads back less far than this one.
    pub(crate) fn conflicts_right(self, orientation: &Orientation, edge: u32) -> bool {
        is_above(orientation, self.right.high, edge)
    }

    /// Whether the interval on either side ends with an edge that leads back less far than this
    /// one.
    pub(crate) fn conflicts(self, orientation: &Orientation, edge: u32) -> bool {
        is_above(orientation, self.left.high, edge) || self.conflicts_right(orientation, edge)
    }

    /// The least height that one of its edges leads back to.
    pub(crate) fn lowest(self, orientation: &Orientation) -> u32 {
        let left = orientation.low_points.at(self.left.low);
        let right = orientation.low_points.at(self.right.low);
        left.min(right)
    }
}

/// Whether a back edge, if it is one, leads back less far than another edge.
pub(crate) fn is_above(orientation: &Orientation, back_edge: u32, edge: u32) -> bool {
    back_edge != NONE && orientation.low_points.at(back_edge) > orientation.low_points.at(edge)
}
