//! What a search reads of a face that is to be guided to its target: distances from four landmarks.

ghost use Rattle.std.specs.Prelude.{◌≡◌, ◌≤◌, ◌+◌, ◌↔◌, IsTrue};
ghost use Rattle.topo_route.specs.Potentials.{AreWithin, all_four};

/// How far a face lies from four faces of the picture, the landmarks. What counts of them is that
/// those of two faces beside each other differ by no more than crossing a segment between them
/// costs. So the difference between a face's and those of another is never more than the cheapest
/// way from the one to the other costs.
///
/// Potentials of A* (Hart, Nilsson and Raphael 1968) by landmarks (Goldberg and Harrelson 2005).
#[derive(Clone, Copy, Debug, PartialEq, Eq)]
pub struct Potentials {
    pub first: u16,
    pub second: u16,
    pub third: u16,
    pub fourth: u16,
}

impl Potentials {
    /// Potentials of one number four times.
    pub fn all(number: u16) -> Self
        ensures { result ≡ all_four number }
    {
        Potentials {
            first: number,
            second: number,
            third: number,
            fourth: number,
        }
    }

    /// Whether none of the four is above that of the other by more than a number.
    pub fn are_within(&self, slope: u16, other: &Potentials) -> bool
        ensures { IsTrue result ↔ AreWithin slope self.now other.now }
    {
        is_within(slope, self.first, other.first)
            && is_within(slope, self.second, other.second)
            && is_within(slope, self.third, other.third)
            && is_within(slope, self.fourth, other.fourth)
    }
}

/// Whether a number is above another by no more than the slope.
fn is_within(slope: u16, number: u16, other: u16) -> bool
    ensures { IsTrue result ↔ number ≤ slope + other }
{
    number as u32 <= slope as u32 + other as u32
}
