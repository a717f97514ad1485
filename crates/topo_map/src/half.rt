//! One end of a segment, with the direction that leads from it.

ghost use Rattle.std.specs.Prelude.{◌≡◌, ◌*◌, ◌/◌, ◌<◌, nat_eq, refl};
ghost use Rattle.std.proofs.Common.{rules};
ghost use Rattle.std.specs.Cmp.Rules.{comparing};
ghost use Rattle.topo_core.specs.Rotations.{twin};
ghost use Rattle.topo_map.specs.Halves.{way_of};

use std::marker::Model;
use topo_core::darts::Way;

/// A segment of an embedding with a direction. In contracts it is the number `2 * key`, or
/// `2 * key + 1` for the way back, so that the twin of `a` is `twin a`. That number is all that is
/// stored.
#[derive(Clone, Copy, Debug)]
pub struct Half {
    number: u32,
}

impl Model for Half {
    ghost use Rattle.std.specs.Prelude.{ℕ, refl};

    ghost Value = { ℕ };

    ghost view = { λ h. h.number };

    ghost inverse = { λ a. record { number = a } };

    ghost inverse_ok = { λ h _. refl };
}

impl PartialEq for Half {
    ghost eq = { nat_eq };

    ghost laws = { Prim.search (comparing, rules) };

    fn eq(&self, other: &Half) -> bool {
        self.number == other.number
    }
}

impl Eq for Half {
    ghost laws = { Prim.search rules };
}

impl Half {
    // The way there of the segment at a key.
    pub(crate) fn forward(key: u32) -> Self
        requires { key < 2147483648 }
        ensures { result ≡ 2 * key }
    {
        Half { number: 2 * key }
    }

    /// The half that contracts know by this number.
    pub fn numbered(number: u32) -> Self
        ensures { result ≡ number }
    {
        Self { number }
    }

    // The key of the segment.
    pub(crate) fn key(self) -> usize
        ensures { result ≡ self / 2 }
    {
        (self.number / 2) as usize
    }

    // Which of the two of the segment it is.
    pub(crate) fn way(self) -> Way
        ensures { result ≡ way_of self }
    {
        if self.number % 2 == 0 {
            Way::Forward
        } else {
            Way::Back
        }
    }

    /// The number that contracts know the half by.
    pub fn number(self) -> u32
        ensures { result ≡ self }
    {
        self.number
    }

    /// The other half of the segment.
    pub fn twin(self) -> Self
        ensures { result ≡ twin self }
    {
        let number = if self.number % 2 == 0 {
            self.number + 1
        } else {
            self.number - 1
        };
        Half { number }
    }
}
