//! Random numbers, the same ones from the same seed.

ghost use Rattle.std.specs.Prelude.{◌<◌};

use rand_pcg::Pcg32;
use rand_pcg::rand_core::utils::NextWord;

/// The sequence of the generator, of which the seed is a place.
const STREAM: u64 = 54;

/// A source of random numbers.
#[derive(Drop)]
pub(crate) struct Random {
    generator: Pcg32,
}

impl Random {
    /// The source with this seed.
    pub(crate) fn new(seed: u32) -> Self {
        Random {
            generator: Pcg32::new(seed as u64, STREAM),
        }
    }

    /// A number below the bound, and 0 where that is 0.
    pub(crate) fn below(&mut self, bound: usize) -> usize
        ensures { 0 < bound → result < bound }
    {
        if bound == 0 {
            return 0;
        }
        self.generator.next_word() as usize % bound
    }

    /// True or false, each half of the time.
    pub(crate) fn flip(&mut self) -> bool {
        self.below(2) == 0
    }

    /// An item of the list; none where it is empty.
    pub(crate) fn item(&mut self, list: &[u32]) -> Option<u32> {
        let place = self.below(list.len());
        list.get(place).copied()
    }

    /// Puts a list into random order (Fisher and Yates).
    pub(crate) fn shuffle(&mut self, list: &mut [u32]) {
        for i in 1..list.len() {
            let j = self.below(i + 1);
            list.swap(i, j);
        }
    }
}
