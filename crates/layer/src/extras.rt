// Extra delays.
ghost use Rattle.std.specs.Prelude.{◌≡◌, slice_index};
ghost use Rattle.layer.specs.Stretch.{sums_of, OneStretch};

use cable::MOST_PAIRS;
use std::array;

/// The extra delay of each pair, in ticks.
#[derive(Clone, Copy)]
pub struct Extras([u16; MOST_PAIRS]);

impl Extras {
    pub fn new(extras: [u16; MOST_PAIRS]) -> Extras
        ensures { result.0 ≡ extras }
    {
        Extras(extras)
    }

    /// The extra of a pair, 0 for one past the last.
    // No Option: a public call, whose promise stays; an extra that is not there is none.
    pub fn at(&self, pair: usize) -> u16
        ensures { result ≡ slice_index self.now.0 pair }
    {
        self.0.get(pair).copied().unwrap_or(0)
    }

    /// The sums of two rows of extras, each at most the longest delay: what a stretch of a stretch comes to.
    pub fn plus(self, other: Extras) -> Extras
        ensures sums { result.0 ≡ sums_of self.0 other.0 }
        ensures one_stretch { OneStretch self.0 other.0 result.0 }
    {
        Extras(array::from_fn(|pair| { self.at(pair).saturating_add(other.at(pair)) }))
    }
}
