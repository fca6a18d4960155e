// A cable that is cut through: it has pairs and ticks, and no place for a byte. The smallest cable there is, as an example of
// how one is written.
#![tactic(auto)]

ghost use Rattle.std.specs.Prelude.{◌≡◌, ◌≤◌};
ghost use Rattle.cable.specs.Bounds.{most_pairs, most_ticks, pairs_counted, ticks_counted};
ghost use Rattle.severed.specs.Severed.{without_places};
ghost use Rattle.severed.specs.Shows;

use cable::refusal::CableRefusal;
use cable::{Cable, MOST_PAIRS, MOST_TICKS};

/// A cable without places.
#[derive(Drop)]
pub struct Severed {
    pairs: usize,
    left: u64,
    ghost some: { 1 ≤ pairs },
    ghost few: { pairs ≤ most_pairs },
    ghost timed: { left ≤ most_ticks },
}

impl Severed {
    /// A cable with some pairs and ticks.
    pub fn new(pairs: usize, ticks: u64) -> Severed
        ensures { without_places result.pairs result.left ≡ without_places (pairs_counted pairs) (ticks_counted ticks) }
    {
        Severed {
            pairs: pairs.clamp(1, MOST_PAIRS),
            left: ticks.min(MOST_TICKS),
        }
    }
}

impl Cable for Severed {
    ghost model = { λ s. without_places s.pairs s.left };

    ghost formed = { λ c. Shows.formed c.pairs c.left c.some c.few c.timed };

    fn put(&mut self, pair: usize, byte: u8) -> Result<(), CableRefusal> {
        if pair < self.pairs {
            Err(CableRefusal::NoPlace(pair))
        } else {
            Err(CableRefusal::PairAbsent)
        }
    }

    fn tick(&mut self) -> Result<(), CableRefusal> {
        if self.left == 0 {
            return Err(CableRefusal::NoTick);
        }
        self.left -= 1;
        Ok(())
    }

    fn take(&mut self, pair: usize) -> Option<u8> {
        None
    }

    fn peek(&self, pair: usize) -> Option<u8> {
        None
    }

    fn since(&self, pair: usize, k: usize) -> Option<i64> {
        None
    }

    fn pairs(&self) -> usize {
        self.pairs
    }

    fn left(&self) -> u64 {
        self.left
    }

    fn free(&self, pair: usize) -> usize {
        0
    }

    fn delay(&self, pair: usize) -> u16 {
        0
    }
}
