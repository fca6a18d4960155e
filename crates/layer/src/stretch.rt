// A cable with longer delays.
ghost use Rattle.std.specs.Prelude.{◌≡◌, slice_index};
ghost use Rattle.cable.specs.Calls.{delay_of};
ghost use Rattle.layer.specs.Stretch.{together, stretched, stretch_model};
ghost use Rattle.layer.specs.Stretched.{stretched_formed};

use crate::extras::Extras;
use cable::refusal::CableRefusal;
use cable::{Cable, MOST_PAIRS};

/// A cable of any kind with an extra added to each pair's delay; the sum stops at the longest delay.
#[derive(Drop)]
pub struct Stretch<K> {
    inner: K,
    extras: Extras,
}

impl<K: Cable> Stretch<K> {
    /// Adds an extra to each pair's delay.
    pub fn new(inner: K, extras: [u16; MOST_PAIRS]) -> Stretch<K>
        ensures { stretch_model K.Cable.model result ≡ stretched extras (K.Cable.model inner) }
    {
        Stretch {
            inner,
            extras: Extras::new(extras),
        }
    }

    // A delay with the extra of a pair.
    fn longer(&self, pair: usize, delay: u16) -> u16
        ensures { result ≡ together delay (slice_index self.now.extras.0 pair) }
    {
        delay.saturating_add(self.extras.at(pair))
    }
}

impl<K: Cable> Stretch<Stretch<K>> {
    /// The same cable as one stretch, by the sums of the extras.
    pub fn merged(self) -> Stretch<K>
        ensures { stretch_model K.Cable.model result ≡ stretch_model (stretch_model K.Cable.model) self }
    {
        let Stretch {
            inner,
            extras: outer,
        } = self;
        let Stretch { inner, extras } = inner;
        Stretch {
            inner,
            extras: extras.plus(outer),
        }
    }
}

impl<K: Cable> Cable for Stretch<K> {
    ghost model = { stretch_model K.Cable.model };

    ghost formed = { λ s. stretched_formed s.extras.0 (K.Cable.model s.inner) (K.Cable.formed s.inner) };

    fn put(&mut self, pair: usize, byte: u8) -> Result<(), CableRefusal> {
        self.inner.put(pair, byte)
    }

    fn tick(&mut self) -> Result<(), CableRefusal> {
        self.inner.tick()
    }

    // Tried: one function for the test that opens `take` and `peek`; the benchmark's pile, whose speed may not fall, then runs
    // 4% more instructions.
    fn take(&mut self, pair: usize) -> Option<u8> {
        if self.since(pair, 0)? < 0 {
            return None;
        }
        self.inner.take(pair)
    }

    fn peek(&self, pair: usize) -> Option<u8> {
        let since = self.since(pair, 0)?;
        if since < 0 {
            return None;
        }
        self.inner.peek(pair)
    }

    fn since(&self, pair: usize, k: usize) -> Option<i64> {
        let below = self.inner.delay(pair);
        let more = self.longer(pair, below) - below;
        self.inner
            .since(pair, k)
            .map(|since| since - i64::from(more))
    }

    fn pairs(&self) -> usize {
        self.inner.pairs()
    }

    fn left(&self) -> u64 {
        self.inner.left()
    }

    fn free(&self, pair: usize) -> usize {
        self.inner.free(pair)
    }

    fn delay(&self, pair: usize) -> u16 {
        if pair < self.inner.pairs() {
            self.longer(pair, self.inner.delay(pair))
        } else {
            0
        }
    }
}
