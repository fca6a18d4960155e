// What a cable means, and the interface that each kind of cable keeps. Everything above is proved once, against the meaning.
#![tactic(auto)]

ghost use Rattle.std.specs.Prelude.{◌≡◌};
ghost use Rattle.frame.specs.Refusals.{judged};
ghost use Rattle.cable.specs.Calls.{put_said, put_after, tick_said, tick_after, take_said, take_after, since_said, free_of, delay_of};
ghost use Rattle.cable.specs.Formed.{Formed};
ghost use Rattle.cable.specs.Model.{Model, pairs_of};
ghost use Rattle.cable.specs.Refusals.{of_cable};

use refusal::CableRefusal;

pub mod refusal;
pub mod run;

/// The most pairs of a cable.
pub const MOST_PAIRS: usize = 8;

/// The most ticks that a cable may have left.
pub const MOST_TICKS: u64 = 1 << 40;

/// A cable: some pairs of copper, numbered from 0, each with a delay, that carry bytes. A tick is the time of one
/// sub-block.
pub trait Cable {
    /// What the cable is.
    ghost model: { Self → Model };

    /// Puts a byte on a pair. Refuses an absent pair, and a pair with every place used.
    fn put(&mut self, pair: usize, byte: u8) -> Result<(), CableRefusal>
        ensures said { judged of_cable result ≡ put_said (model self.old) pair }
        ensures after { model self.new ≡ put_after (model self.old) pair byte };

    /// Lets one tick pass. Refuses where none is left.
    fn tick(&mut self) -> Result<(), CableRefusal>
        ensures said { judged of_cable result ≡ tick_said (model self.old) }
        ensures after { model self.new ≡ tick_after (model self.old) };

    /// Takes the oldest byte of a pair, if it has arrived.
    fn take(&mut self, pair: usize) -> Option<u8>
        ensures said { result ≡ take_said (model self.old) pair }
        ensures after { model self.new ≡ take_after (model self.old) pair };

    /// What `take` would give.
    fn peek(&self, pair: usize) -> Option<u8>
        ensures { result ≡ take_said (model self.now) pair };

    /// How many ticks ago the k-th byte that a pair holds arrived, negative before it does; none where fewer are held.
    fn since(&self, pair: usize, k: usize) -> Option<i64>
        ensures { result ≡ since_said (model self.now) pair k };

    /// How many pairs there are.
    fn pairs(&self) -> usize
        ensures { result ≡ pairs_of (model self.now) };

    /// How many ticks are left.
    fn left(&self) -> u64
        ensures { result ≡ Model.left (model self.now) };

    /// How many places of a pair are not used, 0 for an absent pair.
    // No Option, here and for the delay: the meaning of a cable is that an absent pair shows 0, and callers count on a number.
    fn free(&self, pair: usize) -> usize
        ensures { result ≡ free_of (model self.now) pair };

    /// The delay of a pair, in ticks, 0 for an absent pair.
    fn delay(&self, pair: usize) -> u16
        ensures { result ≡ delay_of (model self.now) pair };

    ghost formed: { (c : Self) → Formed (model c) };
}
