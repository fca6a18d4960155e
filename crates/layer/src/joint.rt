// Two cables side by side.
ghost use Rattle.std.specs.Prelude.{◌≡◌};
ghost use Rattle.cable.specs.Model.{pairs_of, line_at};
ghost use Rattle.layer.specs.Joint.{side_by_side, joint_model, side_of, shown_at, told_of};
ghost use Rattle.layer.specs.Sides.{PassesTo, joint_formed};

use cable::refusal::CableRefusal;
use cable::{Cable, MOST_PAIRS};

/// Two cables of any kind side by side. The second's pairs follow the first's; those past the last pair that a cable may
/// have cannot be reached. The smaller ticks left count.
#[derive(Drop)]
pub struct Joint<K, L> {
    first: K,
    second: L,
}

// On which side of a joint a pair lies, and its number there.
#[derive(Clone, Copy)]
enum Side {
    First(usize),
    Second(usize),
}

impl Side {
    // The side of a pair of a joint whose first side has so many pairs; none where the pair cannot be reached.
    fn of(split: usize, pair: usize) -> Option<Side>
        ensures { result ≡ side_of split pair }
    {
        if pair < split {
            Some(Side::First(pair))
        } else if pair < MOST_PAIRS {
            Some(Side::Second(pair - split))
        } else {
            None
        }
    }
}

// Calls a method of the cable on a side of a joint, by the pair's number there.
macro_rules! on_side {
    ($joint:expr, $side:expr, $call:ident($($value:expr),*)) => {
        match $side {
            Side::First(at) => $joint.first.$call(at $(, $value)*),
            Side::Second(at) => $joint.second.$call(at $(, $value)*),
        }
    };
}

// The answer of a side to a put, told of the joint's pair.
fn told_of(pair: usize, answer: Result<(), CableRefusal>) -> Result<(), CableRefusal>
    ensures { result ≡ told_of pair answer }
{
    answer.map_err(|refusal| match refusal {
        CableRefusal::NoPlace(_) => CableRefusal::NoPlace(pair),
        other => other,
    })
}

impl<K: Cable, L: Cable> Joint<K, L> {
    /// Lays two cables side by side.
    pub fn new(first: K, second: L) -> Joint<K, L>
        ensures { joint_model K.Cable.model L.Cable.model result ≡ side_by_side (K.Cable.model first) (L.Cable.model second) }
    {
        Joint { first, second }
    }

    // Where a pair lies: the joint shows of it what that side does.
    fn side(&self, pair: usize) -> Option<Side>
        ensures value { result ≡ side_of (pairs_of (K.Cable.model self.now.first)) pair }
        ensures shows { line_at (joint_model K.Cable.model L.Cable.model self.now) pair ≡ shown_at (K.Cable.model self.now.first) (L.Cable.model self.now.second) result }
        ensures passes { PassesTo (K.Cable.model self.now.first) (L.Cable.model self.now.second) pair result }
    {
        Side::of(self.first.pairs(), pair)
    }
}

impl<K: Cable, L: Cable> Cable for Joint<K, L> {
    ghost model = { joint_model K.Cable.model L.Cable.model };

    ghost formed = { λ j.
        joint_formed (K.Cable.model j.first) (L.Cable.model j.second)
        (K.Cable.formed j.first) (L.Cable.formed j.second) };

    fn put(&mut self, pair: usize, byte: u8) -> Result<(), CableRefusal> {
        let side = self.side(pair).ok_or(CableRefusal::PairAbsent)?;
        told_of(pair, on_side!(self, side, put(byte)))
    }

    fn tick(&mut self) -> Result<(), CableRefusal> {
        if self.left() == 0 {
            return Err(CableRefusal::NoTick);
        }
        self.first.tick()?;
        self.second.tick()
    }

    fn take(&mut self, pair: usize) -> Option<u8> {
        on_side!(self, self.side(pair)?, take())
    }

    fn peek(&self, pair: usize) -> Option<u8> {
        on_side!(self, self.side(pair)?, peek())
    }

    fn since(&self, pair: usize, k: usize) -> Option<i64> {
        on_side!(self, self.side(pair)?, since(k))
    }

    fn pairs(&self) -> usize {
        (self.first.pairs() + self.second.pairs()).min(MOST_PAIRS)
    }

    fn left(&self) -> u64 {
        self.first.left().min(self.second.left())
    }

    fn free(&self, pair: usize) -> usize {
        self.side(pair)
            .map_or(0, |side| on_side!(self, side, free()))
    }

    fn delay(&self, pair: usize) -> u16 {
        self.side(pair)
            .map_or(0, |side| on_side!(self, side, delay()))
    }
}
