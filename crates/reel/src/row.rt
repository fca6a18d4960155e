// A row of places, shared among the pairs of a cable.
ghost use Rattle.std.specs.Prelude.{◌+◌, ◌*◌, ◌≤◌, vec_len};
ghost use Rattle.arrayvec.specs.ArrayVec.{array_vec_len};
ghost use Rattle.cable.specs.Bounds.{most_pairs, most_ticks};
ghost use Rattle.reel.specs.Rings.{Short, Turned, Past, Ordered};

use crate::place::{Pair, Place};
use arrayvec::ArrayVec;
use cable::MOST_PAIRS;
use std::marker::PhantomData;

pub mod carry;

/// A cable whose bytes lie in a row of places, of which each pair has an equal share.
#[derive(Drop)]
pub struct Row<P> {
    // One row shared out by indices, by a rule of the project: it is handed in once, and nothing is allocated after.
    places: Vec<Place>,
    pairs: ArrayVec<Pair, MOST_PAIRS>,
    share: usize,
    clock: u64,
    left: u64,
    reuse: PhantomData<P>,
    ghost some: { 1 ≤ array_vec_len pairs },
    ghost few: { array_vec_len pairs ≤ most_pairs },
    ghost shared: { array_vec_len pairs * share ≤ vec_len places },
    ghost timed: { clock + left ≤ most_ticks },
    ghost short: { Short pairs.items },
    ghost turned: { Turned pairs.items share },
    ghost past: { Past places.items pairs.items share clock },
    ghost ordered: { Ordered places.items pairs.items share },
}
