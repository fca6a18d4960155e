// Bytes carried through cables and summed up at the far end, for the benchmark to call from Rust.
#![tactic(auto)]

ghost use Rattle.std.specs.Prelude.{◌≡◌, true, IfOk};
ghost use Rattle.cable.specs.Bounds.{most_pairs};
ghost use Rattle.layer.specs.Joint.{joint_model};
ghost use Rattle.layer.specs.Stretch.{stretch_model};
ghost use Rattle.reel.specs.Rows.{row_model};
ghost use Rattle.carry.specs.Carrying.{mixed, step_after, step_said, carried_sum, reel_laid, pile_laid, SumOr};

use cable::{Cable, MOST_PAIRS};
use layer::joint::Joint;
use layer::stretch::Stretch;
use reel::Reel;
use reel::place::Place;
use std::alloc::{AllocError, Global};

/// What the exported functions answer where there is no memory for a cable.
// The C interface needs a number here; only the exported functions turn an error into it.
pub const NO_MEMORY: u64 = u64::MAX;

// A sum with what was taken.
fn mix(sum: u32, taken: Option<u8>) -> u32
    ensures { result ≡ mixed sum taken }
{
    taken.map_or(
        sum,
        |byte| sum.wrapping_mul(31).wrapping_add(u32::from(byte)),
    )
}

// Puts a byte on a pair, lets a tick pass after the last pair, and takes from the pair.
fn step<K: Cable>(cable: &mut K, pair: usize, byte: u8) -> Option<u8>
    ensures said { result ≡ step_said (K.Cable.model cable.old) pair byte }
    ensures after { K.Cable.model cable.new ≡ step_after (K.Cable.model cable.old) pair byte }
{
    let _ = cable.put(pair, byte);
    if pair == MOST_PAIRS - 1 {
        let _ = cable.tick();
    }
    cable.take(pair)
}

/// Carries bytes through a cable, one on each pair in turn and a tick after the last, and sums up what is taken.
pub fn carry<K: Cable>(cable: &mut K, bytes: &[u8]) -> u32
    ensures { result ≡ carried_sum 0 (K.Cable.model cable.old) 0 bytes.now }
{
    let mut sum = 0;
    for (i, byte) in bytes.iter().enumerate() {
        sum = mix(sum, step(cable, i % MOST_PAIRS, *byte));
    }
    sum
}

// A reel of some pairs, with `places` to each.
fn reel_of(heap: Global, pairs: usize, places: u16, delay: u16) -> Result<Reel, AllocError>
    ensures { IfOk result (λ reel. row_model true reel ≡ reel_laid pairs places delay) }
{
    let row = vec![in heap; Place::default(); pairs.min(MOST_PAIRS) * usize::from(places)]?;
    Ok(Reel::new(row, pairs, u64::MAX, [delay; MOST_PAIRS]))
}

// A stretch over a joint over two reels of four pairs.
fn pile_of(
    heap: Global,
    places: u16,
    delay: u16,
    extra: u16,
) -> Result<Stretch<Joint<Reel, Reel>>, AllocError>
    ensures { IfOk result (λ pile. stretch_model (joint_model (row_model true) (row_model true)) pile ≡ pile_laid places delay extra) }
{
    let first = reel_of(heap, MOST_PAIRS / 2, places, delay)?;
    let second = reel_of(heap, MOST_PAIRS / 2, places, delay)?;
    Ok(Stretch::new(Joint::new(first, second), [extra; MOST_PAIRS]))
}

/// Carries bytes through a reel of eight pairs with so many places to each, and one delay; answers the sum of what comes
/// out, or `NO_MEMORY`.
#[unsafe(no_mangle)]
pub extern "C" fn carry_through_reel(heap: Global, bytes: &[u8], places: u16, delay: u16) -> u64
    ensures { SumOr result (carried_sum 0 (reel_laid most_pairs places delay) 0 bytes.now) }
{
    reel_of(heap, MOST_PAIRS, places, delay).map_or(
        NO_MEMORY,
        |mut reel| u64::from(carry(&mut reel, bytes)),
    )
}

/// The same through a stretch over a joint over two reels of four pairs.
#[unsafe(no_mangle)]
pub extern "C" fn carry_through_pile(
    heap: Global,
    bytes: &[u8],
    places: u16,
    delay: u16,
    extra: u16,
) -> u64
    ensures { SumOr result (carried_sum 0 (pile_laid places delay extra) 0 bytes.now) }
{
    pile_of(heap, places, delay, extra).map_or(
        NO_MEMORY,
        |mut pile| u64::from(carry(&mut pile, bytes)),
    )
}
