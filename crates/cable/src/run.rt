// Calls made one after another on one cable, and what is so of every cable then.
ghost use Rattle.std.specs.Prelude.{◌≡◌};
ghost use Rattle.frame.specs.Refusals.{judged};
ghost use Rattle.cable.specs.Refusals.{of_cable};
ghost use Rattle.cable.specs.Runs.{PutComesOut, SinceCounts, SinceAtDelayFive, ticked, ticked_said};

use crate::Cable;
use crate::refusal::CableRefusal;

/// Lets some ticks pass, up to the first that is refused.
pub fn pass<K: Cable>(cable: &mut K, ticks: u64) -> Result<(), CableRefusal>
    ensures said { judged of_cable result ≡ ticked_said ticks (K.Cable.model cable.old) }
    ensures after { K.Cable.model cable.new ≡ ticked ticks (K.Cable.model cable.old) }
{
    for passed in 0..ticks {
        cable.tick()?;
    }
    Ok(())
}

/// What is put comes out: the bytes that `take` gives from a pair are, in order, those that it held and those put since.
pub fn what_is_put_comes_out<K: Cable>(cable: &K)
    ensures { PutComesOut (K.Cable.model cable.now) }
{}

/// The since of a byte counts the ticks from its arrival.
pub fn since_counts_ticks<K: Cable>(cable: &K)
    ensures counts { SinceCounts (K.Cable.model cable.now) }
    ensures delay_five { SinceAtDelayFive (K.Cable.model cable.now) }
{}
