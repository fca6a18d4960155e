// What a cable is laid from.
ghost use Rattle.std.specs.Prelude.{◌≡◌, IfOk};
ghost use Rattle.cable_commands.specs.Laying.{laid_model, kind_model, length_model};
ghost use Rattle.reel.specs.Rows.{row_model};

use crate::laid::Laid;
use cable::MOST_PAIRS;
use layer::joint::Joint;
use reel::place::Place;
use reel::reuse::Reuse;
use reel::row::Row;
use reel::{Reel, Tape};
use std::alloc::{AllocError, Global};

/// A length of cable: its pairs, its ticks, the places of its row, and the delay of each pair.
// The number of pairs stands beside the delays, as in `Row::new`, whose parameters stay: it may be any, and what is not given is 0.
#[derive(Clone, Copy)]
pub struct Length {
    pub pairs: usize,
    pub ticks: u64,
    pub row: usize,
    pub delays: [u16; MOST_PAIRS],
}

impl Length {
    // A row of places laid as a cable. The benchmark has two such lines of its own: the crate below both is `reel`, which by a rule
    // of the project is handed its row and allocates nothing.
    fn lay<P: Reuse>(self, heap: Global) -> Result<Row<P>, AllocError>
        ensures { IfOk result (λ row. row_model P.Reuse.reused row ≡ length_model P.Reuse.reused self) }
    {
        let row = vec![in heap; Place::default(); self.row]?;
        Ok(Row::new(row, self.pairs, self.ticks, self.delays))
    }
}

/// A kind of cable, with its lengths.
#[derive(Clone, Copy)]
pub enum Kind {
    Reel(Length),
    Tape(Length),
    /// A reel, and a tape beside it.
    Joint(Length, Length),
}

impl Kind {
    /// Lays the cable, if there is memory for its row.
    pub fn lay(self, heap: Global) -> Result<Laid, AllocError>
        ensures { IfOk result (λ cable. laid_model cable ≡ kind_model self) }
    {
        match self {
            Kind::Reel(length) => Ok(Laid::Reel(length.lay(heap)?)),
            Kind::Tape(length) => Ok(Laid::Tape(length.lay(heap)?)),
            Kind::Joint(first, second) => {
                let reel: Reel = first.lay(heap)?;
                let tape: Tape = second.lay(heap)?;
                Ok(Laid::Joint(Joint::new(reel, tape)))
            }
        }
    }
}
