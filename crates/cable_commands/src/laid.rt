// The cables that the console lays.
ghost use Rattle.cable_commands.specs.Laying.{laid_model};
ghost use Rattle.cable_commands.specs.LaidFormed.{laid_formed};

use cable::Cable;
use cable::refusal::CableRefusal;
use layer::joint::Joint;
use reel::{Reel, Tape};

/// A cable of one of the kinds that the console lays.
#[derive(Drop)]
pub enum Laid {
    Reel(Reel),
    Tape(Tape),
    Joint(Joint<Reel, Tape>),
}

// The same of a cable of each kind.
macro_rules! for_each_kind {
    ($laid:expr, $cable:ident => $result:expr) => {
        match $laid {
            Laid::Reel($cable) => $result,
            Laid::Tape($cable) => $result,
            Laid::Joint($cable) => $result,
        }
    };
}

impl Cable for Laid {
    ghost model = { laid_model };

    ghost formed = { laid_formed };

    fn put(&mut self, pair: usize, byte: u8) -> Result<(), CableRefusal> {
        for_each_kind!(self, cable => cable.put(pair, byte))
    }

    fn tick(&mut self) -> Result<(), CableRefusal> {
        for_each_kind!(self, cable => cable.tick())
    }

    fn take(&mut self, pair: usize) -> Option<u8> {
        for_each_kind!(self, cable => cable.take(pair))
    }

    fn peek(&self, pair: usize) -> Option<u8> {
        for_each_kind!(self, cable => cable.peek(pair))
    }

    fn since(&self, pair: usize, k: usize) -> Option<i64> {
        for_each_kind!(self, cable => cable.since(pair, k))
    }

    fn pairs(&self) -> usize {
        for_each_kind!(self, cable => cable.pairs())
    }

    fn left(&self) -> u64 {
        for_each_kind!(self, cable => cable.left())
    }

    fn free(&self, pair: usize) -> usize {
        for_each_kind!(self, cable => cable.free(pair))
    }

    fn delay(&self, pair: usize) -> u16 {
        for_each_kind!(self, cable => cable.delay(pair))
    }
}
