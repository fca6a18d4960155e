// The cables of the two ways, and what a command does with them.
ghost use Rattle.std.specs.Prelude.{◌≡◌, IfOk};
ghost use Rattle.std.specs.Borrow.{sem};
ghost use Rattle.cable_commands.specs.Lending.{LendsCable};
ghost use Rattle.cable_commands.specs.Cables.{cable_at, models_of, on_way, no_cables, with_way, told_for, asked_said, asked_after, case_wanted, Laying, Performed};
ghost use Rattle.cable_commands.specs.Calls.{done_case, case_of, case_for};

use crate::call::{Call, Reply, ask};
use crate::fault::CableFault;
use crate::kind::Kind;
use crate::laid::Laid;
use cable::MOST_PAIRS;
use layer::stretch::Stretch;
use std::alloc::Global;

/// One of the two directions of a link, each with a cable of its own.
#[derive(Clone, Copy, PartialEq, Eq, Debug)]
pub enum Way {
    Down,
    Up,
}

/// What a command wants of the cable of a way.
#[derive(Clone, Copy)]
pub enum Request {
    /// Lay a cable, with an extra for each pair's delay.
    Lay(Kind, [u16; MOST_PAIRS]),
    /// Ask something of it.
    Ask(Call),
}

/// A command for the cable of a way.
#[derive(Clone, Copy)]
pub struct Command {
    pub way: Way,
    pub request: Request,
}

/// The cables of the two ways, where they are laid.
#[derive(Drop)]
pub struct Cables {
    down: Option<Stretch<Laid>>,
    up: Option<Stretch<Laid>>,
}

impl Cables {
    /// No cable is laid yet.
    pub fn new() -> Cables
        ensures { models_of result ≡ no_cables }
    {
        Cables {
            down: None,
            up: None,
        }
    }

    // The cable of a way.
    fn on(&mut self, way: Way) -> &mut Option<Stretch<Laid>>
        ensures* writes_back { sem 𝓛 (LendsCable self.entry way result) }
        ensures value { cable_at result.now ≡ on_way (models_of self.old) way }
    {
        match way {
            Way::Down => &mut self.down,
            Way::Up => &mut self.up,
        }
    }

    // Lays a cable on a way, in place of one that may be there.
    fn lay(
        &mut self,
        heap: Global,
        way: Way,
        kind: Kind,
        extras: [u16; MOST_PAIRS],
    ) -> Result<Reply, CableFault>
        ensures laying { Laying way kind extras (models_of self.old) (told_for result) (models_of self.new) }
        ensures case { IfOk result (λ reply. case_of reply ≡ done_case) }
    {
        let laid = kind.lay(heap)?;
        *self.on(way) = Some(Stretch::new(laid, extras));
        Ok(Reply::Done(Ok(())))
    }

    // Asks something of the cable of a way.
    fn ask(&mut self, way: Way, call: Call) -> Result<Reply, CableFault>
        ensures said { told_for result ≡ asked_said call (on_way (models_of self.old) way) }
        ensures after { models_of self.new ≡ with_way (models_of self.old) way (asked_after call (on_way (models_of self.old) way)) }
        ensures case { IfOk result (λ reply. case_of reply ≡ case_for call) }
    {
        let cable = self.on(way).as_mut().ok_or(CableFault::NoCable)?;
        Ok(ask(cable, call))
    }

    /// Does what a command says.
    pub fn perform(&mut self, heap: Global, command: Command) -> Result<Reply, CableFault>
        ensures performed { Performed command (models_of self.old) (told_for result) (models_of self.new) }
        ensures case { IfOk result (λ reply. case_of reply ≡ case_wanted command.request) }
    {
        match command.request {
            Request::Lay(kind, extras) => self.lay(heap, command.way, kind, extras),
            Request::Ask(call) => self.ask(command.way, call),
        }
    }
}
