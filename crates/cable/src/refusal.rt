// Why a cable refuses a call.
ghost use Rattle.std.specs.Prelude.{◌≡◌, Some};
ghost use Rattle.cable.specs.Refusals.{of_cable, words_for};

use std::error::Error;
use std::fmt;

/// What a cable cannot do.
// Beside the refusals of headers an enum of its own, with the same three methods: a trait over both would state them once
// more, each enum would still have to say them, and nothing is generic over refusals.
#[derive(Clone, Copy, PartialEq, Eq, Debug)]
pub enum CableRefusal {
    /// No tick is left.
    NoTick,
    /// Every place of this pair is used.
    NoPlace(usize),
    /// The cable has no such pair.
    PairAbsent,
}

impl CableRefusal {
    /// The number by which the refusal is told.
    // No `From` for `u8`: the name says which number this is, and a bare conversion would not.
    pub fn number(self) -> u8
        ensures { result ≡ (of_cable self).number }
    {
        match self {
            CableRefusal::NoTick => 15,
            CableRefusal::NoPlace(_) => 16,
            CableRefusal::PairAbsent => 22,
        }
    }

    /// What a person is told.
    pub fn words(self) -> &'static str
        ensures { result.now ≡ words_for self }
    {
        match self {
            CableRefusal::NoTick => "no tick left",
            CableRefusal::NoPlace(_) => "no place free",
            CableRefusal::PairAbsent => "no such pair",
        }
    }
}

impl fmt::Display for CableRefusal {
    ghost output = { λ r. Some (words_for r) };

    fn fmt<W: fmt::Write>(&self, f: &mut fmt::Formatter<W>) -> fmt::Result {
        f.write_str(self.words())
    }
}

impl Error for CableRefusal {}
