// Why a header is refused.
ghost use Rattle.std.specs.Prelude.{◌≡◌, Some};
ghost use Rattle.frame.specs.Refusals.{of_header, words_for};

use std::error::Error;
use std::fmt;

/// What is wrong with a header.
#[derive(Clone, Copy, PartialEq, Eq, Debug)]
pub enum HeaderRefusal {
    Crc4Wrong = 20,
    SfWrong = 21,
}

impl HeaderRefusal {
    /// The number by which the refusal is told.
    // No `From` for `u8`: the name says which number this is, and a bare conversion would not.
    pub fn number(self) -> u8
        ensures { result ≡ (of_header self).number }
    {
        self as u8
    }

    /// What a person is told.
    pub fn words(self) -> &'static str
        ensures { result.now ≡ words_for self }
    {
        match self {
            HeaderRefusal::Crc4Wrong => "CRC-4 wrong",
            HeaderRefusal::SfWrong => "SF wrong",
        }
    }
}

impl fmt::Display for HeaderRefusal {
    ghost output = { λ r. Some (words_for r) };

    fn fmt<W: fmt::Write>(&self, f: &mut fmt::Formatter<W>) -> fmt::Result {
        f.write_str(self.words())
    }
}

impl Error for HeaderRefusal {}
