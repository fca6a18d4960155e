// CRC-4, over the twelve other bits of a header.
ghost use Rattle.std.specs.Prelude.{◌≡◌, ◌^◌, ◌<◌};
ghost use Rattle.frame.specs.Checks.{crc4_degree, crc4_of};

use crate::check::{Crc4, feed_nibbles, start};

/// The CRC-4 over the twelve lowest bits of a number.
pub fn of_twelve(bits: u16) -> u16
    ensures value { result ≡ crc4_of bits }
    ensures bound { result < 2 ^ crc4_degree }
{
    let crc = feed_nibbles::<Crc4>(start::<Crc4>(), u64::from(bits), 3);
    crc as u16
}
