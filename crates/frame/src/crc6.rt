// CRC-6, over bytes as they pass: a register, which starts with all ones, takes one part of the bytes after the other.
// Of a register only the six lowest bits count. Calls of `check` again, for the one check whose register fits a byte: no plainer
// without, since who feeds bytes as they pass keeps the register in a byte, and that of `check` is a `u64`.
ghost use Rattle.std.specs.Prelude.{◌≡◌, ◌^◌, ◌<◌, [], ◌∷◌};
ghost use Rattle.frame.specs.Checks.{ones, InParts, crc6_degree, crc6_lower, crc6_fed, crc6_end, crc6_of};

use crate::check::{Check, Crc6, remainder};

/// The register over no byte yet. The check over no byte is 0.
pub fn start() -> u8
    ensures value { result ≡ ones crc6_degree }
    ensures checks_to_zero { crc6_end result ≡ 0 }
{
    crate::check::start::<Crc6>() as u8
}

/// The register with one more byte.
pub fn feed_byte(register: u8, byte: u8) -> u8
    ensures { result ≡ crc6_fed register (byte ∷ []) }
{
    Crc6::feed_byte(u64::from(register), byte) as u8
}

/// The register with more bytes. Bytes fed in parts, one part after the other, come to the same as all of them at once.
pub fn feed(register: u8, bytes: &[u8]) -> u8
    ensures value { result ≡ crc6_fed register bytes.now }
    ensures in_parts { InParts crc6_degree crc6_lower register bytes.now result }
{
    crate::check::feed::<Crc6>(u64::from(register), bytes) as u8
}

/// The check over the bytes that a register has taken: the register complemented.
pub fn finish(register: u8) -> u8
    ensures value { result ≡ crc6_end register }
    ensures bound { result < 2 ^ crc6_degree }
{
    63 - register % 64
}

/// The check over some bytes, 0 over none.
pub fn of_bytes(bytes: &[u8]) -> u8
    ensures { result ≡ crc6_of bytes.now }
{
    finish(remainder::<Crc6>(bytes) as u8)
}
