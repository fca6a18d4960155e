// A frame header: two bytes, one in each mini-frame of its frame, as one number of 16 bits, the first byte higher.
// A frame number below 1 counts as 1, above 6 as 6.
ghost use Rattle.std.specs.Prelude.{◌≡◌, ℕ, ◌+◌, ◌*◌, ◌/◌, ◌%◌, ◌^◌, ◌<◌, Ok, Err, bit_xor};
ghost use Rattle.frame.specs.Header.{bit_of, sf_of, in6_of, twelve_of, header_of, crc4_right, sf_right, fields_of, read_of, written};
ghost use Rattle.frame.specs.Refusals.{judged, of_header, crc4_refused};

use crate::crc4;
use crate::refusal::HeaderRefusal;

/// What a header carries: its C6 bit, its In6 bit and Data.
// Bits are numbers, as `write` takes C6 and as they are printed: a bool would be no plainer, being turned back at each use. Frames
// are numbers that each function brings into range: C hands in any, and a narrower type would ask more of callers.
#[derive(Clone, Copy, PartialEq, Eq, Debug)]
pub struct Fields {
    pub c6: u8,
    pub in6: u8,
    pub data: u8,
}

/// A superframe's frames are numbered from 1 to 6.
pub const LAST_FRAME: u8 = 6;

const IN6: [u16; 6] = [0, 1, 0, 1, 1, 1];

// `high` with `width` more bits, `low`.
fn joined(high: u16, width: u32, low: u16) -> u16
    requires narrow { width < 16 }
    requires fits { high * 2 ^ width < 2 ^ 16 }
    requires below { low < 2 ^ width }
    ensures { result ≡ high * 2 ^ width + low }
{
    (high << width) | low
}

// The `width` bits of `number` from the one of weight 2^`from` on.
fn cut(number: u16, from: u32, width: u32) -> u16
    requires low { from < 16 }
    requires narrow { width < 16 }
    ensures { result ≡ number / 2 ^ from % 2 ^ width }
{
    (number >> from) & ((1 << width) - 1)
}

// SF in the first mini-frame of a frame.
fn sf_of(frame: u8) -> u16
    ensures value { result ≡ sf_of frame }
    ensures bound { result < 2 }
{
    u16::from(frame <= 1)
}

// In6 of a frame.
fn in6_of(frame: u8) -> u16
    ensures value { result ≡ in6_of frame }
    ensures bound { result < 2 }
{
    IN6[usize::from(frame.clamp(1, LAST_FRAME)) - 1]
}

// The twelve bits of a header that its CRC-4 is over.
fn twelve_of(frame: u8, c6: u8, data: u8) -> u16
    ensures value { result ≡ twelve_of frame c6 «data» }
    ensures bound { result < 2 ^ 12 }
{
    let sf = sf_of(frame);
    let c6 = u16::from(c6.min(1));
    let in6 = in6_of(frame);
    let start = joined(joined(sf, 1, c6), 1, in6);
    let first = joined(start, 5, u16::from(data >> 3));
    joined(first, 4, u16::from(data % 8))
}

/// The header of a frame with its C6 bit, where any other than 0 counts as 1, and Data.
pub fn write(frame: u8, c6: u8, data: u8) -> u16
    ensures value { result ≡ header_of frame c6 «data» }
    ensures read_back { read_of frame result ≡ Ok (written frame c6 «data») }
    ensures told_apart { (c d : ℕ) → d < 256 → header_of frame c d ≡ result → (bit_of c ≡ bit_of c6) × (d ≡ «data») }
    ensures changed_bit_refused { (k : ℕ) → k < 16 → read_of frame (bit_xor result (2 ^ k)) ≡ Err crc4_refused }
{
    let twelve = twelve_of(frame, c6, data);
    joined(twelve, 4, crc4::of_twelve(twelve))
}

// Whether the four lowest bits of a header are the CRC-4 of the twelve others.
fn crc4_right(header: u16) -> bool
    ensures { result ≡ crc4_right header }
{
    cut(header, 0, 4) == crc4::of_twelve(header >> 4)
}

// Whether both SF bits of a header are those of a frame.
fn sf_right(frame: u8, header: u16) -> bool
    ensures { result ≡ sf_right frame header }
{
    cut(header, 15, 1) == sf_of(frame) && cut(header, 7, 1) == 0
}

// The fields of a header, as they stand in it.
fn fields_of(header: u16) -> Fields
    ensures { result ≡ fields_of header }
{
    Fields {
        c6: cut(header, 14, 1) as u8,
        in6: cut(header, 13, 1) as u8,
        data: joined(cut(header, 8, 5), 3, cut(header, 4, 3)) as u8,
    }
}

/// What the header of a frame carries, or the refusal: a wrong CRC-4 is told before a wrong SF bit. In6 is not judged.
#[tactic(auto, unfolding(crate::specs::Header::read_of))]
pub fn read(frame: u8, header: u16) -> Result<Fields, HeaderRefusal>
    ensures { judged of_header result ≡ read_of frame header }
{
    if !crc4_right(header) {
        return Err(HeaderRefusal::Crc4Wrong);
    }
    if !sf_right(frame, header) {
        return Err(HeaderRefusal::SfWrong);
    }
    Ok(fields_of(header))
}
