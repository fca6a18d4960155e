// The header calls and the CRC-6 for the pair board's C firmware: plain numbers in and out. The crate `frame_c` hands them
// to C under the same names.
ghost use Rattle.std.specs.Prelude.{◌≡◌};
ghost use Rattle.frame.specs.Checks.{crc6_of};
ghost use Rattle.frame.specs.Export.{packed};
ghost use Rattle.frame.specs.Header.{header_of, read_of};

use crate::crc6;
use crate::header::{read, write};

/// The header of a frame.
pub fn frame_header_write(frame: u8, c6: u8, data: u8) -> u16
    ensures { result ≡ header_of frame c6 «data» }
{
    write(frame, c6, data)
}

/// What the header of a frame carries, as one number: C6 in bit 9, In6 in bit 8, Data in bits 7 to 0; or, where the
/// header is refused, the refusal's number times 65,536.
pub fn frame_header_read(frame: u8, header: u16) -> u32
    ensures { result ≡ packed (read_of frame header) }
{
    match read(frame, header) {
        Ok(fields) => (u32::from(fields.c6) << 9)
            + (u32::from(fields.in6) << 8)
            + u32::from(fields.data),
        Err(refusal) => u32::from(refusal.number()) << 16,
    }
}

/// The CRC-6 over some bytes, for C a pointer and a length.
pub fn frame_crc6(bytes: &[u8]) -> u8
    ensures { result ≡ crc6_of bytes.now }
{
    crc6::of_bytes(bytes)
}
