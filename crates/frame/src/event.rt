// Events, and the headers that carry one through a superframe.
ghost use Rattle.std.specs.Prelude.{◌≡◌};
ghost use Rattle.frame.specs.Header.{header_of};
ghost use Rattle.frame.specs.Superframe.{code_of, data_of, c6_of, headers_of};

use crate::header::{LAST_FRAME, write};
use std::array;

/// The events that the link knows, with their codes: evNull, evSyncChange, evConfigSw and evSync.
#[derive(Clone, Copy, PartialEq, Eq, Debug)]
pub enum EventCode {
    Null = 0,
    SyncChange = 1,
    ConfigSw = 2,
    Sync = 255,
}

impl EventCode {
    /// The code as it stands in a header.
    // No `From` for `u8`: the name says which number this is, and a bare conversion would not.
    pub fn number(self) -> u8
        ensures { result ≡ code_of self }
    {
        self as u8
    }
}

/// An event: its code and Value[0] to Value[4].
// The code is a byte, and no `EventCode`: a header may carry any, and a narrower type would ask more of callers.
#[derive(Clone, Copy, Debug)]
pub struct Event {
    pub code: u8,
    pub values: [u8; 5],
}

impl Event {
    /// Data of a frame: the code in frame 1, the values in frames 2 to 6.
    pub fn data(self, frame: u8) -> u8
        ensures { result ≡ data_of self frame }
    {
        match frame {
            0 | 1 => self.code,
            _ => self.values[usize::from(frame.min(LAST_FRAME)) - 2],
        }
    }
}

/// The C6 bit of a frame: the six bits of a CRC-6 over the six frames, the highest first.
pub fn c6_bit(crc: u8, frame: u8) -> u8
    ensures { result ≡ c6_of crc frame }
{
    (crc >> (LAST_FRAME - frame.clamp(1, LAST_FRAME))) % 2
}

// The header of one frame of a superframe.
fn header_of(crc: u8, event: Event, frame: u8) -> u16
    ensures { result ≡ header_of frame (c6_of crc frame) (data_of event frame) }
{
    write(frame, c6_bit(crc, frame), event.data(frame))
}

/// The headers of a superframe's six frames.
pub fn headers(crc: u8, event: Event) -> [u16; 6]
    ensures { result ≡ headers_of crc event }
{
    array::from_fn(|i| header_of(crc, event, i as u8 + 1))
}
