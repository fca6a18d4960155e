// The checks of the link, its frame headers and the codes of its events.
#![tactic(auto)]

pub mod check;
pub mod crc4;
pub mod crc6;
pub mod event;
pub mod export;
pub mod header;
pub mod refusal;

#[cfg(test)]
mod tests {
    use crate::check::{Check, Crc4, remainder};
    use crate::crc6;
    use crate::event::{Event, EventCode, headers};
    use crate::header::{Fields, read, write};
    use crate::refusal::HeaderRefusal;

    #[test]
    fn headers_of_events(rt: HostRuntime) {
        assert_eq!(rt; write(1, 0, EventCode::Sync.number()), 0x9f7b);
        assert_eq!(rt; write(1, 0, EventCode::Null.number()), 0x800b);
        assert_eq!(rt; write(2, 0, 0), 0x2007);
        let sync = Event {
            code: 255,
            values: [1, 2, 3, 0, 0],
        };
        assert_eq!(rt; headers(0, sync)[2], write(3, 0, 2));
    }

    #[test]
    fn numbers_out_of_range(rt: HostRuntime) {
        assert_eq!(rt; write(0, 0, 7), write(1, 0, 7));
        assert_eq!(rt; write(200, 0, 7), write(6, 0, 7));
        assert_eq!(rt; write(3, 9, 7), write(3, 1, 7));
    }

    #[test]
    fn headers_read(rt: HostRuntime) {
        assert_eq!(rt;
            read(1, 0x9f7b),
            Ok(Fields {
                c6: 0,
                in6: 0,
                data: 255,
            })
        );
        assert_eq!(rt; read(1, 0x9f7a), Err(HeaderRefusal::Crc4Wrong));
        assert_eq!(rt; read(2, 0x9f7b), Err(HeaderRefusal::SfWrong));
    }

    #[test]
    fn checks(rt: HostRuntime) {
        assert_eq!(rt; crc6::of_bytes(&[0x00]), 55);
        assert_eq!(rt; crc6::of_bytes(&[0xff]), 58);
        assert_eq!(rt; crc6::of_bytes(&[]), 0);
        // the published check value of the CRC-4 with this divisor, B, is complemented
        assert_eq!(rt; remainder::<Crc4>(b"123456789"), 0xb ^ 0xf);
    }

    #[test]
    fn bytes_in_parts(rt: HostRuntime) {
        let parts = crc6::feed(crc6::feed_byte(crc6::start(), 0x12), &[0x34, 0x56]);
        assert_eq!(rt; crc6::finish(parts), crc6::of_bytes(&[0x12, 0x34, 0x56]));
    }
}
