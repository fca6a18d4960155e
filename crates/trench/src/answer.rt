// What a command answers, and how it is printed.
use frame::header::Fields;
use frame::refusal::HeaderRefusal;
use std::fmt;
use std::fmt::Display;

/// What a command answers.
#[derive(Clone, Copy)]
pub enum Answer {
    Header(u16),
    /// What a header carries, or why it is refused.
    Carried(Result<Fields, HeaderRefusal>),
    Headers([u16; 6]),
    Crc6(u8),
}

// The two bytes of a header, as a person reads them.
#[derive(Clone, Copy)]
struct Bytes(u16);

impl fmt::Display for Bytes {
    fn fmt<W: fmt::Write>(&self, f: &mut fmt::Formatter<W>) -> fmt::Result {
        let [first, second] = self.0.to_be_bytes();
        write!(f, "{first:02X} {second:02X}")
    }
}

impl fmt::Display for Answer {
    fn fmt<W: fmt::Write>(&self, f: &mut fmt::Formatter<W>) -> fmt::Result {
        match self {
            Answer::Header(header) => Bytes(*header).fmt(f),
            Answer::Carried(Ok(Fields { c6, in6, data })) => {
                write!(f, "c6 {c6} in6 {in6} data {data}")
            }
            Answer::Carried(Err(refusal)) => {
                let refusal = *refusal;
                let number = refusal.number();
                write!(f, "refused {number} ({refusal})")
            }
            Answer::Headers(headers) => {
                Bytes(headers[0]).fmt(f)?;
                for header in &headers[1..] {
                    let bytes = Bytes(*header);
                    write!(f, " {bytes}")?;
                }
                Ok(())
            }
            Answer::Crc6(crc) => write!(f, "{crc}"),
        }
    }
}
