// Checks (CRC). A check is told by its degree and its lower terms, and one text serves every check.
// A register is a number whose bit of weight 2^k is the coefficient of x^k; bits go in most significant first.
ghost use Rattle.std.specs.Prelude.{◌≡◌, ℕ, ◌-◌, ◌*◌, ◌^◌, ◌<◌, ◌≤◌};
ghost use Rattle.frame.specs.Checks.{most_degree, ones, fed_bits, fed, InParts, remainder_of, RemaindersDivide, RemaindersUnique, crc4_degree, crc4_lower, crc6_degree, crc6_lower};
ghost use Rattle.frame.specs.Division.{stepped, bits, after_each};
ghost use Rattle.std.proofs.Common.{rules};

/// A check by its divisor, x^DEGREE + LOWER. Each impl gives both numbers twice, as a meaning and as a constant, which the
/// proof holds together.
// `bound` stands in eight contracts, and a type of registers would be no plainer: callers hand in any number, of which the lowest
// bits count, so that public contracts would say it all the same.
pub trait Check {
    ghost DEGREE: { ℕ };

    ghost LOWER: { ℕ };

    /// The degree of the divisor.
    const DEGREE: u32;

    /// The lower terms of the divisor.
    const LOWER: u64;

    /// `DEGREE`, by a call.
    fn degree_of() -> u32
        ensures { result ≡ DEGREE }
    {
        Self::DEGREE
    }

    /// `LOWER`, by a call.
    fn lower_of() -> u64
        ensures { result ≡ LOWER }
    {
        Self::LOWER
    }

    /// The register with the last four bits of a number.
    fn feed_nibble(register: u64, nibble: u64) -> u64
        ensures value { result ≡ fed_bits DEGREE LOWER register (bits 4 nibble) }
        ensures bound { result < 2 ^ DEGREE }
    {
        Divisor {
            degree: Self::DEGREE,
            lower: Self::LOWER,
        }
        .feed(register, nibble, 4)
    }

    /// The register with one more byte.
    fn feed_byte(register: u64, byte: u8) -> u64
        ensures value { result ≡ fed_bits DEGREE LOWER register (bits 8 byte) }
        ensures bound { result < 2 ^ DEGREE }
    {
        Divisor {
            degree: Self::DEGREE,
            lower: Self::LOWER,
        }
        .feed(register, u64::from(byte), 8)
    }

    ghost least: { 1 ≤ DEGREE };

    ghost most: { DEGREE ≤ most_degree };

    ghost below: { LOWER < 2 ^ DEGREE };
}

// The divisor of a check: x^degree + lower. Four bodies write it out: a constructor would be no plainer, since it takes both numbers
// too, and would ask again for what the ghost fields say.
#[derive(Clone, Copy)]
struct Divisor {
    degree: u32,
    lower: u64,
    ghost narrow: { degree < 64 },
    ghost below: { lower < 2 ^ degree },
}

impl Divisor {
    // The register with one more bit.
    fn step(self, register: u64, bit: u64) -> u64
        requires within { register < 2 ^ self.degree }
        requires single { bit < 2 }
        ensures value { result ≡ stepped self.degree self.lower register bit }
        ensures bound { result < 2 ^ self.degree }
    {
        let next = (register << 1) ^ (bit << self.degree);
        if next >> self.degree == 0 {
            next
        } else {
            next ^ ((1 << self.degree) + self.lower)
        }
    }

    // The register with the last `count` bits of a number.
    fn feed(self, register: u64, value: u64, count: u32) -> u64
        requires { count ≤ 64 }
        ensures value { result ≡ fed_bits self.degree self.lower register (bits count value) }
        ensures bound { result < 2 ^ self.degree }
    {
        let mut state = register & ((1 << self.degree) - 1);
        for k in (0..count).rev() {
            state = self.step(state, (value >> k) & 1);
        }
        state
    }

    // The same by a table of what a register of zeros is after each `count` bits. The register's bits stand over the first
    // of the number's, so that one look-up serves both.
    fn look_up<const N: usize>(self, table: &[u8; N], register: u64, value: u64, count: u32) -> u64
        requires fits { self.degree ≤ count }
        requires few { count < 64 }
        requires table { table.now ≡ after_each self.degree self.lower count }
        ensures value { result ≡ fed_bits self.degree self.lower register (bits count value) }
        ensures bound { result < 2 ^ self.degree }
    {
        let sum = (register << (count - self.degree)) ^ value;
        u64::from(table[(sum & ((1 << count) - 1)) as usize])
    }
}

/// The register as a check starts: all ones.
pub fn start<C: Check>() -> u64
    ensures { result ≡ ones C.Check.DEGREE }
{
    (1 << C::DEGREE) - 1
}

// The register with the last `count` times four bits of a number.
pub(crate) fn feed_nibbles<C: Check>(register: u64, value: u64, count: u32) -> u64
    requires { count ≤ 16 }
    ensures value { result ≡ fed_bits C.Check.DEGREE C.Check.LOWER register (bits (4 * count) value) }
    ensures bound { result < 2 ^ C.Check.DEGREE }
{
    let mut state = register & start::<C>();
    for k in (0..count).rev() {
        state = C::feed_nibble(state, value >> (4 * k));
    }
    state
}

/// The register with more bytes. Bytes fed in parts, one part after the other, come to the same as all of them at once.
pub fn feed<C: Check>(register: u64, bytes: &[u8]) -> u64
    ensures value { result ≡ fed C.Check.DEGREE C.Check.LOWER register bytes.now }
    ensures bound { result < 2 ^ C.Check.DEGREE }
    ensures in_parts { InParts C.Check.DEGREE C.Check.LOWER register bytes.now result }
{
    let mut state = register & start::<C>();
    for byte in bytes {
        state = C::feed_byte(state, *byte);
    }
    state
}

/// The remainder over some bytes.
pub fn remainder<C: Check>(bytes: &[u8]) -> u64
    ensures value { result ≡ remainder_of C.Check.DEGREE C.Check.LOWER bytes.now }
    ensures bound { result < 2 ^ C.Check.DEGREE }
{
    feed::<C>(start::<C>(), bytes)
}

/// The remainder of a check is what a division of polynomials leaves, which is one number and no other.
pub fn remainders_divide()
    ensures divides { RemaindersDivide }
    ensures unique { RemaindersUnique }
{}

/// x^4 + x + 1.
pub struct Crc4;

impl Check for Crc4 {
    ghost DEGREE = { crc4_degree };

    ghost LOWER = { crc4_lower };

    const DEGREE: u32 = 4;

    const LOWER: u64 = 0b0011;

    ghost least = { Prim.search rules };

    ghost most = { Prim.search rules };

    ghost below = { Prim.search rules };

    fn feed_nibble(register: u64, nibble: u64) -> u64 {
        Divisor {
            degree: Self::DEGREE,
            lower: Self::LOWER,
        }
        .look_up(&AFTER_NIBBLE, register, nibble, 4)
    }
}

// What a CRC-4 register of zeros is after each four bits.
const AFTER_NIBBLE: [u8; 16] = [0, 3, 6, 5, 12, 15, 10, 9, 11, 8, 13, 14, 7, 4, 1, 2];

/// x^6 + x + 1.
pub struct Crc6;

impl Check for Crc6 {
    ghost DEGREE = { crc6_degree };

    ghost LOWER = { crc6_lower };

    const DEGREE: u32 = 6;

    const LOWER: u64 = 0b00_0011;

    ghost least = { Prim.search rules };

    ghost most = { Prim.search rules };

    ghost below = { Prim.search rules };

    fn feed_byte(register: u64, byte: u8) -> u64 {
        Divisor {
            degree: Self::DEGREE,
            lower: Self::LOWER,
        }
        .look_up(&AFTER_BYTE, register, u64::from(byte), 8)
    }
}

// What a CRC-6 register of zeros is after each byte.
#[rattlefmt::skip]
const AFTER_BYTE: [u8; 256] = [
    0, 3, 6, 5, 12, 15, 10, 9, 24, 27, 30, 29, 20, 23, 18, 17,
    48, 51, 54, 53, 60, 63, 58, 57, 40, 43, 46, 45, 36, 39, 34, 33,
    35, 32, 37, 38, 47, 44, 41, 42, 59, 56, 61, 62, 55, 52, 49, 50,
    19, 16, 21, 22, 31, 28, 25, 26, 11, 8, 13, 14, 7, 4, 1, 2,
    5, 6, 3, 0, 9, 10, 15, 12, 29, 30, 27, 24, 17, 18, 23, 20,
    53, 54, 51, 48, 57, 58, 63, 60, 45, 46, 43, 40, 33, 34, 39, 36,
    38, 37, 32, 35, 42, 41, 44, 47, 62, 61, 56, 59, 50, 49, 52, 55,
    22, 21, 16, 19, 26, 25, 28, 31, 14, 13, 8, 11, 2, 1, 4, 7,
    10, 9, 12, 15, 6, 5, 0, 3, 18, 17, 20, 23, 30, 29, 24, 27,
    58, 57, 60, 63, 54, 53, 48, 51, 34, 33, 36, 39, 46, 45, 40, 43,
    41, 42, 47, 44, 37, 38, 35, 32, 49, 50, 55, 52, 61, 62, 59, 56,
    25, 26, 31, 28, 21, 22, 19, 16, 1, 2, 7, 4, 13, 14, 11, 8,
    15, 12, 9, 10, 3, 0, 5, 6, 23, 20, 17, 18, 27, 24, 29, 30,
    63, 60, 57, 58, 51, 48, 53, 54, 39, 36, 33, 34, 43, 40, 45, 46,
    44, 47, 42, 41, 32, 35, 38, 37, 52, 55, 50, 49, 56, 59, 62, 61,
    28, 31, 26, 25, 16, 19, 22, 21, 4, 7, 2, 1, 8, 11, 14, 13,
];
