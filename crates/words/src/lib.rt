// The words of a command as numbers and bytes.
#![tactic(auto)]

ghost use Rattle.std.specs.Prelude.{◌≡◌, take, drop};
ghost use Rattle.words.specs.Words.{word, decimal_of, number_of, digit_of, byte_of};

// A number in decimal digits, below 2^64. A sign is no digit.
#[tactic(auto, using(crate::proofs::Numbers::signed_number, crate::proofs::Numbers::unsigned_number))]
fn decimal(text: &str) -> Option<u64>
    ensures { result ≡ decimal_of text.now }
{
    if text.starts_with('+') {
        return None;
    }
    text.parse().ok()
}

/// A number in decimal digits that is not above `most`.
pub fn number(text: &str, most: u64) -> Option<u64>
    ensures { result ≡ number_of most text.now }
{
    decimal(text).filter(|value| *value <= most)
}

// A hexadecimal digit.
fn digit(byte: u8) -> Option<u32>
    ensures { result ≡ digit_of byte }
{
    char::from(byte).to_digit(16)
}

/// A byte in two hexadecimal digits.
pub fn byte(text: &str) -> Option<u8>
    ensures { result ≡ byte_of text.now }
{
    let [high, low] = text.as_bytes() else {
        return None;
    };
    u8::try_from(digit(*high)? * 16 + digit(*low)?).ok()
}

/// A word by its place, empty where there is none.
// No Option: a public call, whose promise stays. The definitions of commands read an absent word as an empty one.
pub fn word_at<'a>(words: &[&'a str], place: usize) -> &'a str
    ensures { result.now ≡ word words.now place }
{
    words.get(place).copied().unwrap_or_default()
}

/// The first `count` words.
pub fn before<'a, 'b>(words: &'a [&'b str], count: usize) -> &'a [&'b str]
    ensures { result.now ≡ take count words.now }
{
    words.get(..count).unwrap_or(words)
}

/// The words after the first `count`.
pub fn after<'a, 'b>(words: &'a [&'b str], count: usize) -> &'a [&'b str]
    ensures { result.now ≡ drop count words.now }
{
    words.get(count..).unwrap_or_default()
}
