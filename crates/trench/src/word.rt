// The words of a command as the numbers and bytes that it takes.
ghost use Rattle.std.specs.Prelude.{◌≡◌};
ghost use Rattle.trench.specs.Words.{number_of, byte_of};

use crate::fault::{Fault, Field};

/// A number that a field takes.
pub fn number(field: Field, word: &str) -> Result<u8, Fault>
    ensures { result ≡ number_of field word.now }
{
    words::number(word, u64::from(field.most()))
        .map(|value| value as u8)
        .ok_or(Fault::NotNumber(field))
}

/// A byte in two hexadecimal digits.
pub fn byte(word: &str) -> Result<u8, Fault>
    ensures { result ≡ byte_of word.now }
{
    words::byte(word).ok_or(Fault::NotByte)
}
