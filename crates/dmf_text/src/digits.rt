//! Numbers.
ghost use Rattle.std.specs.Prelude.{◌≡◌, ℕ, ◌+◌, ◌*◌, ◌<◌, length};
ghost use Rattle.dmf_text.specs.Number.{number_of, within};

use thiserror::Error;

/// Why a field spells no number.
#[derive(Clone, Copy, Debug, PartialEq, Eq, Error)]
pub enum NumberFault {
    /// The field is empty, or has a byte that is no ASCII digit.
    #[error("not a number")]
    NotANumber,
    /// The number exceeds 18446744073709551615.
    #[error("number too large")]
    TooLarge,
}

// A number up to this one stays below 2^64 with any one digit appended.
const MAX_FRONT: u64 = (u64::MAX - 9) / 10;

/// The number that a field spells in decimal digits, however many there are. Takes no memory.
pub fn number(field: &[u8]) -> Result<u64, NumberFault>
    ensures { result ≡ number_of field.now }
{
    if field.is_empty() {
        return Err(NumberFault::NotANumber);
    }
    let mut value = 0u64;
    for byte in field {
        let byte = *byte;
        if !byte.is_ascii_digit() {
            return Err(NumberFault::NotANumber);
        }
        if value > MAX_FRONT {
            return long_number(field);
        }
        value = value * 10 + u64::from(byte - b'0');
    }
    Ok(value)
}

// The number that a field spells that is not empty. Tests at each digit that the number still fits.
#[cold]
fn long_number(field: &[u8]) -> Result<u64, NumberFault>
    requires { 0 < length field.now }
    ensures { result ≡ number_of field.now }
{
    let mut value = Some(0u64);
    for byte in field {
        let byte = *byte;
        if !byte.is_ascii_digit() {
            return Err(NumberFault::NotANumber);
        }
        value = with_digit(value, byte - b'0');
    }
    value.ok_or(NumberFault::TooLarge)
}

// The number with one more digit, if it fits 64 bits.
fn with_digit(value: Option<u64>, digit: u8) -> Option<u64>
    ensures { (n : ℕ) → value ≡ within n → result ≡ within (n * 10 + digit) }
{
    value?.checked_mul(10)?.checked_add(u64::from(digit))
}
