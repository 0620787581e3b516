//! The three numbers of a line after its first field.
ghost use Rattle.std.specs.Prelude.{◌≡◌, IfErr, IfOk, IfSome, Err};
ghost use Rattle.dmf_text.specs.Fields.{fields};
ghost use Rattle.dmf_text.specs.Numbers.{numbers_in, AreSpelled, IsAhead, IsNumberInFront, IsNumberBefore, AreDigitsInFront};
ghost use Rattle.dmf_text.specs.declared.numbers.NumbersFault.TheVariants as numbers_fault;

use crate::digits::{NumberFault, number};
use crate::exact_fields::{WrongFieldCount, three_fields};
use crate::field::{Fields, is_blank, leading_blanks};

/// A number of so many digits is below 2^64, whatever they are.
const SHORT: usize = 19;

/// Why fields are not three numbers.
#[derive(Clone, Copy)]
pub(crate) enum NumbersFault {
    /// There are too few fields, or too many.
    FieldCount,
    /// One of them spells no number.
    Number(NumberFault),
}

impl From<WrongFieldCount> for NumbersFault {
    ghost from_gives = { λ _ fault. fault ≡ numbers_fault.FieldCount };

    fn from(_count: WrongFieldCount) -> NumbersFault {
        NumbersFault::FieldCount
    }
}

impl From<NumberFault> for NumbersFault {
    ghost from_gives = { λ fault of_all. of_all ≡ numbers_fault.Number fault };

    fn from(fault: NumberFault) -> NumbersFault {
        NumbersFault::Number(fault)
    }
}

/// The numbers that the fields spell, if there are exactly three. Where each is short, reads its bytes once.
pub(crate) fn three_numbers(behind: Fields<'_>) -> Result<(u64, u64, u64), NumbersFault>
    ensures spelled { IfOk result (λ three. AreSpelled behind.entry three.0 three.1 three.2) }
    ensures fault { IfErr result (λ fault. numbers_in behind.entry ≡ Err fault) }
{
    if let Some(three) = short_numbers(behind.rest()) {
        return Ok(three);
    }
    let (first, second, third) = three_fields(behind)?;
    let first = number(first)?;
    let second = number(second)?;
    let third = number(third)?;
    Ok((first, second, third))
}

/// The three numbers that the fields of a line spell. `None` if they spell anything else, or if one of the numbers is long.
fn short_numbers(line: &[u8]) -> Option<(u64, u64, u64)>
    ensures { IfSome result (λ three. AreSpelled (fields line.now) three.0 three.1 three.2) }
{
    let (first, line) = short_number(line)?;
    let (second, line) = short_number(line)?;
    let (third, line) = short_number(line)?;
    if !line.is_empty() {
        return None;
    }
    Some((first, second, third))
}

/// The number that the first field of a line spells, and the bytes after it.
fn short_number(line: &[u8]) -> Option<(u64, &[u8])>
    ensures { IfSome result (λ ahead. IsAhead line.now ahead.0 ahead.1.now) }
{
    let (_, rest) = line.split_at(leading_blanks(line));
    let (value, count) = number_in_front(rest)?;
    let (_, behind) = rest.split_at(count);
    Some((value, behind))
}

/// The number that the bytes before the first blank spell, and how many bytes these are. `None` if they spell none, or are more
/// than [`SHORT`].
fn number_in_front(bytes: &[u8]) -> Option<(u64, usize)>
    ensures { IfSome result (λ front. IsNumberInFront bytes.now front.0 front.1) }
{
    let (value, count) = digits_in_front(bytes);
    if count == 0 || (count < bytes.len() && !is_blank(bytes[count])) {
        return None;
    }
    Some((value, count))
}

/// The number that the bytes before this byte spell, and the bytes behind it. `None` if they spell none, or are more than [`SHORT`].
pub(crate) fn number_before(end: u8, bytes: &[u8]) -> Option<(u64, &[u8])>
    ensures { IfSome result (λ front. IsNumberBefore end bytes.now front.0 front.1.now) }
{
    let (value, count) = digits_in_front(bytes);
    if count == 0 || count == bytes.len() || bytes[count] != end {
        return None;
    }
    Some((value, &bytes[count + 1..]))
}

/// The number that the first bytes spell, and how many bytes these are: the digits in front, up to [`SHORT`] of them.
fn digits_in_front(bytes: &[u8]) -> (u64, usize)
    ensures { AreDigitsInFront bytes.now result.0 result.1 }
{
    let most = bytes.len().min(SHORT);
    let mut value = 0u64;
    for i in 0..most {
        let byte = bytes[i];
        if !byte.is_ascii_digit() {
            return (value, i);
        }
        value = value * 10 + u64::from(byte - b'0');
    }
    (value, most)
}
