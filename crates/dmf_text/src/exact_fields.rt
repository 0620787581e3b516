//! The fields of a line after its first.
ghost use Rattle.std.specs.Prelude.{◌≡◌, ◌≢◌, ◌∷◌, [], length, MatchResult};

use crate::field::Fields;

/// There are too few fields, or too many.
#[derive(Clone, Copy)]
pub(crate) struct WrongFieldCount;

/// The field, if there is exactly one.
pub(crate) fn one_field<'a>(mut behind: Fields<'a>) -> Result<&'a [u8], WrongFieldCount>
    ensures { MatchResult result (λ one. behind.entry ≡ one.now ∷ []) (λ _. length behind.entry ≢ 1) }
{
    match (behind.next(), behind.next()) {
        (Some(first), None) => Ok(first),
        _ => Err(WrongFieldCount),
    }
}

/// The fields, if there are exactly two.
pub(crate) fn two_fields<'a>(
    mut behind: Fields<'a>,
) -> Result<(&'a [u8], &'a [u8]), WrongFieldCount>
    ensures { MatchResult result
        (λ two. behind.entry ≡ two.0.now ∷ two.1.now ∷ [])
        (λ _. length behind.entry ≢ 2) }
{
    match (behind.next(), behind.next(), behind.next()) {
        (Some(first), Some(second), None) => Ok((first, second)),
        _ => Err(WrongFieldCount),
    }
}

/// The fields, if there are exactly three.
pub(crate) fn three_fields<'a>(
    mut behind: Fields<'a>,
) -> Result<(&'a [u8], &'a [u8], &'a [u8]), WrongFieldCount>
    ensures { MatchResult result
        (λ three. behind.entry ≡ three.0.now ∷ three.1.now ∷ three.2.now ∷ [])
        (λ _. length behind.entry ≢ 3) }
{
    match (behind.next(), behind.next(), behind.next(), behind.next()) {
        (Some(first), Some(second), Some(third), None) => Ok((first, second, third)),
        _ => Err(WrongFieldCount),
    }
}
