//! Which field of a line a fault is about.
ghost use Rattle.std.specs.Prelude.{◌↔◌, ◌≤◌, ℕ, List, IfSome, IsSomeAnd, IsTrue};
ghost use Rattle.dmf_explain.specs.Fields.{IsFaulty};

use dmf_text::{Fields, NumberFault, number};

/// A field of a line, by its place, counted from 1.
#[derive(Clone, Copy)]
pub struct Placed<'a> {
    pub place: usize,
    pub field: &'a [u8],
}

/// The places of some fields: the first and the last.
#[derive(Clone, Copy)]
pub struct FieldRange {
    pub first: usize,
    pub last: usize,
}

impl FieldRange {
    /// The places of the numbers in a line of a problem or a solution with this first field.
    pub fn of_numbers(kind: &[u8]) -> FieldRange {
        match kind {
            b"p" => FieldRange { first: 3, last: 4 },
            b"n" | b"s" => FieldRange { first: 2, last: 2 },
            _ => FieldRange { first: 2, last: 4 },
        }
    }

    fn have(self, place: usize) -> bool
        ensures { IsTrue result ↔ ((self.first ≤ place) × (place ≤ self.last)) }
    {
        self.first <= place && place <= self.last
    }
}

/// The field at this place.
pub fn field_at(line: &[u8], place: usize) -> Option<&[u8]> {
    let mut at = 0usize;
    for field in Fields::new(line) {
        at = at.saturating_add(1);
        if at == place {
            return Some(field);
        }
    }
    None
}

/// How many fields the line has.
pub fn count(line: &[u8]) -> u64 {
    let mut fields = 0u64;
    for _ in Fields::new(line) {
        fields = fields.saturating_add(1);
    }
    fields
}

/// The first field at these places that has this fault.
pub fn first_fault<'a>(line: &'a [u8], places: FieldRange, fault: NumberFault) -> Option<Placed<'a>>
    ensures faulty { IfSome result (λ placed. IsFaulty line.now places fault placed.place placed.field.now) }
    ensures first { (place : ℕ) (field : List ℕ) → IsFaulty line.now places fault place field → IsSomeAnd result (λ placed. placed.place ≤ place) }
{
    let mut place = 0usize;
    for field in Fields::new(line) {
        place = place.saturating_add(1);
        if places.have(place) && number(field) == Err(fault) {
            return Some(Placed { place, field });
        }
    }
    None
}

/// The first field at these places whose number is below the least or past the most.
pub fn first_outside<'a>(
    line: &'a [u8],
    places: FieldRange,
    least: u64,
    most: u64,
) -> Option<Placed<'a>> {
    let mut place = 0usize;
    for field in Fields::new(line) {
        place = place.saturating_add(1);
        if places.have(place) && is_outside(field, least, most) {
            return Some(Placed { place, field });
        }
    }
    None
}

/// Whether the field is not a number from the least to the most.
fn is_outside(field: &[u8], least: u64, most: u64) -> bool {
    match number(field) {
        Ok(number) => number < least || number > most,
        Err(_) => true,
    }
}
