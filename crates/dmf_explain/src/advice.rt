//! What is wrong with the field of a number, in any text.
use crate::fields::{FieldRange, Placed, field_at, first_fault};
use crate::part::{Parts, about, no_number, words};
use dmf_text::NumberFault;

/// An explanation of a fault: which field of the line has it, counted from 1, or 0 if the whole line or text has it; and what was
/// expected.
#[derive(Clone, Copy)]
pub struct Advice<'a> {
    pub place: usize,
    pub parts: Parts<'a>,
}

impl<'a> Advice<'a> {
    /// An explanation of a whole line or text.
    pub fn of_line(parts: Parts<'a>) -> Advice<'a> {
        Advice { place: 0, parts }
    }

    /// These words on a whole line or text.
    pub fn saying(text: &'a str) -> Advice<'a> {
        Advice::of_line(words(text))
    }

    /// These words after the field that has the fault.
    pub fn about(placed: Placed<'a>, text: &'a str) -> Advice<'a> {
        Advice {
            place: placed.place,
            parts: about(placed.field, text),
        }
    }

    /// These words after the field at this place of the line, or the other words if there is no such line.
    pub fn at(
        line: Option<&'a [u8]>,
        place: usize,
        text: &'a str,
        else_text: &'a str,
    ) -> Advice<'a> {
        match line.and_then(|line| field_at(line, place)) {
            Some(field) => Advice::about(Placed { place, field }, text),
            None => Advice::saying(else_text),
        }
    }
}

/// Explains a field that is no number. `on_names` follows a word that stands where a node belongs.
pub fn not_a_number<'a>(line: Option<&'a [u8]>, on_names: &'a str) -> Advice<'a> {
    let Some(placed) = line.and_then(|line| faulty(line, NumberFault::NotANumber)) else {
        return Advice::saying(
            "a number has digits alone: whole, without sign, from 0 to 18446744073709551615",
        );
    };
    let way = if placed.place < 4 && is_word(placed.field) {
        on_names
    } else {
        way_on(placed.field)
    };
    Advice {
        place: placed.place,
        parts: no_number(placed.field, way),
    }
}

/// Whether the field begins with a letter or a quote.
fn is_word(field: &[u8]) -> bool {
    match field {
        [first, ..] => first.is_ascii_alphabetic() || *first == b'"',
        [] => false,
    }
}

/// A field of a line whose number is too large.
pub fn too_large<'a>(line: Option<&'a [u8]>) -> Advice<'a> {
    match line.and_then(|line| faulty(line, NumberFault::TooLarge)) {
        Some(placed) => Advice::about(placed, " is past 18446744073709551615, the largest number"),
        None => Advice::saying("the largest number is 18446744073709551615"),
    }
}

/// The first field of a line of a problem or a solution that has this fault.
fn faulty(line: &[u8], fault: NumberFault) -> Option<Placed<'_>> {
    let kind = field_at(line, 1)?;
    first_fault(line, FieldRange::of_numbers(kind), fault)
}

/// What to write instead of a field that is no number.
pub fn way_on<'a>(field: &[u8]) -> &'a str {
    if is_infinite(field) {
        "; there is no infinite capacity: write a large number"
    } else if field.ends_with(b"\r") {
        "; the text ends with a carriage return and no line feed behind it"
    } else if field.starts_with(b"-") || field.starts_with(b"+") {
        "; numbers have no sign (for no limit write a large number)"
    } else if field.contains(&b',') {
        "; write digits alone, without commas"
    } else if field.first().is_some_and(|byte| byte.is_ascii_digit()) {
        "; write digits alone"
    } else {
        ""
    }
}

/// Whether the field stands for infinity, as other programs write it.
fn is_infinite(field: &[u8]) -> bool {
    let unsigned = match field {
        [b'+', rest @ ..] => rest,
        whole => whole,
    };
    unsigned.eq_ignore_ascii_case(b"inf")
        || unsigned.eq_ignore_ascii_case(b"infinity")
        || unsigned.eq_ignore_ascii_case(b"infinite")
        || unsigned.eq_ignore_ascii_case(b"oo")
        || unsigned == b"\xe2\x88\x9e".as_slice()
}
