//! The pieces that make an explanation.
use bstr::ByteSlice;
use std::fmt;

/// So many characters of a field or a name are shown, and two points stand for the rest.
const MOST_SHOWN: usize = 60;

/// A piece of an explanation.
#[derive(Clone, Copy)]
pub enum Part<'a> {
    /// Words of the program.
    Words(&'a str),
    /// Text of somebody else, between quotes.
    Quoted(&'a [u8]),
    /// Text of somebody else, without quotes.
    Shown(&'a [u8]),
    Number(u64),
}

/// The pieces of an explanation, in order. Pieces that are not needed are empty.
pub type Parts<'a> = [Part<'a>; 5];

const NOTHING: Part<'static> = Part::Words("");

/// These words alone.
pub fn words<'a>(text: &'a str) -> Parts<'a> {
    [Part::Words(text), NOTHING, NOTHING, NOTHING, NOTHING]
}

/// A field in quotes, and words after it.
pub fn about<'a>(field: &'a [u8], text: &'a str) -> Parts<'a> {
    about_with(field, text, NOTHING)
}

/// A field in quotes, words after it, and one piece more.
pub fn about_with<'a>(field: &'a [u8], text: &'a str, more: Part<'a>) -> Parts<'a> {
    [
        Part::Quoted(field),
        Part::Words(text),
        more,
        NOTHING,
        NOTHING,
    ]
}

/// A field that is no number, and these words after it.
pub fn no_number<'a>(field: &'a [u8], more: &'a str) -> Parts<'a> {
    let text = " is no whole number from 0 to 18446744073709551615";
    about_with(field, text, Part::Words(more))
}

/// A number between two texts.
pub fn numbered<'a>(before: &'a str, number: u64, behind: &'a str) -> Parts<'a> {
    [
        Part::Words(before),
        Part::Number(number),
        Part::Words(behind),
        NOTHING,
        NOTHING,
    ]
}

impl fmt::Display for Part<'_> {
    fn fmt<W: fmt::Write>(&self, f: &mut fmt::Formatter<W>) -> fmt::Result {
        match self {
            Part::Words(text) => f.write_str(text),
            Part::Quoted(bytes) => quote(bytes, f),
            Part::Shown(bytes) => fmt::Display::fmt(&Shown(bytes), f),
            Part::Number(number) => fmt::Display::fmt(number, f),
        }
    }
}

/// Writes text of somebody else, between quotes.
fn quote<W: fmt::Write>(bytes: &[u8], f: &mut fmt::Formatter<W>) -> fmt::Result {
    let shown = Shown(bytes);
    write!(f, "'{shown}'")
}

/// The pieces, one after the other.
#[derive(Clone, Copy)]
pub struct Said<'a>(pub Parts<'a>);

impl fmt::Display for Said<'_> {
    fn fmt<W: fmt::Write>(&self, f: &mut fmt::Formatter<W>) -> fmt::Result {
        for part in &self.0 {
            fmt::Display::fmt(part, f)?;
        }
        Ok(())
    }
}

/// Bytes in a form that a terminal may show: without control characters, and cut if they are many.
#[derive(Clone, Copy)]
pub struct Shown<'a>(pub &'a [u8]);

impl fmt::Display for Shown<'_> {
    fn fmt<W: fmt::Write>(&self, f: &mut fmt::Formatter<W>) -> fmt::Result {
        for (i, character) in self.0.chars().enumerate() {
            if i == MOST_SHOWN {
                return f.write_str("..");
            }
            show(character, f)?;
        }
        Ok(())
    }
}

/// Writes a character. A control character is written as its number.
fn show<W: fmt::Write>(character: char, f: &mut fmt::Formatter<W>) -> fmt::Result {
    if character.is_control() {
        let number = character as u32;
        write!(f, "\\x{number:02x}")
    } else {
        f.write_char(character)
    }
}
