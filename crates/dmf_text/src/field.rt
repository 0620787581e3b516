//! The fields of a line.
ghost use Rattle.std.specs.Prelude.{◌≡◌, ◌≤◌, ℕ, List, length};
ghost use Rattle.std.specs.Iterator.{YieldsFirstRef, item_count};
ghost use Rattle.std.specs.List.{prefix_len, position_or_len};
ghost use Rattle.dmf_text.specs.Fields.{fields, is_blank};

use std::marker::Model;

/// An iterator over the fields of a line: its longest runs of bytes other than space and tab. Each is a slice of the line. Takes no
/// memory.
#[derive(Drop)]
pub struct Fields<'a> {
    rest: &'a [u8],
}

impl<'a> Model for Fields<'a> {
    ghost Value = { List (List ℕ) };

    ghost view = { λ s. fields s.rest.now };
}

impl<'a> Fields<'a> {
    /// The fields of this line.
    pub fn new(line: &'a [u8]) -> Fields<'a>
        ensures { result ≡ fields line.now }
    {
        Fields { rest: line }
    }

    /// The fields that are left, as a line.
    pub(crate) fn rest(&self) -> &'a [u8]
        ensures { fields result.now ≡ self.now }
    {
        self.rest
    }
}

impl<'a> Iterator for Fields<'a> {
    type Item = &'a [u8];

    ghost next_gives = { YieldsFirstRef (λ left. left) };

    ghost remaining = { item_count (λ left. left) };

    fn next(&mut self) -> Option<&'a [u8]> {
        let (_, rest) = self.rest.split_at(leading_blanks(self.rest));
        let (field, rest) = rest.split_at(first_blank(rest));
        self.rest = rest;
        if field.is_empty() {
            return None;
        }
        Some(field)
    }
}

pub(crate) fn is_blank(byte: u8) -> bool
    ensures { result ≡ is_blank byte }
{
    byte == b' ' || byte == b'\t'
}

/// The number of blanks at the beginning.
pub(crate) fn leading_blanks(bytes: &[u8]) -> usize
    ensures count { result ≡ prefix_len is_blank bytes.now }
    ensures bound { result ≤ length bytes.now }
{
    for (i, byte) in bytes.iter().enumerate() {
        if !is_blank(*byte) {
            return i;
        }
    }
    bytes.len()
}

// The place of the first blank, or the number of bytes.
fn first_blank(bytes: &[u8]) -> usize
    ensures place { result ≡ position_or_len is_blank bytes.now }
    ensures bound { result ≤ length bytes.now }
{
    for (i, byte) in bytes.iter().enumerate() {
        if is_blank(*byte) {
            return i;
        }
    }
    bytes.len()
}
