//! Lines of written texts, made on the stack.
ghost use Rattle.std.specs.Prelude.{◌≡◌, ◌≤◌, ◌<◌, ◌+◌, ◌∷◌, ◌++◌, [], ℕ, List, length, drop, map, decimal};
ghost use Rattle.dmf_text.specs.Written.{written_line};

use itoa::write_digits;
use std::marker::Model;

/// A field of a line to write.
#[derive(Clone, Copy)]
pub enum LineField<'a> {
    /// These bytes.
    Text(&'a [u8]),
    /// A number, in decimal digits.
    Number(u64),
}

/// A line of at most 80 bytes, on the stack.
#[derive(Drop)]
pub struct LineBuffer {
    bytes: [u8; 80],
    start: usize,
}

impl Model for LineBuffer {
    ghost Value = { List ℕ };

    ghost view = { λ s. drop s.start s.bytes };

    ghost invariant = { λ s. s.start ≤ 80 };
}

impl LineBuffer {
    ghost use Rattle.dmf_text.specs.LineField.{field_bytes, most_bytes};

    // Makes the line that is only a line feed. `add` puts fields in front of it, the last one first.
    fn new() -> LineBuffer
        ensures { result ≡ 10 ∷ [] }
    {
        LineBuffer {
            bytes: [b'\n'; 80],
            start: 79,
        }
    }

    // Adds a field in front.
    #[inline(always)]
    fn add(&mut self, field: LineField<'_>)
        requires { most_bytes field + length self.old ≤ 80 }
        ensures text { self.new ≡ field_bytes field.entry ++ self.old }
        ensures len { length self.new ≤ most_bytes field.entry + length self.old }
    {
        match field {
            LineField::Text(text) => self.add_text(text),
            LineField::Number(number) => self.add_number(number),
        }
    }

    #[inline(always)]
    fn add_text(&mut self, text: &[u8])
        requires { length text.now + length self.old ≤ 80 }
        ensures { self.new ≡ text.now ++ self.old }
    {
        let end = self.start;
        self.start -= text.len();
        self.bytes[self.start..end].copy_from_slice(text);
    }

    // A call of its own keeps the loop of `line_of` small, so the compiler unrolls it.
    #[inline(never)]
    fn add_number(&mut self, number: u64)
        requires { 20 + length self.old ≤ 80 }
        ensures text { self.new ≡ decimal number ++ self.old }
        ensures len { length self.new ≤ 20 + length self.old }
    {
        self.start = write_digits(number, &mut self.bytes, self.start);
    }

    /// The line, with its line feed.
    pub fn as_bytes(&self) -> &[u8]
        ensures { result.now ≡ self.now }
    {
        &self.bytes[self.start..]
    }
}

ghost use Rattle.dmf_text.specs.LineField.{field_bytes, most_line_bytes};

/// Makes the line of these fields, with one space between each two, and a line feed. Takes no memory.
#[inline(always)]
pub fn line_of(fields: &[LineField<'_>]) -> LineBuffer
    requires { most_line_bytes fields.now < 80 }
    ensures { result ≡ written_line (map field_bytes fields.now) }
{
    let mut line = LineBuffer::new();
    for i in (0..fields.len()).rev() {
        if i + 1 < fields.len() {
            line.add_text(b" ");
        }
        line.add(fields[i]);
    }
    line
}
