//! A command line, taken byte by byte, and kept up to its limit.
ghost use Rattle.std.specs.Prelude.{◌≡◌, ◌∷◌, ◌++◌, [], List, ℕ, IsTrue, ◌↔◌};
ghost use Rattle.dmf_streams.specs.KeptLine.{IsKept};

use std::marker::Model;

/// The largest number of bytes of a command line. A carriage return counts, the line feed does not.
pub const MAX_LINE: usize = 4096;

/// A line that keeps at most its first [`MAX_LINE`] bytes.
#[derive(Drop)]
pub struct KeptLine {
    bytes: [u8; MAX_LINE],
    len: usize,
    is_long: bool,
}

impl Model for KeptLine {
    ghost use Rattle.std.specs.Prelude.{take, ◌≤◌};
    ghost use Rattle.dmf_streams.specs.KeptLine.{Kept};

    ghost Value = { Kept };

    ghost view = { λ a. record { bytes = take a.len a.bytes; is_long = a.is_long } };

    ghost invariant = { λ a. a.len ≤ 4096 };
}

impl KeptLine {
    /// Makes an empty line.
    pub fn new() -> Self
        ensures { IsKept result [] }
    {
        KeptLine {
            bytes: [0; MAX_LINE],
            len: 0,
            is_long: false,
        }
    }

    /// Forgets the line, and begins another.
    pub fn clear(&mut self)
        ensures { IsKept self.new [] }
    {
        self.len = 0;
        self.is_long = false;
    }

    /// Adds a byte at the end of the line.
    pub fn push(&mut self, byte: u8)
        ensures { (line : List ℕ) → IsKept self.old line → IsKept self.new (line ++ byte ∷ []) }
    {
        if self.len == MAX_LINE {
            self.is_long = true;
        } else {
            self.bytes[self.len] = byte;
            self.len += 1;
        }
    }

    /// Whether the line has no byte.
    pub fn is_empty(&self) -> bool
        ensures { (line : List ℕ) → IsKept self.now line → (IsTrue result ↔ (line ≡ [])) }
    {
        self.len == 0
    }

    /// Whether the line has more bytes than it keeps.
    pub fn is_long(&self) -> bool
        ensures { result ≡ self.now.is_long }
    {
        self.is_long
    }

    /// The bytes that the line keeps.
    pub fn bytes(&self) -> &[u8]
        ensures { result.now ≡ self.now.bytes }
    {
        &self.bytes[..self.len]
    }
}
