//! Lines from a reader that gives its bytes in pieces of any length.
ghost use Rattle.std.specs.Prelude.{◌≡◌, []};
ghost use Rattle.dmf_streams.specs.Input.{input_over, ReadsPiece, GivesByte, GivesLine, GivesEnd};

use crate::fault::EngineFault;
use crate::kept_line::KeptLine;
use dmf_text::Source;
use std::marker::Model;

/// The largest number of bytes that all command lines have together.
pub const MAX_BYTES: u64 = 1_073_741_824;

const PIECE: usize = 2048;

/// The result of a request for a line.
#[derive(Clone, Copy)]
pub enum Next {
    /// A line.
    Line {
        /// Whether a line feed ended it; else the end of the input did.
        ended: bool,
    },
    /// The end of the input.
    End,
}

/// The bytes of a reader, one after the other, up to a limit of [`MAX_BYTES`].
#[derive(Drop)]
pub struct Input {
    piece: [u8; PIECE],
    start: usize,
    end: usize,
    count: u64,
}

impl Model for Input {
    ghost use Rattle.std.specs.Prelude.{slice_range, ◌≤◌, ◌^◌};
    ghost use Rattle.dmf_streams.specs.Pending.{Pending};

    ghost Value = { Pending };

    ghost view = { λ a. record { bytes = slice_range a.piece a.start a.end; count = a.count } };

    ghost invariant = { λ a. (a.start ≤ a.end) × (a.end ≤ 2048) × (a.count ≤ 2 ^ 30) };
}

impl Input {
    /// An input that has read nothing yet.
    pub fn new() -> Self
        ensures { result ≡ record { bytes = []; count = 0 } }
    {
        Input {
            piece: [0; PIECE],
            start: 0,
            end: 0,
            count: 0,
        }
    }

    /// Reads the next piece if no byte is pending. If the input has ended, no byte is pending afterwards.
    fn fill<C: Source>(&mut self, source: &mut C) -> Result<(), EngineFault>
        ensures { ReadsPiece
            (input_over self.old (C.left source.old))
            (input_over self.new (C.left source.new))
            result }
    {
        if self.start < self.end {
            return Ok(());
        }
        self.start = 0;
        self.end = 0;
        let Ok(end) = source.read(&mut self.piece) else {
            return Err(EngineFault::Read);
        };
        self.end = end;
        Ok(())
    }

    /// Takes the next byte, if there is one.
    fn next_byte<C: Source>(&mut self, source: &mut C) -> Result<Option<u8>, EngineFault>
        ensures { GivesByte
            (input_over self.old (C.left source.old))
            (input_over self.new (C.left source.new))
            result }
    {
        self.fill(source)?;
        if self.start == self.end {
            return Ok(None);
        }
        if self.count == MAX_BYTES {
            return Err(EngineFault::TooMuchInput);
        }
        let byte = self.piece[self.start];
        self.start += 1;
        self.count += 1;
        Ok(Some(byte))
    }

    /// Takes the next line, if there is one, in place of the kept one. Reads no byte past its line feed.
    pub fn next_line<C: Source>(
        &mut self,
        source: &mut C,
        line: &mut KeptLine,
    ) -> Result<Next, EngineFault>
        ensures { GivesLine
            (input_over self.old (C.left source.old))
            (input_over self.new (C.left source.new))
            line.new result }
    {
        line.clear();
        while let Some(byte) = self.next_byte(source)? {
            if byte == b'\n' {
                return Ok(Next::Line { ended: true });
            }
            line.push(byte);
        }
        if line.is_empty() {
            return Ok(Next::End);
        }
        Ok(Next::Line { ended: false })
    }

    /// Fails if there is another byte.
    pub fn expect_end<C: Source>(&mut self, source: &mut C) -> Result<(), EngineFault>
        ensures { GivesEnd
            (input_over self.old (C.left source.old))
            (input_over self.new (C.left source.new))
            result }
    {
        match self.next_byte(source)? {
            None => Ok(()),
            Some(_) => Err(EngineFault::TooMuchInput),
        }
    }
}
