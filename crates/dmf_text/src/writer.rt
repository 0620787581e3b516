//! Sinks for bytes.
ghost use Rattle.std.specs.Prelude.{◌≡◌, ◌≢◌, ◌↔◌, ◌⊎◌, ◌≤◌, ◌<◌, ◌||◌, [], length, false, Ok, IfOk, IsErr, is_err};
ghost use Rattle.std.specs.Io.KnownBytes.{Keeps, WriteAppends};
ghost use Rattle.dmf_text.specs.Streams.{Writer};
ghost use Rattle.dmf_text.specs.Writing.{Writes};

use super::reader::{Failed, without_reason};
use std::io;
use std::io::Write;
use thiserror::Error;

/// A put failed, so only a prefix of the text was written.
#[derive(Clone, Copy, Debug, PartialEq, Eq, Error)]
#[error("write failed")]
pub struct WriteFault;

/// A writer of bytes.
pub trait Sink {
    // The bytes that the writer holds, if they are known; and the mark, which says whether a call has failed.
    ghost written: { Self → Writer };

    /// Writes a prefix of the bytes, and returns its length, which is 0 only if there are no bytes. A failed put writes no byte.
    fn put(&mut self, bytes: &[u8]) -> Result<usize, Failed>
        ensures bound { IfOk result (λ n. n ≤ length bytes.now) }
        ensures some { IfOk result (λ n. 0 < length bytes.now → 0 < n) }
        ensures bytes { WriteAppends (written self.old).contents (written self.new).contents result bytes.now }
        ensures mark { (written self.new).has_failed ≡ (is_err result || (written self.old).has_failed) };

    /// Flushes what was written so far.
    fn flush(&mut self) -> Result<(), Failed>
        ensures bytes { Keeps (written self.old).contents (written self.new).contents }
        ensures mark { (written self.new).has_failed ≡ (is_err result || (written self.old).has_failed) };
}

/// A std writer as a sink. Each error becomes [`Failed`], also one of kind `Interrupted`, and so does a write that takes none of some bytes.
#[derive(Drop)]
pub struct StdSink<W> {
    writer: W,
    failed: bool,
}

impl<W: Write> StdSink<W> {
    /// Makes a sink of the writer. Takes no memory.
    pub fn new(writer: W) -> StdSink<W>
        ensures bytes { (⟦<StdSink<W> as Sink>⟧.written result).contents ≡ W.contents writer }
        ensures mark { (⟦<StdSink<W> as Sink>⟧.written result).has_failed ≡ false }
    {
        StdSink {
            writer,
            failed: false,
        }
    }
}

impl<W: Write> Sink for StdSink<W> {
    ghost written = { λ s. record { contents = W.contents s.writer; has_failed = s.failed } };

    fn put(&mut self, bytes: &[u8]) -> Result<usize, Failed> {
        let taken = taken(self.writer.write(bytes), bytes);
        self.failed |= taken.is_err();
        taken
    }

    fn flush(&mut self) -> Result<(), Failed> {
        let passed_on = without_reason(self.writer.flush());
        self.failed |= passed_on.is_err();
        passed_on
    }
}

/// The result of writing the bytes. A count of 0 for some bytes is [`Failed`] too.
fn taken(answer: io::Result<usize>, bytes: &[u8]) -> Result<usize, Failed>
    ensures fails { IsErr result ↔ (IsErr answer ⊎ ((answer ≡ Ok 0) × (bytes.now ≢ []))) }
    ensures count { IfOk result (λ n. answer ≡ Ok n) }
{
    match answer {
        Ok(0) if !bytes.is_empty() => Err(Failed),
        answer => without_reason(answer),
    }
}

/// Writes the whole text, in as many puts as that needs. Takes no memory, and does not flush.
pub fn put_all<W: Sink>(out: &mut W, text: &[u8]) -> Result<(), WriteFault>
    ensures { Writes (W.written out.old) (W.written out.new) result text.now }
{
    let mut rest = text;
    while !rest.is_empty() {
        let Ok(taken) = out.put(rest) else {
            return Err(WriteFault);
        };
        rest = &rest[taken..];
    }
    Ok(())
}
