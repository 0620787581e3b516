//! Sources of bytes.
ghost use Rattle.std.specs.Prelude.{◌≡◌, ◌≤◌, ◌||◌, length, false, Ok, IfOk, IsErr, MatchResult, is_err};
ghost use Rattle.std.specs.Io.KnownBytes.{ReadConsumes};
ghost use Rattle.dmf_text.specs.Streams.{Reader};

use std::io;
use std::io::Read;
use thiserror::Error;

/// A call of a reader or a writer failed.
#[derive(Clone, Copy, Debug, PartialEq, Eq, Error)]
#[error("the call failed")]
pub struct Failed;

/// A reader of bytes.
pub trait Source {
    // The bytes that reads will still give, if they are known; and the mark, which says whether a read has failed.
    ghost left: { Self → Reader };

    /// Reads some bytes into the beginning of the buffer, and returns how many. If it reads none into a buffer that is not empty, the
    /// source has ended. A failed read takes no byte.
    fn read(&mut self, buffer: &mut [u8]) -> Result<usize, Failed>
        ensures bound { IfOk result (λ n. n ≤ length buffer.new) }
        ensures bytes { ReadConsumes (left self.old).known (left self.new).known result buffer.new }
        ensures mark { (left self.new).has_failed ≡ (is_err result || (left self.old).has_failed) };
}

/// A std reader as a source. Each error becomes [`Failed`], also one of kind `Interrupted`.
#[derive(Drop)]
pub struct StdSource<R> {
    reader: R,
    failed: bool,
}

impl<R: Read> StdSource<R> {
    /// Makes a source of the bytes that the reader has left. Takes no memory.
    pub fn new(reader: R) -> StdSource<R>
        ensures bytes { (⟦<StdSource<R> as Source>⟧.left result).known ≡ R.remaining reader }
        ensures mark { (⟦<StdSource<R> as Source>⟧.left result).has_failed ≡ false }
    {
        StdSource {
            reader,
            failed: false,
        }
    }
}

impl<R: Read> Source for StdSource<R> {
    ghost left = { λ s. record { known = R.remaining s.reader; has_failed = s.failed } };

    fn read(&mut self, buffer: &mut [u8]) -> Result<usize, Failed> {
        let given = without_reason(self.reader.read(buffer));
        self.failed |= given.is_err();
        given
    }
}

/// The result of a std call, with each error as [`Failed`].
pub(crate) fn without_reason<T>(answer: io::Result<T>) -> Result<T, Failed>
    ensures { MatchResult answer (λ value. result ≡ Ok value) (λ _. IsErr result) }
{
    answer.map_err(|_| Failed)
}
