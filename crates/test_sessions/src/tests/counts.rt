//! Readers and writers whose calls are counted.
use std::io;
use std::io::{ErrorKind, Read, Write};

/// Passes its calls on, and counts the reads or the writes.
#[derive(Drop)]
pub struct Counted<'a, T> {
    pub inner: T,
    pub calls: &'a mut usize,
}

impl<'a, T: Read> Read for Counted<'a, T> {
    fn read(&mut self, buffer: &mut [u8]) -> io::Result<usize> {
        *self.calls = self.calls.saturating_add(1);
        self.inner.read(buffer)
    }
}

impl<'a, T: Write> Write for Counted<'a, T> {
    fn write(&mut self, bytes: &[u8]) -> io::Result<usize> {
        *self.calls = self.calls.saturating_add(1);
        self.inner.write(bytes)
    }

    fn flush(&mut self) -> io::Result<()> {
        self.inner.flush()
    }
}

/// Takes all bytes, keeps none, and counts its flushes. Either each flush fails or none.
#[derive(Drop)]
pub struct FlushCounter<'a> {
    pub flushes: &'a mut usize,
    pub fails: bool,
}

impl<'a> Write for FlushCounter<'a> {
    fn write(&mut self, bytes: &[u8]) -> io::Result<usize> {
        Ok(bytes.len())
    }

    fn flush(&mut self) -> io::Result<()> {
        *self.flushes = self.flushes.saturating_add(1);
        if self.fails {
            return Err(io::Error::from(ErrorKind::StorageFull));
        }
        Ok(())
    }
}
