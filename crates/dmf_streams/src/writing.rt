//! Writing a line, and flushing.
ghost use Rattle.std.specs.Prelude.{[]};
ghost use Rattle.dmf_text.specs.Writing.{Writes};

use dmf_text::{LineBuffer, Sink, WriteFault, put_all};

/// Writes a line, and flushes.
pub fn put_line<W: Sink>(line: &LineBuffer, out: &mut W) -> Result<(), WriteFault>
    ensures { Writes (W.written out.old) (W.written out.new) result line.now }
{
    write_line(line, out)?;
    flush(out)
}

/// Flushes what was written.
pub fn flush<W: Sink>(out: &mut W) -> Result<(), WriteFault>
    ensures { Writes (W.written out.old) (W.written out.new) result [] }
{
    let Ok(()) = out.flush() else {
        return Err(WriteFault);
    };
    Ok(())
}

/// Writes a line.
pub fn write_line<W: Sink>(line: &LineBuffer, out: &mut W) -> Result<(), WriteFault>
    ensures { Writes (W.written out.old) (W.written out.new) result line.now }
{
    put_all(out, line.as_bytes())
}
