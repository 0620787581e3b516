//! Writing a greatest value, and rows of numbers after it.
ghost use Rattle.std.specs.Prelude.{◌≡◌, map};
ghost use Rattle.dmf_text.specs.Writing.{Writes};
ghost use Rattle.dmf_valuing.specs.PartRows.{row_of};
ghost use Rattle.dmf_valuing.specs.Rows.{row_line, rows_text, value_line, vital_text};

use dmf_streams::write_line;
use dmf_text::LineField::{Number, Text};
use dmf_text::{LineBuffer, Sink, WriteFault, line_of};

/// The numbers of a row: two, or three.
#[derive(Clone, Copy)]
pub struct Numbers {
    pub first: u64,
    pub second: u64,
    pub third: Option<u64>,
}

/// Writes the value as `c value V`, and then the rows.
pub fn write_vital<W: Sink>(value: u64, rows: &[Numbers], out: &mut W) -> Result<(), WriteFault>
    ensures { Writes (W.written out.old) (W.written out.new) result (vital_text value (map row_of rows.now)) }
{
    write_line(&value_line(value), out)?;
    write_rows(rows, out)
}

/// `c value V`
fn value_line(value: u64) -> LineBuffer
    ensures { result ≡ value_line value }
{
    line_of(&[Text(b"c"), Text(b"value"), Number(value)])
}

/// Writes the rows.
fn write_rows<W: Sink>(rows: &[Numbers], out: &mut W) -> Result<(), WriteFault>
    ensures { Writes (W.written out.old) (W.written out.new) result (rows_text (map row_of rows.now)) }
{
    for k in 0..rows.len() {
        write_line(&row_line(rows[k]), out)?;
    }
    Ok(())
}

/// `v`, and the numbers of the row.
fn row_line(row: Numbers) -> LineBuffer
    ensures { result ≡ row_line (row_of row) }
{
    let first = Number(row.first);
    let second = Number(row.second);
    match row.third {
        None => line_of(&[Text(b"v"), first, second]),
        Some(third) => line_of(&[Text(b"v"), first, second, Number(third)]),
    }
}
