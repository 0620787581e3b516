//! Reading a whole text before it is judged.
ghost use Rattle.std.specs.Prelude.{◌<◌, vec_len, Ok, Err, IfOk, MatchResult};
ghost use Rattle.dmf_streams.specs.Reading.{HasGiven};
ghost use Rattle.dmf_streams.specs.WholeText.{ReadsText};

use crate::fault::EngineFault;
use crate::input::MAX_BYTES;
use dmf_text::Source;
use std::alloc::{AllocError, Global};

const PIECE: usize = 65536;

/// Reads a whole text, of at most [`MAX_BYTES`] bytes. Allocates its read buffer before the first read.
pub fn read_all<P: Source>(alloc: Global, source: &mut P) -> Result<Vec<u8>, EngineFault>
    ensures { let from = P.left source.old in
        let to = P.left source.new in
        HasGiven from to (λ text. MatchResult result (λ whole. ReadsText from to text (Ok whole.items)) (λ fault. ReadsText from to text (Err fault))) }
{
    let mut buffer = buffer(alloc)?;
    let piece = buffer.as_mut_slice();
    let mut text = Vec::new(alloc);
    for _ in 0..MAX_BYTES + 1 {
        let Ok(given) = source.read(piece) else {
            return Err(EngineFault::Read);
        };
        if given == 0 {
            return Ok(text);
        }
        if text.len() + given > MAX_BYTES as usize {
            return Err(EngineFault::TooMuchInput);
        }
        text.extend_from_slice(&piece[..given])?;
    }
    Err(EngineFault::TooMuchInput)
}

/// The buffer into which each read puts its bytes.
fn buffer(alloc: Global) -> Result<Vec<u8>, AllocError>
    ensures { IfOk result (λ buffer. 0 < vec_len buffer) }
{
    vec![in alloc; 0; PIECE]
}
