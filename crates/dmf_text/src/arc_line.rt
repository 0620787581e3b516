//! The lines of a problem text, of which arc lines in the usual form are read in one walk.
ghost use Rattle.std.specs.Prelude.{IfSome};
ghost use Rattle.dmf_text.specs.ProblemLine.{IsArcInFront};

use crate::numbers::number_before;

/// The numbers of an arc line.
#[derive(Clone, Copy)]
pub(crate) struct ArcLine {
    pub(crate) tail: u64,
    pub(crate) head: u64,
    pub(crate) cap: u64,
}

/// A line of a problem text.
#[derive(Clone, Copy)]
pub(crate) enum ProblemLine<'a> {
    /// An arc line, which is read.
    Arc(ArcLine),
    /// The bytes of any line.
    Bytes(&'a [u8]),
}

/// The arc line in front of a text, and the bytes behind it. `None` unless the line is `a TAIL HEAD CAP` with one space before each
/// number, short numbers, and a line feed.
pub(crate) fn arc_in_front(text: &[u8]) -> Option<(ArcLine, &[u8])>
    ensures { IfSome result (λ front. IsArcInFront text.now front.0.tail front.0.head front.0.cap front.1.now) }
{
    if text.len() < 2 || text[0] != b'a' || text[1] != b' ' {
        return None;
    }
    let (tail, behind) = number_before(b' ', &text[2..])?;
    let (head, behind) = number_before(b' ', behind)?;
    let (cap, behind) = number_before(b'\n', behind)?;
    Some((ArcLine { tail, head, cap }, behind))
}
