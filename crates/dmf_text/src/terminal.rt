//! The terminals that node lines name.
ghost use Rattle.std.specs.Prelude.{◌≡◌, MatchOption, MatchResult, Err, codes, false};
ghost use Rattle.std.specs.Str.{bytes_eq};
ghost use Rattle.dmf_text.specs.Problem.{node_named};
ghost use Rattle.dmf_text.specs.Terminal.{Names, letter_of};

use crate::digits::number;
use crate::exact_fields::two_fields;
use crate::fault::ProblemFaultKind;
use crate::field::Fields;

/// One of the two terminals.
#[derive(Clone, Copy)]
pub(crate) enum Terminal {
    Source,
    Sink,
}

/// The terminal and the node that a node line names that has these fields after its first.
#[tactic(auto, unfolding(crate::specs::Problem::node_named))]
pub(crate) fn named(nodes: u32, behind: Fields<'_>) -> Result<(Terminal, u32), ProblemFaultKind>
    ensures { MatchResult result (λ named. Names nodes behind.entry named.0 named.1) (λ kind. node_named nodes behind.entry ≡ Err kind) }
{
    let (node, letter) = two_fields(behind)?;
    let node = number(node)?;
    let Some(terminal) = terminal_of(letter) else {
        return Err(ProblemFaultKind::NotSourceOrSink);
    };
    if node < 1 || node > u64::from(nodes) {
        return Err(ProblemFaultKind::NodeOutOfRange);
    }
    Ok((terminal, node as u32))
}

/// The terminal that a letter names.
fn terminal_of(letter: &[u8]) -> Option<Terminal>
    ensures { MatchOption result
        ((bytes_eq letter.now (codes "s") ≡ false) × (bytes_eq letter.now (codes "t") ≡ false))
        (λ terminal. letter.now ≡ letter_of terminal) }
{
    if letter == b"s".as_slice() {
        Some(Terminal::Source)
    } else if letter == b"t".as_slice() {
        Some(Terminal::Sink)
    } else {
        None
    }
}
