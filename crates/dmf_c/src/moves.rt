//! What the last step moved.
ghost use Rattle.std.specs.Prelude.{◌≡◌, ◌≢◌, slice_set};
ghost use Rattle.dmf_c.specs.Differing.{differing};
ghost use Rattle.dmf_c.specs.Moved.{HasMoves, OfLastStep, moved_code};
ghost use Rattle.dmf_c.specs.Status.{DMF_OK};

use crate::handle::Handle;
use dmf_state::{Move, reverting_gives_back};

/// The arcs whose flow the last step changed, with the flows before and after.
#[unsafe(no_mangle)]
pub extern "C" fn dmf_session_moved(
    session: &mut Handle,
    arcs: &mut [u32],
    before: &mut [u64],
    after: &mut [u64],
    found: &mut usize,
) -> u32
    ensures answer { result ≡ moved_code session.old.timeline }
    ensures filled { result ≡ DMF_OK → OfLastStep session.old.timeline (λ moves. HasMoves moves arcs.old arcs.new before.old before.new after.old after.new found.new) }
    ensures refused { result ≢ DMF_OK → (arcs.new ≡ arcs.old) × (before.new ≡ before.old) × (after.new ≡ after.old) × (found.new ≡ found.old) }
    ensures unchanged { session.new.timeline ≡ session.old.timeline }
{
    reverting_gives_back();
    match session.plan().last_edit() {
        Some(edit) => {
            *found = put_moves(edit.moves(), arcs, before, after);
            0
        }
        None => 7,
    }
}

/// Puts the moves that change a flow into the arrays, as many as each has places for. Returns how many there are.
fn put_moves(moves: &[Move], arcs: &mut [u32], before: &mut [u64], after: &mut [u64]) -> usize
    ensures { HasMoves (differing moves.now) arcs.old arcs.new before.old before.new after.old after.new result }
{
    let mut count = 0;
    for m in moves {
        if m.from != m.to {
            put_arc(arcs, count, m.arc);
            put_flow(before, count, m.from);
            put_flow(after, count, m.to);
            count += 1;
        }
    }
    count
}

/// Puts the number at this index, if the array has it.
fn put_arc(numbers: &mut [u32], at: usize, number: u32)
    ensures { numbers.new ≡ slice_set numbers.old at number }
{
    if at < numbers.len() {
        numbers[at] = number;
    }
}

/// Puts the flow at this index, if the array has it.
fn put_flow(flows: &mut [u64], at: usize, flow: u64)
    ensures { flows.new ≡ slice_set flows.old at flow }
{
    if at < flows.len() {
        flows[at] = flow;
    }
}
