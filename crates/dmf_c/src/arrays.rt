//! What C reads into its arrays.
ghost use Rattle.std.specs.Prelude.{ℕ, ◌≡◌, ◌≢◌, ◌+◌, ◌^◌, ◌<◌, length, slice_index, if◌then◌else◌};
ghost use Rattle.dmf_state.specs.Side.{has_node};
ghost use Rattle.dmf_c.specs.Codes.{OfPresent};
ghost use Rattle.dmf_c.specs.Status.{DMF_OK};
ghost use Rattle.dmf_c.specs.Arrays.{length_code, AreCapacities, AnswersSide, MarksSide};

use crate::code::refusal_code;
use crate::handle::Handle;
use crate::ranges::{copy_capacities, copy_flows};
use dmf_session::{Command, Reply};
use dmf_solver::greatest_is_optimal;
use dmf_state::Side;
use std::alloc::Global;

/// The flow on each arc.
#[unsafe(no_mangle)]
pub extern "C" fn dmf_session_flows(session: &mut Handle, flows: &mut [u64]) -> u32
    ensures answer { OfPresent session.old.timeline (λ s. result ≡ length_code (length flows.old) (length s.network.arcs)) }
    ensures filled { OfPresent session.old.timeline (λ s. result ≡ DMF_OK → flows.new ≡ s.flows) }
    ensures refused { result ≢ DMF_OK → flows.new ≡ flows.old }
    ensures unchanged { session.new.timeline ≡ session.old.timeline }
{
    let present = session.plan().present();
    if flows.len() != present.flows().len() {
        return 10;
    }
    copy_flows(present.flows(), 1, flows);
    0
}

/// The capacity of each arc.
#[unsafe(no_mangle)]
pub extern "C" fn dmf_session_capacities(session: &mut Handle, capacities: &mut [u64]) -> u32
    ensures answer { OfPresent session.old.timeline (λ s. result ≡ length_code (length capacities.old) (length s.network.arcs)) }
    ensures filled { OfPresent session.old.timeline (λ s. result ≡ DMF_OK → AreCapacities s.network.arcs capacities.new) }
    ensures refused { result ≢ DMF_OK → capacities.new ≡ capacities.old }
    ensures unchanged { session.new.timeline ≡ session.old.timeline }
{
    let present = session.plan().present();
    if capacities.len() != present.arcs().len() {
        return 10;
    }
    copy_capacities(present.arcs(), 1, capacities);
    0
}

/// The side of the smallest minimum cut.
#[unsafe(no_mangle)]
pub extern "C" fn dmf_session_side(alloc: Global, session: &mut Handle, side: &mut [u8]) -> u32
    ensures answer { OfPresent session.old.timeline (λ s. AnswersSide s (length side.old) result) }
    ensures marked { OfPresent session.old.timeline (λ s. result ≡ DMF_OK → MarksSide s.network side.new) }
    ensures refused { result ≢ DMF_OK → side.new ≡ side.old }
    ensures unchanged { session.new.timeline ≡ session.old.timeline }
{
    let plan = session.plan();
    if side.len() != plan.present().nodes() as usize {
        return 10;
    }
    match plan.step(alloc, Command::PrintCut) {
        Ok(Reply::Cut(found)) => {
            greatest_is_optimal();
            mark(&found, side);
            0
        }
        Ok(_) => unreachable!(),
        Err(refusal) => refusal_code(refusal),
    }
}

/// Marks the nodes of the side.
pub fn mark(side: &Side, marks: &mut [u8])
    requires { length marks.old < 2 ^ 32 }
    ensures marks { (k : ℕ) → k < length marks.new → slice_index marks.new k ≡ (if has_node side.now.ids (k + 1) then 1 else 0) }
    ensures size { length marks.new ≡ length marks.old }
{
    for i in 0..marks.len() {
        marks[i] = if side.contains(i as u32 + 1) { 1 } else { 0 };
    }
}
