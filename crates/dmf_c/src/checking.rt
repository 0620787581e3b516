//! How C has numbers judged.
ghost use Rattle.std.specs.Prelude.{◌≡◌, ◌⊎◌, length};
ghost use Rattle.dmf_c.specs.Codes.{OfPresent};
ghost use Rattle.dmf_c.specs.Status.{DMF_NO_MEMORY};
ghost use Rattle.dmf_c.specs.Arrays.{Judges, JudgesFlow, TellsGreatest, flow_code, flow_place};

use crate::handle::Handle;
use dmf_solver::is_greatest;
use dmf_state::{FlowFault, State};
use std::alloc::Global;

/// Judges numbers that may be a maximum flow.
#[unsafe(no_mangle)]
pub extern "C" fn dmf_session_check(
    alloc: Global,
    session: &mut Handle,
    flows: &[u64],
    place: &mut u64,
) -> u32
    ensures judged { OfPresent session.old.timeline (λ s. Judges s flows.now result place.new) }
    ensures unchanged { session.new.timeline ≡ session.old.timeline }
{
    let judgement = judge(alloc, session.plan().present(), flows);
    *place = judgement.place;
    judgement.code
}

/// What a check answers: a number, and the arc or the node that is at fault, or 0.
#[derive(Clone, Copy, Drop)]
struct Judgement {
    code: u32,
    place: u64,
}

fn judge(alloc: Global, state: &State, flows: &[u64]) -> Judgement
    ensures { Judges state.now flows.now result.code result.place }
{
    if flows.len() != state.arcs().len() {
        return Judgement { code: 10, place: 0 };
    }
    match Vec::from_slice(alloc, flows) {
        Ok(flows) => judge_flow(alloc, state, flows),
        Err(_) => Judgement { code: 1, place: 0 },
    }
}

fn judge_flow(alloc: Global, state: &State, flows: Vec<u64>) -> Judgement
    requires { length flows.items ≡ length state.now.network.arcs }
    ensures { ((result.code ≡ DMF_NO_MEMORY) × (result.place ≡ 0)) ⊎ JudgesFlow state.now flows.items result.code result.place }
{
    match state.with_flows(alloc, flows) {
        Ok(judged) => Judgement {
            code: greatest(alloc, &judged),
            place: 0,
        },
        Err(fault) => Judgement {
            code: flow_code(fault),
            place: flow_place(fault),
        },
    }
}

/// 0 if the state's flow is greatest, 9 if some flow has a larger value, 1 if memory is refused.
pub fn greatest(alloc: Global, state: &State) -> u32
    ensures { (result ≡ DMF_NO_MEMORY) ⊎ TellsGreatest state.now state.now.flows result }
{
    match is_greatest(alloc, state) {
        Ok(true) => 0,
        Ok(false) => 9,
        Err(_) => 1,
    }
}

fn flow_code(fault: FlowFault) -> u32
    ensures { result ≡ flow_code fault }
{
    match fault {
        FlowFault::NoMemory => 1,
        FlowFault::OverCapacity(_) => 13,
        FlowFault::NotConserved(_) => 14,
        FlowFault::Negative => 15,
    }
}

fn flow_place(fault: FlowFault) -> u64
    ensures { result ≡ flow_place fault }
{
    match fault {
        FlowFault::OverCapacity(arc) => u64::from(arc),
        FlowFault::NotConserved(node) => u64::from(node),
        FlowFault::NoMemory | FlowFault::Negative => 0,
    }
}
