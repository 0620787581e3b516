ghost use Rattle.std.specs.Prelude.{◌≡◌, IfOk};
ghost use Rattle.dmf_state.specs.NetworkState.{IsState};
ghost use Rattle.dmf_vital.specs.Chains.{AreChains};

use crate::hop::from_of;
use dmf_state::State;
use std::alloc::{AllocError, Global};

/// The arcs over which steps lead from each node, in chains.
#[derive(Drop)]
pub struct Chains {
    /// For each node the last such arc, or 0.
    pub last: Vec<u32>,
    /// For each arc the one before it from the same node, or 0.
    pub before: Vec<u32>,
}

/// Makes the chains of the steps along the arcs, or of those against them. Takes memory for a number a node and a number an arc.
pub fn make_chains(alloc: Global, state: &State, against: bool) -> Result<Chains, AllocError>
    ensures chains { IfOk result (λ chains. AreChains against state.now.network.nodes state.now.network.arcs chains.last.items chains.before.items) }
    ensures state { IsState state.now }
{
    let arcs = state.arcs();
    let mut last = vec![in alloc; 0u32; state.nodes() as usize]?;
    let mut before = vec![in alloc; 0u32; arcs.len()]?;
    for k in 0..arcs.len() {
        let v = from_of(against, arcs[k]) as usize - 1;
        before[k] = last[v];
        last[v] = k as u32 + 1;
    }
    Ok(Chains { last, before })
}
