ghost use Rattle.std.specs.Prelude.{◌≡◌, false, true, IfOk};
ghost use Rattle.dmf_state.specs.Flow.{AreWithinCapacities};
ghost use Rattle.dmf_vital.specs.Ranks.{AreRanks, StaysLow, is_across, rank_of};

use crate::chains::Chains;
use crate::parts::number_parts;
use dmf_state::{Arc, State};
use std::alloc::{AllocError, Global};

/// Ranks for a flow: numbers of the nodes, such that no residual step leads to a node of a higher rank. A residual path that ends where
/// it began then stays in one rank. They are the numbers of the strongly connected parts of the residual network, if these pass the test,
/// and else none, so that each is 0. Takes memory for some numbers a node.
pub fn make_ranks(
    alloc: Global,
    state: &State,
    flows: &[u64],
    along: &Chains,
    against: &Chains,
) -> Result<Vec<u32>, AllocError>
    requires { AreWithinCapacities state.now.network.arcs flows.now }
    ensures { IfOk result (λ ranks. AreRanks state.now.network flows.now ranks.items) }
{
    let ranks = number_parts(alloc, state, flows, along, against)?;
    if are_ranks(state, flows, &ranks) {
        return Ok(ranks);
    }
    Ok(Vec::new(alloc))
}

/// Whether no residual step leads to a node of a higher rank. Looks at each arc once.
fn are_ranks(state: &State, flows: &[u64], ranks: &[u32]) -> bool
    requires { AreWithinCapacities state.now.network.arcs flows.now }
    ensures { result ≡ true → AreRanks state.now.network flows.now ranks.now }
{
    let arcs = state.arcs();
    for k in 0..arcs.len() {
        if rises(ranks, arcs[k], flows[k]) {
            return false;
        }
    }
    true
}

/// Whether a step over an arc with this flow leads to a node of a higher rank.
fn rises(ranks: &[u32], arc: Arc, flow: u64) -> bool
    ensures along { result ≡ false → StaysLow ranks.now false arc flow }
    ensures against { result ≡ false → StaysLow ranks.now true arc flow }
{
    let tail = rank_of(ranks, arc.tail);
    let head = rank_of(ranks, arc.head);
    if flow < arc.cap && tail < head {
        return true;
    }
    flow > 0 && head < tail
}

/// Whether the arc leads between nodes of different ranks.
pub fn is_across(ranks: &[u32], arc: Arc) -> bool
    ensures { result ≡ is_across ranks.now arc }
{
    rank_of(ranks, arc.tail) != rank_of(ranks, arc.head)
}

/// The rank of node `v`; 0 past the last.
fn rank_of(ranks: &[u32], v: u32) -> u32
    ensures { result ≡ rank_of ranks.now v }
{
    let k = (v as usize).saturating_sub(1);
    if k < ranks.len() { ranks[k] } else { 0 }
}
