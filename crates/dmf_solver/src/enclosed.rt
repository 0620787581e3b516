//! Whether a few passes over the arcs show that no residual path leads from the source to the sink.
ghost use Rattle.std.specs.Prelude.{◌≡◌, ◌<◌, ◌+◌, true, false, length, slice_index, slice_index_or, IfOk};
ghost use Rattle.dmf_path.specs.Path.{HasNoPath};
ghost use Rattle.dmf_state.specs.Arc.{no_arc};
ghost use Rattle.dmf_state.specs.NetworkState.{IsState};
ghost use Rattle.dmf_solver.specs.Enclosed.{has_mark, StaysIn};
ghost use Rattle.dmf_solver.specs.Greatest.{IsGreatest};
ghost use Rattle.dmf_solver.specs.Residual.{residual_steps};

use dmf_state::{Arc, State};
use std::alloc::{AllocError, Global};

/// The most passes over all arcs, from each end.
const LOOKS: u32 = 8;

/// Whether a few passes over all arcs show that no residual path leads from the source to the sink. If the answer is no, there may be a
/// path or none. Takes memory for a mark a node.
///
/// The marks say which nodes are in a set with the source and without the sink. At first this is the source alone, or all nodes but the
/// sink. A pass moves nodes into the set, or out of it, wherever a residual step leads out. If more than a quarter of the nodes move,
/// the call gives up.
pub fn is_enclosed(alloc: Global, state: &State) -> Result<bool, AllocError>
    ensures no_path { IfOk result (λ answer. answer ≡ true
        → HasNoPath (residual_steps state.now.network.arcs state.now.flows) state.now.network.source state.now.network.sink) }
    ensures state { IsState state.now }
{
    let mut marks = vec![in alloc; true; state.nodes() as usize + 1]?;
    marks[state.sink() as usize] = false;
    if is_mended(state, &mut marks, false) {
        return Ok(true);
    }
    let mut marks = vec![in alloc; false; state.nodes() as usize + 1]?;
    marks[state.source() as usize] = true;
    Ok(is_mended(state, &mut marks, true))
}

/// Whether these marks, one for each node from index 1 on, are the source's side of a cut that the state's flow saturates: the source is marked, the
/// sink is not, and no residual step leads out of the marked nodes. Then no flow has a larger value, wherever the marks come from. Looks at
/// each arc once, and takes no memory.
pub fn is_saturated_cut(state: &State, marks: &[bool]) -> bool
    ensures { result ≡ true → IsGreatest state.now.network state.now.flows }
{
    if marks.len() != state.nodes() as usize + 1 {
        return false;
    }
    parts_source_and_sink(state, marks)
}

/// Whether a few passes give a set that no residual step leaves. A pass puts nodes into the set if `mark` is set, else it takes them out.
fn is_mended(state: &State, marks: &mut [bool], mark: bool) -> bool
    requires { length marks.old ≡ state.now.network.nodes + 1 }
    ensures { result ≡ true
        → HasNoPath (residual_steps state.now.network.arcs state.now.flows) state.now.network.source state.now.network.sink }
{
    let most = marks.len() / 4;
    let mut mended = 0usize;
    for _ in 0..LOOKS {
        let more = mend(state, marks, mark);
        if more == 0 {
            return parts_source_and_sink(state, marks);
        }
        mended = mended.wrapping_add(more);
        if mended > most {
            return false;
        }
    }
    false
}

/// Sets the marks of both ends of each arc with a residual step that leads out of the set. Returns how many such arcs there were.
fn mend(state: &State, marks: &mut [bool], mark: bool) -> usize
    requires { length marks.old ≡ state.now.network.nodes + 1 }
{
    let arcs = state.arcs();
    let mut mended = 0usize;
    for k in 0..arcs.len() {
        if leads_out_at(state, marks, k) {
            marks[arcs[k].tail as usize] = mark;
            marks[arcs[k].head as usize] = mark;
            mended = mended.wrapping_add(1);
        }
    }
    mended
}

/// Whether the set has the source and not the sink, and no residual step leads out of it.
fn parts_source_and_sink(state: &State, marks: &[bool]) -> bool
    requires { length marks.now ≡ state.now.network.nodes + 1 }
    ensures { result ≡ true
        → HasNoPath (residual_steps state.now.network.arcs state.now.flows) state.now.network.source state.now.network.sink }
{
    if !marks[state.source() as usize] || marks[state.sink() as usize] {
        return false;
    }
    for k in 0..state.arcs().len() {
        if leads_out_at(state, marks, k) {
            return false;
        }
    }
    true
}

/// Whether a residual step of the arc at index `k` leads out of the set.
fn leads_out_at(state: &State, marks: &[bool], k: usize) -> bool
    requires marks { length marks.now ≡ state.now.network.nodes + 1 }
    requires within { k < length state.now.network.arcs }
    ensures { result ≡ false → StaysIn (has_mark marks.now) (slice_index_or state.now.network.arcs k no_arc) (slice_index state.now.flows k) }
{
    leads_out(state.arcs()[k], state.flows()[k], marks)
}

/// Whether a residual step of an arc with this flow leads out of the set.
fn leads_out(arc: Arc, flow: u64, marks: &[bool]) -> bool
    requires tail { arc.tail < length marks.now }
    requires head { arc.head < length marks.now }
    ensures { result ≡ false → StaysIn (has_mark marks.now) arc flow }
{
    let (tail, head) = (marks[arc.tail as usize], marks[arc.head as usize]);
    if tail {
        !head && flow < arc.cap
    } else {
        head && flow > 0
    }
}
