//! An upper bound of the value of a network's flows.
ghost use Rattle.std.specs.Prelude.{◌≡◌, ◌&&◌, not, if◌then◌else◌, min};
ghost use Rattle.dmf_progress.specs.Limit.{leaving, entering, IsLimit};

use dmf_state::State;

/// The lesser of the capacities of the arcs out of the source and of the arcs into the sink.
pub fn value_limit(state: &State) -> u64
    ensures value { result ≡ min (leaving state.now.network.arcs state.now.network.source) (entering state.now.network.arcs state.now.network.sink) }
    ensures limit { IsLimit state.now.network result }
{
    let (source, sink) = (state.source(), state.sink());
    let arcs = state.arcs();
    let (mut out, mut into) = (0, 0);
    for arc in arcs {
        out += carried_out(arc.tail == source, arc.head == source, arc.cap);
        into += carried_out(arc.tail != sink, arc.head != sink, arc.cap);
    }
    out.min(into)
}

/// The most that an arc of this capacity can carry out of a set of nodes, by whether its tail and its head are in the set.
fn carried_out(has_tail: bool, has_head: bool, cap: u64) -> u64
    ensures { result ≡ (if has_tail && not has_head then cap else 0) }
{
    if has_tail && !has_head { cap } else { 0 }
}
