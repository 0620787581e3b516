ghost use Rattle.std.specs.Prelude.{◌≡◌, ℕ, ◌+◌, ◌*◌, ◌<◌, ◌&&◌, not, nat_lt, length, slice_index, slice_index_or, pos, IfErr, IfOk, OnErr, OnOk};
ghost use Rattle.dmf_state.specs.declared.arc.Arc.{Arc};
ghost use Rattle.dmf_node.specs.Node.{is_node};
ghost use Rattle.dmf_state.specs.Arc.{IsArc, no_arc, open_arc};
ghost use Rattle.dmf_state.specs.NetworkState.{with_last_arc};
ghost use Rattle.dmf_state.specs.Cut.{IsMinimumCut, cut_capacity};
ghost use Rattle.dmf_state.specs.Flow.{flow_value};
ghost use Rattle.dmf_state.specs.Network.{Network};
ghost use Rattle.dmf_state.specs.Side.{has_node};
ghost use Rattle.dmf_solver.specs.Greatest.{IsGreatest};
ghost use Rattle.dmf_vital.specs.Extended.{ArePlaced, HasOwnArcs, IsExtended, IsExtendedFor, IsPlaced, KeepsArcs, with_detour};
ghost use Rattle.dmf_vital.specs.Loss.{IsGainOfArc, IsGainOfSecond, TakesFourOfEach};
ghost use Rattle.dmf_vital.specs.Ranks.{AreRanks};
ghost use Rattle.dmf_vital.specs.Shifted.{IsReady};

use crate::order::{index_of, list_order};
use crate::rerouting::{Rerouting, find_ranks, loss_of_arc, make_rerouting};
use crate::rest::solve;
use crate::watch::{ValuingWatch, report};
use dmf_solver::{Unwatched, is_saturated_cut, smallest_side};
use dmf_state::{Arc, MAX_ARCS, NetFault, NoMemory, Side, State};
use std::alloc::{AllocError, Global};

/// A state with the arcs of another and more, by whose losses the gains of new arcs are found.
#[derive(Drop)]
pub struct Extended {
    /// The larger state. Its flow is greatest.
    pub state: State,
    /// The number of the first of four arcs for each new arc; 0 if the new arc gains nothing.
    pub firsts: Vec<u32>,
}

/// What the greatest value gains by each of these new arcs, in order, if it alone is added, of a state whose flow is greatest. Whether such
/// an arc is closed does not matter: the new arc is open. The state stays as it is.
///
/// Fails with [`NetFault::NoSuchNode`] if an end is not a node of the network, with [`NetFault::TooManyArcs`] or [`NetFault::SumTooLarge`] if
/// it cannot take four more arcs of the capacity of each of these, and with [`NetFault::NoMemory`] if memory is refused.
///
/// Looks at each arc of a larger state some times, and then, for each new arc that leads out of the smallest minimum cut, moves flow
/// from two of the four arcs that it has for it to other ways, as [`arc_losses`](crate::arc_losses) does.
pub fn arc_gains(alloc: Global, state: &State, arcs: &[Arc]) -> Result<Vec<u64>, NetFault>
    requires { IsGreatest state.now.network state.now.flows }
    ensures refused { IfErr result (λ fault. TakesFourOfEach state.now.network arcs.now → fault ≡ NetFault.NoMemory) }
    ensures one_each { IfOk result (λ gains. length gains.items ≡ length arcs.now) }
    ensures gains { IfOk result (λ gains. (k : ℕ) → k < length arcs.now
        → IsGainOfArc state.now.network (slice_index_or arcs.now k no_arc) (slice_index gains.items k)) }
{
    arc_gains_watched(alloc, state, arcs, &mut Unwatched)
}

/// Finds the same, and reports each new arc to the watch.
pub fn arc_gains_watched<W: ValuingWatch>(
    alloc: Global,
    state: &State,
    arcs: &[Arc],
    watch: &mut W,
) -> Result<Vec<u64>, NetFault>
    requires { IsGreatest state.now.network state.now.flows }
    ensures refused { IfErr result (λ fault. TakesFourOfEach state.now.network arcs.now → fault ≡ NetFault.NoMemory) }
    ensures one_each { IfOk result (λ gains. length gains.items ≡ length arcs.now) }
    ensures gains { IfOk result (λ gains. (k : ℕ) → k < length arcs.now
        → IsGainOfArc state.now.network (slice_index_or arcs.now k no_arc) (slice_index gains.items k)) }
{
    check_room(state, arcs)?;
    let extended = extend(alloc, state, arcs)?;
    Ok(find_gains(alloc, &extended.state, &extended.firsts, arcs, watch)?)
}

/// What the greatest value gains by a second arc beside each arc, in order, as [`arc_gains`] finds it.
pub fn second_gains(alloc: Global, state: &State) -> Result<Vec<u64>, NetFault>
    requires { IsGreatest state.now.network state.now.flows }
    ensures refused { IfErr result (λ fault. TakesFourOfEach state.now.network state.now.network.arcs → fault ≡ NetFault.NoMemory) }
    ensures one_each { IfOk result (λ gains. length gains.items ≡ length state.now.network.arcs) }
    ensures gains { IfOk result (λ gains. (k : ℕ) → k < length state.now.network.arcs
        → IsGainOfSecond state.now.network (k + 1) (slice_index gains.items k)) }
{
    second_gains_watched(alloc, state, &mut Unwatched)
}

/// Finds the same, and reports each arc to the watch.
pub fn second_gains_watched<W: ValuingWatch>(
    alloc: Global,
    state: &State,
    watch: &mut W,
) -> Result<Vec<u64>, NetFault>
    requires { IsGreatest state.now.network state.now.flows }
    ensures refused { IfErr result (λ fault. TakesFourOfEach state.now.network state.now.network.arcs → fault ≡ NetFault.NoMemory) }
    ensures one_each { IfOk result (λ gains. length gains.items ≡ length state.now.network.arcs) }
    ensures gains { IfOk result (λ gains. (k : ℕ) → k < length state.now.network.arcs
        → IsGainOfSecond state.now.network (k + 1) (slice_index gains.items k)) }
{
    arc_gains_watched(alloc, state, state.arcs(), watch)
}

/// Finds whether the network can take four more arcs of the capacity of each of these.
fn check_room(state: &State, arcs: &[Arc]) -> Result<(), NetFault>
    ensures { OnErr result (TakesFourOfEach state.now.network arcs.now → ⊥) }
{
    if arcs.len() > (MAX_ARCS as usize - state.arcs().len()) / 4 {
        return Err(NetFault::TooManyArcs);
    }
    let mut left = state.largest_cap(0);
    for k in 0..arcs.len() {
        left = room_after(state, left, arcs[k])?;
    }
    Ok(())
}

/// What is left of a sum of capacities after four arcs of the capacity of this.
fn room_after(state: &State, left: u64, arc: Arc) -> Result<u64, NetFault>
    ensures ok { IfOk result (λ after. after + 4 * arc.cap ≡ left) }
    ensures err { OnErr result (IsArc state.now.network.nodes arc → left < 4 * arc.cap) }
{
    if !is_node(state, arc.tail) || !is_node(state, arc.head) {
        return Err(NetFault::NoSuchNode);
    }
    if arc.cap > left / 4 {
        return Err(NetFault::SumTooLarge);
    }
    Ok(left - 4 * arc.cap)
}

/// Whether the state has this node.
fn is_node(state: &State, v: u32) -> bool
    ensures { result ≡ is_node state.now.network.nodes v }
{
    1 <= v && v <= state.nodes()
}

/// What each of the new arcs gains for which the state was extended.
fn find_gains<W: ValuingWatch>(
    alloc: Global,
    more: &State,
    firsts: &[u32],
    arcs: &[Arc],
    watch: &mut W,
) -> Result<Vec<u64>, NoMemory>
    requires one_each { length firsts.now ≡ length arcs.now }
    requires there { (k : ℕ) → k < length arcs.now → HasOwnArcs more.now.network (slice_index firsts.now k) }
    requires greatest { IsGreatest more.now.network more.now.flows }
    ensures one_each { IfOk result (λ gains. length gains.items ≡ length arcs.now) }
    ensures gains { IfOk result (λ gains. (n : Network) → IsExtended n more.now.network (length n.arcs)
        → ArePlaced n more.now.network arcs.now firsts.now (length arcs.now) → (k : ℕ) → k < length arcs.now
        → IsGainOfArc n (slice_index_or arcs.now k no_arc) (slice_index gains.items k)) }
{
    let mut rerouting = make_rerouting(alloc, more)?;
    let ranks = find_ranks(alloc, more, &rerouting)?;
    let order = list_order(alloc, more, &rerouting, firsts, arcs)?;
    let mut gains = vec![in alloc; 0u64; arcs.len()]?;
    let mut found = vec![in alloc; false; arcs.len()]?;
    for i in 0..order.len() {
        report(watch, i, arcs.len())?;
        let k = index_of(order[i]);
        if k < arcs.len() {
            gains[k] = gain_of(more, &ranks, &mut rerouting, firsts[k], arcs[k].cap)?;
            found[k] = true;
        }
    }
    for k in 0..arcs.len() {
        report(watch, k.max(order.len()), arcs.len())?;
        if !found[k] {
            gains[k] = gain_of(more, &ranks, &mut rerouting, firsts[k], arcs[k].cap)?;
        }
    }
    Ok(gains)
}

/// Makes a state of the same nodes with what finds the gains of these new arcs, and after it the state's own arcs and flow. A search
/// looks at the arcs of a node from the last one on, so at the state's own first.
fn extend(alloc: Global, state: &State, arcs: &[Arc]) -> Result<Extended, NoMemory>
    requires { IsGreatest state.now.network state.now.flows }
    ensures { IfOk result (IsExtendedFor state.now.network arcs.now) }
{
    let Ok(side) = smallest_side(alloc, state) else {
        return Err(NoMemory);
    };
    let mut more = State::new(alloc, state.nodes(), state.source(), state.sink());
    let mut firsts = make_firsts(alloc, arcs.len())?;
    for k in 0..arcs.len() {
        firsts[k] = place(state, &side, &mut more, arcs[k])?;
    }
    add_own(state, &mut more)?;
    let state = solved_from(alloc, &more, &side, state.flows())?;
    Ok(Extended { state, firsts })
}

/// Adds the state's arcs to a state of the same nodes, open ones and, without capacity, closed ones.
fn add_own(state: &State, more: &mut State) -> Result<(), NoMemory>
    requires { IsExtended state.now.network more.old.network 0 }
    ensures extended { OnOk result (IsExtended state.now.network more.new.network (length state.now.network.arcs)) }
    ensures keeps { OnOk result (KeepsArcs more.old.network more.new.network) }
{
    for k in 0..state.arcs().len() {
        let arc = state.arcs()[k];
        add(more, arc.tail, arc.head, arc.cap)?;
    }
    Ok(())
}

/// The state with these flows on its last arcs and every other arc full. The cut of this side is then full, so the flow is greatest; if it
/// is not full, the state is solved.
fn solved_from(alloc: Global, more: &State, side: &Side, flows: &[u64]) -> Result<State, NoMemory>
    ensures network { IfOk result (λ solved. solved.network ≡ more.now.network) }
    ensures greatest { IfOk result (λ solved. IsGreatest solved.network solved.flows) }
{
    let flows = filled(alloc, more, flows)?;
    let Ok(mut solved) = more.with_flows(alloc, flows) else {
        return Err(NoMemory);
    };
    if !is_saturated_cut(&solved, &marks_of(alloc, side, more.nodes())?) {
        solve(alloc, &mut solved)?;
    }
    Ok(solved)
}

/// A flow for each arc: these on the last ones, if they are no more, and on the others as much as fits.
fn filled(alloc: Global, more: &State, flows: &[u64]) -> Result<Vec<u64>, NoMemory>
    ensures { IfOk result (λ all. length all.items ≡ length more.now.network.arcs) }
{
    let count = more.arcs().len();
    let mut all = vec![in alloc; 0u64; count]?;
    let own = flows.len().min(count);
    for k in 0..count {
        all[k] = if k < count - own {
            more.arcs()[k].cap
        } else {
            flows[k - (count - own)]
        };
    }
    Ok(all)
}

/// A mark for each number up to that of the last node: whether that node is on the side.
fn marks_of(alloc: Global, side: &Side, nodes: u32) -> Result<Vec<bool>, AllocError> {
    let mut marks = vec![in alloc; false; nodes as usize + 1]?;
    for k in 0..nodes {
        marks[k as usize + 1] = side.contains(k + 1);
    }
    Ok(marks)
}

/// As many numbers, all 0.
fn make_firsts(alloc: Global, count: usize) -> Result<Vec<u32>, NoMemory>
    ensures { IfOk result (λ firsts. length firsts.items ≡ count) }
{
    Ok(vec![in alloc; 0u32; count]?)
}

/// Adds what finds the gain of one new arc, if it leads out of this minimum cut. Returns the number of the first arc that is added, or 0 if
/// none is.
fn place(state: &State, side: &Side, more: &mut State, arc: Arc) -> Result<u32, NoMemory>
    requires greatest { IsGreatest state.now.network state.now.flows }
    requires least { IsMinimumCut state.now.network (has_node side.now.ids) }
    requires capacity { pos (cut_capacity state.now.network.arcs (has_node side.now.ids)) ≡ flow_value state.now.network state.now.flows }
    requires extended { IsExtended state.now.network more.old.network 0 }
    ensures extended { OnOk result (IsExtended state.now.network more.new.network 0) }
    ensures keeps { OnOk result (KeepsArcs more.old.network more.new.network) }
    ensures placed { IfOk result (IsPlaced state.now.network more.new.network arc) }
{
    let Ok(_) = state.new_arc(u64::from(arc.tail), u64::from(arc.head), arc.cap) else {
        return Err(NoMemory);
    };
    if !leads_out(side, arc) {
        return Ok(0);
    }
    add_detour(more, arc.tail, arc.cap)?;
    add_detour(more, arc.head, arc.cap)?;
    Ok(more.arcs().len() as u32 - 3)
}

/// Whether the arc leads out of the side and can carry something.
fn leads_out(side: &Side, arc: Arc) -> bool
    ensures { result ≡ (nat_lt 0 arc.cap && (has_node side.now.ids arc.tail && not (has_node side.now.ids arc.head))) }
{
    arc.cap > 0 && side.contains(arc.tail) && !side.contains(arc.head)
}

/// Adds two arcs of this capacity: from the source to node `v`, and from there to the sink.
fn add_detour(more: &mut State, v: u32, cap: u64) -> Result<(), NoMemory>
    ensures { OnOk result (more.new.network ≡ with_detour more.old.network v cap) }
{
    let source = more.source();
    let sink = more.sink();
    add(more, source, v, cap)?;
    add(more, v, sink, cap)
}

/// Adds an arc that the network can take, so only memory can be refused.
fn add(more: &mut State, tail: u32, head: u32, cap: u64) -> Result<(), NoMemory>
    ensures { OnOk result (more.new.network ≡ with_last_arc more.old.network (open_arc tail head cap)) }
{
    match more.push_arc(u64::from(tail), u64::from(head), cap) {
        Ok(()) => Ok(()),
        Err(_) => Err(NoMemory),
    }
}

/// What a new arc of this capacity gains, by the losses of the first and the last of its four arcs.
fn gain_of(
    more: &State,
    ranks: &[u32],
    rerouting: &mut Rerouting,
    first: u32,
    cap: u64,
) -> Result<u64, AllocError>
    requires there { HasOwnArcs more.now.network first }
    requires ready { IsReady more.now rerouting.old }
    requires ranks { AreRanks more.now.network rerouting.old.flows.items ranks.now }
    ensures gain { IfOk result (λ gain. (n : Network) (arc : Arc) → IsExtended n more.now.network (length n.arcs) → IsPlaced n more.now.network arc first
        → arc.cap ≡ cap → IsGainOfArc n arc gain) }
    ensures ready { IsReady more.now rerouting.new }
    ensures ranks { AreRanks more.now.network rerouting.new.flows.items ranks.now }
{
    if first == 0 {
        return Ok(0);
    }
    let head_loss = loss_of_arc(more, ranks, rerouting, first + 3)?;
    if head_loss >= cap {
        return Ok(0);
    }
    let tail_loss = loss_of_arc(more, ranks, rerouting, first)?;
    Ok(cap.saturating_sub(tail_loss.max(head_loss)))
}
