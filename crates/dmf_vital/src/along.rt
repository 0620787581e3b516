ghost use Rattle.std.specs.Prelude.{◌≡◌, ◌+◌, ◌≤◌, false, true, length};
ghost use Rattle.dmf_state.specs.Flow.{AreWithinCapacities, flow_on};
ghost use Rattle.dmf_state.specs.Network.{arc_number, has_arc};
ghost use Rattle.dmf_solver.specs.Greatest.{IsGreatest};
ghost use Rattle.dmf_vital.specs.Exits.{AreExits, exit_flow, is_exit};
ghost use Rattle.dmf_vital.specs.Hop.{to_of};
ghost use Rattle.dmf_vital.specs.Ranks.{AreRanks, is_across};
ghost use Rattle.dmf_vital.specs.Sent.{GoesOn, IsTakenBack};
ghost use Rattle.dmf_vital.specs.Shifted.{AreShifted};

use crate::exits::{Exits, is_barred, is_exit};
use crate::hop::{Hop, from_of, room_of, to_of};
use crate::push::send;
use crate::ranks::is_across;
use dmf_state::State;

/// What an arc carried before flow was sent over it.
#[derive(Clone, Copy)]
pub struct Carried {
    /// The arc's index.
    pub index: usize,
    /// What it carried.
    pub flow: u64,
}

/// Moves flow from an exit to the path of these steps to its head. Returns how much, which is 0 if they are no such path, or one of them has no
/// room: nothing is relied on but what is checked here. The memory is for an element a step.
pub fn push_along(
    state: &State,
    exits: Exits,
    way: &[Hop],
    exit: u32,
    before: &mut [Carried],
    flows: &mut [u64],
) -> u64
    requires exits { AreExits state.now.network exits }
    requires greatest { IsGreatest state.now.network flows.old }
    requires ranks { AreRanks state.now.network flows.old exits.ranks.now }
    ensures moves { exit_flow state.now.network exits.entry flows.new + result ≡ exit_flow state.now.network exits.entry flows.old }
    ensures greatest { IsGreatest state.now.network flows.new }
    ensures ranks { AreRanks state.now.network flows.new exits.entry.ranks.now }
{
    if !is_level_exit(state, exits, exit) || before.len() < way.len() {
        return 0;
    }
    let k = exit as usize - 1;
    let amount = least_room(state, way, flows).min(flows[k]);
    let end = state.arc(exit).head;
    if !send_along(state, exits, way, end, amount, before, flows) {
        return 0;
    }
    flows[k] -= amount;
    amount
}

/// Whether there is an arc of this number, which is an exit between nodes of one rank.
fn is_level_exit(state: &State, exits: Exits, exit: u32) -> bool
    ensures is_there { result ≡ true → has_arc state.now.network exit ≡ true }
    ensures exit { result ≡ true → is_exit state.now.network exits.entry exit ≡ true }
    ensures level { result ≡ true → is_across exits.entry.ranks.now (arc_number state.now.network exit) ≡ false }
{
    if exit == 0 || exit as usize > state.arcs().len() {
        return false;
    }
    let arc = state.arc(exit);
    is_exit(exits, exit, arc) && !is_across(exits.ranks, arc)
}

/// The least room of any of these steps; 0 if an arc is not there.
fn least_room(state: &State, way: &[Hop], flows: &[u64]) -> u64 {
    let mut least = u64::MAX;
    for n in 0..way.len() {
        let k = (way[n].arc as usize).wrapping_sub(1);
        if k >= state.arcs().len() || k >= flows.len() {
            return 0;
        }
        let room = if way[n].against {
            flows[k]
        } else {
            state.arcs()[k].cap.saturating_sub(flows[k])
        };
        least = least.min(room);
    }
    least
}

/// Sends an amount along these steps, if they are a path from the node that the exits leave to this one, and each has room when it is its turn.
/// Else returns false, and the flows stay as they were.
fn send_along(
    state: &State,
    exits: Exits,
    way: &[Hop],
    end: u32,
    amount: u64,
    before: &mut [Carried],
    flows: &mut [u64],
) -> bool
    requires fits { length way.now ≤ length before.old }
    requires within { AreWithinCapacities state.now.network.arcs flows.old }
    ensures sent { result ≡ true → AreShifted state.now.network exits.entry exits.entry.node end amount flows.old flows.new }
    ensures not { result ≡ false → flows.new ≡ flows.old }
{
    let mut at = exits.node;
    for k in 0..way.len() {
        let hop = way[k];
        if !goes_on(state, exits, at, hop, amount, flows) {
            take_back(before, k, flows);
            return false;
        }
        let arc = state.arc(hop.arc);
        let index = hop.arc as usize - 1;
        before[k] = Carried {
            index,
            flow: flows[index],
        };
        send(hop.arc, hop.against, amount, flows);
        at = to_of(hop.against, arc);
    }
    if at == end {
        return true;
    }
    take_back(before, way.len(), flows);
    false
}

/// Whether a step leads from this node, over an arc that is not barred, and has room for this amount.
fn goes_on(state: &State, exits: Exits, at: u32, hop: Hop, amount: u64, flows: &[u64]) -> bool
    requires { AreWithinCapacities state.now.network.arcs flows.now }
    ensures { result ≡ true → GoesOn state.now.network exits.entry at hop amount flows.now }
{
    if hop.arc == 0 || hop.arc as usize > state.arcs().len() {
        return false;
    }
    let arc = state.arc(hop.arc);
    if is_barred(exits, hop.arc, arc) {
        return false;
    }
    let room = room_of(hop.against, arc, flows[hop.arc as usize - 1]);
    from_of(hop.against, arc) == at && amount <= room
}

/// Gives the first `count` of these arcs back what they carried before, the last change first.
fn take_back(before: &[Carried], count: usize, flows: &mut [u64])
    requires { count ≤ length before.now }
    ensures back { IsTakenBack before.now count flows.old flows.new }
{
    let mut left = count;
    while left > 0 {
        left -= 1;
        let carried = before[left];
        if carried.index < flows.len() {
            flows[carried.index] = carried.flow;
        }
    }
}
