ghost use Rattle.std.specs.Prelude.{◌≡◌, ◌+◌, ◌-◌, ◌^◌, ◌<◌, ◌≤◌, false, true, length, slice_set};
ghost use Rattle.dmf_node.specs.Node.{IsNode};
ghost use Rattle.dmf_state.specs.Flow.{AreWithinCapacities, flow_on};
ghost use Rattle.dmf_solver.specs.Greatest.{IsGreatest};
ghost use Rattle.dmf_vital.specs.Exits.{AreExits, exit_flow};
ghost use Rattle.dmf_vital.specs.Hop.{sent};
ghost use Rattle.dmf_vital.specs.Ranks.{AreRanks};
ghost use Rattle.dmf_vital.specs.Shifted.{HasSteps, IsClimbed, KeepsOthers};
ghost use Rattle.dmf_vital.specs.Tree.{IsGrown, IsCrossing, AreListed, at_node, back_of, place_of};

use crate::exits::{Exits, is_exit};
use crate::hop::{Hop, from_of, room_of, to_of, turned};
use crate::tree::Tree;
use dmf_state::State;

/// Moves flow from an exit to the path on which the two ends of the search met in this step. Returns how much.
pub fn push(state: &State, tree: &Tree, exits: Exits, hop: Hop, flows: &mut [u64]) -> u64
    requires exits { AreExits state.now.network exits }
    requires greatest { IsGreatest state.now.network flows.old }
    requires grown { IsGrown state.now.network flows.old exits tree.now.nodes.items tree.now.found.items }
    requires ranks { AreRanks state.now.network flows.old exits.ranks.now }
    requires crossing { IsCrossing state.now.network flows.old exits tree.now.nodes.items hop }
    ensures some { 0 < result }
    ensures moves { exit_flow state.now.network exits.entry flows.new + result ≡ exit_flow state.now.network exits.entry flows.old }
    ensures greatest { IsGreatest state.now.network flows.new }
    ensures ranks { AreRanks state.now.network flows.new exits.entry.ranks.now }
{
    let arc = state.arc(hop.arc);
    let start = from_of(hop.against, arc);
    let end = to_of(hop.against, arc);
    let room = room_of(hop.against, arc, flows[hop.arc as usize - 1]);
    let amount = room
        .min(tree.nodes[start as usize - 1].width)
        .min(tree.nodes[end as usize - 1].width);
    send(hop.arc, hop.against, amount, flows);
    climb(state, tree, exits, start, amount, flows);
    let exit = climb(state, tree, exits, end, amount, flows);
    let k = exit as usize - 1;
    flows[k] -= amount;
    amount
}

/// Sends an amount more along the steps by which a search has reached node `v`. Returns the exit at which the search began, if it was from
/// behind.
fn climb(state: &State, tree: &Tree, exits: Exits, v: u32, amount: u64, flows: &mut [u64]) -> u32
    requires exits { AreExits state.now.network exits }
    requires within { AreWithinCapacities state.now.network.arcs flows.old }
    requires listed { AreListed state.now.network.nodes tree.now.nodes.items tree.now.found.items }
    requires ahead { back_of tree.now.nodes.items exits.node ≡ false }
    requires steps { HasSteps state.now.network flows.old exits tree.now.nodes.items (back_of tree.now.nodes.items v) }
    requires node { IsNode state.now.network.nodes v }
    requires reached { 0 < place_of tree.now.nodes.items v }
    requires fits { amount ≤ (at_node tree.now.nodes.items v).width }
    ensures climbed { IsClimbed state.now.network exits.entry tree.now.nodes.items v amount flows.old flows.new result }
    ensures others { KeepsOthers state.now.network tree.now.nodes.items (back_of tree.now.nodes.items v) flows.old flows.new }
{
    let mut u = v;
    while u != exits.node {
        let by = tree.nodes[u as usize - 1];
        let arc = state.arc(by.hop.arc);
        if is_exit(exits, by.hop.arc, arc) {
            return by.hop.arc;
        }
        let against = turned(by.back, by.hop.against);
        send(by.hop.arc, against, amount, flows);
        u = from_of(by.hop.against, arc);
    }
    0
}

/// Sends an amount more over arc number `j`, along it or against it.
pub fn send(j: u32, against: bool, amount: u64, flows: &mut [u64])
    requires from_one { 1 ≤ j }
    requires to_last { j ≤ length flows.old }
    requires less { against ≡ true → amount ≤ flow_on flows.old j }
    requires more { against ≡ false → flow_on flows.old j + amount < 2 ^ 64 }
    ensures { flows.new ≡ slice_set flows.old (j - 1) (sent against amount (flow_on flows.old j)) }
{
    let k = j as usize - 1;
    flows[k] = if against {
        flows[k] - amount
    } else {
        flows[k] + amount
    };
}
