ghost use Rattle.std.specs.Prelude.{◌≡◌, ◌≤◌, false, true, IfOk};
ghost use Rattle.dmf_node.specs.Node.{IsNode};
ghost use Rattle.dmf_state.specs.Flow.{AreWithinCapacities, IsInnerNode, flow_on};
ghost use Rattle.dmf_state.specs.Network.{IsNetwork, arc_number, has_arc};
ghost use Rattle.dmf_solver.specs.Greatest.{IsGreatest};
ghost use Rattle.dmf_vital.specs.Chains.{AreChains};
ghost use Rattle.dmf_vital.specs.Exits.{AreExits, exit_flow};
ghost use Rattle.dmf_vital.specs.Loss.{IsLossAt, IsLossOfArc, IsLossOfNode};
ghost use Rattle.dmf_vital.specs.Ranks.{AreRanks};
ghost use Rattle.dmf_vital.specs.Shifted.{IsReady, IsMoved, IsLeft};
ghost use Rattle.dmf_vital.specs.Through.{flow_through, part_off};

use crate::chains::{Chains, make_chains};
use crate::exits::Exits;
use crate::grown::{Growth, make_growth};
use crate::growth::grow;
use crate::push::push;
use crate::ranks::make_ranks;
use crate::search::{Steps, search};
use crate::tree::{Tree, make_tree};
use dmf_state::State;
use std::alloc::{AllocError, Global};

/// If a search reaches fewer nodes, the next one costs less than a growth.
const FEW: usize = 64;

/// A greatest flow, which may be moved from one arc to others, and what searches need for that.
#[derive(Drop)]
pub struct Rerouting {
    /// The flow on each arc.
    pub flows: Vec<u64>,
    /// The arcs that leave each node.
    pub along: Chains,
    /// The arcs that enter each node.
    pub against: Chains,
    /// What the last search has reached.
    pub tree: Tree,
    /// What the last growth has reached.
    pub growth: Growth,
}

/// Begins with the state's flow. Takes memory for three numbers an arc and some a node.
pub fn make_rerouting(alloc: Global, state: &State) -> Result<Rerouting, AllocError>
    requires { IsGreatest state.now.network state.now.flows }
    ensures { IfOk result (IsReady state.now) }
{
    Ok(Rerouting {
        flows: Vec::from_slice(alloc, state.flows())?,
        along: make_chains(alloc, state, false)?,
        against: make_chains(alloc, state, true)?,
        tree: make_tree(alloc, state.nodes())?,
        growth: make_growth(alloc, state.nodes())?,
    })
}

/// Finds ranks for the flow. Takes memory for a number a node, and for some more meanwhile.
pub fn find_ranks(
    alloc: Global,
    state: &State,
    rerouting: &Rerouting,
) -> Result<Vec<u32>, AllocError>
    requires { IsReady state.now rerouting.now }
    ensures { IfOk result (λ ranks. AreRanks state.now.network rerouting.now.flows.items ranks.items) }
{
    make_ranks(
        alloc,
        state,
        &rerouting.flows,
        &rerouting.along,
        &rerouting.against,
    )
}

/// Finds what is lost without arc number `j`.
pub fn loss_of_arc(
    state: &State,
    ranks: &[u32],
    rerouting: &mut Rerouting,
    j: u32,
) -> Result<u64, AllocError>
    requires is_there { has_arc state.now.network j ≡ true }
    requires ready { IsReady state.now rerouting.old }
    requires ranks { AreRanks state.now.network rerouting.old.flows.items ranks.now }
    ensures loss { IfOk result (IsLossOfArc state.now.network j) }
    ensures ready { IsReady state.now rerouting.new }
    ensures ranks { AreRanks state.now.network rerouting.new.flows.items ranks.now }
{
    let arc = state.arc(j);
    if arc.tail == arc.head {
        return Ok(0);
    }
    let exits = Exits {
        node: arc.tail,
        arc: j,
        ranks,
    };
    left_on(state, rerouting, exits)
}

/// Finds what is lost without node `v`.
pub fn loss_of_node(
    state: &State,
    ranks: &[u32],
    rerouting: &mut Rerouting,
    v: u32,
) -> Result<u64, AllocError>
    requires inner { IsInnerNode state.now.network v }
    requires ready { IsReady state.now rerouting.old }
    requires ranks { AreRanks state.now.network rerouting.old.flows.items ranks.now }
    ensures loss { IfOk result (IsLossOfNode state.now.network v) }
    ensures ready { IsReady state.now rerouting.new }
    ensures ranks { AreRanks state.now.network rerouting.new.flows.items ranks.now }
{
    let exits = Exits {
        node: v,
        arc: 0,
        ranks,
    };
    left_on(state, rerouting, exits)
}

/// Moves flow off arc number `j` to other ways, until it carries no more than this or no way is left. Returns true if none is: what it
/// carries is lost without it.
pub fn lower_arc(
    state: &State,
    ranks: &[u32],
    rerouting: &mut Rerouting,
    j: u32,
    bound: u64,
) -> Result<bool, AllocError>
    requires is_there { has_arc state.now.network j ≡ true }
    requires ready { IsReady state.now rerouting.old }
    requires ranks { AreRanks state.now.network rerouting.old.flows.items ranks.now }
    ensures stuck { IfOk result (λ stuck. stuck ≡ true → IsLossOfArc state.now.network j (flow_on rerouting.new.flows.items j)) }
    ensures ready { IsReady state.now rerouting.new }
    ensures ranks { AreRanks state.now.network rerouting.new.flows.items ranks.now }
{
    let arc = state.arc(j);
    if arc.tail == arc.head {
        return Ok(false);
    }
    let exits = Exits {
        node: arc.tail,
        arc: j,
        ranks,
    };
    lower(state, rerouting, exits, bound)
}

/// What is lost without arc number `j`, which was lowered.
pub fn loss_of_lowered(
    state: &State,
    ranks: &[u32],
    rerouting: &mut Rerouting,
    j: u32,
    stuck: bool,
) -> Result<u64, AllocError>
    requires is_there { has_arc state.now.network j ≡ true }
    requires stuck { stuck ≡ true → IsLossOfArc state.now.network j (flow_on rerouting.old.flows.items j) }
    requires ready { IsReady state.now rerouting.old }
    requires ranks { AreRanks state.now.network rerouting.old.flows.items ranks.now }
    ensures loss { IfOk result (IsLossOfArc state.now.network j) }
    ensures ready { IsReady state.now rerouting.new }
    ensures ranks { AreRanks state.now.network rerouting.new.flows.items ranks.now }
{
    if stuck {
        return Ok(rerouting.flows[j as usize - 1]);
    }
    loss_of_arc(state, ranks, rerouting, j)
}

/// Moves flow from the exits to other ways, until they carry no more than this or no way is left. Returns true if none is.
fn lower(
    state: &State,
    rerouting: &mut Rerouting,
    exits: Exits,
    bound: u64,
) -> Result<bool, AllocError>
    requires exits { AreExits state.now.network exits }
    requires ready { IsReady state.now rerouting.old }
    requires ranks { AreRanks state.now.network rerouting.old.flows.items exits.ranks.now }
    ensures stuck { IfOk result (λ stuck. stuck ≡ true → IsLeft state.now.network exits.entry (exit_flow state.now.network exits.entry rerouting.new.flows.items)) }
    ensures ready { IsReady state.now rerouting.new }
    ensures ranks { AreRanks state.now.network rerouting.new.flows.items exits.entry.ranks.now }
{
    let mut left = flow_on_exits(state, &rerouting.along, exits, &rerouting.flows);
    while left > bound {
        let moved = move_off(state, rerouting, exits)?;
        if moved == 0 {
            return Ok(true);
        }
        left = more_off(state, rerouting, exits, left - moved, bound)?;
    }
    Ok(false)
}

/// What flows through node `v`.
pub fn flow_through(state: &State, rerouting: &Rerouting, ranks: &[u32], v: u32) -> u64
    requires inner { IsInnerNode state.now.network v }
    requires ready { IsReady state.now rerouting.now }
    ensures { result ≡ flow_through state.now.network rerouting.now.flows.items v }
{
    let exits = Exits {
        node: v,
        arc: 0,
        ranks,
    };
    flow_on_exits(state, &rerouting.along, exits, &rerouting.flows)
}

/// Finds what is lost without node `v`, or 0 if it is the source or the sink.
pub fn loss_at(
    state: &State,
    ranks: &[u32],
    rerouting: &mut Rerouting,
    v: u32,
) -> Result<u64, AllocError>
    requires node { IsNode state.now.network.nodes v }
    requires ready { IsReady state.now rerouting.old }
    requires ranks { AreRanks state.now.network rerouting.old.flows.items ranks.now }
    ensures loss { IfOk result (IsLossAt state.now.network v) }
    ensures ready { IsReady state.now rerouting.new }
    ensures ranks { AreRanks state.now.network rerouting.new.flows.items ranks.now }
{
    if v == state.source() {
        return Ok(0);
    }
    if v == state.sink() {
        return Ok(0);
    }
    loss_of_node(state, ranks, rerouting, v)
}

/// Moves the flow on the exits to other ways until none is left or no path is. Returns what is left; 0 without a search if the state's own flow
/// leaves the exits empty.
fn left_on(state: &State, rerouting: &mut Rerouting, exits: Exits) -> Result<u64, AllocError>
    requires exits { AreExits state.now.network exits }
    requires ready { IsReady state.now rerouting.old }
    requires ranks { AreRanks state.now.network rerouting.old.flows.items exits.ranks.now }
    ensures left { IfOk result (IsLeft state.now.network exits.entry) }
    ensures ready { IsReady state.now rerouting.new }
    ensures ranks { AreRanks state.now.network rerouting.new.flows.items exits.entry.ranks.now }
{
    if flow_on_exits(state, &rerouting.along, exits, state.flows()) == 0 {
        return Ok(0);
    }
    let mut left = flow_on_exits(state, &rerouting.along, exits, &rerouting.flows);
    while left > 0 {
        let moved = move_off(state, rerouting, exits)?;
        if moved == 0 {
            return Ok(left);
        }
        left -= moved;
        left = more_off(state, rerouting, exits, left, 0)?;
    }
    Ok(0)
}

/// Moves flow from the exits, which carry `left`, to the paths that a growth finds, until they carry at most `bound` or the growth ends. Returns
/// what they carry. Moves nothing if the last search reached only a few nodes: the next search then costs less than a growth.
fn more_off(
    state: &State,
    rerouting: &mut Rerouting,
    exits: Exits,
    left: u64,
    bound: u64,
) -> Result<u64, AllocError>
    requires exits { AreExits state.now.network exits }
    requires ready { IsReady state.now rerouting.old }
    requires ranks { AreRanks state.now.network rerouting.old.flows.items exits.ranks.now }
    requires left { left ≡ exit_flow state.now.network exits rerouting.old.flows.items }
    ensures left { IfOk result (λ left. left ≡ exit_flow state.now.network exits.entry rerouting.new.flows.items) }
    ensures less { exit_flow state.now.network exits.entry rerouting.new.flows.items ≤ exit_flow state.now.network exits.entry rerouting.old.flows.items }
    ensures ready { IsReady state.now rerouting.new }
    ensures ranks { AreRanks state.now.network rerouting.new.flows.items exits.entry.ranks.now }
{
    if left <= bound || rerouting.tree.found.len() < FEW {
        return Ok(left);
    }
    let wanted = left - bound;
    grow(
        state,
        &rerouting.along,
        &rerouting.against,
        exits,
        wanted,
        &mut rerouting.growth,
        &mut rerouting.flows,
    )?;
    Ok(flow_on_exits(state, &rerouting.along, exits, &rerouting.flows))
}

/// What flows on the exits.
fn flow_on_exits(state: &State, along: &Chains, exits: Exits, flows: &[u64]) -> u64
    requires network { IsNetwork state.now.network }
    requires exits { AreExits state.now.network exits }
    requires within { AreWithinCapacities state.now.network.arcs flows.now }
    requires along { AreChains false state.now.network.nodes state.now.network.arcs along.now.last.items along.now.before.items }
    ensures { result ≡ exit_flow state.now.network exits.entry flows.now }
{
    if exits.arc != 0 {
        return flows[exits.arc as usize - 1];
    }
    let mut sum = 0u64;
    let mut arc = along.last[exits.node as usize - 1];
    while arc != 0 {
        sum += flow_off(state, exits.node, arc, flows[arc as usize - 1]);
        arc = along.before[arc as usize - 1];
    }
    sum
}

/// What flows on arc number `j`, if it leads from node `v` to another.
fn flow_off(state: &State, v: u32, j: u32, flow: u64) -> u64
    requires { has_arc state.now.network j ≡ true }
    ensures { result ≡ part_off v (arc_number state.now.network j, flow) }
{
    let arc = state.arc(j);
    if arc.tail == v && arc.head != v {
        flow
    } else {
        0
    }
}

/// Moves flow from the exits to another path to where they lead. Returns how much, which is 0 if there is no such path.
fn move_off(state: &State, rerouting: &mut Rerouting, exits: Exits) -> Result<u64, AllocError>
    requires exits { AreExits state.now.network exits }
    requires ready { IsReady state.now rerouting.old }
    requires ranks { AreRanks state.now.network rerouting.old.flows.items exits.ranks.now }
    ensures moved { IfOk result (λ moved. IsMoved state.now.network exits.entry moved rerouting.old.flows.items rerouting.new.flows.items) }
    ensures ready { IsReady state.now rerouting.new }
    ensures ranks { AreRanks state.now.network rerouting.new.flows.items exits.entry.ranks.now }
{
    let steps = Steps {
        state,
        flows: &rerouting.flows,
        exits,
    };
    let hop = search(
        &steps,
        &rerouting.along,
        &rerouting.against,
        &mut rerouting.tree,
    )?;
    if hop.arc == 0 {
        return Ok(0);
    }
    Ok(push(state, &rerouting.tree, exits, hop, &mut rerouting.flows))
}
