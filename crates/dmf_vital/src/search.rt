ghost use Rattle.std.specs.Prelude.{◌≡◌, ◌≢◌, ◌+◌, ◌<◌, ◌≤◌, true, false, length, IfOk, OnOk};
ghost use Rattle.dmf_node.specs.Node.{IsNode};
ghost use Rattle.dmf_state.specs.Flow.{AreWithinCapacities};
ghost use Rattle.dmf_state.specs.Network.{arc_number, has_arc};
ghost use Rattle.dmf_vital.specs.Chains.{AreChains};
ghost use Rattle.dmf_vital.specs.Exits.{AreExits};
ghost use Rattle.dmf_vital.specs.Hop.{from_of, turned};
ghost use Rattle.dmf_vital.specs.Tree.{AreListed, IsGrown, AreBehind, AreEntered, IsEntered, AreExpanded, KeepsReached, IsBridge, IsStepped, IsLooked, IsCrossing, HasSearched, at_node, back_of, place_of};

use crate::chains::Chains;
use crate::cursor::{Cursor, begin_at, has_none, next_hop, no_steps};
use crate::exits::{Exits, is_barred, is_exit};
use crate::hop::{Hop, from_of, room_of, to_of, turned};
use crate::ranks::is_across;
use crate::tree::{Reached, Tree, forget, reach};
use dmf_state::State;
use std::alloc::AllocError;

/// The residual steps of these flows on the state's arcs that stay in one rank, but those over the exits.
#[derive(Clone, Copy)]
pub struct Steps<'a> {
    /// The state, whose own flow does not matter.
    pub state: &'a State,
    /// A flow for each arc.
    pub flows: &'a [u64],
    /// The arcs that are left out.
    pub exits: Exits<'a>,
}

/// Searches for a path from the node that the exits leave to one that an exit with flow enters, breadth first from both ends in turn.
/// Returns the step in which they met, from the node that was reached ahead; over arc number 0 if there is none.
pub fn search(
    steps: &Steps,
    along: &Chains,
    against: &Chains,
    tree: &mut Tree,
) -> Result<Hop, AllocError>
    requires exits { AreExits steps.now.state.now.network steps.now.exits }
    requires within { AreWithinCapacities steps.now.state.now.network.arcs steps.now.flows.now }
    requires along { AreChains false steps.now.state.now.network.nodes steps.now.state.now.network.arcs along.now.last.items along.now.before.items }
    requires against { AreChains true steps.now.state.now.network.nodes steps.now.state.now.network.arcs against.now.last.items against.now.before.items }
    requires tree { AreListed steps.now.state.now.network.nodes tree.old.nodes.items tree.old.found.items }
    ensures tree { AreListed steps.now.state.now.network.nodes tree.new.nodes.items tree.new.found.items }
    ensures grown { OnOk result (IsGrown steps.now.state.now.network steps.now.flows.now steps.now.exits tree.new.nodes.items tree.new.found.items) }
    ensures ended { IfOk result (HasSearched steps.now.state.now.network steps.now.flows.now steps.now.exits tree.new.nodes.items) }
{
    let first = Reached {
        place: 0,
        hop: no_hop(),
        width: u64::MAX,
        back: false,
    };
    forget(tree);
    reach(tree, steps.exits.node, first)?;
    enter(steps, along, tree)?;
    let met = meet(steps, along, against, tree)?;
    if met.hop.arc != 0 {
        return Ok(met.hop);
    }
    exhaust(steps, along, against, met.back, tree)
}

fn no_hop() -> Hop
    ensures { result ≡ record { arc = 0; against = false } }
{
    Hop {
        arc: 0,
        against: false,
    }
}

/// Reaches the nodes that exits with flow enter.
fn enter(steps: &Steps, along: &Chains, tree: &mut Tree) -> Result<(), AllocError>
    requires exits { AreExits steps.now.state.now.network steps.now.exits }
    requires within { AreWithinCapacities steps.now.state.now.network.arcs steps.now.flows.now }
    requires along { AreChains false steps.now.state.now.network.nodes steps.now.state.now.network.arcs along.now.last.items along.now.before.items }
    requires grown { IsGrown steps.now.state.now.network steps.now.flows.now steps.now.exits tree.old.nodes.items tree.old.found.items }
    requires behind { AreBehind steps.now.state.now.network steps.now.exits tree.old.nodes.items }
    ensures grown { IsGrown steps.now.state.now.network steps.now.flows.now steps.now.exits tree.new.nodes.items tree.new.found.items }
    ensures entered { OnOk result (AreEntered steps.now.state.now.network steps.now.flows.now steps.now.exits tree.new.nodes.items) }
{
    let only = steps.exits.arc;
    let mut arc = if only == 0 {
        along.last[steps.exits.node as usize - 1]
    } else {
        only
    };
    while arc != 0 {
        enter_over(steps, arc, tree)?;
        arc = if only == 0 {
            along.before[arc as usize - 1]
        } else {
            0
        };
    }
    Ok(())
}

/// Reaches the node that this arc enters, if the arc is an exit with flow between nodes of one rank.
fn enter_over(steps: &Steps, arc: u32, tree: &mut Tree) -> Result<(), AllocError>
    requires exits { AreExits steps.now.state.now.network steps.now.exits }
    requires within { AreWithinCapacities steps.now.state.now.network.arcs steps.now.flows.now }
    requires grown { IsGrown steps.now.state.now.network steps.now.flows.now steps.now.exits tree.old.nodes.items tree.old.found.items }
    requires behind { AreBehind steps.now.state.now.network steps.now.exits tree.old.nodes.items }
    requires is_there { has_arc steps.now.state.now.network arc ≡ true }
    ensures grown { IsGrown steps.now.state.now.network steps.now.flows.now steps.now.exits tree.new.nodes.items tree.new.found.items }
    ensures kept { KeepsReached tree.old.nodes.items tree.new.nodes.items }
    ensures behind { AreBehind steps.now.state.now.network steps.now.exits tree.new.nodes.items }
    ensures entered { OnOk result (IsEntered steps.now.state.now.network steps.now.flows.now steps.now.exits tree.new.nodes.items arc) }
{
    let ends = steps.state.arc(arc);
    if is_across(steps.exits.ranks, ends) {
        return Ok(());
    }
    let flow = steps.flows[arc as usize - 1];
    let exit = is_exit(steps.exits, arc, ends);
    if flow == 0 || !exit || tree.nodes[ends.head as usize - 1].place > 0 {
        return Ok(());
    }
    let by = Reached {
        place: 0,
        hop: Hop {
            arc,
            against: false,
        },
        width: flow,
        back: true,
    };
    reach(tree, ends.head, by)
}

/// Where one end of a search stands.
#[derive(Clone, Copy)]
pub struct Front {
    /// The index of the next reached node.
    pub next: usize,
    /// The steps that are left of the node before it.
    pub left: Cursor,
    /// How many steps were looked at.
    pub looks: u64,
}

/// What came of the turns of both ends.
#[derive(Clone, Copy)]
pub struct Meeting {
    /// The step in which they met, from the node that was reached ahead; over arc number 0 if they did not.
    pub hop: Hop,
    /// Whether the last turn was that of the end behind.
    pub back: bool,
}

/// How many steps an end looks at in one turn. A node may have thousands.
const TURN: u32 = 16;

/// Searches from both ends, a few steps at a time from the one that has looked at fewer, until they meet or one of them has no steps left.
fn meet(
    steps: &Steps,
    along: &Chains,
    against: &Chains,
    tree: &mut Tree,
) -> Result<Meeting, AllocError>
    requires within { AreWithinCapacities steps.now.state.now.network.arcs steps.now.flows.now }
    requires grown { IsGrown steps.now.state.now.network steps.now.flows.now steps.now.exits tree.old.nodes.items tree.old.found.items }
    ensures grown { IsGrown steps.now.state.now.network steps.now.flows.now steps.now.exits tree.new.nodes.items tree.new.found.items }
    ensures kept { KeepsReached tree.old.nodes.items tree.new.nodes.items }
    ensures crossing { IfOk result (λ met. met.hop.arc ≢ 0 → IsCrossing steps.now.state.now.network steps.now.flows.now steps.now.exits tree.new.nodes.items met.hop) }
{
    let mut back = true;
    let mut now = Front {
        next: 0,
        left: no_steps(),
        looks: 0,
    };
    let mut other = now;
    for _ in 0..u64::MAX {
        let hop = take_turn(steps, along, against, back, &mut now, tree)?;
        if hop.arc != 0 {
            return Ok(Meeting {
                hop: ahead(back, hop),
                back,
            });
        }
        if is_done(now, tree) {
            return Ok(Meeting { hop, back });
        }
        if now.looks > other.looks {
            let next = other;
            other = now;
            now = next;
            back = !back;
        }
    }
    Ok(Meeting {
        hop: no_hop(),
        back,
    })
}

/// Whether an end has no steps left.
fn is_done(front: Front, tree: &Tree) -> bool {
    front.next >= tree.found.len() && has_none(front.left)
}

/// Looks at the next steps from one end: those of one node, and at most `TURN`. Returns a step to a node that was reached from the other end, or
/// one over arc number 0.
fn take_turn(
    steps: &Steps,
    along: &Chains,
    against: &Chains,
    back: bool,
    front: &mut Front,
    tree: &mut Tree,
) -> Result<Hop, AllocError>
    requires within { AreWithinCapacities steps.now.state.now.network.arcs steps.now.flows.now }
    requires grown { IsGrown steps.now.state.now.network steps.now.flows.now steps.now.exits tree.old.nodes.items tree.old.found.items }
    ensures grown { IsGrown steps.now.state.now.network steps.now.flows.now steps.now.exits tree.new.nodes.items tree.new.found.items }
    ensures kept { KeepsReached tree.old.nodes.items tree.new.nodes.items }
    ensures bridge { IfOk result (λ hop. hop.arc ≢ 0 → IsBridge steps.now.state.now.network steps.now.flows.now steps.now.exits tree.new.nodes.items back hop) }
{
    if has_none(front.left) {
        begin_next(along, against, back, front, tree);
    }
    for _ in 0..TURN {
        front.looks = front.looks.wrapping_add(1);
        let hop = next_hop(&mut front.left, along, against);
        if hop.arc == 0 {
            return Ok(hop);
        }
        if look_over(steps, hop, back, tree)? {
            return Ok(hop);
        }
    }
    Ok(no_hop())
}

/// Begins with the steps of the next node that was reached from this end.
fn begin_next(along: &Chains, against: &Chains, back: bool, front: &mut Front, tree: &Tree) {
    for k in front.next..tree.found.len() {
        front.next = k + 1;
        let index = (tree.found[k] as usize).wrapping_sub(1);
        if index < tree.nodes.len() && tree.nodes[index].back == back {
            front.left = begin_at(along, against, index);
            return;
        }
    }
}

/// Goes over a step, if it leads from a node that was reached from this end. Returns whether it leads to one that was reached from the other.
fn look_over(steps: &Steps, hop: Hop, back: bool, tree: &mut Tree) -> Result<bool, AllocError>
    requires within { AreWithinCapacities steps.now.state.now.network.arcs steps.now.flows.now }
    requires some { hop.arc ≢ 0 }
    requires grown { IsGrown steps.now.state.now.network steps.now.flows.now steps.now.exits tree.old.nodes.items tree.old.found.items }
    ensures grown { IsGrown steps.now.state.now.network steps.now.flows.now steps.now.exits tree.new.nodes.items tree.new.found.items }
    ensures kept { KeepsReached tree.old.nodes.items tree.new.nodes.items }
    ensures bridge { IfOk result (λ met. met ≡ true → IsBridge steps.now.state.now.network steps.now.flows.now steps.now.exits tree.new.nodes.items back hop) }
{
    if hop.arc as usize > steps.state.arcs().len() {
        return Ok(false);
    }
    let v = from_of(hop.against, steps.state.arc(hop.arc));
    let from = tree.nodes[v as usize - 1];
    if from.place == 0 || turned(back, from.back) {
        return Ok(false);
    }
    step_over(steps, hop, back, from.width, tree)
}

/// Expands all nodes that were reached from one end, until it meets the other or has reached all that it can.
fn exhaust(
    steps: &Steps,
    along: &Chains,
    against: &Chains,
    back: bool,
    tree: &mut Tree,
) -> Result<Hop, AllocError>
    requires within { AreWithinCapacities steps.now.state.now.network.arcs steps.now.flows.now }
    requires along { AreChains false steps.now.state.now.network.nodes steps.now.state.now.network.arcs along.now.last.items along.now.before.items }
    requires against { AreChains true steps.now.state.now.network.nodes steps.now.state.now.network.arcs against.now.last.items against.now.before.items }
    requires grown { IsGrown steps.now.state.now.network steps.now.flows.now steps.now.exits tree.old.nodes.items tree.old.found.items }
    requires entered { AreEntered steps.now.state.now.network steps.now.flows.now steps.now.exits tree.old.nodes.items }
    ensures grown { IsGrown steps.now.state.now.network steps.now.flows.now steps.now.exits tree.new.nodes.items tree.new.found.items }
    ensures ended { IfOk result (HasSearched steps.now.state.now.network steps.now.flows.now steps.now.exits tree.new.nodes.items) }
{
    for next in 0..usize::MAX {
        if next >= tree.found.len() {
            return Ok(no_hop());
        }
        let hop = look_at(steps, along, against, back, next, tree)?;
        if hop.arc != 0 {
            return Ok(ahead(back, hop));
        }
    }
    Ok(no_hop())
}

/// The step as it is from the node that was reached ahead.
fn ahead(back: bool, hop: Hop) -> Hop
    ensures { result ≡ record { arc = hop.arc; against = turned back hop.against } }
{
    Hop {
        arc: hop.arc,
        against: turned(back, hop.against),
    }
}

/// Expands the reached node at an index, if it was reached from this end. Returns a step to a node that was reached from the other end, or one
/// over arc number 0.
fn look_at(
    steps: &Steps,
    along: &Chains,
    against: &Chains,
    back: bool,
    next: usize,
    tree: &mut Tree,
) -> Result<Hop, AllocError>
    requires within { AreWithinCapacities steps.now.state.now.network.arcs steps.now.flows.now }
    requires along { AreChains false steps.now.state.now.network.nodes steps.now.state.now.network.arcs along.now.last.items along.now.before.items }
    requires against { AreChains true steps.now.state.now.network.nodes steps.now.state.now.network.arcs against.now.last.items against.now.before.items }
    requires grown { IsGrown steps.now.state.now.network steps.now.flows.now steps.now.exits tree.old.nodes.items tree.old.found.items }
    requires is_there { next < length tree.old.found.items }
    requires expanded { AreExpanded steps.now.state.now.network steps.now.flows.now steps.now.exits tree.old.nodes.items back next }
    ensures grown { IsGrown steps.now.state.now.network steps.now.flows.now steps.now.exits tree.new.nodes.items tree.new.found.items }
    ensures kept { KeepsReached tree.old.nodes.items tree.new.nodes.items }
    ensures longer { length tree.old.found.items ≤ length tree.new.found.items }
    ensures some { IfOk result (λ hop. hop.arc ≢ 0 → IsBridge steps.now.state.now.network steps.now.flows.now steps.now.exits tree.new.nodes.items back hop) }
    ensures none { IfOk result (λ hop. hop.arc ≡ 0 → AreExpanded steps.now.state.now.network steps.now.flows.now steps.now.exits tree.new.nodes.items back (next + 1)) }
{
    let v = tree.found[next];
    let other = turned(back, tree.nodes[v as usize - 1].back);
    if other {
        return Ok(no_hop());
    }
    let met = expand(steps, along, false, back, v, tree)?;
    if met != 0 {
        return Ok(Hop {
            arc: met,
            against: false,
        });
    }
    let met_against = expand(steps, against, true, back, v, tree)?;
    Ok(Hop {
        arc: met_against,
        against: true,
    })
}

/// Reaches the nodes to which steps lead from node `v`: those along arcs, or those against them. Returns the number of the first arc over
/// which one leads to a node that was reached from the other end, or 0.
fn expand(
    steps: &Steps,
    chains: &Chains,
    against: bool,
    back: bool,
    v: u32,
    tree: &mut Tree,
) -> Result<u32, AllocError>
    requires within { AreWithinCapacities steps.now.state.now.network.arcs steps.now.flows.now }
    requires chains { AreChains against steps.now.state.now.network.nodes steps.now.state.now.network.arcs chains.now.last.items chains.now.before.items }
    requires grown { IsGrown steps.now.state.now.network steps.now.flows.now steps.now.exits tree.old.nodes.items tree.old.found.items }
    requires node { IsNode steps.now.state.now.network.nodes v }
    requires reached { 0 < place_of tree.old.nodes.items v }
    requires end { back_of tree.old.nodes.items v ≡ back }
    ensures grown { IsGrown steps.now.state.now.network steps.now.flows.now steps.now.exits tree.new.nodes.items tree.new.found.items }
    ensures kept { KeepsReached tree.old.nodes.items tree.new.nodes.items }
    ensures looked { IfOk result (IsLooked steps.now.state.now.network steps.now.flows.now steps.now.exits tree.new.nodes.items back against v) }
{
    let width = tree.nodes[v as usize - 1].width;
    let mut arc = chains.last[v as usize - 1];
    while arc != 0 {
        let hop = Hop { arc, against };
        if step_over(steps, hop, back, width, tree)? {
            return Ok(arc);
        }
        arc = chains.before[arc as usize - 1];
    }
    Ok(0)
}

/// Reaches the node to which the step leads, if the step has room, the arc is not barred and the node is not reached. Returns whether the node
/// was reached from the other end.
fn step_over(
    steps: &Steps,
    hop: Hop,
    back: bool,
    width: u64,
    tree: &mut Tree,
) -> Result<bool, AllocError>
    requires within { AreWithinCapacities steps.now.state.now.network.arcs steps.now.flows.now }
    requires grown { IsGrown steps.now.state.now.network steps.now.flows.now steps.now.exits tree.old.nodes.items tree.old.found.items }
    requires is_there { has_arc steps.now.state.now.network hop.arc ≡ true }
    requires reached { 0 < place_of tree.old.nodes.items (from_of hop.against (arc_number steps.now.state.now.network hop.arc)) }
    requires end { back_of tree.old.nodes.items (from_of hop.against (arc_number steps.now.state.now.network hop.arc)) ≡ back }
    requires wide { width ≡ (at_node tree.old.nodes.items (from_of hop.against (arc_number steps.now.state.now.network hop.arc))).width }
    ensures grown { IsGrown steps.now.state.now.network steps.now.flows.now steps.now.exits tree.new.nodes.items tree.new.found.items }
    ensures kept { KeepsReached tree.old.nodes.items tree.new.nodes.items }
    ensures stepped { IfOk result (IsStepped steps.now.state.now.network steps.now.flows.now steps.now.exits tree.new.nodes.items back hop) }
{
    let arc = steps.state.arc(hop.arc);
    let room = room_of(
        turned(back, hop.against),
        arc,
        steps.flows[hop.arc as usize - 1],
    );
    if room == 0 || is_barred(steps.exits, hop.arc, arc) {
        return Ok(false);
    }
    let v = to_of(hop.against, arc);
    let there = tree.nodes[v as usize - 1];
    if there.place > 0 {
        return Ok(turned(back, there.back));
    }
    let by = Reached {
        place: 0,
        hop,
        width: room.min(width),
        back,
    };
    reach(tree, v, by)?;
    Ok(false)
}
