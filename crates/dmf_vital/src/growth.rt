ghost use Rattle.std.specs.Prelude.{◌≡◌, ◌≤◌};
ghost use Rattle.dmf_solver.specs.Greatest.{IsGreatest};
ghost use Rattle.dmf_vital.specs.Exits.{AreExits, exit_flow};
ghost use Rattle.dmf_vital.specs.Ranks.{AreRanks};

use crate::along::push_along;
use crate::chains::Chains;
use crate::climb::{find_way, mend};
use crate::cursor::{begin_at, has_none, next_hop, read};
use crate::exits::{Exits, is_barred};
use crate::grown::{
    CUT, Growth, Reach, find, grown_at, has_room, is_over_exit, is_sound, mark_of, no_reach,
};
use crate::hop::{Hop, to_of, turned};
use crate::parts::is_open;
use crate::ranks::is_across;
use crate::search::Steps;
use dmf_state::State;
use std::alloc::AllocError;

/// How many steps an end looks at in one turn.
const TURN: u32 = 16;
/// A growth ends once it has looked at this many times the steps that it had looked at when flow was last moved.
const GO_ON: u64 = 3;

/// Moves flow from the exits to other paths, until as much is moved as wanted or too little comes of it.
pub fn grow(
    state: &State,
    along: &Chains,
    against: &Chains,
    exits: Exits,
    wanted: u64,
    growth: &mut Growth,
    flows: &mut [u64],
) -> Result<(), AllocError>
    requires exits { AreExits state.now.network exits }
    requires greatest { IsGreatest state.now.network flows.old }
    requires ranks { AreRanks state.now.network flows.old exits.ranks.now }
    ensures less { exit_flow state.now.network exits.entry flows.new ≤ exit_flow state.now.network exits.entry flows.old }
    ensures greatest { IsGreatest state.now.network flows.new }
    ensures ranks { AreRanks state.now.network flows.new exits.entry.ranks.now }
{
    let steps = Steps {
        state,
        flows,
        exits,
    };
    begin(&steps, along, growth)?;
    let mut left = wanted;
    for _ in 0..u64::MAX {
        let steps = Steps {
            state,
            flows,
            exits,
        };
        let hop = take_turn(&steps, along, against, growth)?;
        if hop.arc != 0 {
            let moved = join(state, along, against, exits, hop, growth, flows)?;
            if moved >= left {
                return Ok(());
            }
            left -= moved;
        }
        if is_over(growth) {
            return Ok(());
        }
    }
    Ok(())
}

/// Begins at the node that the exits leave, and behind at those that exits with flow enter.
fn begin(steps: &Steps, along: &Chains, growth: &mut Growth) -> Result<(), AllocError> {
    growth.mark = growth.mark.wrapping_add(2);
    growth.count = 0;
    growth.ahead.clear();
    growth.behind.clear();
    growth.cut.clear();
    growth.reach = no_reach();
    growth.reach_behind = no_reach();
    growth.mended = 0;
    growth.last = 0;
    growth.done = false;
    let none = Hop {
        arc: 0,
        against: false,
    };
    find(growth, steps.exits.node, false, none, 0)?;
    let only = steps.exits.arc;
    if only != 0 {
        return begin_behind(steps, only, growth);
    }
    let mut arc = read(&along.last, (steps.exits.node as usize).wrapping_sub(1));
    for _ in 0..steps.state.arcs().len() {
        if arc == 0 {
            break;
        }
        begin_behind(steps, arc, growth)?;
        arc = read(&along.before, (arc as usize).wrapping_sub(1));
    }
    Ok(())
}

/// Begins behind at the node that this arc enters, if it is an exit with flow between nodes of one rank.
fn begin_behind(steps: &Steps, exit: u32, growth: &mut Growth) -> Result<(), AllocError> {
    let k = (exit as usize).wrapping_sub(1);
    let hop = Hop {
        arc: exit,
        against: true,
    };
    if k >= steps.state.arcs().len() || !has_room(steps, hop) || !is_over_exit(steps, hop) {
        return Ok(());
    }
    let arc = steps.state.arcs()[k];
    if is_across(steps.exits.ranks, arc) || is_sound(growth, arc.head, true) {
        return Ok(());
    }
    let none = Hop {
        arc: 0,
        against: false,
    };
    find(growth, arc.head, true, none, exit)
}

/// Looks at the next steps of the end that has looked at fewer. Returns one in which both ends meet, as flow goes, or one over arc number 0.
fn take_turn(
    steps: &Steps,
    along: &Chains,
    against: &Chains,
    growth: &mut Growth,
) -> Result<Hop, AllocError> {
    let back = growth.reach_behind.looks < growth.reach.looks;
    let mut reach = if back {
        growth.reach_behind
    } else {
        growth.reach
    };
    let mut met = Hop {
        arc: 0,
        against: false,
    };
    for _ in 0..TURN {
        if !begin_next(along, against, back, &mut reach, growth) {
            growth.done = true;
            break;
        }
        let hop = next_hop(&mut reach.left, along, against);
        reach.looks = reach.looks.wrapping_add(1);
        if look_over(steps, hop, back, growth)? {
            met = Hop {
                arc: hop.arc,
                against: turned(back, hop.against),
            };
            break;
        }
    }
    if back {
        growth.reach_behind = reach;
    } else {
        growth.reach = reach;
    }
    Ok(met)
}

/// Goes on to the next sound node of an end, if no step is left of the one before. Returns false if there is none.
fn begin_next(
    along: &Chains,
    against: &Chains,
    back: bool,
    reach: &mut Reach,
    growth: &Growth,
) -> bool {
    if !has_none(reach.left) && is_sound(growth, reach.node, back) {
        return true;
    }
    let found = if back { &growth.behind } else { &growth.ahead };
    for k in reach.next..found.len() {
        reach.next = k + 1;
        reach.node = found[k];
        if is_sound(growth, found[k], back) {
            reach.left = begin_at(along, against, (found[k] as usize).wrapping_sub(1));
            if !has_none(reach.left) {
                return true;
            }
        }
    }
    false
}

/// Goes over a step of one end, if it has room. Returns whether it leads to a sound node of the other.
fn look_over(steps: &Steps, hop: Hop, back: bool, growth: &mut Growth) -> Result<bool, AllocError> {
    let k = (hop.arc as usize).wrapping_sub(1);
    let arcs = steps.state.arcs();
    let step = Hop {
        arc: hop.arc,
        against: turned(back, hop.against),
    };
    if k >= arcs.len()
        || k >= steps.flows.len()
        || !is_open(step.against, arcs[k], steps.flows[k])
    {
        return Ok(false);
    }
    let v = to_of(hop.against, arcs[k]);
    let there = grown_at(growth, v);
    if there.mark == mark_of(growth, back) {
        return Ok(false);
    }
    if there.mark == mark_of(growth, !back) {
        return Ok(there.place != CUT && !is_barred(steps.exits, hop.arc, arcs[k]));
    }
    if !is_barred(steps.exits, hop.arc, arcs[k]) {
        find(growth, v, back, step, 0)?;
    }
    Ok(false)
}

/// How many steps both ends have looked at.
fn looks_of(growth: &Growth) -> u64 {
    growth.reach.looks.wrapping_add(growth.reach_behind.looks)
}

/// Whether one end has no steps left, or the growth has gone on for long enough since flow was last moved.
fn is_over(growth: &Growth) -> bool {
    growth.done
        || growth.last != 0
            && looks_of(growth) > growth.last.saturating_mul(GO_ON).saturating_add(64)
}

/// Moves flow from the exits to paths over a step in which both ends have met, until none is left. Returns how much.
fn join(
    state: &State,
    along: &Chains,
    against: &Chains,
    exits: Exits,
    hop: Hop,
    growth: &mut Growth,
    flows: &mut [u64],
) -> Result<u64, AllocError>
    requires exits { AreExits state.now.network exits }
    requires greatest { IsGreatest state.now.network flows.old }
    requires ranks { AreRanks state.now.network flows.old exits.ranks.now }
    ensures less { exit_flow state.now.network exits.entry flows.new ≤ exit_flow state.now.network exits.entry flows.old }
    ensures greatest { IsGreatest state.now.network flows.new }
    ensures ranks { AreRanks state.now.network flows.new exits.entry.ranks.now }
{
    let looks = looks_of(growth);
    growth.spare = growth.spare.max(looks.saturating_add(64));
    let mut sum = 0u64;
    for _ in 0..u64::MAX {
        let steps = Steps {
            state,
            flows,
            exits,
        };
        let exit = find_way(&steps, along, against, hop, growth)?;
        if exit == 0 {
            mend(&steps, along, against, growth)?;
            break;
        }
        let moved = push_along(state, exits, &growth.way, exit, &mut growth.before, flows);
        if moved == 0 {
            break;
        }
        sum = sum.saturating_add(moved);
        growth.last = looks;
    }
    Ok(sum)
}
