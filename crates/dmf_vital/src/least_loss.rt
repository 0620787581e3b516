//! A loss that as many arcs reach as a list has room for, guessed from those that carry most. Contracts say no more of these calls than
//! that they are safe, end, and keep the flow greatest: a list that is too short because of the guess is made again without it.
ghost use Rattle.std.specs.Prelude.{◌≡◌, true};
ghost use Rattle.dmf_state.specs.Network.{has_arc};
ghost use Rattle.dmf_vital.specs.Ranks.{AreRanks};
ghost use Rattle.dmf_vital.specs.Shifted.{IsReady};

use crate::guess::{leave, may_note, note};
use crate::rerouting::{Rerouting, lower_arc};
use crate::rest::largest_flow;
use crate::watch::{ValuingWatch, report};
use crate::worst::is_among;
use dmf_state::{NoMemory, State};
use std::alloc::Global;

/// A guess is made only for a list with room for at most one in this many arcs.
const ARCS_PER_ROOM: usize = 64;

/// The greatest losses that were found.
#[derive(Drop)]
struct Noted {
    /// How many are kept.
    most: usize,
    /// The losses, the greatest first.
    greatest: Vec<u64>,
    /// Which arcs are left to be looked at.
    left: Vec<bool>,
}

/// Guesses a loss that `most` of these arcs reach; 0 if it finds none, or if `most` is large.
///
/// Looks at the arcs that carry more than half of the largest flow, then at those with more than a quarter, and so on, until what is left
/// carries no more than the last of the losses that were found. Of each arc it moves off only what it carries beyond that loss.
pub fn guess_least_loss<W: ValuingWatch>(
    alloc: Global,
    state: &State,
    ranks: &[u32],
    rerouting: &mut Rerouting,
    among: &[bool],
    most: usize,
    watch: &mut W,
) -> Result<u64, NoMemory>
    requires ready { IsReady state.now rerouting.old }
    requires ranks { AreRanks state.now.network rerouting.old.flows.items ranks.now }
    ensures ready { IsReady state.now rerouting.new }
    ensures ranks { AreRanks state.now.network rerouting.new.flows.items ranks.now }
{
    if most > among.len() / ARCS_PER_ROOM {
        return Ok(0);
    }
    let mut noted = Noted {
        most,
        greatest: Vec::new(alloc),
        left: Vec::from_slice(alloc, among)?,
    };
    let mut floor = largest_flow(&rerouting.flows);
    while floor > 0 && may_note(&noted.greatest, most, floor) {
        floor /= 2;
        note_above(state, ranks, rerouting, floor, &mut noted, watch)?;
    }
    Ok(last_of(&noted))
}

/// Notes the losses of the arcs that carry more than the floor.
fn note_above<W: ValuingWatch>(
    state: &State,
    ranks: &[u32],
    rerouting: &mut Rerouting,
    floor: u64,
    noted: &mut Noted,
    watch: &mut W,
) -> Result<(), NoMemory>
    requires ready { IsReady state.now rerouting.old }
    requires ranks { AreRanks state.now.network rerouting.old.flows.items ranks.now }
    ensures ready { IsReady state.now rerouting.new }
    ensures ranks { AreRanks state.now.network rerouting.new.flows.items ranks.now }
{
    for k in 0..state.arcs().len() {
        report(watch, k, state.arcs().len())?;
        note_arc(state, ranks, rerouting, floor, noted, k as u32 + 1)?;
    }
    Ok(())
}

/// Notes the loss of arc number `j`, if it carries more than the floor and was not looked at.
fn note_arc(
    state: &State,
    ranks: &[u32],
    rerouting: &mut Rerouting,
    floor: u64,
    noted: &mut Noted,
    j: u32,
) -> Result<(), NoMemory>
    requires is_there { has_arc state.now.network j ≡ true }
    requires ready { IsReady state.now rerouting.old }
    requires ranks { AreRanks state.now.network rerouting.old.flows.items ranks.now }
    ensures ready { IsReady state.now rerouting.new }
    ensures ranks { AreRanks state.now.network rerouting.new.flows.items ranks.now }
{
    if carried(rerouting, j) <= floor || !is_among(&noted.left, j) {
        return Ok(());
    }
    leave(&mut noted.left, j);
    lower_arc(state, ranks, rerouting, j, last_of(noted))?;
    Ok(note(&mut noted.greatest, noted.most, carried(rerouting, j))?)
}

/// What arc number `j` carries.
fn carried(rerouting: &Rerouting, j: u32) -> u64 {
    let k = (j as usize).saturating_sub(1);
    if k < rerouting.flows.len() {
        rerouting.flows[k]
    } else {
        0
    }
}

/// The last of as many losses as are kept; 0 if there are fewer.
fn last_of(noted: &Noted) -> u64 {
    if noted.most == 0 || noted.greatest.len() < noted.most {
        return 0;
    }
    noted.greatest[noted.most - 1]
}
