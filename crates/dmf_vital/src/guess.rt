ghost use Rattle.std.specs.Prelude.{◌≡◌, true, IfOk};
ghost use Rattle.dmf_state.specs.Network.{has_arc};
ghost use Rattle.dmf_solver.specs.Greatest.{IsGreatest};
ghost use Rattle.dmf_vital.specs.Rest.{AreThere, IsRest, IsWhole};

use crate::rest::{Rest, Whole, largest_with, leave_out, loss_with};
use crate::watch::{ValuingWatch, report};
use crate::worst::{NumberedLoss, is_among};
use dmf_state::{NoMemory, State};
use std::alloc::{AllocError, Global};

/// Guesses a loss that `most` pairs reach: those of these arcs with any other among some. No contract says that they do.
pub fn guess_least<W: ValuingWatch>(
    alloc: Global,
    state: &State,
    whole: &mut Whole,
    tried: &[NumberedLoss],
    among: &[bool],
    most: usize,
    watch: &mut W,
) -> Result<u64, NoMemory>
    requires tried { AreThere state.now.network tried.now }
    requires greatest { IsGreatest state.now.network state.now.flows }
    requires whole { IsWhole state.now whole.old }
    ensures { IfOk result (λ _. IsWhole state.now whole.new) }
{
    let mut left = Vec::from_slice(alloc, among)?;
    let mut greatest = Vec::new(alloc);
    for k in 0..tried.len() {
        let mut rest = leave_out(alloc, state, whole, tried[k].number)?;
        leave(&mut left, tried[k].number);
        note_losses(state, &mut rest, &left, most, &mut greatest, watch)?;
    }
    if most == 0 || greatest.len() < most {
        return Ok(0);
    }
    Ok(greatest[most - 1])
}

/// Arc number `j` is no longer among these.
pub fn leave(among: &mut Vec<bool>, j: u32) {
    let k = (j as usize).saturating_sub(1);
    if k < among.len() {
        among[k] = false;
    }
}

/// Adds the losses of pairs of the closed arc and one among these to the `most` greatest.
fn note_losses<W: ValuingWatch>(
    state: &State,
    rest: &mut Rest,
    among: &[bool],
    most: usize,
    greatest: &mut Vec<u64>,
    watch: &mut W,
) -> Result<(), NoMemory>
    requires greatest { IsGreatest state.now.network state.now.flows }
    requires rest { IsRest state.now.network rest.old }
{
    for k in 0..state.arcs().len() {
        report(watch, k, state.arcs().len())?;
        note_second(state, rest, among, most, greatest, k as u32 + 1)?;
    }
    Ok(())
}

/// Adds the loss with the second arc number `j` to the `most` greatest, if that arc is among these.
fn note_second(
    state: &State,
    rest: &mut Rest,
    among: &[bool],
    most: usize,
    greatest: &mut Vec<u64>,
    j: u32,
) -> Result<(), NoMemory>
    requires is_there { has_arc state.now.network j ≡ true }
    requires greatest { IsGreatest state.now.network state.now.flows }
    requires rest { IsRest state.now.network rest.old }
    ensures { IsRest state.now.network rest.new }
{
    if !is_among(among, j) {
        return Ok(());
    }
    if !may_note(greatest, most, largest_with(state, rest, j)) {
        return Ok(());
    }
    let loss = loss_with(state, rest, j)?;
    Ok(note(greatest, most, loss)?)
}

/// Whether the loss is one of the `most` greatest.
pub fn may_note(greatest: &[u64], most: usize, loss: u64) -> bool {
    if most == 0 {
        return false;
    }
    greatest.len() < most || greatest[most - 1] < loss
}

/// Puts a loss in its place among the `most` greatest.
pub fn note(greatest: &mut Vec<u64>, most: usize, loss: u64) -> Result<(), AllocError> {
    let mut place = greatest.len();
    while place > 0 && greatest[place - 1] < loss {
        place -= 1;
    }
    greatest.insert(place, loss)?;
    greatest.truncate(most);
    Ok(())
}
