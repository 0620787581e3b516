//! The rows of a network: what is left of its greatest value without each part, and what it is with a second arc beside each arc.
ghost use Rattle.std.specs.Prelude.{◌≡◌, ◌≤◌, ℕ, ◌+◌, ◌-◌, ◌<◌, [], ◌∷◌, All, IfErr, IfOk, length, map, slice_index};
ghost use Rattle.std.specs.List.{range_with_len};
ghost use Rattle.dmf_solver.specs.Greatest.{IsGreatest};
ghost use Rattle.dmf_vital.specs.Loss.{IsGainOfSecond};
ghost use Rattle.dmf_vital.specs.Worst.{IsArcLoss};
ghost use Rattle.dmf_valuing.specs.PartRows.{AreLossesOf, ArePartRows, IsWant, PartsLackRoom, loss_row, row_of};
ghost use Rattle.dmf_valuing.specs.Rows.{AreSecondRows};
ghost use Rattle.dmf_valuing.specs.VitalRun.{LacksRoom};

use crate::parts::{Parts, find_losses};
use crate::rows::Numbers;
use dmf_state::{NetFault, State};
use dmf_streams::EngineFault;
use dmf_vital::{NumberedLoss, ValuingWatch, second_gains_watched};
use std::alloc::{AllocError, Global};

/// The rows of these parts, in order, of a state whose flow is greatest. Reports to the watch how many parts are valued.
///
/// Fails with [`EngineFault::NoMemory`] if memory is refused or if the watch ends it, and with [`EngineFault::NoRoom`] if the network
/// cannot take the second arcs.
pub fn find_rows<V: ValuingWatch>(
    alloc: Global,
    parts: Parts,
    state: &State,
    watch: &mut V,
) -> Result<Vec<Numbers>, EngineFault>
    requires { IsGreatest state.now.network state.now.flows }
    ensures rows { IfOk result (λ rows. ArePartRows parts state.now.network (map row_of rows.items)) }
    ensures refused { IfErr result (IsWant (PartsLackRoom parts state.now.network)) }
{
    let losses = find_losses(alloc, parts, state, watch)?;
    match parts {
        Parts::Seconds => second_rows(alloc, state, &losses, watch),
        _ => Ok(loss_rows(alloc, state.value(), &losses)?),
    }
}

/// A row for each loss: its numbers and what is left of the value.
fn loss_rows(alloc: Global, value: u64, losses: &[NumberedLoss]) -> Result<Vec<Numbers>, AllocError>
    requires { All (λ one. one.loss ≤ value) losses.now }
    ensures { IfOk result (λ rows. map row_of rows.items ≡ map (loss_row value) losses.now) }
{
    let mut rows = Vec::with_capacity(alloc, losses.len())?;
    for k in 0..losses.len() {
        rows.push(row_of_loss(value, losses[k]))?;
    }
    Ok(rows)
}

/// J and WITHOUT, or I, J and WITHOUT for the loss of a pair.
fn row_of_loss(value: u64, one: NumberedLoss) -> Numbers
    requires { one.loss ≤ value }
    ensures { row_of result ≡ loss_row value one }
{
    let first = u64::from(one.number);
    let left = value - one.loss;
    if one.second == 0 {
        return Numbers {
            first,
            second: left,
            third: None,
        };
    }
    Numbers {
        first,
        second: u64::from(one.second),
        third: Some(left),
    }
}

/// A row for each arc: its number, what is left of the greatest value without it, and what that is with a second arc beside it.
fn second_rows<V: ValuingWatch>(
    alloc: Global,
    state: &State,
    losses: &[NumberedLoss],
    watch: &mut V,
) -> Result<Vec<Numbers>, EngineFault>
    requires greatest { IsGreatest state.now.network state.now.flows }
    requires losses { AreLossesOf (IsArcLoss state.now.network) (range_with_len 1 (length state.now.network.arcs)) losses.now }
    ensures rows { IfOk result (λ rows. AreSecondRows state.now.network (map row_of rows.items)) }
    ensures refused { IfErr result (IsWant (LacksRoom state.now.network)) }
{
    let value = state.value();
    let gains = gains_of(alloc, state, watch)?;
    let mut rows = Vec::with_capacity(alloc, losses.len())?;
    for k in 0..losses.len() {
        let Some(more) = value.checked_add(gains[k]) else {
            return Err(EngineFault::NoRoom);
        };
        let Ok(()) = rows.push(second_row(value, losses[k], more)) else {
            return Err(EngineFault::NoMemory);
        };
    }
    Ok(rows)
}

/// J, WITHOUT and WITH.
fn second_row(value: u64, one: NumberedLoss, more: u64) -> Numbers
    requires { one.loss ≤ value }
    ensures { row_of result ≡ one.number ∷ (value - one.loss) ∷ more ∷ [] }
{
    Numbers {
        first: u64::from(one.number),
        second: value - one.loss,
        third: Some(more),
    }
}

/// What the greatest value gains by a second arc beside each arc, in order.
fn gains_of<V: ValuingWatch>(
    alloc: Global,
    state: &State,
    watch: &mut V,
) -> Result<Vec<u64>, EngineFault>
    requires { IsGreatest state.now.network state.now.flows }
    ensures one_each { IfOk result (λ gains. length gains.items ≡ length state.now.network.arcs) }
    ensures gains { IfOk result (λ gains. (k : ℕ) → k < length state.now.network.arcs
        → IsGainOfSecond state.now.network (k + 1) (slice_index gains.items k)) }
    ensures refused { IfErr result (IsWant (LacksRoom state.now.network)) }
{
    match second_gains_watched(alloc, state, watch) {
        Ok(gains) => Ok(gains),
        Err(NetFault::NoMemory) => Err(EngineFault::NoMemory),
        Err(_) => Err(EngineFault::NoRoom),
    }
}
