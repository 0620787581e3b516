ghost use Rattle.std.specs.Prelude.{◌≡◌, ℕ, ◌+◌, ◌-◌, ◌<◌, true, length, slice_index, All, IfOk, OnOk};
ghost use Rattle.dmf_state.specs.Network.{has_arc};
ghost use Rattle.dmf_solver.specs.Greatest.{IsGreatest};
ghost use Rattle.dmf_vital.specs.Entering.{AreLargeWorst, AreWorstUpTo};
ghost use Rattle.dmf_vital.specs.Loss.{IsLossOfPair};
ghost use Rattle.dmf_vital.specs.Rest.{IsRest, IsWhole};
ghost use Rattle.dmf_vital.specs.Worst.{AreWorst, IsAmong, IsPairLoss, IsPairLossAmong};

use crate::guess::guess_least;
use crate::rerouting::{find_ranks, make_rerouting};
use crate::rest::{
    Rest, Whole, close_arc, largest_beside, largest_flow, largest_with, leave_out, loss_with,
    make_whole, move_off_arc, rest_without,
};
use crate::watch::{ValuingWatch, report};
use crate::worst::{Limits, NumberedLoss, consider, is_among, list_worst_arcs, may_enter};
use dmf_solver::Unwatched;
use dmf_state::{NoMemory, State};
use std::alloc::Global;

/// The most arcs that are tried as the first of two to guess how large the worst losses are.
const TRIED: usize = 8;

/// What is lost without both arcs of each pair, in order, of a state whose flow is greatest. The first arc of the pair at an index is the
/// arc of the number in `firsts` there, the second that of the number in `seconds`. The state stays as it is. Fails only if memory is
/// refused.
///
/// Pairs with the same first arc that stand together take one solve for all of them.
pub fn pair_losses(
    alloc: Global,
    state: &State,
    firsts: &[u32],
    seconds: &[u32],
) -> Result<Vec<u64>, NoMemory>
    requires one_each { length seconds.now ≡ length firsts.now }
    requires firsts_there { All (λ i. has_arc state.now.network i ≡ true) firsts.now }
    requires seconds_there { All (λ j. has_arc state.now.network j ≡ true) seconds.now }
    requires greatest { IsGreatest state.now.network state.now.flows }
    ensures one_each { IfOk result (λ losses. length losses.items ≡ length firsts.now) }
    ensures losses { IfOk result (λ losses. (k : ℕ) → k < length losses.items
        → IsLossOfPair state.now.network (slice_index firsts.now k) (slice_index seconds.now k) (slice_index losses.items k)) }
{
    pair_losses_watched(alloc, state, firsts, seconds, &mut Unwatched)
}

/// Finds the same, and reports each pair to the watch.
pub fn pair_losses_watched<W: ValuingWatch>(
    alloc: Global,
    state: &State,
    firsts: &[u32],
    seconds: &[u32],
    watch: &mut W,
) -> Result<Vec<u64>, NoMemory>
    requires one_each { length seconds.now ≡ length firsts.now }
    requires firsts_there { All (λ i. has_arc state.now.network i ≡ true) firsts.now }
    requires seconds_there { All (λ j. has_arc state.now.network j ≡ true) seconds.now }
    requires greatest { IsGreatest state.now.network state.now.flows }
    ensures one_each { IfOk result (λ losses. length losses.items ≡ length firsts.now) }
    ensures losses { IfOk result (λ losses. (k : ℕ) → k < length losses.items
        → IsLossOfPair state.now.network (slice_index firsts.now k) (slice_index seconds.now k) (slice_index losses.items k)) }
{
    let mut losses = vec![in alloc; 0u64; firsts.len()]?;
    if firsts.is_empty() {
        return Ok(losses);
    }
    let mut whole = make_whole(alloc, state)?;
    let mut rest = leave_out(alloc, state, &mut whole, firsts[0])?;
    for k in 0..firsts.len() {
        report(watch, k, firsts.len())?;
        rest = rest_without(alloc, state, &mut whole, rest, firsts[k])?;
        losses[k] = loss_with(state, &mut rest, seconds[k])?;
    }
    Ok(losses)
}

/// The `most` pairs of arcs that cost most to lose together, of a state whose flow is greatest, as [`worst_arcs`] lists arcs. Of equal
/// losses that of the smaller first number comes first, and of equal first numbers that of the smaller second number.
///
/// A first arc is skipped, and so is a second one, if what both carry is no more than the last loss of a full list.
pub fn worst_pairs(alloc: Global, state: &State, most: usize) -> Result<Vec<NumberedLoss>, NoMemory>
    requires { IsGreatest state.now.network state.now.flows }
    ensures { IfOk result (λ worst. AreWorst (IsPairLoss state.now.network) most worst.items) }
{
    worst_pairs_watched(alloc, state, most, &mut Unwatched)
}

/// Finds the same, and reports to the watch as [`worst_pairs_among_watched`] does.
pub fn worst_pairs_watched<W: ValuingWatch>(
    alloc: Global,
    state: &State,
    most: usize,
    watch: &mut W,
) -> Result<Vec<NumberedLoss>, NoMemory>
    requires { IsGreatest state.now.network state.now.flows }
    ensures { IfOk result (λ worst. AreWorst (IsPairLoss state.now.network) most worst.items) }
{
    let all = vec![in alloc; true; state.arcs().len()]?;
    worst_pairs_among_watched(alloc, state, &all, most, watch)
}

/// The same of pairs of some arcs: those for which `among`, which has an element for each arc, has true.
pub fn worst_pairs_among(
    alloc: Global,
    state: &State,
    among: &[bool],
    most: usize,
) -> Result<Vec<NumberedLoss>, NoMemory>
    requires { IsGreatest state.now.network state.now.flows }
    ensures { IfOk result (λ worst. AreWorst (IsPairLossAmong state.now.network among.now) most worst.items) }
{
    worst_pairs_among_watched(alloc, state, among, most, &mut Unwatched)
}

/// Finds the same, and reports to the watch each arc that is tried, and then each arc as the first of two.
pub fn worst_pairs_among_watched<W: ValuingWatch>(
    alloc: Global,
    state: &State,
    among: &[bool],
    most: usize,
    watch: &mut W,
) -> Result<Vec<NumberedLoss>, NoMemory>
    requires { IsGreatest state.now.network state.now.flows }
    ensures { IfOk result (λ worst. AreWorst (IsPairLossAmong state.now.network among.now) most worst.items) }
{
    let mut rerouting = make_rerouting(alloc, state)?;
    let ranks = find_ranks(alloc, state, &rerouting)?;
    let tried = list_worst_arcs(alloc, state, &ranks, &mut rerouting, among, TRIED, watch)?;
    let largest = largest_flow(&rerouting.flows);
    let mut whole = Whole {
        rerouting,
        ranks,
        largest,
    };
    let least = guess_least(alloc, state, &mut whole, &tried, among, most, watch)?;
    let worst = list_worst(
        alloc,
        state,
        &mut whole,
        among,
        Limits { most, least },
        watch,
    )?;
    if least == 0 {
        return Ok(worst);
    }
    if worst.len() == most {
        return Ok(worst);
    }
    list_worst(
        alloc,
        state,
        &mut whole,
        among,
        Limits { most, least: 0 },
        watch,
    )
}

/// The worst pairs of arcs among these whose loss is large enough.
fn list_worst<W: ValuingWatch>(
    alloc: Global,
    state: &State,
    whole: &mut Whole,
    among: &[bool],
    limits: Limits,
    watch: &mut W,
) -> Result<Vec<NumberedLoss>, NoMemory>
    requires greatest { IsGreatest state.now.network state.now.flows }
    requires whole { IsWhole state.now whole.old }
    ensures whole { OnOk result (IsWhole state.now whole.new) }
    ensures worst { IfOk result (λ worst. AreLargeWorst (IsPairLossAmong state.now.network among.now) limits worst.items) }
{
    let mut worst = Vec::new(alloc);
    for k in 0..state.arcs().len() {
        report(watch, k, state.arcs().len())?;
        consider_first(
            alloc,
            state,
            whole,
            among,
            &mut worst,
            limits,
            k as u32 + 1,
            watch,
        )?;
    }
    Ok(worst)
}

/// Looks at the pairs with the first arc number `i`, after those with smaller ones.
fn consider_first<W: ValuingWatch>(
    alloc: Global,
    state: &State,
    whole: &mut Whole,
    among: &[bool],
    worst: &mut Vec<NumberedLoss>,
    limits: Limits,
    i: u32,
    watch: &mut W,
) -> Result<(), NoMemory>
    requires is_there { has_arc state.now.network i ≡ true }
    requires greatest { IsGreatest state.now.network state.now.flows }
    requires whole { IsWhole state.now whole.old }
    requires worst { AreWorstUpTo (IsPairLossAmong state.now.network among.now) i 0 limits worst.old.items }
    ensures worst { IfOk result (λ _. AreWorstUpTo (IsPairLossAmong state.now.network among.now) (i + 1) 0 limits worst.new.items) }
    ensures whole { OnOk result (IsWhole state.now whole.new) }
{
    if !is_among(among, i) {
        return Ok(());
    }
    if !may_enter(worst, limits, largest_beside(state, whole, i)) {
        return Ok(());
    }
    move_off_arc(state, whole, i)?;
    if !may_enter(worst, limits, largest_beside(state, whole, i)) {
        return Ok(());
    }
    let mut rest = close_arc(alloc, state, &whole.rerouting.flows, i)?;
    for k in i as usize..state.arcs().len() {
        report(watch, (i as usize).saturating_sub(1), state.arcs().len())?;
        consider_second(state, &mut rest, among, worst, limits, k as u32 + 1)?;
    }
    Ok(())
}

/// Looks at the pair with the second arc number `j`, after those with smaller ones.
fn consider_second(
    state: &State,
    rest: &mut Rest,
    among: &[bool],
    worst: &mut Vec<NumberedLoss>,
    limits: Limits,
    j: u32,
) -> Result<(), NoMemory>
    requires is_there { has_arc state.now.network j ≡ true }
    requires first { IsAmong among.now rest.old.without }
    requires after { rest.old.without < j }
    requires greatest { IsGreatest state.now.network state.now.flows }
    requires rest { IsRest state.now.network rest.old }
    requires worst { AreWorstUpTo (IsPairLossAmong state.now.network among.now) rest.old.without (j - 1) limits worst.old.items }
    ensures worst { IfOk result (λ _. AreWorstUpTo (IsPairLossAmong state.now.network among.now) rest.old.without j limits worst.new.items) }
    ensures rest { IsRest state.now.network rest.new }
    ensures same { rest.new.without ≡ rest.old.without }
{
    if !is_among(among, j) {
        return Ok(());
    }
    if !may_enter(worst, limits, largest_with(state, rest, j)) {
        return Ok(());
    }
    let number = rest.without;
    let loss = loss_with(state, rest, j)?;
    let one = NumberedLoss {
        number,
        second: j,
        loss,
    };
    Ok(consider(worst, limits, one)?)
}
