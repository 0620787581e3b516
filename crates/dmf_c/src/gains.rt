//! What new arcs would bring to the present network.
ghost use Rattle.std.specs.Prelude.{◌≡◌, ◌≢◌, true, length, All, IfOk};
ghost use Rattle.dmf_state.specs.Network.{has_arc};
ghost use Rattle.dmf_c.specs.Codes.{OfPresent, OrEnded};
ghost use Rattle.dmf_c.specs.Gains.{AnswersNewArcGains, AnswersSecondGains, AreGains, TellsGains, arcs_of, open_arcs};
ghost use Rattle.dmf_c.specs.Status.{DMF_OK};

use crate::building::fault_code;
use crate::checking::greatest;
use crate::flag::StopWatch;
use crate::handle::Handle;
use crate::losses::{are_arcs, are_nodes};
use crate::stop::Stop;
use crate::stopping::ended_code;
use dmf_solver::Unwatched;
use dmf_state::{Arc, State};
use dmf_vital::{ValuingWatch, arc_gains_watched};
use std::alloc::{AllocError, Global};

/// What is gained by a second arc beside each of these arcs.
#[unsafe(no_mangle)]
pub extern "C" fn dmf_session_second_gains(
    alloc: Global,
    session: &mut Handle,
    arcs: &[u32],
    gains: &mut [u64],
) -> u32
    ensures answer { OfPresent session.old.timeline (λ s. AnswersSecondGains s arcs.now (length gains.old) result) }
    ensures filled { OfPresent session.old.timeline (λ s. result ≡ DMF_OK → AreGains s.network (arcs_of s.network arcs.now) gains.new) }
    ensures refused { result ≢ DMF_OK → gains.new ≡ gains.old }
    ensures unchanged { session.new.timeline ≡ session.old.timeline }
{
    let present = session.plan().present();
    copy_second_gains(alloc, present, arcs, gains, &mut Unwatched)
}

/// Finds the same, unless the flag is raised before that.
#[unsafe(no_mangle)]
pub extern "C" fn dmf_session_second_gains_until(
    alloc: Global,
    session: &mut Handle,
    arcs: &[u32],
    gains: &mut [u64],
    stop: &mut Stop,
) -> u32
    ensures answer { OfPresent session.old.timeline (λ s. OrEnded (AnswersSecondGains s arcs.now (length gains.old)) result) }
    ensures filled { OfPresent session.old.timeline (λ s. result ≡ DMF_OK → AreGains s.network (arcs_of s.network arcs.now) gains.new) }
    ensures refused { result ≢ DMF_OK → gains.new ≡ gains.old }
    ensures unchanged { session.new.timeline ≡ session.old.timeline }
{
    let mut watch = StopWatch::new(stop.flag());
    let present = session.plan().present();
    let code = copy_second_gains(alloc, present, arcs, gains, &mut watch);
    ended_code(code, watch.has_stopped)
}

/// What is gained by each of these new arcs.
#[unsafe(no_mangle)]
pub extern "C" fn dmf_session_new_arc_gains(
    alloc: Global,
    session: &mut Handle,
    tails: &[u32],
    heads: &[u32],
    capacities: &[u64],
    gains: &mut [u64],
) -> u32
    ensures answer { OfPresent session.old.timeline (λ s. AnswersNewArcGains s tails.now heads.now capacities.now (length gains.old) result) }
    ensures filled { OfPresent session.old.timeline (λ s. result ≡ DMF_OK → AreGains s.network (open_arcs tails.now heads.now capacities.now) gains.new) }
    ensures refused { result ≢ DMF_OK → gains.new ≡ gains.old }
    ensures unchanged { session.new.timeline ≡ session.old.timeline }
{
    let present = session.plan().present();
    copy_new_arc_gains(
        alloc,
        present,
        tails,
        heads,
        capacities,
        gains,
        &mut Unwatched,
    )
}

/// Finds the same, unless the flag is raised before that.
#[unsafe(no_mangle)]
pub extern "C" fn dmf_session_new_arc_gains_until(
    alloc: Global,
    session: &mut Handle,
    tails: &[u32],
    heads: &[u32],
    capacities: &[u64],
    gains: &mut [u64],
    stop: &mut Stop,
) -> u32
    ensures answer { OfPresent session.old.timeline (λ s. OrEnded (AnswersNewArcGains s tails.now heads.now capacities.now (length gains.old)) result) }
    ensures filled { OfPresent session.old.timeline (λ s. result ≡ DMF_OK → AreGains s.network (open_arcs tails.now heads.now capacities.now) gains.new) }
    ensures refused { result ≢ DMF_OK → gains.new ≡ gains.old }
    ensures unchanged { session.new.timeline ≡ session.old.timeline }
{
    let mut watch = StopWatch::new(stop.flag());
    let present = session.plan().present();
    let code = copy_new_arc_gains(alloc, present, tails, heads, capacities, gains, &mut watch);
    ended_code(code, watch.has_stopped)
}

fn copy_second_gains<W: ValuingWatch>(
    alloc: Global,
    state: &State,
    numbers: &[u32],
    gains: &mut [u64],
    watch: &mut W,
) -> u32
    ensures answer { AnswersSecondGains state.now numbers.now (length gains.old) result }
    ensures filled { result ≡ DMF_OK → AreGains state.now.network (arcs_of state.now.network numbers.now) gains.new }
    ensures refused { result ≢ DMF_OK → gains.new ≡ gains.old }
{
    if numbers.len() != gains.len() {
        return 10;
    }
    if !are_arcs(state, numbers) {
        return 3;
    }
    let Ok(arcs) = arcs_of(alloc, state, numbers) else {
        return 1;
    };
    put_gains(alloc, state, &arcs, gains, watch)
}

fn copy_new_arc_gains<W: ValuingWatch>(
    alloc: Global,
    state: &State,
    tails: &[u32],
    heads: &[u32],
    capacities: &[u64],
    gains: &mut [u64],
    watch: &mut W,
) -> u32
    ensures answer { AnswersNewArcGains state.now tails.now heads.now capacities.now (length gains.old) result }
    ensures filled { result ≡ DMF_OK → AreGains state.now.network (open_arcs tails.now heads.now capacities.now) gains.new }
    ensures refused { result ≢ DMF_OK → gains.new ≡ gains.old }
{
    if !(tails.len() == gains.len()
        && heads.len() == gains.len()
        && capacities.len() == gains.len())
    {
        return 10;
    }
    if !(are_nodes(state, tails) && are_nodes(state, heads)) {
        return 2;
    }
    let Ok(arcs) = open_arcs(alloc, tails, heads, capacities) else {
        return 1;
    };
    put_gains(alloc, state, &arcs, gains, watch)
}

/// Writes the gain of each of these arcs, if they are known.
fn put_gains<W: ValuingWatch>(
    alloc: Global,
    state: &State,
    arcs: &[Arc],
    gains: &mut [u64],
    watch: &mut W,
) -> u32
    requires { length gains.old ≡ length arcs.now }
    ensures answer { TellsGains state.now arcs.now result }
    ensures filled { result ≡ DMF_OK → AreGains state.now.network arcs.now gains.new }
    ensures refused { result ≢ DMF_OK → gains.new ≡ gains.old }
{
    let code = greatest(alloc, state);
    if code != 0 {
        return code;
    }
    match arc_gains_watched(alloc, state, arcs, watch) {
        Ok(found) => {
            gains.copy_from_slice(&found);
            0
        }
        Err(fault) => fault_code(fault),
    }
}

/// The arcs of these numbers.
fn arcs_of(alloc: Global, state: &State, numbers: &[u32]) -> Result<Vec<Arc>, AllocError>
    requires { All (λ j. has_arc state.now.network j ≡ true) numbers.now }
    ensures { IfOk result (λ arcs. arcs.items ≡ arcs_of state.now.network numbers.now) }
{
    let mut arcs = Vec::with_capacity(alloc, numbers.len())?;
    for i in 0..numbers.len() {
        arcs.push(state.arc(numbers[i]))?;
    }
    Ok(arcs)
}

/// The open arcs of these columns.
fn open_arcs(
    alloc: Global,
    tails: &[u32],
    heads: &[u32],
    capacities: &[u64],
) -> Result<Vec<Arc>, AllocError>
    requires heads { length heads.now ≡ length tails.now }
    requires capacities { length capacities.now ≡ length tails.now }
    ensures arcs { IfOk result (λ arcs. arcs.items ≡ open_arcs tails.now heads.now capacities.now) }
    ensures one_each { IfOk result (λ arcs. length arcs.items ≡ length tails.now) }
{
    let mut arcs = Vec::with_capacity(alloc, tails.len())?;
    for i in 0..tails.len() {
        arcs.push(Arc::open(tails[i], heads[i], capacities[i]))?;
    }
    Ok(arcs)
}
