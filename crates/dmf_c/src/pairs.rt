//! What chosen pairs of arcs of the present network are worth.
ghost use Rattle.std.specs.Prelude.{◌≡◌, ◌≢◌, length};
ghost use Rattle.dmf_c.specs.Codes.{OfPresent, OrEnded};
ghost use Rattle.dmf_c.specs.Pairs.{AnswersPairLosses, ArePairLosses};
ghost use Rattle.dmf_c.specs.Status.{DMF_OK};

use crate::checking::greatest;
use crate::flag::StopWatch;
use crate::handle::Handle;
use crate::losses::are_arcs;
use crate::stop::Stop;
use crate::stopping::ended_code;
use dmf_solver::Unwatched;
use dmf_state::State;
use dmf_vital::{ValuingWatch, pair_losses_watched};
use std::alloc::Global;

/// What is lost without both arcs of each pair.
#[unsafe(no_mangle)]
pub extern "C" fn dmf_session_pair_losses(
    alloc: Global,
    session: &mut Handle,
    firsts: &[u32],
    seconds: &[u32],
    losses: &mut [u64],
) -> u32
    ensures answer { OfPresent session.old.timeline (λ s. AnswersPairLosses s firsts.now seconds.now (length losses.old) result) }
    ensures filled { OfPresent session.old.timeline (λ s. result ≡ DMF_OK → ArePairLosses s.network firsts.now seconds.now losses.new) }
    ensures refused { result ≢ DMF_OK → losses.new ≡ losses.old }
    ensures unchanged { session.new.timeline ≡ session.old.timeline }
{
    let present = session.plan().present();
    copy_pair_losses(alloc, present, firsts, seconds, losses, &mut Unwatched)
}

/// Finds the same, unless the flag is raised before that.
#[unsafe(no_mangle)]
pub extern "C" fn dmf_session_pair_losses_until(
    alloc: Global,
    session: &mut Handle,
    firsts: &[u32],
    seconds: &[u32],
    losses: &mut [u64],
    stop: &mut Stop,
) -> u32
    ensures answer { OfPresent session.old.timeline (λ s. OrEnded (AnswersPairLosses s firsts.now seconds.now (length losses.old)) result) }
    ensures filled { OfPresent session.old.timeline (λ s. result ≡ DMF_OK → ArePairLosses s.network firsts.now seconds.now losses.new) }
    ensures refused { result ≢ DMF_OK → losses.new ≡ losses.old }
    ensures unchanged { session.new.timeline ≡ session.old.timeline }
{
    let mut watch = StopWatch::new(stop.flag());
    let present = session.plan().present();
    let code = copy_pair_losses(alloc, present, firsts, seconds, losses, &mut watch);
    ended_code(code, watch.has_stopped)
}

fn copy_pair_losses<W: ValuingWatch>(
    alloc: Global,
    state: &State,
    firsts: &[u32],
    seconds: &[u32],
    losses: &mut [u64],
    watch: &mut W,
) -> u32
    ensures answer { AnswersPairLosses state.now firsts.now seconds.now (length losses.old) result }
    ensures filled { result ≡ DMF_OK → ArePairLosses state.now.network firsts.now seconds.now losses.new }
    ensures refused { result ≢ DMF_OK → losses.new ≡ losses.old }
{
    if !(firsts.len() == losses.len() && seconds.len() == losses.len()) {
        return 10;
    }
    if !(are_arcs(state, firsts) && are_arcs(state, seconds)) {
        return 3;
    }
    let code = greatest(alloc, state);
    if code != 0 {
        return code;
    }
    match pair_losses_watched(alloc, state, firsts, seconds, watch) {
        Ok(of_pairs) => {
            losses.copy_from_slice(&of_pairs);
            0
        }
        Err(_) => 1,
    }
}
