//! What chosen arcs and nodes of the present network are worth.
ghost use Rattle.std.specs.Prelude.{◌≡◌, ◌≢◌, length};
ghost use Rattle.dmf_node.specs.Node.{is_node};
ghost use Rattle.dmf_state.specs.Network.{has_arc};
ghost use Rattle.dmf_c.specs.Codes.{OfPresent, OrEnded};
ghost use Rattle.dmf_c.specs.Losses.{AnswersArcLosses, AnswersNodeLosses, AreArcLosses, AreNodeLosses, are_arcs, are_nodes};
ghost use Rattle.dmf_c.specs.Status.{DMF_OK};

use crate::checking::greatest;
use crate::flag::StopWatch;
use crate::handle::Handle;
use crate::stop::Stop;
use crate::stopping::ended_code;
use dmf_solver::Unwatched;
use dmf_state::State;
use dmf_vital::{ValuingWatch, arc_losses_of_watched, node_losses_of_watched};
use std::alloc::Global;

/// What is lost without each of these arcs.
#[unsafe(no_mangle)]
pub extern "C" fn dmf_session_arc_losses(
    alloc: Global,
    session: &mut Handle,
    arcs: &[u32],
    losses: &mut [u64],
) -> u32
    ensures answer { OfPresent session.old.timeline (λ s. AnswersArcLosses s arcs.now (length losses.old) result) }
    ensures filled { OfPresent session.old.timeline (λ s. result ≡ DMF_OK → AreArcLosses s.network arcs.now losses.new) }
    ensures refused { result ≢ DMF_OK → losses.new ≡ losses.old }
    ensures unchanged { session.new.timeline ≡ session.old.timeline }
{
    let present = session.plan().present();
    copy_arc_losses(alloc, present, arcs, losses, &mut Unwatched)
}

/// Finds the same, unless the flag is raised before that.
#[unsafe(no_mangle)]
pub extern "C" fn dmf_session_arc_losses_until(
    alloc: Global,
    session: &mut Handle,
    arcs: &[u32],
    losses: &mut [u64],
    stop: &mut Stop,
) -> u32
    ensures answer { OfPresent session.old.timeline (λ s. OrEnded (AnswersArcLosses s arcs.now (length losses.old)) result) }
    ensures filled { OfPresent session.old.timeline (λ s. result ≡ DMF_OK → AreArcLosses s.network arcs.now losses.new) }
    ensures refused { result ≢ DMF_OK → losses.new ≡ losses.old }
    ensures unchanged { session.new.timeline ≡ session.old.timeline }
{
    let mut watch = StopWatch::new(stop.flag());
    let present = session.plan().present();
    let code = copy_arc_losses(alloc, present, arcs, losses, &mut watch);
    ended_code(code, watch.has_stopped)
}

/// What is lost without each of these nodes.
#[unsafe(no_mangle)]
pub extern "C" fn dmf_session_node_losses(
    alloc: Global,
    session: &mut Handle,
    nodes: &[u32],
    losses: &mut [u64],
) -> u32
    ensures answer { OfPresent session.old.timeline (λ s. AnswersNodeLosses s nodes.now (length losses.old) result) }
    ensures filled { OfPresent session.old.timeline (λ s. result ≡ DMF_OK → AreNodeLosses s.network nodes.now losses.new) }
    ensures refused { result ≢ DMF_OK → losses.new ≡ losses.old }
    ensures unchanged { session.new.timeline ≡ session.old.timeline }
{
    let present = session.plan().present();
    copy_node_losses(alloc, present, nodes, losses, &mut Unwatched)
}

/// Finds the same, unless the flag is raised before that.
#[unsafe(no_mangle)]
pub extern "C" fn dmf_session_node_losses_until(
    alloc: Global,
    session: &mut Handle,
    nodes: &[u32],
    losses: &mut [u64],
    stop: &mut Stop,
) -> u32
    ensures answer { OfPresent session.old.timeline (λ s. OrEnded (AnswersNodeLosses s nodes.now (length losses.old)) result) }
    ensures filled { OfPresent session.old.timeline (λ s. result ≡ DMF_OK → AreNodeLosses s.network nodes.now losses.new) }
    ensures refused { result ≢ DMF_OK → losses.new ≡ losses.old }
    ensures unchanged { session.new.timeline ≡ session.old.timeline }
{
    let mut watch = StopWatch::new(stop.flag());
    let present = session.plan().present();
    let code = copy_node_losses(alloc, present, nodes, losses, &mut watch);
    ended_code(code, watch.has_stopped)
}

fn copy_arc_losses<W: ValuingWatch>(
    alloc: Global,
    state: &State,
    arcs: &[u32],
    losses: &mut [u64],
    watch: &mut W,
) -> u32
    ensures answer { AnswersArcLosses state.now arcs.now (length losses.old) result }
    ensures filled { result ≡ DMF_OK → AreArcLosses state.now.network arcs.now losses.new }
    ensures refused { result ≢ DMF_OK → losses.new ≡ losses.old }
{
    if arcs.len() != losses.len() {
        return 10;
    }
    if !are_arcs(state, arcs) {
        return 3;
    }
    let code = greatest(alloc, state);
    if code != 0 {
        return code;
    }
    match arc_losses_of_watched(alloc, state, arcs, watch) {
        Ok(of_arcs) => {
            losses.copy_from_slice(&of_arcs);
            0
        }
        Err(_) => 1,
    }
}

fn copy_node_losses<W: ValuingWatch>(
    alloc: Global,
    state: &State,
    nodes: &[u32],
    losses: &mut [u64],
    watch: &mut W,
) -> u32
    ensures answer { AnswersNodeLosses state.now nodes.now (length losses.old) result }
    ensures filled { result ≡ DMF_OK → AreNodeLosses state.now.network nodes.now losses.new }
    ensures refused { result ≢ DMF_OK → losses.new ≡ losses.old }
{
    if nodes.len() != losses.len() {
        return 10;
    }
    if !are_nodes(state, nodes) {
        return 2;
    }
    let code = greatest(alloc, state);
    if code != 0 {
        return code;
    }
    match node_losses_of_watched(alloc, state, nodes, watch) {
        Ok(of_nodes) => {
            losses.copy_from_slice(&of_nodes);
            0
        }
        Err(_) => 1,
    }
}

/// Whether each of these is the number of an arc.
pub fn are_arcs(state: &State, numbers: &[u32]) -> bool
    ensures { result ≡ are_arcs state.now.network numbers.now }
{
    for i in 0..numbers.len() {
        if !has_arc(state, numbers[i]) {
            return false;
        }
    }
    true
}

/// Whether there is an arc of this number.
fn has_arc(state: &State, number: u32) -> bool
    ensures { result ≡ has_arc state.now.network number }
{
    1 <= number && number as usize <= state.arcs().len()
}

/// Whether each of these is the number of a node.
pub fn are_nodes(state: &State, numbers: &[u32]) -> bool
    ensures { result ≡ are_nodes state.now.network numbers.now }
{
    for i in 0..numbers.len() {
        if !(1 <= numbers[i] && numbers[i] <= state.nodes()) {
            return false;
        }
    }
    true
}
