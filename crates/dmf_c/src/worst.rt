//! The arcs, nodes and pairs of arcs of the present network that cost most to lose.
ghost use Rattle.std.specs.Prelude.{◌≡◌, ◌≢◌, ◌≤◌, ◌==◌, not, length, map, IfOk};
ghost use Rattle.dmf_solver.specs.Greatest.{IsGreatest};
ghost use Rattle.dmf_vital.specs.Worst.{AreWorst, IsArcLossAmong, IsNodeLoss, IsPairLossAmong};
ghost use Rattle.dmf_c.specs.Codes.{OfPresent, OrEnded};
ghost use Rattle.dmf_c.specs.Status.{DMF_OK};
ghost use Rattle.dmf_c.specs.Losses.{AnswersLosses};
ghost use Rattle.dmf_c.specs.Arrays.{BeginsWith};
ghost use Rattle.dmf_c.specs.Worst.{AnswersWorstArcs, AnswersWorstPairs, HasWorst, HasWorstPairs, chosen, no_loss};

use crate::checking::greatest;
use crate::flag::StopWatch;
use crate::handle::Handle;
use crate::ranges::is_column;
use crate::stop::Stop;
use crate::stopping::ended_code;
use dmf_solver::Unwatched;
use dmf_state::{NoMemory, State};
use dmf_vital::{
    NumberedLoss, ValuingWatch, worst_arcs_among_watched, worst_nodes_watched,
    worst_pairs_among_watched,
};
use std::alloc::{AllocError, Global};

/// The arcs that cost most to lose, of those that are marked.
#[unsafe(no_mangle)]
pub extern "C" fn dmf_session_worst_arcs(
    alloc: Global,
    session: &mut Handle,
    among: &[u8],
    arcs: &mut [u32],
    losses: &mut [u64],
    found: &mut usize,
) -> u32
    ensures answer { OfPresent session.old.timeline (λ s. AnswersWorstArcs s (length among.now) (length arcs.old) (length losses.old) result) }
    ensures filled { OfPresent session.old.timeline (λ s. result ≡ DMF_OK → HasWorst (IsArcLossAmong s.network (chosen s.network among.now)) arcs.old arcs.new losses.old losses.new found.new) }
    ensures refused { result ≢ DMF_OK → (arcs.new ≡ arcs.old) × (losses.new ≡ losses.old) × (found.new ≡ found.old) }
    ensures unchanged { session.new.timeline ≡ session.old.timeline }
{
    let present = session.plan().present();
    put_worst_arcs(alloc, present, among, arcs, losses, found, &mut Unwatched)
}

/// Finds the same, unless the flag is raised before that.
#[unsafe(no_mangle)]
pub extern "C" fn dmf_session_worst_arcs_until(
    alloc: Global,
    session: &mut Handle,
    among: &[u8],
    arcs: &mut [u32],
    losses: &mut [u64],
    found: &mut usize,
    stop: &mut Stop,
) -> u32
    ensures answer { OfPresent session.old.timeline (λ s. OrEnded (AnswersWorstArcs s (length among.now) (length arcs.old) (length losses.old)) result) }
    ensures filled { OfPresent session.old.timeline (λ s. result ≡ DMF_OK → HasWorst (IsArcLossAmong s.network (chosen s.network among.now)) arcs.old arcs.new losses.old losses.new found.new) }
    ensures refused { result ≢ DMF_OK → (arcs.new ≡ arcs.old) × (losses.new ≡ losses.old) × (found.new ≡ found.old) }
    ensures unchanged { session.new.timeline ≡ session.old.timeline }
{
    let mut watch = StopWatch::new(stop.flag());
    let present = session.plan().present();
    let code = put_worst_arcs(alloc, present, among, arcs, losses, found, &mut watch);
    ended_code(code, watch.has_stopped)
}

/// The nodes that cost most to lose.
#[unsafe(no_mangle)]
pub extern "C" fn dmf_session_worst_nodes(
    alloc: Global,
    session: &mut Handle,
    nodes: &mut [u32],
    losses: &mut [u64],
    found: &mut usize,
) -> u32
    ensures answer { OfPresent session.old.timeline (λ s. AnswersLosses s (length nodes.old) (length losses.old) result) }
    ensures filled { OfPresent session.old.timeline (λ s. result ≡ DMF_OK → HasWorst (IsNodeLoss s.network) nodes.old nodes.new losses.old losses.new found.new) }
    ensures refused { result ≢ DMF_OK → (nodes.new ≡ nodes.old) × (losses.new ≡ losses.old) × (found.new ≡ found.old) }
    ensures unchanged { session.new.timeline ≡ session.old.timeline }
{
    let present = session.plan().present();
    put_worst_nodes(alloc, present, nodes, losses, found, &mut Unwatched)
}

/// Finds the same, unless the flag is raised before that.
#[unsafe(no_mangle)]
pub extern "C" fn dmf_session_worst_nodes_until(
    alloc: Global,
    session: &mut Handle,
    nodes: &mut [u32],
    losses: &mut [u64],
    found: &mut usize,
    stop: &mut Stop,
) -> u32
    ensures answer { OfPresent session.old.timeline (λ s. OrEnded (AnswersLosses s (length nodes.old) (length losses.old)) result) }
    ensures filled { OfPresent session.old.timeline (λ s. result ≡ DMF_OK → HasWorst (IsNodeLoss s.network) nodes.old nodes.new losses.old losses.new found.new) }
    ensures refused { result ≢ DMF_OK → (nodes.new ≡ nodes.old) × (losses.new ≡ losses.old) × (found.new ≡ found.old) }
    ensures unchanged { session.new.timeline ≡ session.old.timeline }
{
    let mut watch = StopWatch::new(stop.flag());
    let present = session.plan().present();
    let code = put_worst_nodes(alloc, present, nodes, losses, found, &mut watch);
    ended_code(code, watch.has_stopped)
}

/// The pairs of arcs that cost most to lose together, of those that are marked.
#[unsafe(no_mangle)]
pub extern "C" fn dmf_session_worst_pairs(
    alloc: Global,
    session: &mut Handle,
    among: &[u8],
    firsts: &mut [u32],
    seconds: &mut [u32],
    losses: &mut [u64],
    found: &mut usize,
) -> u32
    ensures answer { OfPresent session.old.timeline (λ s. AnswersWorstPairs s (length among.now) (length firsts.old) (length seconds.old) (length losses.old) result) }
    ensures filled { OfPresent session.old.timeline (λ s. result ≡ DMF_OK → HasWorstPairs (IsPairLossAmong s.network (chosen s.network among.now)) firsts.old firsts.new seconds.old seconds.new losses.old losses.new found.new) }
    ensures refused { result ≢ DMF_OK → (firsts.new ≡ firsts.old) × (seconds.new ≡ seconds.old) × (losses.new ≡ losses.old) × (found.new ≡ found.old) }
    ensures unchanged { session.new.timeline ≡ session.old.timeline }
{
    let present = session.plan().present();
    put_worst_pairs(
        alloc,
        present,
        among,
        firsts,
        seconds,
        losses,
        found,
        &mut Unwatched,
    )
}

/// Finds the same, unless the flag is raised before that.
#[unsafe(no_mangle)]
pub extern "C" fn dmf_session_worst_pairs_until(
    alloc: Global,
    session: &mut Handle,
    among: &[u8],
    firsts: &mut [u32],
    seconds: &mut [u32],
    losses: &mut [u64],
    found: &mut usize,
    stop: &mut Stop,
) -> u32
    ensures answer { OfPresent session.old.timeline (λ s. OrEnded (AnswersWorstPairs s (length among.now) (length firsts.old) (length seconds.old) (length losses.old)) result) }
    ensures filled { OfPresent session.old.timeline (λ s. result ≡ DMF_OK → HasWorstPairs (IsPairLossAmong s.network (chosen s.network among.now)) firsts.old firsts.new seconds.old seconds.new losses.old losses.new found.new) }
    ensures refused { result ≢ DMF_OK → (firsts.new ≡ firsts.old) × (seconds.new ≡ seconds.old) × (losses.new ≡ losses.old) × (found.new ≡ found.old) }
    ensures unchanged { session.new.timeline ≡ session.old.timeline }
{
    let mut watch = StopWatch::new(stop.flag());
    let present = session.plan().present();
    let code = put_worst_pairs(
        alloc, present, among, firsts, seconds, losses, found, &mut watch,
    );
    ended_code(code, watch.has_stopped)
}

fn put_worst_arcs<W: ValuingWatch>(
    alloc: Global,
    state: &State,
    among: &[u8],
    arcs: &mut [u32],
    losses: &mut [u64],
    found: &mut usize,
    watch: &mut W,
) -> u32
    ensures answer { AnswersWorstArcs state.now (length among.now) (length arcs.old) (length losses.old) result }
    ensures filled { result ≡ DMF_OK → HasWorst (IsArcLossAmong state.now.network (chosen state.now.network among.now)) arcs.old arcs.new losses.old losses.new found.new }
    ensures refused { result ≢ DMF_OK → (arcs.new ≡ arcs.old) × (losses.new ≡ losses.old) × (found.new ≡ found.old) }
{
    if !(arcs.len() == losses.len() && is_column(state.arcs().len(), among.len())) {
        return 10;
    }
    let code = greatest(alloc, state);
    if code != 0 {
        return code;
    }
    match find_worst_arcs(alloc, state, among, losses.len(), watch) {
        Ok(worst) => {
            put_numbers(&worst, arcs);
            put_losses(&worst, losses);
            *found = worst.len();
            0
        }
        Err(_) => 1,
    }
}

fn put_worst_nodes<W: ValuingWatch>(
    alloc: Global,
    state: &State,
    nodes: &mut [u32],
    losses: &mut [u64],
    found: &mut usize,
    watch: &mut W,
) -> u32
    ensures answer { AnswersLosses state.now (length nodes.old) (length losses.old) result }
    ensures filled { result ≡ DMF_OK → HasWorst (IsNodeLoss state.now.network) nodes.old nodes.new losses.old losses.new found.new }
    ensures refused { result ≢ DMF_OK → (nodes.new ≡ nodes.old) × (losses.new ≡ losses.old) × (found.new ≡ found.old) }
{
    if nodes.len() != losses.len() {
        return 10;
    }
    let code = greatest(alloc, state);
    if code != 0 {
        return code;
    }
    match worst_nodes_watched(alloc, state, losses.len(), watch) {
        Ok(worst) => {
            put_numbers(&worst, nodes);
            put_losses(&worst, losses);
            *found = worst.len();
            0
        }
        Err(_) => 1,
    }
}

fn put_worst_pairs<W: ValuingWatch>(
    alloc: Global,
    state: &State,
    among: &[u8],
    firsts: &mut [u32],
    seconds: &mut [u32],
    losses: &mut [u64],
    found: &mut usize,
    watch: &mut W,
) -> u32
    ensures answer { AnswersWorstPairs state.now (length among.now) (length firsts.old) (length seconds.old) (length losses.old) result }
    ensures filled { result ≡ DMF_OK → HasWorstPairs (IsPairLossAmong state.now.network (chosen state.now.network among.now)) firsts.old firsts.new seconds.old seconds.new losses.old losses.new found.new }
    ensures refused { result ≢ DMF_OK → (firsts.new ≡ firsts.old) × (seconds.new ≡ seconds.old) × (losses.new ≡ losses.old) × (found.new ≡ found.old) }
{
    if !(firsts.len() == losses.len()
        && seconds.len() == losses.len()
        && is_column(state.arcs().len(), among.len()))
    {
        return 10;
    }
    let code = greatest(alloc, state);
    if code != 0 {
        return code;
    }
    match find_worst_pairs(alloc, state, among, losses.len(), watch) {
        Ok(worst) => {
            put_numbers(&worst, firsts);
            put_seconds(&worst, seconds);
            put_losses(&worst, losses);
            *found = worst.len();
            0
        }
        Err(_) => 1,
    }
}

/// The worst of the chosen arcs.
fn find_worst_arcs<W: ValuingWatch>(
    alloc: Global,
    state: &State,
    marks: &[u8],
    most: usize,
    watch: &mut W,
) -> Result<Vec<NumberedLoss>, NoMemory>
    requires { IsGreatest state.now.network state.now.flows }
    ensures { IfOk result (λ worst. AreWorst (IsArcLossAmong state.now.network (chosen state.now.network marks.now)) most worst.items) }
{
    let among = chosen(alloc, state, marks)?;
    worst_arcs_among_watched(alloc, state, &among, most, watch)
}

/// The worst pairs of the chosen arcs.
fn find_worst_pairs<W: ValuingWatch>(
    alloc: Global,
    state: &State,
    marks: &[u8],
    most: usize,
    watch: &mut W,
) -> Result<Vec<NumberedLoss>, NoMemory>
    requires { IsGreatest state.now.network state.now.flows }
    ensures { IfOk result (λ worst. AreWorst (IsPairLossAmong state.now.network (chosen state.now.network marks.now)) most worst.items) }
{
    let among = chosen(alloc, state, marks)?;
    worst_pairs_among_watched(alloc, state, &among, most, watch)
}

/// For each arc, in order, whether it is chosen: by a mark other than 0, or since there are no marks.
fn chosen(alloc: Global, state: &State, marks: &[u8]) -> Result<Vec<bool>, AllocError>
    ensures { IfOk result (λ among. among.items ≡ chosen state.now.network marks.now) }
{
    if marks.is_empty() {
        return vec![in alloc; true; state.arcs().len()];
    }
    marked(alloc, marks)
}

/// Which marks are not 0.
fn marked(alloc: Global, marks: &[u8]) -> Result<Vec<bool>, AllocError>
    ensures { IfOk result (λ among. among.items ≡ map (λ mark. not (mark == 0)) marks.now) }
{
    marks.iter().map(|mark| *mark != 0).collect(alloc)
}

fn put_numbers(worst: &[NumberedLoss], numbers: &mut [u32])
    requires { length worst.now ≤ length numbers.old }
    ensures { BeginsWith (λ w. w.number) no_loss worst.now numbers.old numbers.new }
{
    for i in 0..worst.len() {
        numbers[i] = worst[i].number;
    }
}

fn put_seconds(worst: &[NumberedLoss], seconds: &mut [u32])
    requires { length worst.now ≤ length seconds.old }
    ensures { BeginsWith (λ w. w.second) no_loss worst.now seconds.old seconds.new }
{
    for i in 0..worst.len() {
        seconds[i] = worst[i].second;
    }
}

fn put_losses(worst: &[NumberedLoss], losses: &mut [u64])
    requires { length worst.now ≤ length losses.old }
    ensures { BeginsWith (λ w. w.loss) no_loss worst.now losses.old losses.new }
{
    for i in 0..worst.len() {
        losses[i] = worst[i].loss;
    }
}
