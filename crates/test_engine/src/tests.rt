ghost use Rattle.std.specs.Prelude.{◌<◌, ◌≡◌, length, IfOk, IfSome};

use dmf_engine::{Likely, likely_greatest};
use dmf_solver::{Turn, Unwatched, Watch, is_saturated_cut, plan_solve_watched};
use dmf_solving::{Solved, solve_from};
use dmf_state::{Arc, Side, State};
use std::alloc::Global;
use std::test::Fail;

/// The next number below a bound, by a linear congruential generator.
fn draw(chance: &mut u64, bound: u64) -> u64
    requires { 0 < bound }
    ensures { result < bound }
{
    *chance = chance
        .wrapping_mul(6_364_136_223_846_793_005)
        .wrapping_add(1_442_695_040_888_963_407);
    (*chance >> 33) % bound
}

/// A network of 2 to 10 nodes and up to 39 arcs, some of them parallel, self loops or without capacity.
fn network(alloc: Global, seed: u64) -> Result<State, Fail> {
    let mut chance = seed;
    let nodes = 2 + (seed % 9) as u32;
    let mut state = State::new(alloc, nodes, 1, nodes);
    for _ in 0..seed % 40 {
        let tail = draw(&mut chance, u64::from(nodes)) + 1;
        let head = draw(&mut chance, u64::from(nodes)) + 1;
        state.push_arc(tail, head, draw(&mut chance, 8))?;
    }
    Ok(state)
}

/// A watch that counts augmenting paths.
#[derive(Drop)]
struct Paths(u64);

impl Watch for Paths {
    fn augmented(&mut self, _value: u64, _links: u32) {
        self.0 = self.0.saturating_add(1);
    }

    fn lowered(&mut self, _turn: Turn, _amount: u64) {}
}

/// What a solve finds: the value, the smallest side if it is wanted, and how many augmenting paths it takes.
#[derive(Drop)]
struct Found {
    value: u64,
    side: Option<Side>,
    paths: u64,
}

/// What a solve finds that may begin at a flow.
fn found_from(
    alloc: Global,
    state: &State,
    likely: Option<Likely>,
    want_cut: bool,
) -> Result<Found, Fail>
    requires { IfSome likely (λ likely. length likely.flows.items ≡ length state.now.network.arcs) }
{
    let mut watch = Paths(0);
    let Solved { state, side } = solve_from(
        alloc,
        state.copy(alloc)?,
        likely,
        want_cut,
        &mut watch,
    )?;
    Ok(Found {
        value: state.value(),
        side,
        paths: watch.0,
    })
}

/// Whether the value and the side are those of an ordinary solve.
fn is_right(alloc: Global, state: &State, found: &Found) -> Result<bool, Fail> {
    let want_cut = found.side.is_some();
    let (edit, side) = plan_solve_watched(alloc, state, want_cut, &mut Unwatched)?;
    let mut solved = state.copy(alloc)?;
    solved.apply(&edit)?;
    let is_same_side = match (&found.side, &side) {
        (Some(side), Some(other)) => *side == *other,
        (None, None) => true,
        _ => false,
    };
    Ok(found.value == solved.value() && is_same_side)
}

/// What the engine finds.
fn likely_of(alloc: Global, state: &State) -> Result<Likely, Fail>
    ensures { IfOk result (λ likely. length likely.flows.items ≡ length state.now.network.arcs) }
{
    let (source, sink) = (state.source(), state.sink());
    match likely_greatest(alloc, state.nodes(), source, sink, state.arcs())? {
        Some(likely) => Ok(likely),
        None => Err(Fail::from("the engine gave up")),
    }
}

/// The engine's flow saturates its cut, so a solve without a side makes no search. With one it is right, and the search finds no path.
#[test]
fn engine_finds_greatest_flows(rt: HostRuntime) -> Result<(), Fail> {
    for seed in 0..100_000 {
        let state = network(rt.alloc(), seed)?;
        let Likely { flows, marks } = likely_of(rt.alloc(), &state)?;
        let begun = state.with_flows(rt.alloc(), flows)?;
        assert!(rt; is_saturated_cut(&begun, &marks));
        for want_cut in [false, true] {
            let likely = likely_of(rt.alloc(), &state)?;
            let found = found_from(rt.alloc(), &state, Some(likely), want_cut)?;
            assert!(rt; found.side.is_some() == want_cut);
            assert!(rt; found.paths == 0);
            assert!(rt; is_right(rt.alloc(), &state, &found)?);
        }
    }
    Ok(())
}

/// How an engine may be wrong. That it gives another number of flows than there are arcs its contract forbids.
#[derive(Clone, Copy)]
enum Wrong {
    TooLarge,
    NotConserved,
    NotGreatest,
    GaveUp,
}

/// Which nodes a cut that may be wrong marks.
#[derive(Clone, Copy)]
enum Marked {
    Nobody,
    Source,
    Everybody,
    TooFew,
}

/// Marks of the nodes that are wrong, or may be.
fn wrong_marks(alloc: Global, state: &State, marked: Marked) -> Result<Vec<bool>, Fail> {
    let nodes = state.nodes() as usize;
    let marks = match marked {
        Marked::Nobody => vec![in alloc; false; nodes + 1]?,
        Marked::Everybody => vec![in alloc; true; nodes + 1]?,
        Marked::TooFew => vec![in alloc; true; 1]?,
        Marked::Source => {
            let mut marks = vec![in alloc; false; nodes + 1]?;
            let source = state.source() as usize;
            if source < marks.len() {
                marks[source] = true;
            }
            marks
        }
    };
    Ok(marks)
}

/// What an engine may give that is wrong so.
fn wrong_likely(
    alloc: Global,
    state: &State,
    wrong: Wrong,
    marked: Marked,
) -> Result<Option<Likely>, Fail>
    ensures { IfOk result (λ answer. IfSome answer (λ likely. length likely.flows.items ≡ length state.now.network.arcs)) }
{
    let arcs = state.arcs();
    let mut flows = vec![in alloc; 0u64; arcs.len()]?;
    match wrong {
        Wrong::TooLarge => fill(arcs, 1, &mut flows),
        Wrong::NotConserved => fill(arcs, 0, &mut flows),
        Wrong::NotGreatest => {}
        Wrong::GaveUp => return Ok(None),
    }
    let marks = wrong_marks(alloc, state, marked)?;
    Ok(Some(Likely { flows, marks }))
}

/// Makes each flow so much more than the capacity.
fn fill(arcs: &[Arc], more: u64, flows: &mut [u64]) {
    for (k, flow) in flows.iter_mut().enumerate() {
        if k < arcs.len() {
            *flow = arcs[k].cap.saturating_add(more);
        }
    }
}

/// Value and side are right, and the ordinary search has found paths to them.
#[test]
fn wrong_engines_do_no_harm(rt: HostRuntime) -> Result<(), Fail> {
    for wrong in [
        Wrong::TooLarge,
        Wrong::NotConserved,
        Wrong::NotGreatest,
        Wrong::GaveUp,
    ] {
        for marked in [
            Marked::Nobody,
            Marked::Source,
            Marked::Everybody,
            Marked::TooFew,
        ] {
            let mut paths = 0u64;
            for seed in 0..80 {
                let state = network(rt.alloc(), seed)?;
                let likely = wrong_likely(rt.alloc(), &state, wrong, marked)?;
                let found = found_from(rt.alloc(), &state, likely, seed % 2 == 0)?;
                paths = paths.saturating_add(found.paths);
                assert!(rt; is_right(rt.alloc(), &state, &found)?);
            }
            assert!(rt; paths > 80);
        }
    }
    Ok(())
}

/// A greatest flow beside a cut that is none is found to be greatest by the search.
#[test]
fn wrong_cuts_do_no_harm(rt: HostRuntime) -> Result<(), Fail> {
    for marked in [Marked::Nobody, Marked::Everybody, Marked::TooFew] {
        for seed in 0..80 {
            let state = network(rt.alloc(), seed)?;
            let Likely { flows, marks: _ } = likely_of(rt.alloc(), &state)?;
            let marks = wrong_marks(rt.alloc(), &state, marked)?;
            let likely = Some(Likely { flows, marks });
            let found = found_from(rt.alloc(), &state, likely, false)?;
            assert!(rt; found.paths == 0);
            assert!(rt; is_right(rt.alloc(), &state, &found)?);
        }
    }
    Ok(())
}
