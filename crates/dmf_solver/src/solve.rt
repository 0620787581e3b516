ghost use Rattle.std.specs.Prelude.{◌≡◌, ◌≢◌, ◌+◌, ◌-◌, ◌^◌, ◌↔◌, false, [], length, None, IfOk, IfSome, IsTrue, MatchOption};
ghost use Rattle.dmf_path.specs.ClosedSide.{IsClosedSide, IsPassage};
ghost use Rattle.dmf_path.specs.Pair.{steps_of};
ghost use Rattle.dmf_path.specs.Path.{HasNoPath};
ghost use Rattle.dmf_path.specs.Search.{Augments};
ghost use Rattle.dmf_path.specs.Touched.{AreBelow, Touches};
ghost use Rattle.dmf_state.specs.NetworkState.{IsState};
ghost use Rattle.dmf_solver.specs.Greatest.{IsGreatest, IsSurpassed};
ghost use Rattle.dmf_solver.specs.Pairs.{reached_flows, HasSolved};
ghost use Rattle.dmf_solver.specs.ResidualNetwork.{IsResidualOf};
ghost use Rattle.dmf_solver.specs.WaysOut.{AreKnown};

use crate::closed_side::ways_out::KnownWays;
use crate::enclosed::is_enclosed;
use crate::residual::residual_search;
use crate::watch::{Stopped, Watch};
use dmf_path::{AugmentingPath, Passage, Search, Touched};
use dmf_state::{NoMemory, State};
use std::alloc::Global;

/// A search for augmenting paths that finds no more, the value of the flow that it has reached, and the pairs that its paths used.
#[derive(Drop)]
pub struct SolvedSearch {
    pub search: Search,
    pub value: u64,
    pub touched: Touched,
}

/// Augments the flow of the state along least paths until none is left, and reports each to the watch, which may end the solve.
/// Afterwards the pairs of these paths count as touched. If there is a mark for each node, they are those of a closed side then.
///
/// If the ways out of the marked nodes are known, the first paths are looked for from there.
pub fn solve<W: Watch>(
    alloc: Global,
    mut search: Search,
    state: &State,
    mut touched: Touched,
    marks: &mut [bool],
    mut known: Option<KnownWays>,
    watch: &mut W,
) -> Result<SolvedSearch, Stopped>
    requires residual { IsResidualOf state.now search }
    requires ways { IfSome known (AreKnown search marks.old) }
    requires below { AreBelow (length state.now.network.arcs + 1) touched }
    ensures solved { IfOk result (HasSolved state.now) }
    ensures side { IfOk result (λ solved. length marks.old ≡ solved.search.nodes
        → IsClosedSide (steps_of solved.search.pairs) solved.search.start solved.search.goal marks.new) }
    ensures state { IsState state.now }
{
    let mut value = state.value();
    while let Some(found) = next_path(alloc, &mut search, &mut known, &mut touched, marks) {
        value += found.amount;
        watch.augmented(value, found.links);
        if !watch.goes_on() {
            return Err(Stopped);
        }
    }
    touched.sort();
    Ok(SolvedSearch {
        search,
        value,
        touched,
    })
}

/// Labels the nodes for the next path from the ways out that lead over known gates now.
fn look_through(
    alloc: Global,
    search: &mut Search,
    known: &KnownWays,
    marks: &mut [bool],
) -> Passage
    requires { AreKnown search.old marks.old known.now }
    ensures same { search.new ≡ search.old }
    ensures passage { IsPassage (steps_of search.old.pairs) search.old.start search.old.goal marks.old marks.new result }
{
    let Some(ways) = known.ways_out(alloc, search, marks) else {
        return Passage::Unknown;
    };
    search.label_through(&ways, marks)
}

/// Augments along the next least path, which is looked for from the ways out while they are known. If no path is left, marks a closed side.
fn next_path(
    alloc: Global,
    search: &mut Search,
    known: &mut Option<KnownWays>,
    touched: &mut Touched,
    marks: &mut [bool],
) -> Option<AugmentingPath>
    requires ways { IfSome known.old (AreKnown search.old marks.old) }
    ensures found { MatchOption result
        (HasNoPath (steps_of search.old.pairs) search.old.start search.old.goal × (search.new ≡ search.old))
        (λ found. Augments (2 ^ 64 - 1) found search.old search.new) }
    ensures touched { Touches touched.old touched.new search.old.pairs search.new.pairs }
    ensures side { length marks.old ≡ search.old.nodes → result ≡ None
        → IsClosedSide (steps_of search.old.pairs) search.old.start search.old.goal marks.new }
    ensures ways { result ≢ None → IfSome known.new (AreKnown search.new marks.new) }
{
    if let Some(before) = known.take() {
        match look_through(alloc, search, &before, marks) {
            Passage::Closed => return None,
            Passage::Once(long) => {
                let found = search.augment_or_mark(u64::MAX, touched, marks)?;
                if found.links == long {
                    *known = before.next();
                }
                return Some(found);
            }
            Passage::Unknown => {}
        }
    }
    search.augment_or_mark(u64::MAX, touched, marks)
}

/// Whether no flow of the state's network has a larger value than the state's flow. Takes memory for a mark a node and, if a few passes
/// over all arcs do not decide it, for two links an arc and some numbers a node.
pub fn is_greatest(alloc: Global, state: &State) -> Result<bool, NoMemory>
    ensures greatest { IfOk result (λ answer. IsTrue answer ↔ IsGreatest state.now.network state.now.flows) }
    ensures surpassed { IfOk result (λ answer. (answer ≡ false) ↔ IsSurpassed state.now.network state.now.flows) }
{
    if is_enclosed(alloc, state)? {
        return Ok(true);
    }
    let mut search = residual_search(alloc, state)?;
    // A search that is aimed labels from both ends. If no path is left, often one of the ends reaches few nodes.
    search.aim(state.source(), state.sink());
    Ok(search.augment(u64::MAX, &mut Touched::all()).is_none())
}
