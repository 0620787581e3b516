ghost use Rattle.std.specs.Prelude.{◌≡◌, [], length, List, None, Option, pos, IfOk, IfSome, IsOkUnless, MatchResult};
ghost use Rattle.dmf_node.specs.Node.{IsNode};
ghost use Rattle.dmf_state.specs.Direction.{edited_along, FitsAlong, HasIdleLast};
ghost use Rattle.dmf_state.specs.Edit.{applied, differences, AddsArc};
ghost use Rattle.dmf_state.specs.Flow.{flow_value};
ghost use Rattle.dmf_state.specs.NetworkState.{IsState, NetworkState, with_idle_arc};
ghost use Rattle.dmf_solver.specs.Pairs.{reached_flows, HasSolved};
ghost use Rattle.dmf_solver.specs.Planning.{PlansSolve, IsSideWanted};
ghost use Rattle.dmf_solver.specs.CarryingNetwork.{IsCarryingOf, MayCarry};
ghost use Rattle.dmf_solver.specs.KeptNetwork.{IsNetworkOf};
ghost use Rattle.dmf_solver.specs.ResidualNetwork.{IsResidualOf};
ghost use Rattle.dmf_state.specs.Revert.{without_last};
ghost use Rattle.dmf_solver.specs.SmallestSide.{TellsSide};
ghost use Rattle.dmf_path.specs.Pair.{steps_of};
ghost use Rattle.dmf_path.specs.Path.{HasNoPath};
ghost use Rattle.dmf_path.specs.Search.{Covers, IsElsewhere, indices_of};

use crate::carrying_pairs::CarryingPairs;
use crate::closed_side::SidedSearch;
use crate::fault::{CutFault, PlanFault};
use crate::following::{carry_flows, put_capacities, put_flows};
use crate::moves::{list_moves, most_touched};
use crate::reached_flows::ReachedFlows;
use crate::residual::{residual_pair, residual_search};
use crate::side::{side_along, wanted_side};
use crate::solve::{SolvedSearch, solve};
use crate::watch::Watch;
use dmf_path::{Indices, Search};
use dmf_state::{Arc, Direction, Edit, Move, NoMemory, Side, State};
use std::alloc::{AllocError, Global};
use std::marker::Model;

/// The residual network of a state: the links along which a solve augments. A caller that solves again and again keeps it, and it
/// follows each change of the state, so no solve has to make its links anew. From the first drain on it also has a search over the same
/// links for drains, so no drain has to make them anew.
#[derive(Drop)]
pub struct ResidualNetwork {
    /// The search for augmenting paths, with the side to which the last solve led.
    search: SidedSearch,
    /// The search over carrying steps, if it is made.
    carrying: Option<Search>,
    /// Whether it has served a solve or a drain.
    is_used: bool,
}

impl Model for ResidualNetwork {
    ghost use Rattle.dmf_solver.specs.KeptNetwork.{KeptNetwork};

    ghost Value = { KeptNetwork };

    ghost view = { λ a. record { residual = a.search; carrying = a.carrying } };
}

impl ResidualNetwork {
    /// Makes the residual network of the state. Takes memory for two links an arc and some numbers a node.
    pub fn new(alloc: Global, state: &State) -> Result<ResidualNetwork, NoMemory>
        ensures { IfOk result (IsNetworkOf state.now) }
    {
        let network = new_network(alloc, state)?;
        Ok(network)
    }

    /// Plans what [`plan_solve_watched`](crate::plan_solve_watched) plans, and returns the residual network of the state after the
    /// edit.
    ///
    /// If no edit since the last solve gave room to a link that leads out of the side to which that solve led, the flow is greatest, and
    /// the plan looks at no arc but those that were changed.
    ///
    /// The first solve or drain looks at all arcs for its moves. Once the links have numbers, a solve looks only at the arcs of its paths,
    /// unless these have an eighth as many links as there are nodes, and a 32nd as many as there are arcs.
    ///
    /// Takes memory for the moves, and for a side that is wanted, with marks and numbers while it looks for the side, and once the links
    /// have numbers for an eighth of a number a node or a 32nd of one an arc. If memory is refused, fails with [`PlanFault::NoMemory`].
    pub fn plan_solve<W: Watch>(
        mut self,
        alloc: Global,
        state: &State,
        want_side: bool,
        watch: &mut W,
    ) -> Result<(Edit, Option<Side>, ResidualNetwork), PlanFault>
        requires { IsNetworkOf state.now self }
        ensures refused { IsOkUnless result PlanFault.NoMemory }
        ensures edit { IfOk result (λ planned. PlansSolve state.now planned.0) }
        ensures side { IfOk result (λ planned. IsSideWanted want_side state.now.network planned.1) }
        ensures value { IfOk result (λ planned.
            IfSome planned.1 (λ side. pos side.capacity ≡ flow_value state.now.network (applied planned.0 state.now).flows)) }
        ensures kept { IfOk result (λ planned. IsNetworkOf (applied planned.0 state.now) planned.2) }
    {
        if self.search.is_closed() {
            return self.plan_nothing(alloc, state, want_side);
        }
        self.plan_paths(alloc, state, want_side, watch)
    }

    /// Plans the solve of a state whose flow is greatest: no path is left.
    fn plan_nothing(
        self,
        alloc: Global,
        state: &State,
        want_side: bool,
    ) -> Result<(Edit, Option<Side>, ResidualNetwork), PlanFault>
        requires network { IsNetworkOf state.now self }
        requires closed { HasNoPath (steps_of self.residual.pairs) self.residual.start self.residual.goal }
        ensures refused { IsOkUnless result PlanFault.NoMemory }
        ensures edit { IfOk result (λ planned. PlansSolve state.now planned.0) }
        ensures side { IfOk result (λ planned. IsSideWanted want_side state.now.network planned.1) }
        ensures value { IfOk result (λ planned.
            IfSome planned.1 (λ side. pos side.capacity ≡ flow_value state.now.network (applied planned.0 state.now).flows)) }
        ensures kept { IfOk result (λ planned. IsNetworkOf (applied planned.0 state.now) planned.2) }
    {
        let search = self.search.as_search();
        let side = wanted_side(alloc, state, search, state.value(), want_side)?;
        let moves = Vec::new(alloc);
        Ok((Edit::Solve { moves }, side, self))
    }

    /// Plans the solve of a state by a search for paths, and keeps the side to which it leads.
    fn plan_paths<W: Watch>(
        self,
        alloc: Global,
        state: &State,
        want_side: bool,
        watch: &mut W,
    ) -> Result<(Edit, Option<Side>, ResidualNetwork), PlanFault>
        requires { IsNetworkOf state.now self }
        ensures refused { IsOkUnless result PlanFault.NoMemory }
        ensures edit { IfOk result (λ planned. PlansSolve state.now planned.0) }
        ensures side { IfOk result (λ planned. IsSideWanted want_side state.now.network planned.1) }
        ensures value { IfOk result (λ planned.
            IfSome planned.1 (λ side. pos side.capacity ≡ flow_value state.now.network (applied planned.0 state.now).flows)) }
        ensures kept { IfOk result (λ planned. IsNetworkOf (applied planned.0 state.now) planned.2) }
    {
        let ResidualNetwork {
            search,
            carrying,
            ..
        } = self;
        let (search, mut marks, known) = search.into_ways_out(alloc, state.nodes());
        let touched = search.none_touched(alloc, most_touched(state))?;
        let solved = solve(alloc, search, state, touched, &mut marks, known, watch)?;
        let side = wanted_side(alloc, state, &solved.search, solved.value, want_side)?;
        let moves = touched_moves(alloc, state, &solved)?;
        let carrying = carry_flows(carrying, state, &moves, Direction::Forward);
        let kept = ResidualNetwork {
            search: SidedSearch::at_end(alloc, solved.search, state.nodes(), marks),
            carrying,
            is_used: true,
        };
        Ok((Edit::Solve { moves }, side, kept))
    }

    /// The smallest side of the state's network, as [`smallest_side`](crate::smallest_side) finds it. The state's flow must be
    /// greatest.
    ///
    /// Fails with [`CutFault::NotGreatest`] if some flow has a larger value. Takes memory for the side, a mark and two numbers a node;
    /// if that is refused, fails with [`CutFault::NoMemory`].
    pub fn smallest_side(&self, alloc: Global, state: &State) -> Result<Side, CutFault>
        requires { IsNetworkOf state.now self.now }
        ensures { TellsSide state.now result }
    {
        side_along(alloc, self.search.as_search(), state)
    }

    /// The indices of the pairs at a node, as [`Search::indices_at`] gives them.
    pub(crate) fn indices_at(&self, node: u32) -> Indices<'_>
        requires { IsNode self.now.residual.nodes node }
        ensures { Covers (length self.now.residual.pairs) (IsElsewhere self.now.residual.pairs node) (indices_of result) }
    {
        self.search.as_search().indices_at(node)
    }

    /// The residual network of the state to which an edit leads: forward the state after the edit, which fits this one, and back the
    /// state before the edit, which stands in this one.
    ///
    /// Takes time for the arcs that the edit names; the first call after a solve also takes time for each node that has a label. An edit
    /// that adds an arc takes constant time besides, or time for a look at each link after a drain. Forward, where an end of the arc has
    /// no spare link, all links are made anew. `None` only for such an edit, if memory is refused.
    ///
    /// The first call after a solve or a drain numbers the links: takes memory for a number a link, and does without if it is refused.
    pub fn follow(
        mut self,
        alloc: Global,
        state: &State,
        edit: &Edit,
        direction: Direction,
    ) -> Option<ResidualNetwork>
        requires network { IsNetworkOf state.now self }
        requires fits { FitsAlong direction edit.now state.now }
        ensures kept { IfSome result (IsNetworkOf (edited_along direction edit.now state.now)) }
        ensures dropped { result ≡ None → AddsArc edit.now }
    {
        self.number_once_used(alloc);
        match *edit {
            Edit::Add { tail, head, cap } => match direction {
                Direction::Forward => self.with_arc(alloc, state, Arc::open(tail, head, cap)),
                Direction::Back => self.without_last_arc(state),
            },
            _ => {
                self.follow_along(state, edit, direction);
                Some(self)
            }
        }
    }

    /// The residual network of the state with one more arc, on which nothing flows.
    #[inline(never)]
    fn with_arc(self, alloc: Global, state: &State, arc: Arc) -> Option<ResidualNetwork>
        requires network { IsNetworkOf state.now self }
        requires state { IsState (with_idle_arc state.now arc) }
        ensures { IfSome result (IsNetworkOf (with_idle_arc state.now arc)) }
    {
        let ResidualNetwork {
            search,
            carrying,
            is_used,
        } = self;
        let k = state.arcs().len();
        let pair = residual_pair(arc, 0);
        let (mut search, carrying) = search.insert(alloc, k, pair, carrying)?;
        search.set_rooms(k, arc.cap, 0);
        Some(ResidualNetwork {
            search,
            carrying,
            is_used,
        })
    }

    /// The residual network of the state without its last arc, on which nothing flows.
    #[inline(never)]
    fn without_last_arc(self, state: &State) -> Option<ResidualNetwork>
        requires network { IsNetworkOf state.now self }
        requires last { HasIdleLast state.now }
        ensures { IfSome result (IsNetworkOf (without_last state.now)) }
    {
        let ResidualNetwork {
            search,
            carrying,
            is_used,
        } = self;
        let (search, carrying) = search.remove(state.arcs().len() - 1, carrying)?;
        Some(ResidualNetwork {
            search,
            carrying,
            is_used,
        })
    }

    /// Follows an edit that adds no arc, as [`follow`](ResidualNetwork::follow) does.
    #[inline(never)]
    pub(crate) fn follow_along(&mut self, state: &State, edit: &Edit, direction: Direction)
        requires network { IsNetworkOf state.now self.old }
        requires fits { FitsAlong direction edit.now state.now }
        requires adds_none { ¬ AddsArc edit.now }
        ensures { IsNetworkOf (edited_along direction edit.now state.now) self.new }
    {
        let moves = edit.moves();
        put_flows(&mut self.search, state, moves, direction);
        put_capacities(&mut self.search, state, edit, direction);
        self.carrying = carry_flows(self.carrying.take(), state, moves, direction);
    }

    /// Takes the carrying search of the state's flow out of the network, which has none afterwards. If it had none, makes the search
    /// over the links of the network: this takes memory for a room and a flag a link, and for some numbers a node. Once the links have
    /// numbers, so has the search.
    pub(crate) fn take_carrying(
        &mut self,
        alloc: Global,
        state: &State,
    ) -> Result<Search, AllocError>
        requires state { IsState state.now }
        requires network { IsNetworkOf state.now self.old }
        ensures network { IsNetworkOf state.now self.new }
        ensures carrying { IfOk result (IsCarryingOf state.now) }
    {
        self.number_once_used(alloc);
        self.is_used = true;
        let mut carrying = match self.carrying.take() {
            Some(search) => with_value(search, state),
            None => carrying_twin(alloc, state, self.search.as_search())?,
        };
        carrying.share_numbers(self.search.as_search())?;
        Ok(carrying)
    }

    /// Numbers the links of a network that has served a solve or a drain, if memory for it is there: that takes about as long as a look at
    /// all arcs. The first solve or drain looks at all arcs instead, since it may be the only one, and numbers take memory.
    pub(crate) fn number_once_used(&mut self, alloc: Global)
        ensures { self.new ≡ self.old }
    {
        if self.is_used {
            let _ = self.search.number_links(alloc);
        }
    }

    /// Takes the carrying search of a drain in place of its own. Where nothing was drained, its own stays, and the links get numbers, for
    /// which a drain sees itself.
    pub(crate) fn keep_carrying(&mut self, alloc: Global, carrying: Option<Search>)
        ensures { (s : NetworkState) → IsNetworkOf s self.old → IfSome carrying (MayCarry s) → IsNetworkOf s self.new }
    {
        match carrying {
            Some(search) => self.carrying = Some(search),
            None => self.number_once_used(alloc),
        }
    }
}

/// A new network of the state. Takes memory for two links an arc and some numbers a node.
pub fn new_network(alloc: Global, state: &State) -> Result<ResidualNetwork, AllocError>
    ensures { IfOk result (IsNetworkOf state.now) }
{
    let search = residual_search(alloc, state)?;
    Ok(ResidualNetwork {
        search: SidedSearch::new(search),
        carrying: None,
        is_used: false,
    })
}

/// The moves of a solve. Looks at no arc whose pair is not touched.
fn touched_moves(
    alloc: Global,
    state: &State,
    solved: &SolvedSearch,
) -> Result<Vec<Move>, AllocError>
    requires { HasSolved state.now solved.now }
    ensures { IfOk result (λ moves. moves.items ≡ differences 1 state.now.flows (reached_flows state.now solved.now.search)) }
{
    let indices = solved.touched.indices(state.arcs().len() + 1);
    list_moves(alloc, state, &ReachedFlows { state, solved }, indices)
}

/// A carrying search of the state's flow over the links of its residual network.
fn carrying_twin(alloc: Global, state: &State, residual: &Search) -> Result<Search, AllocError>
    requires state { IsState state.now }
    requires residual { IsResidualOf state.now residual.now }
    ensures { IfOk result (IsCarryingOf state.now) }
{
    residual.twin(alloc, &CarryingPairs { state }, false)
}

/// The carrying search with the value of the state's flow as the room of the return link.
fn with_value(mut search: Search, state: &State) -> Search
    requires { MayCarry state.now search }
    ensures carrying { IsCarryingOf state.now result }
    ensures state { IsState state.now }
{
    search.set_rooms(state.arcs().len(), state.value(), 0);
    search
}
