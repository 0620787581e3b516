ghost use Rattle.std.specs.Prelude.{◌≡◌, ◌≤◌, IfOk};
ghost use Rattle.dmf_state.specs.NetworkState.{IsState};
ghost use Rattle.dmf_solver.specs.ResidualNetwork.{closed_return, residual_pair, IsResidualOf};

use crate::arc_flow::arc_at;
use dmf_links::{Pair, Pairs};
use dmf_path::{Ends, Search};
use dmf_state::{Arc, State};
use std::alloc::{AllocError, Global};

/// A search for augmenting paths of the state's flow, from the source to the sink. It takes memory for two links an arc and some
/// numbers a node.
pub fn residual_search(alloc: Global, state: &State) -> Result<Search, AllocError>
    ensures search { IfOk result (IsResidualOf state.now) }
    ensures state { IsState state.now }
{
    let (start, goal) = (state.source(), state.sink());
    Search::new(
        alloc,
        state.nodes(),
        &ResidualPairs { state },
        Ends { start, goal },
        true,
    )
}

/// The pairs of links that stand for the residual steps of a state's flow: one for each arc except self loops, and after all arcs one
/// for the return link.
#[derive(Clone, Copy)]
struct ResidualPairs<'a> {
    state: &'a State,
}

impl Pairs for ResidualPairs<'_> {
    ghost use Rattle.dmf_solver.specs.ResidualNetwork.{network_pairs};

    ghost pairs = { λ p. network_pairs p.state.now.network p.state.now.flows };

    fn len(&self) -> usize {
        self.state.arcs().len() + 1
    }

    fn pair(&self, k: usize) -> Option<Pair> {
        match arc_at(self.state, k) {
            Some((arc, flow)) => residual_pair(arc, flow),
            None => closed_return(self.state),
        }
    }
}

/// The pair of an arc on which so much flows.
pub fn residual_pair(arc: Arc, flow: u64) -> Option<Pair>
    requires { flow ≤ arc.cap }
    ensures { result ≡ residual_pair arc flow }
{
    if arc.tail == arc.head {
        return None;
    }
    Some(Pair {
        tail: arc.tail,
        head: arc.head,
        along: arc.cap - flow,
        against: flow,
    })
}

/// The pair of the return link, from the sink to the source. No augmenting path uses it.
fn closed_return(state: &State) -> Option<Pair>
    ensures { result ≡ closed_return state.now.network }
{
    Some(Pair {
        tail: state.sink(),
        head: state.source(),
        along: 0,
        against: 0,
    })
}
