ghost use Rattle.std.specs.Prelude.{◌≡◌};
ghost use Rattle.dmf_solver.specs.CarryingNetwork.{carrying_pair, return_pair};

use crate::arc_flow::arc_at;
use dmf_links::{Pair, Pairs};
use dmf_state::{Arc, State};

/// The pairs of links that stand for the carrying steps of a state's flow: one for each arc except self loops, and after all arcs one
/// for the return link.
#[derive(Drop)]
pub struct CarryingPairs<'a> {
    pub state: &'a State,
}

impl Pairs for CarryingPairs<'_> {
    ghost use Rattle.dmf_solver.specs.CarryingNetwork.{carrying_pairs};

    ghost pairs = { λ p. carrying_pairs p.state.now.network p.state.now.flows };

    fn len(&self) -> usize {
        self.state.arcs().len() + 1
    }

    fn pair(&self, k: usize) -> Option<Pair> {
        match arc_at(self.state, k) {
            Some((arc, flow)) => carrying_pair(arc, flow),
            None => return_pair(self.state),
        }
    }
}

/// The pair of an arc with this flow.
fn carrying_pair(arc: Arc, flow: u64) -> Option<Pair>
    ensures { result ≡ carrying_pair arc flow }
{
    if arc.tail == arc.head {
        return None;
    }
    Some(Pair {
        tail: arc.tail,
        head: arc.head,
        along: flow,
        against: 0,
    })
}

/// The pair of the return link, from the sink to the source. Its room is the value of the flow.
fn return_pair(state: &State) -> Option<Pair>
    ensures { result ≡ return_pair state.now.network state.now.flows }
{
    Some(Pair {
        tail: state.sink(),
        head: state.source(),
        along: state.value(),
        against: 0,
    })
}
