//! The flows after draining.
ghost use Rattle.std.specs.Prelude.{◌≡◌, ◌<◌, length, slice_index};
ghost use Rattle.dmf_state.specs.Edit.{AreOpenWith};
ghost use Rattle.dmf_solver.specs.Pairs.{flows_without};

use crate::moves::Flows;
use dmf_path::Search;
use dmf_state::{Shutting, State};
use std::marker::Model;

/// The flows of a state after draining, which has drained these arcs to 0. An arc without a pair carries what it carried before, or
/// nothing if it is one of these.
#[derive(Drop)]
pub struct DrainedFlows<'a> {
    pub state: &'a State,
    pub shut: &'a [Shutting],
    pub search: &'a Search,
}

impl<'a> Model for DrainedFlows<'a> {
    ghost use Rattle.std.specs.Prelude.{ℕ, List};
    ghost use Rattle.dmf_state.specs.Edit.{AreOpenWith};
    ghost use Rattle.dmf_solver.specs.Pairs.{IsCarryingSearch, drained_flows, flows_without};

    ghost Value = { List ℕ };

    ghost view = { λ a. drained_flows a.state.now a.shut.now a.search.now };

    ghost invariant = { λ a. record {
      shut : AreOpenWith 0 a.shut.now a.state.now.network;
      carrying : IsCarryingSearch a.state.now (flows_without a.shut.now a.state.now.flows) a.search.now;
    } };
}

impl Flows for DrainedFlows<'_> {
    ghost flows = { λ flows. flows };

    fn flow(&self, k: usize) -> u64 {
        match self.search.along(k) {
            Some(flow) => flow,
            None => emptied_flow(self.state, self.shut, k),
        }
    }
}

/// The flow on the arc at index `k`: none if it is one of these arcs, else the state's.
fn emptied_flow(state: &State, shut: &[Shutting], k: usize) -> u64
    requires shut { AreOpenWith 0 shut.now state.now.network }
    requires within { k < length state.now.flows }
    ensures { result ≡ slice_index (flows_without shut.now state.now.flows) k }
{
    let flow = state.flows()[k];
    match shut.binary_search_by_key(&(k + 1), |shutting| shutting.arc as usize) {
        Ok(_) => 0,
        Err(_) => flow,
    }
}
