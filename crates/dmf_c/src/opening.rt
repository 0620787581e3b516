//! How C opens a session.
ghost use Rattle.std.specs.Prelude.{◌≡◌, ◌≢◌, ◌≤◌, Some, IfOk};
ghost use Rattle.dmf_history.specs.Timeline.{start};
ghost use Rattle.dmf_c.specs.Building.{has_terminals, Opens};
ghost use Rattle.dmf_c.specs.Status.{DMF_OK, DMF_MAX_PAST};
ghost use Rattle.dmf_c.specs.Opening.{Starts};

use crate::building::build_network;
use crate::handle::Handle;
use crate::plan::Plan;
use crate::slot::Slot;
use dmf_session::{DeltaHistory, MAX_BOUND};
use dmf_state::{MAX_NODES, NoMemory, State};
use std::alloc::Global;

/// Opens a session on the network of these arrays.
#[unsafe(no_mangle)]
pub extern "C" fn dmf_session_new(
    alloc: Global,
    nodes: u32,
    source: u32,
    sink: u32,
    tails: &[u32],
    heads: &[u32],
    capacities: &[u64],
    past: u32,
    session: &mut Slot,
    bad_arc: &mut usize,
) -> u32
    ensures answer { Opens nodes source sink tails.now heads.now capacities.now past result session.new.session bad_arc.old bad_arc.new }
    ensures refused { result ≢ DMF_OK → session.new ≡ session.old }
{
    if heads.len() != tails.len() || capacities.len() != tails.len() {
        *bad_arc = 0;
        return 10;
    }
    if !has_terminals(nodes, source, sink) || past > MAX_BOUND {
        *bad_arc = 0;
        return 11;
    }
    let state = State::new(alloc, nodes, source, sink);
    match build_network(state, tails, heads, capacities) {
        Ok(state) => open(alloc, state, past, session),
        Err(bad) => {
            *bad_arc = bad.index;
            bad.code
        }
    }
}

/// Whether the numbers of nodes, the source and the sink may be those of a network.
fn has_terminals(nodes: u32, source: u32, sink: u32) -> bool
    ensures { result ≡ has_terminals nodes source sink }
{
    let is_node = |v: u32| 1 <= v && v <= nodes;
    2 <= nodes && nodes <= MAX_NODES && is_node(source) && is_node(sink) && source != sink
}

/// Opens a session on the state.
pub fn open(alloc: Global, state: State, past: u32, session: &mut Slot) -> u32
    requires { past ≤ DMF_MAX_PAST }
    ensures answer { Starts (start past state) result session.new.session }
    ensures refused { result ≢ DMF_OK → session.new ≡ session.old }
{
    let plan = Plan::new(DeltaHistory::with_bound(alloc, state, past));
    hand_over(alloc, plan, session)
}

/// Opens another session with the same states.
#[unsafe(no_mangle)]
pub extern "C" fn dmf_session_copy(alloc: Global, session: &mut Handle, copy: &mut Slot) -> u32
    ensures answer { Starts session.old.timeline result copy.new.session }
    ensures refused { result ≢ DMF_OK → copy.new ≡ copy.old }
    ensures unchanged { session.new.timeline ≡ session.old.timeline }
{
    match session.plan().copy(alloc) {
        Ok(plan) => hand_over(alloc, plan, copy),
        Err(NoMemory) => 1,
    }
}

/// Gives C a session.
fn hand_over(alloc: Global, plan: Plan, session: &mut Slot) -> u32
    ensures answer { Starts plan result session.new.session }
    ensures refused { result ≢ DMF_OK → session.new ≡ session.old }
{
    match made(alloc, plan) {
        Ok(slot) => {
            *session = slot;
            0
        }
        Err(NoMemory) => 1,
    }
}

fn made(alloc: Global, plan: Plan) -> Result<Slot, NoMemory>
    ensures { IfOk result (λ slot. slot.session ≡ Some plan) }
{
    let Ok(plan) = Box::new(alloc, plan) else {
        return Err(NoMemory);
    };
    let Ok(handle) = Box::new(alloc, Handle::of(plan)) else {
        return Err(NoMemory);
    };
    Ok(Slot::of(handle))
}
