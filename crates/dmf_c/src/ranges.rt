//! What C reads of a range of arcs. The calls that read all arcs write by these functions too.
ghost use Rattle.std.specs.Prelude.{◌≡◌, ◌≢◌, ◌+◌, ◌-◌, ◌≤◌, length, [], ◌∷◌, slice_index_or};
ghost use Rattle.dmf_state.specs.Arc.{no_arc};
ghost use Rattle.dmf_state.specs.Network.{arc_number};
ghost use Rattle.dmf_c.specs.Codes.{OfPresent};
ghost use Rattle.dmf_c.specs.Status.{DMF_OK};
ghost use Rattle.dmf_c.specs.Ranges.{HasNumbers, has_range, is_column, range_code, closed_mark};

use crate::handle::Handle;
use dmf_state::{Arc, State};

/// The ends, capacities, flows and closed marks of a range of arcs.
#[unsafe(no_mangle)]
pub extern "C" fn dmf_session_arc_range(
    session: &mut Handle,
    first: u64,
    count: usize,
    tails: &mut [u32],
    heads: &mut [u32],
    capacities: &mut [u64],
    flows: &mut [u64],
    closed: &mut [u8],
) -> u32
    ensures answer { OfPresent session.old.timeline (λ s. result ≡ range_code s.network first count (length tails.old ∷ length heads.old ∷ length capacities.old ∷ length flows.old ∷ length closed.old ∷ [])) }
    ensures tails { OfPresent session.old.timeline (λ s. result ≡ DMF_OK → HasNumbers (λ k. (arc_number s.network (first + k)).tail) tails.old tails.new) }
    ensures heads { OfPresent session.old.timeline (λ s. result ≡ DMF_OK → HasNumbers (λ k. (arc_number s.network (first + k)).head) heads.old heads.new) }
    ensures capacities { OfPresent session.old.timeline (λ s. result ≡ DMF_OK → HasNumbers (λ k. (arc_number s.network (first + k)).cap) capacities.old capacities.new) }
    ensures flows { OfPresent session.old.timeline (λ s. result ≡ DMF_OK → HasNumbers (λ k. slice_index_or s.flows (first + k - 1) 0) flows.old flows.new) }
    ensures closed { OfPresent session.old.timeline (λ s. result ≡ DMF_OK → HasNumbers (λ k. closed_mark (arc_number s.network (first + k)).closed) closed.old closed.new) }
    ensures refused { result ≢ DMF_OK → (tails.new ≡ tails.old) × (heads.new ≡ heads.old) × (capacities.new ≡ capacities.old) × (flows.new ≡ flows.old) × (closed.new ≡ closed.old) }
    ensures unchanged { session.new.timeline ≡ session.old.timeline }
{
    let present = session.plan().present();
    copy_range(
        present, first, count, tails, heads, capacities, flows, closed,
    )
}

fn copy_range(
    state: &State,
    first: u64,
    count: usize,
    tails: &mut [u32],
    heads: &mut [u32],
    capacities: &mut [u64],
    flows: &mut [u64],
    closed: &mut [u8],
) -> u32
    ensures answer { result ≡ range_code state.now.network first count (length tails.old ∷ length heads.old ∷ length capacities.old ∷ length flows.old ∷ length closed.old ∷ []) }
    ensures tails { result ≡ DMF_OK → HasNumbers (λ k. (arc_number state.now.network (first + k)).tail) tails.old tails.new }
    ensures heads { result ≡ DMF_OK → HasNumbers (λ k. (arc_number state.now.network (first + k)).head) heads.old heads.new }
    ensures capacities { result ≡ DMF_OK → HasNumbers (λ k. (arc_number state.now.network (first + k)).cap) capacities.old capacities.new }
    ensures flows { result ≡ DMF_OK → HasNumbers (λ k. slice_index_or state.now.flows (first + k - 1) 0) flows.old flows.new }
    ensures closed { result ≡ DMF_OK → HasNumbers (λ k. closed_mark (arc_number state.now.network (first + k)).closed) closed.old closed.new }
    ensures refused { result ≢ DMF_OK → (tails.new ≡ tails.old) × (heads.new ≡ heads.old) × (capacities.new ≡ capacities.old) × (flows.new ≡ flows.old) × (closed.new ≡ closed.old) }
{
    if !(is_column(count, tails.len())
        && is_column(count, heads.len())
        && is_column(count, capacities.len())
        && is_column(count, flows.len())
        && is_column(count, closed.len()))
    {
        return 10;
    }
    if !has_range(state, first, count) {
        return 3;
    }
    let (arcs, first) = (state.arcs(), first as usize);
    copy_tails(arcs, first, tails);
    copy_heads(arcs, first, heads);
    copy_capacities(arcs, first, capacities);
    copy_flows(state.flows(), first, flows);
    mark_closed(arcs, first, closed);
    0
}

/// Whether an array of this length has a place for each of `count` arcs, or is not wanted.
pub fn is_column(count: usize, given: usize) -> bool
    ensures { result ≡ is_column count given }
{
    given == 0 || given == count
}

/// Whether arcs `first` .. `first + count - 1` are there.
fn has_range(state: &State, first: u64, count: usize) -> bool
    ensures { result ≡ has_range state.now.network first count }
{
    let arcs = state.arcs().len();
    1 <= first && first - 1 <= arcs as u64 && count <= arcs - (first as usize - 1)
}

fn copy_tails(arcs: &[Arc], first: usize, tails: &mut [u32])
    requires from_one { 1 ≤ first }
    requires to_last { first - 1 + length tails.old ≤ length arcs.now }
    ensures { HasNumbers (λ k. (slice_index_or arcs.now (first + k - 1) no_arc).tail) tails.old tails.new }
{
    for i in 0..tails.len() {
        tails[i] = arcs[first + i - 1].tail;
    }
}

fn copy_heads(arcs: &[Arc], first: usize, heads: &mut [u32])
    requires from_one { 1 ≤ first }
    requires to_last { first - 1 + length heads.old ≤ length arcs.now }
    ensures { HasNumbers (λ k. (slice_index_or arcs.now (first + k - 1) no_arc).head) heads.old heads.new }
{
    for i in 0..heads.len() {
        heads[i] = arcs[first + i - 1].head;
    }
}

pub fn copy_capacities(arcs: &[Arc], first: usize, capacities: &mut [u64])
    requires from_one { 1 ≤ first }
    requires to_last { first - 1 + length capacities.old ≤ length arcs.now }
    ensures { HasNumbers (λ k. (slice_index_or arcs.now (first + k - 1) no_arc).cap) capacities.old capacities.new }
{
    for i in 0..capacities.len() {
        capacities[i] = arcs[first + i - 1].cap;
    }
}

pub fn copy_flows(all: &[u64], first: usize, flows: &mut [u64])
    requires from_one { 1 ≤ first }
    requires to_last { first - 1 + length flows.old ≤ length all.now }
    ensures { HasNumbers (λ k. slice_index_or all.now (first + k - 1) 0) flows.old flows.new }
{
    for i in 0..flows.len() {
        flows[i] = all[first + i - 1];
    }
}

/// Marks the closed arcs.
fn mark_closed(arcs: &[Arc], first: usize, marks: &mut [u8])
    requires from_one { 1 ≤ first }
    requires to_last { first - 1 + length marks.old ≤ length arcs.now }
    ensures { HasNumbers (λ k. closed_mark (slice_index_or arcs.now (first + k - 1) no_arc).closed) marks.old marks.new }
{
    for i in 0..marks.len() {
        marks[i] = if arcs[first + i - 1].closed { 1 } else { 0 };
    }
}
