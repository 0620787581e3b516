//! An order in which new arcs are valued. Contracts say no more of these calls than that they are safe and end: the order changes how long
//! the searches take, and not what they find.

use crate::cursor::{Cursor, begin_at, next_hop, read};
use crate::hop::{Hop, to_of, turned};
use crate::parts::is_open;
use crate::rerouting::Rerouting;
use dmf_state::{Arc, State};
use std::alloc::{AllocError, Global};

/// A depth-first search over the steps of a residual network, or from behind against them. Nodes are indices.
#[derive(Drop)]
struct Visits {
    /// Whether it is from behind.
    back: bool,
    /// The place of each node in the order of visits, from 1 on; 0 if it was not visited.
    places: Vec<u32>,
    /// For each node of the path from the first the steps that were not looked at.
    path: Vec<Cursor>,
    /// How many nodes were visited.
    visited: u32,
}

/// With fewer than one such new arc for this many nodes, the order costs more than it saves.
const NODES_PER_ARC: usize = 8;

/// Lists those of the new arcs that have arcs of their own, by their indices, so that an end of each is often next to that of the one
/// before, where there is room on the arc that was emptied for it. They are in the order in which a depth-first search from the sink finds
/// their heads from behind, or one from the source their tails if they enter the sink. Lists none if there are few.
pub fn list_order(
    alloc: Global,
    more: &State,
    rerouting: &Rerouting,
    firsts: &[u32],
    arcs: &[Arc],
) -> Result<Vec<u64>, AllocError> {
    if count_own(firsts) < more.nodes() as usize / NODES_PER_ARC {
        return Ok(Vec::new(alloc));
    }
    let of_heads = places_from(alloc, more, rerouting, more.sink(), true)?;
    let of_tails = places_from(alloc, more, rerouting, more.source(), false)?;
    let mut order = Vec::new(alloc);
    for k in 0..arcs.len() {
        if read(firsts, k) != 0 {
            let place = if arcs[k].head == more.sink() {
                place_of(&of_tails, arcs[k].tail)
            } else {
                place_of(&of_heads, arcs[k].head)
            };
            order.push(keyed(place, k))?;
        }
    }
    order.sort_unstable();
    Ok(order)
}

/// How many new arcs have arcs of their own.
fn count_own(firsts: &[u32]) -> usize {
    let mut count = 0usize;
    for k in 0..firsts.len() {
        if firsts[k] != 0 {
            count = count.saturating_add(1);
        }
    }
    count
}

/// An index with a place before it, so that numbers of this form are in the order of the places.
fn keyed(place: u32, index: usize) -> u64 {
    u64::from(place)
        .wrapping_mul(1 << 32)
        .wrapping_add(index as u64)
}

/// The index in such a number.
pub fn index_of(keyed: u64) -> usize {
    (keyed % (1 << 32)) as usize
}

/// The place of node number `v`; 0 past the last.
fn place_of(places: &[u32], v: u32) -> u32 {
    read(places, (v as usize).saturating_sub(1))
}

/// The place of each node in the order in which a depth-first search from the root visits them.
fn places_from(
    alloc: Global,
    more: &State,
    rerouting: &Rerouting,
    root: u32,
    back: bool,
) -> Result<Vec<u32>, AllocError> {
    let mut visits = Visits {
        back,
        places: vec![in alloc; 0u32; more.nodes() as usize]?,
        path: Vec::new(alloc),
        visited: 0,
    };
    visit(&mut visits, rerouting, root.saturating_sub(1))?;
    for _ in 0..u64::MAX {
        let Some(mut left) = visits.path.pop() else {
            return Ok(visits.places);
        };
        let hop = next_hop(&mut left, &rerouting.along, &rerouting.against);
        if hop.arc != 0 {
            visits.path.push(left)?;
            look_over(&mut visits, more, rerouting, hop)?;
        }
    }
    Ok(visits.places)
}

/// Visits a node, if there is one and it was not visited.
fn visit(visits: &mut Visits, rerouting: &Rerouting, node: u32) -> Result<(), AllocError> {
    let k = node as usize;
    if k >= visits.places.len() || visits.places[k] != 0 {
        return Ok(());
    }
    visits.visited = visits.visited.wrapping_add(1);
    visits.places[k] = visits.visited;
    let left = begin_at(&rerouting.along, &rerouting.against, k);
    visits.path.push(left)?;
    Ok(())
}

/// Goes over a step, if it has room.
fn look_over(
    visits: &mut Visits,
    more: &State,
    rerouting: &Rerouting,
    hop: Hop,
) -> Result<(), AllocError> {
    let k = (hop.arc as usize).wrapping_sub(1);
    let arcs = more.arcs();
    if k >= arcs.len() || k >= rerouting.flows.len() {
        return Ok(());
    }
    if !is_open(
        turned(visits.back, hop.against),
        arcs[k],
        rerouting.flows[k],
    ) {
        return Ok(());
    }
    visit(
        visits,
        rerouting,
        to_of(hop.against, arcs[k]).wrapping_sub(1),
    )
}
