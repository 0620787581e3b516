use crate::chains::Chains;
use crate::cursor::{Cursor, begin_at, next_hop, no_steps, read};
use crate::hop::{Hop, to_of};
use dmf_state::{Arc, State};
use std::alloc::{AllocError, Global};

/// What the search for parts knows of a node.
#[derive(Clone, Copy)]
struct Visit {
    /// Its place in the order of visits, from 1 on; 0 if it was not visited.
    place: u32,
    /// The first place of a node in its part that is known to be led to.
    low: u32,
    /// The steps from it that were not looked at.
    left: Cursor,
}

/// The search for the strongly connected parts of a residual network, depth first (Tarjan 1972). Nodes are indices. Its contracts say no
/// more than that it is safe and ends: what it finds is tested.
#[derive(Drop)]
struct Parts {
    /// What is known of each node.
    visits: Vec<Visit>,
    /// The number of each node's part, from 1 on; 0 before it is known.
    numbers: Vec<u32>,
    /// The nodes from which the search goes on, the last first.
    path: Vec<u32>,
    /// The visited nodes whose part is not known.
    open: Vec<u32>,
    /// How many nodes were visited.
    visited: u32,
    /// How many parts are known.
    found: u32,
}

/// Numbers the strongly connected parts of the residual network, each after those to which steps lead from it. Returns the number of each
/// node's part.
pub fn number_parts(
    alloc: Global,
    state: &State,
    flows: &[u64],
    along: &Chains,
    against: &Chains,
) -> Result<Vec<u32>, AllocError> {
    let nodes = state.nodes();
    let none = Visit {
        place: 0,
        low: 0,
        left: no_steps(),
    };
    let mut parts = Parts {
        visits: vec![in alloc; none; nodes as usize]?,
        numbers: vec![in alloc; 0u32; nodes as usize]?,
        path: Vec::new(alloc),
        open: Vec::new(alloc),
        visited: 0,
        found: 0,
    };
    for root in 0..nodes {
        if visit_of(&parts, root).place == 0 {
            begin(&mut parts, along, against, root)?;
            search_on(&mut parts, state, flows, along, against)?;
        }
    }
    Ok(parts.numbers)
}

/// What is known of node `v`; nothing past the last.
fn visit_of(parts: &Parts, v: u32) -> Visit {
    let v = v as usize;
    if v < parts.visits.len() {
        parts.visits[v]
    } else {
        Visit {
            place: 1,
            low: 1,
            left: no_steps(),
        }
    }
}

/// Notes what is known of node `v`.
fn note(parts: &mut Parts, v: u32, visit: Visit) {
    let v = v as usize;
    if v < parts.visits.len() {
        parts.visits[v] = visit;
    }
}

/// Begins with node `v`.
fn begin(parts: &mut Parts, along: &Chains, against: &Chains, v: u32) -> Result<(), AllocError> {
    let place = parts.visited.wrapping_add(1);
    parts.visited = place;
    let begun = Visit {
        place,
        low: place,
        left: begin_at(along, against, v as usize),
    };
    note(parts, v, begun);
    parts.path.push(v)?;
    parts.open.push(v)?;
    Ok(())
}

/// Goes on until the path is empty.
fn search_on(
    parts: &mut Parts,
    state: &State,
    flows: &[u64],
    along: &Chains,
    against: &Chains,
) -> Result<(), AllocError> {
    for _ in 0..u64::MAX {
        let v = match parts.path.last() {
            Some(v) => *v,
            None => return Ok(()),
        };
        let mut seen = visit_of(parts, v);
        let hop = next_hop(&mut seen.left, along, against);
        note(parts, v, seen);
        if hop.arc == 0 {
            leave(parts, v)?;
        } else {
            look_over(parts, state, flows, along, against, v, hop)?;
        }
    }
    Ok(())
}

/// Goes over a step from node `v`, if it has room: visits the node to which it leads, or notes that it leads back.
fn look_over(
    parts: &mut Parts,
    state: &State,
    flows: &[u64],
    along: &Chains,
    against: &Chains,
    v: u32,
    hop: Hop,
) -> Result<(), AllocError> {
    let k = (hop.arc as usize).wrapping_sub(1);
    let arcs = state.arcs();
    if k >= arcs.len() || k >= flows.len() || !is_open(hop.against, arcs[k], flows[k]) {
        return Ok(());
    }
    let w = to_of(hop.against, arcs[k]).wrapping_sub(1);
    let there = visit_of(parts, w);
    if there.place == 0 {
        return begin(parts, along, against, w);
    }
    if read(&parts.numbers, w as usize) == 0 {
        lower(parts, v, there.place);
    }
    Ok(())
}

/// Whether a step over an arc with this flow has room.
pub fn is_open(against: bool, arc: Arc, flow: u64) -> bool {
    if against { flow > 0 } else { flow < arc.cap }
}

/// Notes that node `v` leads to the node at a place.
fn lower(parts: &mut Parts, v: u32, place: u32) {
    let mut seen = visit_of(parts, v);
    if place < seen.low {
        seen.low = place;
        note(parts, v, seen);
    }
}

/// Leaves node `v`, the last of the path. If it leads to no node before it, the nodes that were visited since are a part.
fn leave(parts: &mut Parts, v: u32) -> Result<(), AllocError> {
    let _ = parts.path.pop();
    let seen = visit_of(parts, v);
    if seen.low == seen.place {
        close(parts, v);
    }
    if let Some(u) = parts.path.last() {
        let u = *u;
        lower(parts, u, seen.low);
    }
    Ok(())
}

/// Numbers the part of node `v`, which is the first of it that was visited.
fn close(parts: &mut Parts, v: u32) {
    let number = parts.found.wrapping_add(1);
    parts.found = number;
    for _ in 0..u64::MAX {
        let w = match parts.open.pop() {
            Some(w) => w,
            None => return,
        };
        if (w as usize) < parts.numbers.len() {
            parts.numbers[w as usize] = number;
        }
        if w == v {
            return;
        }
    }
}
