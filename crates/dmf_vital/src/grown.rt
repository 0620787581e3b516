use crate::along::Carried;
use crate::cursor::{Cursor, no_steps};
use crate::exits::is_exit;
use crate::hop::{Hop, from_of, to_of};
use crate::parts::is_open;
use crate::search::Steps;
use std::alloc::{AllocError, Global};

/// What a growth knows of a node.
#[derive(Clone, Copy)]
pub struct Grown {
    /// The mark of the growth and the end that last found it; 0 if it is free to be found.
    pub mark: u32,
    /// Its place in the order in which nodes were found, from 1 on; `CUT` if no step leads on from it.
    pub place: u32,
    /// The step, as flow goes, between it and a node with a smaller place; over arc number 0 at a root.
    pub hop: Hop,
    /// The exit that enters it, at a root behind.
    pub exit: u32,
    /// Whether another such step was looked for.
    pub begun: bool,
    /// The steps that are left to be looked at for that.
    pub left: Cursor,
}

/// The place of a node that is cut off from the roots.
pub const CUT: u32 = 0xFFFF_FFFF;

/// How far one end has grown.
#[derive(Clone, Copy)]
pub struct Reach {
    /// The index of the next found node.
    pub next: usize,
    /// The node whose steps are looked at.
    pub node: u32,
    /// The steps that are left of it.
    pub left: Cursor,
    /// How many steps were looked at.
    pub looks: u64,
}

/// Trees from both ends that serve many paths, one after the other. Contracts say no more of it than that it is safe and ends: each path that it
/// finds is checked as flow is sent along it (`push_along`).
#[derive(Drop)]
pub struct Growth {
    /// What is known of each node.
    pub nodes: Vec<Grown>,
    /// The nodes found ahead, in order.
    pub ahead: Vec<u32>,
    /// The nodes found from behind, in order.
    pub behind: Vec<u32>,
    /// How far the end ahead has grown.
    pub reach: Reach,
    /// The same from behind.
    pub reach_behind: Reach,
    /// The mark of what is found ahead. From behind it is 1 more.
    pub mark: u32,
    /// The last place.
    pub count: u32,
    /// The nodes between which the last climb went.
    pub trail: Vec<u32>,
    /// The nodes that were cut off since nodes were last hung anew.
    pub cut: Vec<u32>,
    /// The steps of the last path.
    pub way: Vec<Hop>,
    /// Memory for what each of them carried before.
    pub before: Vec<Carried>,
    /// How many steps climbs may look at to go on.
    pub spare: u64,
    /// How many steps climbs have looked at.
    pub climbed: u64,
    /// How many of them to hang nodes anew.
    pub mended: u64,
    /// How many steps had been looked at when flow was last moved; 0 if none was.
    pub last: u64,
    /// Whether one end has no steps left.
    pub done: bool,
}

/// No growth yet. Takes memory for some numbers a node.
pub fn make_growth(alloc: Global, nodes: u32) -> Result<Growth, AllocError> {
    Ok(Growth {
        nodes: vec![in alloc; nobody(); nodes as usize]?,
        ahead: Vec::new(alloc),
        behind: Vec::new(alloc),
        reach: no_reach(),
        reach_behind: no_reach(),
        mark: 0,
        count: 0,
        trail: Vec::new(alloc),
        cut: Vec::new(alloc),
        way: Vec::new(alloc),
        before: Vec::new(alloc),
        spare: 0,
        climbed: 0,
        mended: 0,
        last: 0,
        done: false,
    })
}

/// A node that was never found.
pub fn nobody() -> Grown {
    Grown {
        mark: 0,
        place: CUT,
        hop: Hop {
            arc: 0,
            against: false,
        },
        exit: 0,
        begun: false,
        left: no_steps(),
    }
}

/// The end of a growth that has not begun.
pub fn no_reach() -> Reach {
    Reach {
        next: 0,
        node: 0,
        left: no_steps(),
        looks: 0,
    }
}

/// The mark of what one end of this growth finds.
pub fn mark_of(growth: &Growth, back: bool) -> u32 {
    if back {
        growth.mark.wrapping_add(1)
    } else {
        growth.mark
    }
}

/// What is known of node `v`.
pub fn grown_at(growth: &Growth, v: u32) -> Grown {
    let k = (v as usize).wrapping_sub(1);
    if k < growth.nodes.len() {
        growth.nodes[k]
    } else {
        nobody()
    }
}

/// Notes what is known of node `v`.
pub fn note_at(growth: &mut Growth, v: u32, by: Grown) {
    let k = (v as usize).wrapping_sub(1);
    if k < growth.nodes.len() {
        growth.nodes[k] = by;
    }
}

/// Finds node `v` from one end.
pub fn find(
    growth: &mut Growth,
    v: u32,
    back: bool,
    hop: Hop,
    exit: u32,
) -> Result<(), AllocError> {
    growth.count = growth.count.wrapping_add(1);
    let by = Grown {
        mark: mark_of(growth, back),
        place: growth.count,
        hop,
        exit,
        begun: false,
        left: no_steps(),
    };
    note_at(growth, v, by);
    if back {
        growth.behind.push(v)?;
    } else {
        growth.ahead.push(v)?;
    }
    Ok(())
}

/// Whether one end has found node `v`, and it is not cut off.
pub fn is_sound(growth: &Growth, v: u32, back: bool) -> bool {
    let by = grown_at(growth, v);
    by.mark == mark_of(growth, back) && by.place != CUT
}

/// Whether a step has room. No step has over an arc that is not there.
pub fn has_room(steps: &Steps, hop: Hop) -> bool {
    let k = (hop.arc as usize).wrapping_sub(1);
    let arcs = steps.state.arcs();
    k < arcs.len() && k < steps.flows.len() && is_open(hop.against, arcs[k], steps.flows[k])
}

/// The node from which a step leads; 0 if its arc is not there.
pub fn start_of(steps: &Steps, hop: Hop) -> u32 {
    let k = (hop.arc as usize).wrapping_sub(1);
    let arcs = steps.state.arcs();
    if k < arcs.len() {
        from_of(hop.against, arcs[k])
    } else {
        0
    }
}

/// The node to which a step leads; 0 if its arc is not there.
pub fn end_of(steps: &Steps, hop: Hop) -> u32 {
    let k = (hop.arc as usize).wrapping_sub(1);
    let arcs = steps.state.arcs();
    if k < arcs.len() {
        to_of(hop.against, arcs[k])
    } else {
        0
    }
}

/// Whether a step leads over an exit.
pub fn is_over_exit(steps: &Steps, hop: Hop) -> bool {
    let k = (hop.arc as usize).wrapping_sub(1);
    let arcs = steps.state.arcs();
    k < arcs.len() && is_exit(steps.exits, hop.arc, arcs[k])
}
