//! Some flow of a network, likely a greatest one, found quickly. Each function is proved to be safe and to end. Nothing is proved of the
//! flow: who uses it judges it.
//!
//! Three stages find it, each on the flow that the one before left. The first two go on only while they pay:
//!
//! 1. Phases of shortest augmenting paths (`phases.rt`).
//! 2. Two search trees, from the source and from the sink, which are kept from one augmenting path to the next (`trees.rt`, `members.rt`).
//!    Nodes that lose their parents find others, or leave their tree (`adoption.rt`).
//! 3. Push-relabel in two phases, the highest label first. Two breadth-first searches choose the end to begin at, the base (`levels.rt`).
//!    Excess is pushed to the other end, the goal; from the sink it goes against the links. The first phase discharges the active node with
//!    the highest label until no node is active (`engine.rt`, `discharge.rt`). A relabel chooses among equal links by chance, from a fixed
//!    seed, since the order of the arcs misleads it on whole families of networks. Nodes above a gap are cut off. After 6n + m of work a
//!    global relabelling makes all labels exact (`global.rt`). The second phase gives back what could not come to the goal, over the links
//!    that brought it (`returning.rt`).
//!
//! Each loop goes over nodes or links, or takes from a budget that only falls. An index past the end of a list gives up quietly, and a
//! sum wraps: neither happens where all ends of arcs are nodes and the capacities' sum fits 64 bits.
#![tactic(auto)]

pub use likely::{Likely, likely_greatest};

mod adoption;
mod buckets;
mod direction;
mod discharge;
mod engine;
mod global;
mod levels;
mod likely;
mod links;
mod list;
mod members;
mod phases;
mod returning;
mod trees;
