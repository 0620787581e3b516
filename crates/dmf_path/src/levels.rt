//! What a search keeps of each node: its label and its current link.
ghost use Rattle.std.specs.Prelude.{◌≡◌, ℕ, ◌+◌, ◌≤◌, ◌<◌, false, length, slice_index, IfOk};
ghost use Rattle.dmf_links.specs.LinkTable.{links_of};
ghost use Rattle.dmf_path.specs.Searching.{IsReady};
ghost use Rattle.dmf_path.specs.Walk.{AreCurrent};

use crate::course::Course;
use crate::frontier::Frontier;
use crate::noted::Noted;
use dmf_links::LinkTable;
use std::alloc::{AllocError, Global};

/// The labels and the current links of the nodes.
#[derive(Drop)]
pub struct Levels {
    /// The search from the goal. Its labels are those that a walk follows, and its queue has all nodes with one.
    pub near: Frontier,
    /// The search from the start. It has labels only while labelling goes on.
    pub far: Frontier,
    /// The place of each node's current link.
    pub current: Vec<u32>,
    /// How the nodes are labelled next.
    pub course: Course,
    /// Whether all nodes from which paths lead to the goal have labels, so that a search from another start may keep the labels.
    pub all: bool,
    /// The admissible links before current ones.
    pub noted: Noted,
}

impl Levels {
    /// No node has a label, and the current link of each is its first one. Takes memory for five numbers a node.
    pub fn new(alloc: Global, table: &LinkTable) -> Result<Levels, AllocError>
        ensures ready { IfOk result (λ levels. IsReady table.now.nodes levels.near levels.far) }
        ensures all { IfOk result (λ levels. levels.all ≡ false) }
        ensures current { IfOk result (λ levels. AreCurrent (links_of table.now) levels.current.items) }
    {
        Ok(Levels {
            near: Frontier::new(alloc, table.nodes)?,
            far: Frontier::new(alloc, table.nodes)?,
            current: Vec::from_slice(alloc, &table.first[..table.nodes as usize + 1])?,
            course: Course::FromGoal { looked: 0 },
            all: false,
            noted: Noted::none(alloc),
        })
    }
}

/// Makes the first link of each of these nodes its current one.
pub fn set_current(table: &LinkTable, nodes: &[u32], current: &mut [u32])
    requires nodes { (i : ℕ) → i < length nodes.now → slice_index nodes.now i ≤ table.now.nodes }
    requires current { AreCurrent (links_of table.now) current.old }
    ensures current { AreCurrent (links_of table.now) current.new }
    ensures first { (i : ℕ) → i < length nodes.now
        → slice_index current.new (slice_index nodes.now i) ≡ slice_index table.now.first.items (slice_index nodes.now i) }
{
    if nodes.len() > current.len() / 8 {
        current.copy_from_slice(&table.first[..current.len()]);
        return;
    }
    for node in nodes {
        current[*node as usize] = table.first[*node as usize];
    }
}
