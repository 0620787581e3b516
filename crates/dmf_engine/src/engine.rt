//! The engine: its state, and its first phase.
use crate::buckets::Buckets;
use crate::direction::PushDirection;
use crate::links::{PackedLinks, head_of};
use crate::list::{Row, power_from, read, write};
use dmf_state::NoMemory;
use std::alloc::Global;

/// A network while excess is pushed through it.
#[derive(Drop)]
pub struct Engine {
    /// The links, with their rooms.
    pub links: PackedLinks,
    /// The number of nodes, which is also the label of a node that is cut off from the goal.
    pub nodes: u32,
    /// From which end excess is pushed.
    pub direction: PushDirection,
    /// The labels of the nodes: lower bounds of their distances to the goal. Their number is a power of two, so that a word's label is found
    /// without a test.
    pub labels: Vec<u32>,
    /// The current arc of each node, as a place.
    pub currents: Vec<u32>,
    /// The excess of each node: what came to it and has not left.
    pub excess: Vec<u64>,
    /// The nodes by label.
    pub buckets: Buckets,
    /// The nodes that a breadth-first search has reached.
    pub queue: Row,
    /// The last number that chance gave.
    pub chance: u32,
    /// The work of relabels since all labels were exact.
    pub since: u64,
    /// How many looks and pushes are left.
    pub budget: u64,
}

impl Engine {
    /// An engine for these links that has pushed nothing. Takes memory for some numbers a node.
    pub fn new(
        alloc: Global,
        links: PackedLinks,
        nodes: u32,
        direction: PushDirection,
    ) -> Result<Engine, NoMemory> {
        let size = nodes as usize + 2;
        Ok(Engine {
            links,
            nodes,
            direction,
            labels: vec![in alloc; 0u32; power_from(size)]?,
            currents: vec![in alloc; 0u32; size]?,
            excess: vec![in alloc; 0u64; size]?,
            buckets: Buckets::new(alloc, size)?,
            queue: Row::new(alloc, size)?,
            chance: 12_345,
            since: 0,
            budget: 0,
        })
    }

    /// The links, with what has been pushed over them.
    pub fn into_links(self) -> PackedLinks {
        let Engine {
            links,
            nodes: _,
            direction: _,
            labels: _,
            currents: _,
            excess: _,
            buckets: _,
            queue: _,
            chance: _,
            since: _,
            budget: _,
        } = self;
        links
    }

    /// The label of a node.
    #[inline(always)]
    pub fn label(&self, node: u32) -> u32 {
        read(&self.labels, node, 0)
    }

    /// The excess of a node.
    #[inline(always)]
    pub fn excess_at(&self, node: u32) -> u64 {
        read(&self.excess, node, 0)
    }

    /// Takes from the budget.
    #[inline(always)]
    pub fn spend(&mut self, work: u32) {
        self.budget = self.budget.saturating_sub(u64::from(work));
    }

    /// Pushes as much to the goal as can come there, and leaves at nodes on the way what cannot. If the budget ends first, more could come.
    pub fn push_to_goal(&mut self, most: u64) {
        self.label_all();
        self.saturate();
        for _ in 0..self.budget {
            let top = self.buckets.top;
            if self.budget == 0 || top == 0 {
                return;
            }
            self.spend(1);
            let node = self.buckets.take_active(top);
            if node == 0 {
                self.buckets.top = top.wrapping_sub(1);
            } else if self.label(node) == top {
                self.discharge(node);
                if self.since > most {
                    self.label_all();
                }
            }
        }
    }

    /// For each node whether it is on the source's side of a cut. Once no more can come to the goal, this is a minimum cut: no excess leaves the
    /// nodes above a label that none has, and giving back goes among these alone. Takes memory for a mark a node.
    pub fn cut(&self, alloc: Global) -> Result<Vec<bool>, NoMemory> {
        let gap = self.buckets.gap();
        let mut marks = vec![in alloc; false; self.nodes as usize + 1]?;
        for node in 1..self.nodes.wrapping_add(1) {
            let is_near_base = self.label(node) >= gap;
            write(&mut marks, node, is_near_base != self.direction.is_reversed);
        }
        Ok(marks)
    }

    /// Pushes over each link of the base as much as it takes.
    fn saturate(&mut self) {
        let base = self.direction.base;
        for place in self.links.start(base)..self.links.end(base) {
            let word = self.links.at(place).word;
            let node = head_of(word);
            if self.direction.can_leave(word) && self.label(node) < self.nodes {
                let amount = self.links.push(self.direction, place, u64::MAX);
                self.receive(node, amount);
            }
        }
    }

    /// Adds to the excess of a node, which becomes active.
    #[inline(always)]
    pub fn receive(&mut self, node: u32, amount: u64) {
        let before = self.excess_at(node);
        if before == 0 && node != self.direction.goal {
            let label = self.label(node);
            self.buckets.wake(node, label);
        }
        write(&mut self.excess, node, before.wrapping_add(amount));
    }
}
