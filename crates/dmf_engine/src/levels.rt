//! The cuts between the levels of a breadth-first search.
use crate::direction::PushDirection;
use crate::links::{PackedLinks, head_of};
use crate::list::{Row, fill, read, write};
use dmf_state::NoMemory;
use std::alloc::Global;

/// The least cuts between two levels of a breadth-first search from an end.
#[derive(Clone, Copy)]
pub struct LevelCuts {
    /// The least of those with fewer nodes on the source's side.
    near_source: u64,
    /// The least of the others.
    near_sink: u64,
}

impl LevelCuts {
    /// The least of all: no more flow than this is left.
    pub fn least(self) -> u64 {
        self.near_source.min(self.near_sink)
    }

    /// From the end with the lesser cut near it, since then less excess has to be given back; from the sink if they are equal.
    pub fn direction(self, source: u32, sink: u32) -> PushDirection {
        if self.near_sink <= self.near_source {
            PushDirection::backward(source, sink)
        } else {
            PushDirection::forward(source, sink)
        }
    }

    /// Counts a cut in.
    fn count(&mut self, is_near_source: bool, capacity: u64) {
        if is_near_source {
            self.near_source = self.near_source.min(capacity);
        } else {
            self.near_sink = self.near_sink.min(capacity);
        }
    }
}

/// A breadth-first search.
#[derive(Drop)]
struct Levels {
    nodes: u32,
    /// The level of each node from 1 on, or 0.
    labels: Vec<u32>,
    /// The nodes that were reached.
    queue: Row,
}

/// Finds the cuts between the levels from either end, in what is left of the links. Takes memory for two numbers a node.
pub fn find_level_cuts(
    alloc: Global,
    links: &PackedLinks,
    nodes: u32,
    forward: PushDirection,
) -> Result<LevelCuts, NoMemory> {
    let size = nodes as usize + 2;
    let mut levels = Levels {
        nodes,
        labels: vec![in alloc; 0u32; size]?,
        queue: Row::new(alloc, size)?,
    };
    let mut cuts = LevelCuts {
        near_source: u64::MAX,
        near_sink: u64::MAX,
    };
    levels.find_cuts(links, forward, &mut cuts);
    levels.find_cuts(
        links,
        PushDirection::backward(forward.base, forward.goal),
        &mut cuts,
    );
    Ok(cuts)
}

impl Levels {
    /// Counts the cuts between the levels from the base on, up to the level of the goal.
    fn find_cuts(&mut self, links: &PackedLinks, direction: PushDirection, cuts: &mut LevelCuts) {
        fill(&mut self.labels, 0);
        self.queue.truncate(0);
        self.queue.push(direction.base);
        write(&mut self.labels, direction.base, 1);
        let mut level = 1;
        let mut capacity = 0u64;
        for index in 0..self.nodes.wrapping_add(1) {
            let node = self.queue.at(index);
            if self.label(node) != level {
                let is_near_base = index <= self.nodes / 2;
                cuts.count(is_near_base != direction.is_reversed, capacity);
                capacity = 0;
                level = self.label(node);
                if node == 0 || level == self.label(direction.goal) {
                    return;
                }
            }
            capacity = capacity.wrapping_add(self.reach(links, direction, node, level));
        }
    }

    #[inline(always)]
    fn label(&self, node: u32) -> u32 {
        read(&self.labels, node, 0)
    }

    /// Labels the next level's nodes to which excess can leave a node, and returns how much can.
    fn reach(
        &mut self,
        links: &PackedLinks,
        direction: PushDirection,
        node: u32,
        level: u32,
    ) -> u64 {
        let next = level.wrapping_add(1);
        let mut capacity = 0u64;
        for place in links.start(node)..links.end(node) {
            let word = links.at(place).word;
            if direction.can_leave(word) {
                let head = head_of(word);
                if self.label(head) == 0 {
                    write(&mut self.labels, head, next);
                    self.queue.push(head);
                }
                if self.label(head) == next {
                    capacity = capacity.wrapping_add(links.room(direction, place));
                }
            }
        }
        capacity
    }
}
