//! The second phase: what cannot come to the goal goes back to where it came from.
use crate::engine::Engine;
use crate::links::head_of;
use crate::list::{Row, fill, read, within, write};
use dmf_state::NoMemory;
use std::alloc::Global;

/// The label of a node that no walk has reached.
const NEW: u32 = 0;
/// The label of a node on the walk.
const ON_WALK: u32 = 1;
/// The label of a node from which all has been walked.
const DONE: u32 = 2;

/// A walk back over links that carry flow.
#[derive(Drop)]
struct Walk {
    /// The places of its links.
    places: Row,
    /// The nodes that are done, each after those to which it can give its excess back.
    done: Row,
}

/// The part of a walk that is a cycle.
#[derive(Clone, Copy)]
struct Cycle {
    /// The index in the walk of its first link.
    start: u32,
    /// The least flow on it.
    amount: u64,
}

impl Engine {
    /// Gives back all excess: takes flow off the cycles on which it could run, and then gives back node by node. `false` if the budget
    /// ended first. Takes memory for two numbers a node.
    pub fn give_back(&mut self, alloc: Global) -> Result<bool, NoMemory> {
        let size = self.nodes as usize + 2;
        let mut walk = Walk {
            places: Row::new(alloc, size)?,
            done: Row::new(alloc, size)?,
        };
        fill(&mut self.labels, NEW);
        self.begin_walks();
        for node in 1..self.nodes.wrapping_add(1) {
            if self.excess_at(node) != 0
                && self.label(node) == NEW
                && !self.walk_from(&mut walk, node)
            {
                return Ok(false);
            }
        }
        self.give_back_all(&walk.done);
        Ok(true)
    }

    /// No walk goes on at either end, and at each other node it begins with the first link.
    fn begin_walks(&mut self) {
        for node in 1..self.nodes.wrapping_add(1) {
            write(&mut self.currents, node, self.links.start(node));
        }
        for end in [self.direction.base, self.direction.goal] {
            write(&mut self.labels, end, DONE);
            write(&mut self.excess, end, 0);
        }
    }

    /// Walks until the root is done, and takes each cycle off. `false` if the budget ended first.
    fn walk_from(&mut self, walk: &mut Walk, root: u32) -> bool {
        let mut node = root;
        write(&mut self.labels, root, ON_WALK);
        for _ in 0..self.budget {
            if self.budget == 0 {
                break;
            }
            let place = self.next_step(node);
            if place >= self.links.end(node) {
                write(&mut self.labels, node, DONE);
                walk.done.push(node);
                if node == root {
                    return true;
                }
                node = self.step_back(walk);
            } else {
                walk.places.push(place);
                let head = head_of(self.links.at(place).word);
                if self.label(head) == NEW {
                    write(&mut self.labels, head, ON_WALK);
                    node = head;
                } else {
                    node = self.take_off_cycle(walk, head);
                }
            }
        }
        false
    }

    /// The first place from the current arc on whose link carries flow from a node that is not done, or the end.
    fn next_step(&mut self, node: u32) -> u32 {
        let start = read(&self.currents, node, 0);
        let end = self.links.end(node);
        let direction = self.direction;
        let mut place = start;
        for link in within(&self.links.all, start, end) {
            if direction.takes_back(link.word)
                && read(&self.labels, head_of(link.word), 0) != DONE
            {
                break;
            }
            place = place.wrapping_add(1);
        }
        write(&mut self.currents, node, place);
        self.spend(place.wrapping_sub(start).wrapping_add(1));
        place
    }

    /// Takes the last link off the walk, passes it, and answers its tail.
    fn step_back(&mut self, walk: &mut Walk) -> u32 {
        let count = walk.places.len().wrapping_sub(1);
        let place = walk.places.at(count);
        walk.places.truncate(count);
        let tail = self.links.tail(place);
        write(&mut self.currents, tail, place.wrapping_add(1));
        tail
    }

    /// Takes flow off the cycle that the walk has closed at this node, and answers where the walk goes on: at the tail of the first
    /// link that carries no more.
    fn take_off_cycle(&mut self, walk: &mut Walk, node: u32) -> u32 {
        let cycle = self.cycle(walk, node);
        let keep = self.lower(walk, cycle);
        for index in keep..walk.places.len() {
            if index != keep {
                let tail = self.links.tail(walk.places.at(index));
                write(&mut self.labels, tail, NEW);
            }
        }
        let place = walk.places.at(keep);
        walk.places.truncate(keep);
        self.links.tail(place)
    }

    /// The cycle of the last links of the walk, from this node on.
    fn cycle(&self, walk: &Walk, node: u32) -> Cycle {
        let mut cycle = Cycle {
            start: 0,
            amount: u64::MAX,
        };
        for index in (0..walk.places.len()).rev() {
            let place = walk.places.at(index);
            cycle.amount = cycle.amount.min(self.links.room(self.direction, place));
            cycle.start = index;
            if self.links.tail(place) == node {
                break;
            }
        }
        cycle
    }

    /// Lowers the flow on each link of the cycle. The index in the walk of the first that carries no more.
    fn lower(&mut self, walk: &Walk, cycle: Cycle) -> u32 {
        let mut keep = walk.places.len();
        for index in (cycle.start..walk.places.len()).rev() {
            let place = walk.places.at(index);
            self.links.push(self.direction, place, cycle.amount);
            if !self.direction.can_leave(self.links.at(place).word) {
                keep = index;
            }
            self.spend(1);
        }
        keep
    }

    /// Gives back the excess of each of these nodes, the last first.
    fn give_back_all(&mut self, done: &Row) {
        for index in (0..done.len()).rev() {
            self.give_back_from(done.at(index));
        }
    }

    /// Gives the excess of a node back over the links that brought it.
    fn give_back_from(&mut self, node: u32) {
        let mut left = self.excess_at(node);
        for place in self.links.start(node)..self.links.end(node) {
            if left == 0 {
                break;
            }
            let word = self.links.at(place).word;
            if self.direction.takes_back(word) {
                let head = head_of(word);
                let amount = self.links.push(self.direction, place, left);
                let given = self.excess_at(head).wrapping_add(amount);
                write(&mut self.excess, head, given);
                left = left.saturating_sub(amount);
            }
        }
        write(&mut self.excess, node, left);
    }
}
