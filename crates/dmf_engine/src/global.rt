//! Global relabelling: exact distances to the goal.
use crate::engine::Engine;
use crate::links::head_of;
use crate::list::{fill, read, within, write};

impl Engine {
    /// Labels each node with its distance to the goal, by a breadth-first search.
    pub fn label_all(&mut self) {
        let base = self.direction.base;
        let goal = self.direction.goal;
        self.since = 0;
        self.buckets.clear();
        fill(&mut self.labels, self.nodes);
        write(&mut self.labels, base, self.nodes.wrapping_add(1));
        write(&mut self.labels, goal, 0);
        self.queue.truncate(0);
        self.queue.push(goal);
        for index in 0..self.nodes {
            let node = self.queue.at(index);
            if node == 0 {
                break;
            }
            self.label_neighbours(node);
        }
        write(&mut self.labels, base, self.nodes);
    }

    /// Labels the nodes without a label from which excess can come to a node, and makes the link to it their current arc.
    fn label_neighbours(&mut self, node: u32) {
        let start = self.links.start(node);
        let end = self.links.end(node);
        let label = self.label(node).wrapping_add(1);
        let none = self.nodes;
        let direction = self.direction;
        self.spend(end.wrapping_sub(start));
        let mut place = start;
        for link in within(&self.links.all, start, end) {
            let tail = head_of(link.word);
            if direction.can_come(link.word) && read(&self.labels, tail, 0) == none {
                write(&mut self.labels, tail, label);
                write(&mut self.currents, tail, link.partner);
                self.queue.push(tail);
                self.buckets.enter(tail, label);
                if read(&self.excess, tail, 0) != 0 {
                    self.buckets.wake(tail, label);
                }
            }
            place = place.wrapping_add(1);
        }
    }
}
