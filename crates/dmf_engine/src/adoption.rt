//! Other parents for nodes that have lost theirs.
use crate::links::{PackedLinks, head_of};
use crate::list::within;
use crate::members::{FREE, ORPHAN, ROOT};
use crate::trees::Trees;

/// A neighbour that may become a parent.
#[derive(Clone, Copy)]
struct Candidate {
    /// The place of the link to it, or `FREE`.
    place: u32,
    /// How many links lead from it to its root.
    distance: u32,
}

impl Trees {
    /// Finds another parent for each orphan, or takes it out of its tree, as long as looks are left.
    pub fn adopt_all(&mut self, links: &PackedLinks) {
        for _ in 0..self.left {
            let node = self.orphans.take();
            if node == 0 || self.left == 0 {
                break;
            }
            let nearest = self.nearest_parent(links, node);
            if nearest.place == FREE {
                self.release(links, node);
            } else {
                let distance = nearest.distance.wrapping_add(1);
                self.members.put(node, nearest.place, distance, self.time);
            }
        }
    }

    /// The neighbour in the same tree that is nearest to the root, of those that a link with room joins to the node.
    fn nearest_parent(&mut self, links: &PackedLinks, node: u32) -> Candidate {
        let mut nearest = Candidate {
            place: FREE,
            distance: FREE,
        };
        let is_behind = self.members.is_behind(node);
        let mut place = links.start(node);
        for link in within(&links.all, place, links.end(node)) {
            if self.left == 0 {
                break;
            }
            self.spend(1);
            // The tree grows from the neighbour to the node, so against the link.
            if self.can_grow(!is_behind, link.word) {
                let head = head_of(link.word);
                if self.members.is_behind(head) == is_behind
                    && self.members.at(head).parent != FREE
                {
                    let distance = self.distance(links, head);
                    if distance < nearest.distance {
                        nearest = Candidate { place, distance };
                    }
                }
            }
            place = place.wrapping_add(1);
        }
        nearest
    }

    /// Takes a node out of its tree: its children are orphans, and the neighbours from which the tree can grow to it again are active.
    fn release(&mut self, links: &PackedLinks, node: u32) {
        let is_behind = self.members.is_behind(node);
        let start = links.start(node);
        let end = links.end(node);
        for link in within(&links.all, start, end) {
            let head = head_of(link.word);
            let parent = self.members.at(head).parent;
            if parent != FREE && self.members.is_behind(head) == is_behind {
                if self.can_grow(!is_behind, link.word) {
                    self.members.wake(head);
                }
                if parent == link.partner {
                    self.lose_parent(head);
                }
            }
        }
        self.spend(end.wrapping_sub(start));
        self.members.put(node, FREE, 0, 0);
    }

    /// How many links lead from a node to its root, or `FREE` if there is an orphan on the way. Stores what it finds.
    fn distance(&mut self, links: &PackedLinks, node: u32) -> u32 {
        let mut count = 0u32;
        let mut at = node;
        for _ in 0..self.left {
            let member = self.members.at(at);
            if member.time == self.time {
                count = count.wrapping_add(member.distance);
                break;
            }
            count = count.wrapping_add(1);
            if member.parent == ROOT {
                self.members.put(at, ROOT, 1, self.time);
                break;
            }
            if member.parent >= ORPHAN {
                return FREE;
            }
            at = head_of(links.at(member.parent).word);
            self.spend(1);
        }
        self.store_distances(links, node, count);
        count
    }

    /// Stores the distances of a node and of those above it up to one whose distance is known.
    fn store_distances(&mut self, links: &PackedLinks, node: u32, distance: u32) {
        let mut at = node;
        let mut distance = distance;
        for _ in 0..distance {
            let member = self.members.at(at);
            if member.time == self.time {
                break;
            }
            self.members.put(at, member.parent, distance, self.time);
            distance = distance.wrapping_sub(1);
            at = head_of(links.at(member.parent).word);
        }
    }
}
