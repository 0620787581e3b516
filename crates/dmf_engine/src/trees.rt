//! Two search trees, from the source and from the sink, which are kept from one path to the next (Boykov and Kolmogorov, *An experimental
//! comparison of min-cut/max-flow algorithms for energy minimization in vision*, 2004).
use crate::direction::PushDirection;
use crate::links::{PackedLinks, head_of};
use crate::list::{Ring, within, write};
use crate::members::{FREE, Members, ORPHAN, ROOT};
use dmf_state::NoMemory;
use std::alloc::Global;

/// Both trees, and what was done with them.
#[derive(Drop)]
pub struct Trees {
    /// From the source to the sink.
    pub forward: PushDirection,
    /// The nodes.
    pub members: Members,
    /// The nodes that have lost their parents.
    pub orphans: Ring,
    /// How many times links of a node were looked at for growth.
    pub time: u32,
    /// How many looks and steps may still be taken.
    pub left: u64,
    nodes: u32,
    /// Where the links of the current node are looked at next.
    place: u32,
}

impl Trees {
    /// Trees of the source and the sink alone. Takes memory for some numbers a node.
    pub fn new(alloc: Global, nodes: u32, forward: PushDirection) -> Result<Trees, NoMemory> {
        let size = nodes as usize + 2;
        let mut trees = Trees {
            forward,
            members: Members::new(alloc, size)?,
            orphans: Ring::new(alloc, size)?,
            time: 0,
            left: 0,
            nodes,
            place: 0,
        };
        trees.members.join(forward.base, ROOT, 0, 0, false);
        trees.members.join(forward.goal, ROOT, 0, 0, true);
        Ok(trees)
    }

    /// Sends flow over the paths on which the trees meet. Returns `true` once no path is left, or `false` if it stopped after `most` looks.
    pub fn send_all(&mut self, links: &mut PackedLinks, most: u64) -> bool {
        self.left = most;
        for _ in 0..most {
            let node = self.members.take_active();
            if node == 0 {
                return true;
            }
            let meeting = self.expand(links, node);
            if meeting == FREE {
                self.members.current = 0;
            } else {
                self.members.keep(node);
                self.send(links, meeting);
                self.adopt_all(links);
            }
            if self.left == 0 {
                break;
            }
        }
        false
    }

    /// For each node whether it is in the source's tree. Takes memory for a mark a node.
    pub fn cut(&self, alloc: Global) -> Result<Vec<bool>, NoMemory> {
        let mut marks = vec![in alloc; false; self.nodes as usize + 1]?;
        for node in 1..self.nodes.wrapping_add(1) {
            let is_ahead = self.members.at(node).parent != FREE && !self.members.is_behind(node);
            write(&mut marks, node, is_ahead);
        }
        Ok(marks)
    }

    /// Takes from what is left of the looks.
    #[inline(always)]
    pub fn spend(&mut self, looks: u32) {
        self.left = self.left.saturating_sub(u64::from(looks));
    }

    /// Whether a tree can grow over a link with this word, away from its root.
    #[inline(always)]
    pub fn can_grow(&self, is_behind: bool, word: u32) -> bool {
        if is_behind {
            self.forward.can_come(word)
        } else {
            self.forward.can_leave(word)
        }
    }

    /// Looks at the links of a node, and lets its tree grow over them. The place of the link from the source's tree to the sink's on which
    /// they meet, or `FREE`.
    fn expand(&mut self, links: &PackedLinks, node: u32) -> u32 {
        let own = self.members.at(node);
        let is_behind = self.members.is_behind(node);
        let goes_on = node == self.members.current && !self.members.is_woken;
        let start = if goes_on {
            self.place
        } else {
            links.start(node)
        };
        self.members.is_woken = false;
        self.time = self.time.wrapping_add(1);
        let distance = own.distance.wrapping_add(1);
        let mut meeting = FREE;
        let mut place = start;
        for link in within(&links.all, start, links.end(node)) {
            if self.can_grow(is_behind, link.word) {
                let head = head_of(link.word);
                let other = self.members.at(head);
                if other.parent == FREE {
                    self.members
                        .join(head, link.partner, distance, own.time, is_behind);
                } else if self.members.is_behind(head) != is_behind {
                    meeting = if is_behind { link.partner } else { place };
                    break;
                } else if other.time <= own.time
                    && other.distance > own.distance
                    && other.parent < ROOT
                {
                    self.members.put(head, link.partner, distance, own.time);
                }
            }
            place = place.wrapping_add(1);
        }
        self.place = place;
        self.spend(place.wrapping_sub(start).wrapping_add(1));
        meeting
    }

    /// Sends as much as fits over the path through the link on which the trees meet.
    fn send(&mut self, links: &mut PackedLinks, meeting: u32) {
        let ahead = links.tail(meeting);
        let behind = head_of(links.at(meeting).word);
        let room = links.at(meeting).room;
        let amount = room
            .min(self.room_from(links, ahead))
            .min(self.room_from(links, behind));
        links.push(self.forward, meeting, amount);
        self.send_from(links, ahead, amount);
        self.send_from(links, behind, amount);
    }

    /// The place of the link between a node and its parent, in the direction of the flow.
    #[inline(always)]
    fn link_of(&self, links: &PackedLinks, node: u32, parent: u32) -> u32 {
        if self.members.is_behind(node) {
            parent
        } else {
            links.at(parent).partner
        }
    }

    /// How much fits over the links between a node and its root.
    fn room_from(&self, links: &PackedLinks, node: u32) -> u64 {
        let mut amount = u64::MAX;
        let mut at = node;
        for _ in 0..self.nodes {
            let parent = self.members.at(at).parent;
            if parent >= ROOT {
                break;
            }
            amount = amount.min(links.at(self.link_of(links, at, parent)).room);
            at = head_of(links.at(parent).word);
        }
        amount
    }

    /// Sends an amount over the links between a node and its root. A node whose link to its parent is full now is an orphan.
    fn send_from(&mut self, links: &mut PackedLinks, node: u32, amount: u64) {
        let mut at = node;
        for _ in 0..self.nodes {
            let parent = self.members.at(at).parent;
            if parent >= ROOT {
                break;
            }
            let place = self.link_of(links, at, parent);
            links.push(self.forward, place, amount);
            if !self.forward.can_leave(links.at(place).word) {
                self.lose_parent(at);
            }
            self.spend(1);
            at = head_of(links.at(parent).word);
        }
    }

    /// Makes a node an orphan.
    pub fn lose_parent(&mut self, node: u32) {
        let member = self.members.at(node);
        self.members.put(node, ORPHAN, member.distance, member.time);
        self.orphans.push(node);
    }
}
