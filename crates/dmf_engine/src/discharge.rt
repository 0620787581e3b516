//! Discharging a node: pushes, relabels and gaps.
use crate::engine::Engine;
use crate::links::head_of;
use crate::list::{mask_of, masked, read, within, write};

/// A node that is discharged.
#[derive(Drop)]
struct Discharge {
    /// The node.
    node: u32,
    /// Its excess.
    excess: u64,
    /// Its label.
    label: u32,
    /// Its current arc.
    current: u32,
}

/// The least label to which the inadmissible links of a node lead, and the place of one of those links.
#[derive(Clone, Copy)]
struct Least {
    label: u32,
    place: u32,
    /// 1 if the last of several such links is taken, and 0 if the first is.
    tie: u32,
}

impl Engine {
    /// Pushes the excess of a node to nodes with a label less by one, and relabels it after each round of its links, until no excess is left
    /// or the node is cut off from the goal.
    pub fn discharge(&mut self, node: u32) {
        let mut at = Discharge {
            node,
            excess: self.excess_at(node),
            label: self.label(node),
            current: read(&self.currents, node, 0),
        };
        for _ in 0..self.budget {
            let least = self.go_round(&mut at);
            if at.excess == 0 || self.budget == 0 || !self.relabel(&mut at, least) {
                break;
            }
        }
        write(&mut self.currents, node, at.current);
        write(&mut self.excess, node, at.excess);
    }

    /// Pushes over the admissible links from the current arc once round, until no excess is left. After a whole round, the answer is exact:
    /// labels of other nodes do not change meanwhile.
    fn go_round(&mut self, at: &mut Discharge) -> Least {
        let turn = at.current;
        let mut least = Least {
            label: self.nodes,
            place: turn,
            tie: self.flip(),
        };
        let end = self.links.end(at.node);
        self.go_along(at, end, &mut least);
        if at.excess != 0 {
            at.current = self.links.start(at.node);
            self.go_along(at, turn, &mut least);
        }
        least
    }

    /// Pushes over the admissible links from the current arc up to a place, until no excess is left.
    #[inline(always)]
    fn go_along(&mut self, at: &mut Discharge, end: u32, least: &mut Least) {
        let start = at.current;
        for _ in start..end {
            at.current = self.admissible(at, end, least);
            if at.current >= end || self.push_over(at) {
                break;
            }
            at.current = at.current.wrapping_add(1);
        }
        self.spend(at.current.wrapping_sub(start).wrapping_add(1));
    }

    /// The first place from the current arc on whose link is admissible, or the end. Of the links before it, notes the least label to which
    /// they lead.
    #[inline(always)]
    fn admissible(&self, at: &Discharge, end: u32, least: &mut Least) -> u32 {
        let labels = &self.labels[..];
        if labels.is_empty() {
            return end;
        }
        let mask = mask_of(labels);
        let wanted = at.label.wrapping_sub(1);
        let direction = self.direction;
        let mut place = at.current;
        for link in within(&self.links.all, at.current, end) {
            if direction.can_leave(link.word) {
                let label = masked(labels, link.word, mask);
                if label == wanted {
                    return place;
                }
                if label < least.label.wrapping_add(least.tie) {
                    least.label = label;
                    least.place = place;
                }
            }
            place = place.wrapping_add(1);
        }
        end
    }

    /// Pushes over the current arc. Whether no excess is left.
    #[inline(always)]
    fn push_over(&mut self, at: &mut Discharge) -> bool {
        let head = head_of(self.links.at(at.current).word);
        let amount = self.links.push(self.direction, at.current, at.excess);
        self.receive(head, amount);
        at.excess = at.excess.saturating_sub(amount);
        at.excess == 0
    }

    /// Gives the node the label that is one more than the least to which a link leads. `false` if it is cut off from the goal.
    fn relabel(&mut self, at: &mut Discharge, least: Least) -> bool {
        let degree = self
            .links
            .end(at.node)
            .wrapping_sub(self.links.start(at.node));
        self.since = self.since.wrapping_add(u64::from(degree)).wrapping_add(12);
        self.buckets.leave(at.node, at.label);
        let label = least.label.wrapping_add(1);
        let is_gap = self.buckets.first(at.label) == 0;
        if is_gap {
            self.cut_off_above(at.label);
        }
        if is_gap || label >= self.nodes {
            write(&mut self.labels, at.node, self.nodes);
            return false;
        }
        write(&mut self.labels, at.node, label);
        self.buckets.enter(at.node, label);
        at.label = label;
        at.current = least.place;
        true
    }

    /// 0 or 1, by chance.
    fn flip(&mut self) -> u32 {
        let mut chance = self.chance;
        chance ^= chance << 13;
        chance ^= chance >> 17;
        chance ^= chance << 5;
        self.chance = chance;
        chance >> 31
    }

    /// Cuts all nodes off that have a label above a gap: no path from them to the goal is left.
    fn cut_off_above(&mut self, gap: u32) {
        for label in gap..self.buckets.last {
            self.cut_off(label.wrapping_add(1));
        }
        self.buckets.last = gap.wrapping_sub(1);
    }

    /// Cuts all nodes with a label off.
    fn cut_off(&mut self, label: u32) {
        let mut node = self.buckets.first(label);
        for _ in 0..self.nodes {
            if node == 0 {
                break;
            }
            write(&mut self.labels, node, self.nodes);
            node = self.buckets.next(node);
        }
        self.buckets.empty(label);
    }
}
