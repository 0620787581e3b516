//! Phases of shortest augmenting paths, which find most of the flow of many networks.
use crate::direction::PushDirection;
use crate::links::{PackedLinks, head_of};
use crate::list::{Row, fill, mask_of, masked, power_from, read, within, write};
use dmf_state::NoMemory;
use std::alloc::Global;

/// The label of a node from which no residual path to the sink is known.
const FAR: u32 = u32::MAX;
/// The most links of an augmenting path: longer ones cost more than pushes.
const LONGEST: u32 = 32;
/// The source is near the sink up to this distance.
const NEAR: u32 = 100;

/// Labels and current arcs, and what the phases have done so far.
#[derive(Drop)]
pub struct Phases {
    /// From the source to the sink.
    forward: PushDirection,
    nodes: u32,
    /// The distance of each node to the sink. Their number is a power of two, so that a word's label is found without a test.
    labels: Vec<u32>,
    /// The current arc of each node, as a place.
    currents: Vec<u32>,
    /// The nodes that a breadth-first search has reached.
    queue: Row,
    /// The places of the links of the walk from the source.
    walk: Row,
    /// How many paths were found, and how many links looked at.
    done: Work,
}

/// Paths that were found, and looks that were taken for them.
#[derive(Clone, Copy)]
struct Work {
    paths: u64,
    looks: u64,
}

const NOTHING: Work = Work { paths: 0, looks: 0 };

/// How the phases ended.
#[derive(Clone, Copy)]
pub struct PhasesEnd {
    /// Whether no residual path is left.
    pub is_greatest: bool,
    /// Whether the source was near the sink before them.
    pub was_near: bool,
    /// Whether they found a path for every 64 nodes.
    pub found_many: bool,
    /// Whether the last phase found more paths than the first.
    pub found_more: bool,
}

impl Work {
    fn since(self, before: Work) -> Work {
        Work {
            paths: self.paths.saturating_sub(before.paths),
            looks: self.looks.saturating_sub(before.looks),
        }
    }

    /// Whether another phase is likely to pay after one that did this: it found a path for every 128 looks or 8 nodes, or took less than a
    /// sixteenth of a look at each link, or found less than two fifths of the paths of the phase before, so that few are left.
    fn pays(self, before: Work, nodes: u32, links: u64) -> bool {
        self.paths.saturating_mul(128) >= self.looks
            || self.paths.saturating_mul(8) >= u64::from(nodes)
            || self.looks.saturating_mul(16) < links
            || self.paths.saturating_mul(5) < before.paths.saturating_mul(2)
    }
}

impl Phases {
    /// Takes memory for some numbers a node.
    pub fn new(alloc: Global, nodes: u32, forward: PushDirection) -> Result<Phases, NoMemory> {
        let size = nodes as usize + 2;
        Ok(Phases {
            forward,
            nodes,
            labels: vec![in alloc; FAR; power_from(size)]?,
            currents: vec![in alloc; 0u32; size]?,
            queue: Row::new(alloc, size)?,
            walk: Row::new(alloc, LONGEST as usize)?,
            done: NOTHING,
        })
    }

    /// Sends flow over shortest paths, phase after phase, while that pays.
    pub fn send_all(&mut self, links: &mut PackedLinks) -> PhasesEnd {
        let mut end = PhasesEnd {
            is_greatest: false,
            was_near: false,
            found_many: false,
            found_more: false,
        };
        let mut first = NOTHING;
        let mut last = NOTHING;
        for phase in 0..LONGEST {
            let before = self.done;
            let distance = self.label_all(links);
            end.is_greatest = distance == FAR;
            if phase == 0 {
                end.was_near = distance <= NEAR;
            }
            if distance > LONGEST {
                break;
            }
            self.block(links);
            let work = self.done.since(before);
            if phase == 0 {
                first = work;
            }
            let pays = work.pays(last, self.nodes, links.all.len() as u64);
            last = work;
            if !pays {
                break;
            }
        }
        end.found_many = self.done.paths.saturating_mul(64) >= u64::from(self.nodes);
        end.found_more = last.paths > first.paths;
        end
    }

    /// For each node whether no residual path leads from it to the sink. Takes memory for a mark a node.
    pub fn cut(&self, alloc: Global) -> Result<Vec<bool>, NoMemory> {
        let mut marks = vec![in alloc; false; self.nodes as usize + 1]?;
        for node in 1..self.nodes.wrapping_add(1) {
            write(&mut marks, node, read(&self.labels, node, 0) == FAR);
        }
        Ok(marks)
    }

    /// Labels nodes with their distances to the sink, by a breadth-first search that ends at the source, and answers the source's.
    fn label_all(&mut self, links: &PackedLinks) -> u32 {
        fill(&mut self.labels, FAR);
        write(&mut self.labels, self.forward.goal, 0);
        self.queue.truncate(0);
        self.queue.push(self.forward.goal);
        for index in 0..self.nodes {
            let node = self.queue.at(index);
            if node == 0 || read(&self.labels, self.forward.base, 0) != FAR {
                break;
            }
            self.label_neighbours(links, node);
        }
        read(&self.labels, self.forward.base, 0)
    }

    /// Labels the nodes without a label from which a link with room leads to a node.
    fn label_neighbours(&mut self, links: &PackedLinks, node: u32) {
        let start = links.start(node);
        let end = links.end(node);
        let label = read(&self.labels, node, 0).wrapping_add(1);
        self.look(end.wrapping_sub(start));
        for link in within(&links.all, start, end) {
            let tail = head_of(link.word);
            if self.forward.can_come(link.word) && read(&self.labels, tail, 0) == FAR {
                write(&mut self.labels, tail, label);
                write(&mut self.currents, tail, links.start(tail));
                self.queue.push(tail);
            }
        }
    }

    /// Sends flow until each path of the labels has a full link. Each turn finds a link of the walk, or passes one for good.
    fn block(&mut self, links: &mut PackedLinks) {
        self.walk.truncate(0);
        let mut node = self.forward.base;
        for _ in 0..self.most_turns(links) {
            let place = self.next_link(links, node);
            if place < links.end(node) {
                self.walk.push(place);
                node = head_of(links.at(place).word);
                if node == self.forward.goal {
                    node = self.send(links);
                }
            } else if node == self.forward.base {
                break;
            } else {
                write(&mut self.labels, node, FAR);
                node = self.step_back(links);
            }
        }
    }

    /// More turns than a phase takes: each link is passed at most once, and each path fills a link.
    fn most_turns(&self, links: &PackedLinks) -> u64 {
        let each = u64::from(LONGEST).wrapping_add(2);
        (links.all.len() as u64)
            .wrapping_add(2)
            .saturating_mul(each)
    }

    /// The first place from the current arc on whose link leads to a node one nearer to the sink, or the end. It becomes the current arc.
    #[inline(always)]
    fn next_link(&mut self, links: &PackedLinks, node: u32) -> u32 {
        let start = read(&self.currents, node, 0);
        let place = self.admissible(links, node, start);
        write(&mut self.currents, node, place);
        self.look(place.wrapping_sub(start).wrapping_add(1));
        place
    }

    #[inline(always)]
    fn admissible(&self, links: &PackedLinks, node: u32, start: u32) -> u32 {
        let end = links.end(node);
        let labels = &self.labels[..];
        if labels.is_empty() {
            return end;
        }
        let mask = mask_of(labels);
        let wanted = read(labels, node, 0).wrapping_sub(1);
        let mut place = start;
        for link in within(&links.all, start, end) {
            if self.forward.can_leave(link.word) && masked(labels, link.word, mask) == wanted {
                return place;
            }
            place = place.wrapping_add(1);
        }
        end
    }

    /// Takes the last link off the walk, passes it, and answers its tail.
    fn step_back(&mut self, links: &PackedLinks) -> u32 {
        let count = self.walk.len().wrapping_sub(1);
        let place = self.walk.at(count);
        self.walk.truncate(count);
        let tail = links.tail(place);
        write(&mut self.currents, tail, place.wrapping_add(1));
        tail
    }

    /// Sends as much as fits over the walk, and answers where it goes on: at the tail of the first link that is full now.
    fn send(&mut self, links: &mut PackedLinks) -> u32 {
        let amount = self.room_on_walk(links);
        let keep = self.push_along(links, amount);
        let count = self.walk.len();
        self.done.paths = self.done.paths.wrapping_add(1);
        self.look(count);
        let tail = links.tail(self.walk.at(keep));
        self.walk.truncate(keep);
        tail
    }

    /// How much fits over the walk.
    fn room_on_walk(&self, links: &PackedLinks) -> u64 {
        let mut amount = u64::MAX;
        for index in 0..self.walk.len() {
            amount = amount.min(links.at(self.walk.at(index)).room);
        }
        amount
    }

    /// Pushes an amount over each link of the walk. The index in the walk of the first that is full now.
    fn push_along(&self, links: &mut PackedLinks, amount: u64) -> u32 {
        let mut keep = 0;
        for index in (0..self.walk.len()).rev() {
            let place = self.walk.at(index);
            links.push(self.forward, place, amount);
            if !self.forward.can_leave(links.at(place).word) {
                keep = index;
            }
        }
        keep
    }

    /// Counts looks.
    #[inline(always)]
    fn look(&mut self, looks: u32) {
        self.done.looks = self.done.looks.wrapping_add(u64::from(looks));
    }
}
