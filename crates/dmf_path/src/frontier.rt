//! A breadth-first search that goes on where it stopped: from its roots, level by level, over open links.
ghost use Rattle.std.specs.Prelude.{◌≡◌, ◌≢◌, ℕ, ◌+◌, ◌-◌, ◌*◌, ◌^◌, ◌≤◌, ◌<◌, true, false, drop, take, IfOk, length, replicate, slice_index, Contains, ◌↔◌};
ghost use Rattle.dmf_node.specs.Node.{IsNode};
ghost use Rattle.dmf_links.specs.LinkTable.{links_of};
ghost use Rattle.dmf_path.specs.BothEnds.{AreJoined, AreJoinedBy, AreTurned};
ghost use Rattle.dmf_path.specs.Frontier.{HasBegun, HasExpanded, IsClean, IsSpread, begun_at, next_label, unlabelled, with_label};
ghost use Rattle.dmf_path.specs.Labels.{AreLabels, AreLabelsFrom, AreQueued, no_label, unlabelled_count};
ghost use Rattle.dmf_path.specs.Searching.{fresh_labels};

use crate::label::{NO_LABEL, take_labels_off};
use crate::open::OpenLinks;
use dmf_links::LinkTable;
use std::alloc::{AllocError, Global};
use std::marker::Model;

/// How far a breadth-first search has come: the labels of the nodes, and a queue of the nodes that have one. Once labels are joined or
/// turned, the queue still has these nodes, though no longer in the order of their labels.
#[derive(Drop)]
pub struct Frontier {
    /// The search began at so many nodes, the first ones of the queue.
    roots: usize,
    /// For each node the number of links from the nearest of these to it, or [`NO_LABEL`].
    labels: Vec<u32>,
    /// The nodes with labels. There is memory for all nodes.
    queue: Vec<u32>,
    /// The search has looked at the links of so many of these nodes.
    done: usize,
    /// How many links it has looked at.
    looked: u64,
}

impl Model for Frontier {
    ghost use Rattle.std.specs.Prelude.{◌*◌, ◌^◌, ◌≤◌, length, take, vec_capacity};
    ghost use Rattle.dmf_path.specs.Labels.{AreQueued};
    ghost use Rattle.dmf_path.specs.Reach.{Reach};

    ghost Value = { Reach };

    ghost view = { λ a. record { roots = take a.roots a.queue.items; labels = a.labels.items; queue = a.queue.items; done = a.done } };

    ghost invariant = { λ a. AreQueued a.labels.items a.queue.items × (length a.labels.items ≤ vec_capacity a.queue)
        × (a.done ≤ length a.queue.items) × (a.looked ≤ a.done * 2 ^ 31) × (a.roots ≤ length a.queue.items) };
}

impl Frontier {
    /// A search among so many nodes that has not begun. Takes memory for two numbers a node.
    pub fn new(alloc: Global, nodes: u32) -> Result<Frontier, AllocError>
        requires { nodes < 2 ^ 31 }
        ensures { IfOk result (IsClean nodes) }
    {
        Ok(Frontier {
            roots: 0,
            labels: vec![in alloc; NO_LABEL; nodes as usize + 1]?,
            queue: Vec::with_capacity(alloc, nodes as usize + 1)?,
            done: 0,
            looked: 0,
        })
    }

    /// A search among no nodes. Takes no memory.
    pub fn none(alloc: Global) -> Frontier {
        Frontier {
            roots: 0,
            labels: Vec::new(alloc),
            queue: Vec::new(alloc),
            done: 0,
            looked: 0,
        }
    }

    /// Begins at a root. No node has a label yet.
    pub fn begin(&mut self, root: u32)
        requires clean { self.old.labels ≡ replicate (length self.old.labels) no_label }
        requires root { root < length self.old.labels }
        ensures { self.new ≡ begun_at root self.old.labels }
    {
        self.roots = 1;
        self.done = 0;
        self.looked = 0;
        self.labels[root as usize] = 0;
        self.queue.clear();
        self.queue.push_reserved(root);
    }

    /// Begins at each of several roots. No node has a label yet.
    pub fn begin_at(&mut self, roots: &[u32])
        requires clean { IsClean (length self.old.labels - 1) self.old }
        requires roots { (v : ℕ) → Contains roots.now v → IsNode (length self.old.labels - 1) v }
        ensures begun { HasBegun (length self.old.labels - 1) self.new }
        ensures roots { (v : ℕ) → Contains self.new.roots v ↔ Contains roots.now v }
    {
        self.done = 0;
        self.looked = 0;
        self.queue.clear();
        let labels = &mut self.labels[..];
        let queue = &mut self.queue;
        for root in roots {
            if labels[*root as usize] == NO_LABEL {
                labels[*root as usize] = 0;
                queue.push_reserved(*root);
            }
        }
        self.roots = self.queue.len();
    }

    /// Removes all labels.
    pub fn unlabel(&mut self)
        ensures { self.new ≡ unlabelled self.old }
    {
        take_labels_off(&mut self.labels, &self.queue);
        self.queue.clear();
        self.roots = 0;
        self.done = 0;
        self.looked = 0;
    }

    /// The labels of the nodes. The first one belongs to number 0, which is no node.
    pub fn labels(&self) -> &[u32]
        ensures { result.now ≡ self.now.labels }
    {
        &self.labels
    }

    /// Takes the labels out of the search.
    pub fn into_labels(self) -> Vec<u32>
        ensures { result.items ≡ self.labels }
    {
        let Frontier { labels, .. } = self;
        labels
    }

    /// The nodes with labels.
    pub fn queue(&self) -> &[u32]
        ensures value { result.now ≡ self.now.queue }
        ensures queued { AreQueued self.now.labels self.now.queue }
    {
        &self.queue
    }

    /// The nodes whose links it has looked at.
    pub fn seen(&self) -> &[u32]
        ensures value { result.now ≡ take self.now.done self.now.queue }
        ensures come { self.now.done ≤ length self.now.queue }
    {
        &self.queue[..self.done]
    }

    /// The nodes with labels whose links it has not looked at.
    pub fn waiting(&self) -> &[u32]
        ensures { result.now ≡ drop self.now.done self.now.queue }
    {
        &self.queue[self.done..]
    }

    /// Whether there are such nodes.
    pub fn has_next(&self) -> bool
        ensures more { result ≡ true → self.now.done < length self.now.queue }
        ensures none { result ≡ false → length self.now.queue ≤ self.now.done }
    {
        self.done < self.queue.len()
    }

    /// How many links it has looked at.
    pub fn looked(&self) -> u64 {
        self.looked
    }

    /// The label of a node.
    pub fn label(&self, node: u32) -> u32
        requires { node < length self.now.labels }
        ensures { result ≡ slice_index self.now.labels node }
    {
        self.labels[node as usize]
    }

    /// Whether a node has a label.
    pub fn has_label(&self, node: u32) -> bool
        requires { node < length self.now.labels }
        ensures has { result ≡ true → slice_index self.now.labels node ≢ no_label }
        ensures none { result ≡ false → slice_index self.now.labels node ≡ no_label }
    {
        self.labels[node as usize] != NO_LABEL
    }

    /// The label of the next node.
    pub fn next_label(&self) -> u32
        requires { self.now.done < length self.now.queue }
        ensures { result ≡ next_label self.now }
    {
        self.labels[self.queue[self.done] as usize]
    }

    /// How many links it will have looked at once it has looked at those of the next node.
    pub fn looked_next(&self, table: &LinkTable) -> u64
        requires ahead { self.now.done < length self.now.queue }
        requires node { slice_index self.now.queue self.now.done ≤ table.now.nodes }
        ensures { result ≤ (self.now.done + 1) * 2 ^ 31 }
    {
        let places = table.places_at(self.queue[self.done]);
        self.looked
            .saturating_add((places.end - places.start) as u64)
    }

    /// Looks at the links of the next node. Those nodes without a label to which open ones lead get the next label, and are queued.
    pub fn expand<O: OpenLinks>(&mut self, table: &LinkTable, opens: &O)
        requires so_far { IsSpread (links_of table.now) (O.flags opens.now) self.old }
        requires ahead { self.old.done < length self.old.queue }
        ensures { HasExpanded (links_of table.now) (O.flags opens.now) self.old self.new }
    {
        let node = self.queue[self.done];
        let places = table.places_at(node);
        let label = self.labels[node as usize] + 1;
        self.done += 1;
        self.looked += (places.end - places.start) as u64;
        let heads = &table.heads[..];
        let labels = &mut self.labels[..];
        let queue = &mut self.queue;
        for place in places.start..places.end {
            let head = heads[place];
            if opens.is_open(place) && labels[head as usize] == NO_LABEL {
                labels[head as usize] = label;
                queue.push_reserved(head);
            }
        }
    }

    /// Labels each node that open links reach from the root with its distance from the root, level by level, until node `stop` has a
    /// label. No node has one yet. Node 0 never has one.
    pub fn label_from<O: OpenLinks>(&mut self, table: &LinkTable, opens: &O, root: u32, stop: u32)
        requires one_flag_each { length (O.flags opens.now) ≡ length table.now.heads.items }
        requires clean { IsClean table.now.nodes self.old }
        requires root { IsNode table.now.nodes root }
        requires stop { stop ≤ table.now.nodes }
        ensures { AreLabels (links_of table.now) (O.flags opens.now) root stop self.new.labels }
    {
        self.begin(root);
        let _ended = self.label_within(table, opens, stop, u64::MAX);
    }

    /// Goes on in this way with a search that has begun, but looks at no more than `most` links. If these are too few, some labels are
    /// missing, and the result is `false`.
    pub fn label_within<O: OpenLinks>(
        &mut self,
        table: &LinkTable,
        opens: &O,
        stop: u32,
        most: u64,
    ) -> bool
        requires so_far { IsSpread (links_of table.now) (O.flags opens.now) self.old }
        requires stop { stop ≤ table.now.nodes }
        ensures labels { result ≡ true → AreLabelsFrom (links_of table.now) (O.flags opens.now) self.old.roots stop self.new.labels }
        ensures roots { self.new.roots ≡ self.old.roots }
        ensures spread { IsSpread (links_of table.now) (O.flags opens.now) self.new }
        ensures enough { 2 ^ 62 ≤ most → result ≡ true }
        ensures long { length self.new.labels ≡ table.now.nodes + 1 }
    {
        while self.has_next() && !self.has_label(stop) {
            if self.looked_next(table) > most {
                return false;
            }
            self.expand(table, opens);
        }
        true
    }

    /// Gives each node the number of nodes less its distance from the start, or 0 if it has none. No node has a label yet.
    pub fn turn(&mut self, from_start: &Frontier, nodes: u32)
        requires nodes { nodes < 2 ^ 31 }
        requires one_each { length from_start.now.labels ≡ nodes + 1 }
        requires clean { IsClean nodes self.old }
        ensures { AreTurned nodes from_start.now.labels self.new.labels }
    {
        self.roots = 0;
        self.done = 0;
        self.looked = 0;
        self.queue.clear();
        let distances = from_start.labels();
        let labels = &mut self.labels[..];
        let queue = &mut self.queue;
        for node in 1..nodes + 1 {
            labels[node as usize] = nodes.saturating_sub(distances[node as usize]);
            queue.push_reserved(node);
        }
    }

    /// Gives each node that has only a label of the start's side one of this side: the rest of the length of a shortest path.
    pub fn join(&mut self, from_start: &Frontier, long: u32)
        requires one_label_each { length self.old.labels ≡ length from_start.now.labels }
        requires counted { length self.old.queue + unlabelled_count self.old.labels ≤ length self.old.labels }
        requires labelled { (i : ℕ) → i < length from_start.now.queue
            → slice_index from_start.now.labels (slice_index from_start.now.queue i) ≢ no_label }
        requires small { long < no_label }
        ensures joined { AreJoined long self.old.labels from_start.now.labels self.new.labels }
        ensures counted { length self.new.queue + unlabelled_count self.new.labels ≤ length self.new.labels }
    {
        let distances = from_start.labels();
        let nodes = from_start.queue();
        let labels = &mut self.labels[..];
        let queue = &mut self.queue;
        for node in nodes {
            if labels[*node as usize] == NO_LABEL {
                labels[*node as usize] = long.saturating_sub(distances[*node as usize]);
                queue.push_reserved(*node);
            }
        }
    }

    /// Gives each node that has only a label of the other search one of this: so many links more than that.
    pub fn join_before(&mut self, before: &Frontier, long: u32)
        requires one_label_each { length self.old.labels ≡ length before.now.labels }
        requires counted { length self.old.queue + unlabelled_count self.old.labels ≤ length self.old.labels }
        requires small { (v : ℕ) → slice_index before.now.labels v ≢ no_label → long + slice_index before.now.labels v < no_label }
        requires labelled { (i : ℕ) → i < length before.now.queue
            → slice_index before.now.labels (slice_index before.now.queue i) ≢ no_label }
        ensures { AreJoinedBy (λ label. long + label) self.old.labels before.now.labels self.new.labels }
    {
        let distances = before.labels();
        let nodes = before.queue();
        let labels = &mut self.labels[..];
        let queue = &mut self.queue;
        for node in nodes {
            if labels[*node as usize] == NO_LABEL {
                labels[*node as usize] = long + distances[*node as usize];
                queue.push_reserved(*node);
            }
        }
    }

    /// Removes all labels, and gives these two nodes the label 0.
    pub fn label_ends(&mut self, nodes: u32, start: u32, goal: u32)
        requires one_each { length self.old.labels ≡ nodes + 1 }
        requires start { IsNode nodes start }
        requires goal { IsNode nodes goal }
        ensures { self.new.labels ≡ fresh_labels nodes start goal }
    {
        self.unlabel();
        self.labels[start as usize] = 0;
        self.labels[goal as usize] = 0;
        self.queue.push_reserved(start);
        self.queue.push_reserved(goal);
    }

    /// Gives another label to a node that has one.
    pub fn set_label(&mut self, node: u32, label: u32)
        requires within { node < length self.old.labels }
        requires has { slice_index self.old.labels node ≢ no_label }
        ensures { self.new ≡ with_label self.old node label }
    {
        self.labels[node as usize] = label;
    }
}
