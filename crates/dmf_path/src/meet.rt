//! Two breadth-first searches meet: one from the goal, against the links, and one from the start, along them.
ghost use Rattle.std.specs.Prelude.{◌≡◌, ◌≢◌, ℕ, ◌+◌, ◌≤◌, ◌<◌, None, Some, length, slice_index};
ghost use Rattle.dmf_links.specs.LinkTable.{links_of};
ghost use Rattle.dmf_path.specs.BothEnds.{AreNearing, HasExpandedLevel, HaveGoneOn};
ghost use Rattle.dmf_path.specs.Frontier.{AreApart, IsAtRest, IsSpread};
ghost use Rattle.dmf_path.specs.Labels.{no_label};
ghost use Rattle.dmf_path.specs.Reach.{root_of};
ghost use Rattle.dmf_path.specs.Searching.{IsParted};

use crate::frontier::Frontier;
use crate::label::NO_LABEL;
use crate::mark::{mark_labelled, mark_unlabelled};
use crate::open::{Flagged, OpenByRoom, OpenLinks};
use crate::residual::Residual;
use dmf_links::LinkTable;

/// Labels the nodes from both ends until a node has a label of both searches. Returns that node, or `None` if no path leads from the
/// start to the goal: then marks the nodes on the start's side.
pub fn meet(
    links: &Residual,
    to_goal: &mut Frontier,
    from_start: &mut Frontier,
    marks: &mut [bool],
) -> Option<u32>
    requires { AreNearing links.now to_goal.old from_start.old }
    ensures on { HaveGoneOn links.now to_goal.old from_start.old to_goal.new from_start.new result }
    ensures none { result ≡ None → IsParted (links_of links.now.table.value) links.now.rooms.items (root_of from_start.old) (root_of to_goal.old) marks.new }
    ensures kept { result ≢ None → marks.new ≡ marks.old }
{
    while to_goal.has_next() {
        if !from_start.has_next() {
            mark_labelled(from_start.labels(), marks);
            return None;
        }
        let met = expand_one(links, to_goal, from_start);
        if met.is_some() {
            return met;
        }
    }
    mark_unlabelled(to_goal.labels(), marks);
    None
}

/// Expands the next level of the search whose waiting nodes have fewer links.
fn expand_one(links: &Residual, to_goal: &mut Frontier, from_start: &mut Frontier) -> Option<u32>
    requires nearing { AreNearing links.now to_goal.old from_start.old }
    requires goal_ahead { to_goal.old.done < length to_goal.old.queue }
    requires start_ahead { from_start.old.done < length from_start.old.queue }
    ensures on { HaveGoneOn links.now to_goal.old from_start.old to_goal.new from_start.new result }
    ensures nearing { result ≡ None → AreNearing links.now to_goal.new from_start.new }
    ensures further { result ≡ None → to_goal.old.done + from_start.old.done < to_goal.new.done + from_start.new.done }
{
    let table = &links.table;
    if waiting_links(table, from_start) < waiting_links(table, to_goal) {
        return from_start.expand_level(table, &OpenByRoom(&links.rooms), to_goal.labels());
    }
    to_goal.expand_level(table, &Flagged(&links.flags), from_start.labels())
}

impl Frontier {
    /// Looks at the links of the nodes on the next level, until one of the nodes to which they lead also has a label of the other search.
    /// Returns that node.
    fn expand_level<O: OpenLinks>(
        &mut self,
        table: &LinkTable,
        opens: &O,
        others: &[u32],
    ) -> Option<u32>
        requires one_label_each { length others.now ≡ table.now.nodes + 1 }
        requires so_far { IsSpread (links_of table.now) (O.flags opens.now) self.old }
        requires ahead { self.old.done < length self.old.queue }
        requires at_rest { IsAtRest self.old.labels self.old.queue self.old.done }
        requires apart { AreApart self.old.labels others.now }
        ensures { HasExpandedLevel (links_of table.now) (O.flags opens.now) self.old self.new others.now result }
    {
        let level = self.next_label();
        while self.has_next() && self.next_label() == level {
            let before = self.queue().len();
            self.expand(table, opens);
            let met = first_labelled(&self.queue()[before..], others);
            if met.is_some() {
                return met;
            }
        }
        None
    }
}

/// The first of the nodes that has a label.
fn first_labelled(nodes: &[u32], labels: &[u32]) -> Option<u32>
    requires { (i : ℕ) → i < length nodes.now → slice_index nodes.now i < length labels.now }
    ensures none { result ≡ None → (i : ℕ) → i < length nodes.now → slice_index labels.now (slice_index nodes.now i) ≡ no_label }
    ensures some { (v : ℕ) → result ≡ Some v → (slice_index labels.now v ≢ no_label) × (i : ℕ) × (i < length nodes.now) × (slice_index nodes.now i ≡ v) }
{
    for node in nodes {
        if labels[*node as usize] != NO_LABEL {
            return Some(*node);
        }
    }
    None
}

/// The number of links of the waiting nodes. If many wait, each counts as many as a node has on average.
fn waiting_links(table: &LinkTable, frontier: &Frontier) -> u64
    requires { (k : ℕ) → k < length frontier.now.queue → slice_index frontier.now.queue k ≤ table.now.nodes }
{
    let waiting = frontier.waiting();
    if waiting.len() > 64 {
        let average = table.heads.len() as u64 / (u64::from(table.nodes) + 1) + 1;
        return average.saturating_mul(waiting.len() as u64);
    }
    let mut links = 0u64;
    for node in waiting {
        let places = table.places_at(*node);
        links = links.wrapping_add((places.end - places.start) as u64);
    }
    links
}
