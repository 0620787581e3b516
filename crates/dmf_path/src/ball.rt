//! The nodes near a goal.
ghost use Rattle.std.specs.Prelude.{◌≡◌, ◌+◌, ◌≤◌, ◌<◌, ◌^◌, ◌⊎◌, ℕ, true, length, slice_index, IfOk};
ghost use Rattle.dmf_node.specs.Node.{IsNode};
ghost use Rattle.dmf_links.specs.Links.{LiesAt};
ghost use Rattle.dmf_links.specs.LinkTable.{links_of};
ghost use Rattle.dmf_path.specs.Ball.{AreListed, AreNear, AreNodes, IsAround, IsFit, IsFitFor};
ghost use Rattle.dmf_path.specs.Frontier.{IsClean};
ghost use Rattle.dmf_path.specs.Residual.{ResidualLinks, residual_of};
ghost use Rattle.dmf_path.specs.Windows.{AreRanges, AreWindows, IsWithin};

use crate::frontier::Frontier;
use crate::label::NO_LABEL;
use crate::open::Flagged;
use crate::residual::Residual;
use crate::windows::Windows;
use dmf_links::LinkTable;
use std::alloc::{AllocError, Global};
use std::ops::Range;

/// At most so many links are looked at for one goal, or those of the goal, if these are more.
const MOST: u64 = 4096;

/// The nodes near a goal: those that a breadth-first search finds from it, backwards over few links. They tell a walk which links lead to
/// the goal.
#[derive(Drop)]
pub struct Ball {
    /// The search, which began at the goal.
    pub around: Frontier,
    /// The goal.
    pub goal: u32,
    /// The level that the search has not looked through: each node with a lower label is known, and so are all links that lead to it. 0 if
    /// nothing is known.
    pub radius: u32,
    /// Where links lead to nodes.
    pub windows: Windows,
    /// How many links are in the windows of the nodes that are known.
    pub links: u64,
}

impl Ball {
    /// No node is known to be near a goal, nor will any be. Takes no memory.
    pub fn none(alloc: Global) -> Ball
        ensures { (r : ResidualLinks) → IsFit result r }
    {
        Ball {
            around: Frontier::none(alloc),
            goal: 0,
            radius: 0,
            windows: Windows::none(alloc),
            links: 0,
        }
    }

    /// No node is known to be near a goal until [`surround`](Ball::surround) is called. Takes memory for four numbers a node.
    pub fn new(alloc: Global, nodes: u32) -> Result<Ball, AllocError>
        requires { nodes < 2 ^ 31 }
        ensures { IfOk result (λ ball. (r : ResidualLinks) → IsFit ball r) }
    {
        Ok(Ball {
            around: Frontier::new(alloc, nodes)?,
            goal: 0,
            radius: 0,
            windows: Windows::new(alloc, nodes)?,
            links: 0,
        })
    }

    /// Looks for the nodes near this goal, if there is memory for them, and no push is taken back.
    pub fn surround(&mut self, links: &Residual, goal: u32)
        requires fit { IsFit self.old (residual_of links.now) }
        requires goal { IsNode links.now.table.value.nodes goal }
        ensures { IsFitFor self.new (residual_of links.now) goal }
    {
        self.around.unlabel();
        self.goal = goal;
        self.radius = 0;
        if links.takes_back || self.around.labels().len() != links.table.nodes as usize + 1 {
            return;
        }
        self.radius = look_around(links, &mut self.around, goal);
        self.windows.open(links);
        self.links = narrow_at(links, &mut self.windows, self.around.queue());
    }

    /// Looks for them anew, if that is wanted.
    pub fn renew(&mut self, links: &Residual, goal: u32, is_wanted: bool)
        requires fit { IsFitFor self.old (residual_of links.now) goal }
        requires goal { IsNode links.now.table.value.nodes goal }
        ensures { IsFitFor self.new (residual_of links.now) goal }
    {
        if is_wanted {
            self.surround(links, goal);
        }
    }

    /// Forgets what is known, if it is about another goal.
    pub fn keep_for(&mut self, goal: u32)
        ensures fit { (r : ResidualLinks) → IsFit self.old r → IsFit self.new r }
        ensures around { IsAround self.new goal }
    {
        if self.goal != goal {
            self.radius = 0;
        }
    }

    /// Forgets what is known.
    pub fn forget(&mut self)
        ensures fit { (r : ResidualLinks) → IsFit self.new r }
    {
        self.windows.known = false;
        self.radius = 0;
    }
}

/// Searches from the goal, backwards. Returns the level that the search has not looked through.
fn look_around(links: &Residual, around: &mut Frontier, goal: u32) -> u32
    requires goal { IsNode links.now.table.value.nodes goal }
    requires clean { IsClean links.now.table.value.nodes around.old }
    ensures near { AreNear (links_of links.now.table.value) links.now.rooms.items goal result around.new.labels }
    ensures listed { AreListed around.new.labels around.new.queue }
    ensures nodes { AreNodes links.now.table.value.nodes around.new.queue }
{
    around.begin(goal);
    while around.has_next() && is_close(&links.table, around) {
        around.expand(&links.table, &Flagged(&links.flags));
    }
    if around.has_next() {
        return around.next_label();
    }
    NO_LABEL
}

/// Makes the windows of these nodes narrower. Returns how many links are in them, or more.
fn narrow_at(links: &Residual, windows: &mut Windows, nodes: &[u32]) -> u64
    requires nodes { AreNodes links.now.table.value.nodes nodes.now }
    requires known { windows.old.known ≡ true → AreWindows windows.old (residual_of links.now) }
    ensures known { windows.new.known ≡ true → AreWindows windows.new (residual_of links.now) }
{
    let mut count = 0u64;
    for node in nodes {
        count = count.saturating_add(windows.narrow(links, *node));
    }
    count
}

impl Ball {
    /// The places among the links of a node where links that lead there may have room.
    pub fn places_at(&self, table: &LinkTable, node: u32) -> Range<usize>
        requires node { IsNode table.now.nodes node }
        requires ranges { self.now.windows.known ≡ true → AreRanges (links_of table.now) self.now.windows }
        ensures start { slice_index table.now.first.items node ≤ result.start }
        ensures order { result.start ≤ result.end }
        ensures end { result.end ≤ slice_index table.now.first.items (node + 1) }
        ensures within { result.end ≤ length table.now.heads.items }
        ensures left_out { (p : ℕ) → LiesAt (links_of table.now) node p
            → ((result.start ≤ p) × (p < result.end)) ⊎ ((self.now.windows.known ≡ true) × (¬ IsWithin self.now.windows node p)) }
    {
        let all = table.places_at(node);
        if !self.windows.known {
            return all;
        }
        let from = self.windows.from[node as usize] as usize;
        let end = self.windows.end[node as usize] as usize;
        from..end
    }
}

/// Whether the search may look at the links of the next node.
fn is_close(table: &LinkTable, around: &Frontier) -> bool
    requires ahead { around.now.done < length around.now.queue }
    requires node { slice_index around.now.queue around.now.done ≤ table.now.nodes }
{
    around.seen().is_empty() || around.looked_next(table) <= MOST
}
