//! A phase of the search, which finds the next path: the walk goes on, or the nodes get new labels and it begins again.
ghost use Rattle.std.specs.Prelude.{◌≡◌, ◌≢◌, ℕ, List, Some, true, false, []};
ghost use Rattle.dmf_node.specs.Node.{IsNode};
ghost use Rattle.dmf_links.specs.LinkTable.{links_of};
ghost use Rattle.dmf_path.specs.Going.{Goes, IsRelabelledFor};
ghost use Rattle.dmf_path.specs.Ball.{IsAround};
ghost use Rattle.dmf_path.specs.Walk.{IsWalk};
ghost use Rattle.dmf_path.specs.Held.{way_of, with_slots};
ghost use Rattle.dmf_path.specs.Residual.{residual_of, with_settled_rooms};
ghost use Rattle.dmf_path.specs.Searching.{sought, IsReady, IsParted, Lead, fresh_labels};
ghost use Rattle.dmf_path.specs.Through.{AreWaysOut, FallOnce};

use crate::aside::{Aside, Ends, take_up};
use crate::ball::Ball;
use crate::levels::{Levels, set_current};
use crate::lower::{lower_node, top_before};
use crate::raise::raise;
use crate::redirect::{redirect, refit};
use crate::relabel::label_anew;
use crate::residual::Residual;
use crate::through::{WaysOut, label_through};
use crate::trail::Trail;
use crate::walk::walk;
use dmf_links::LinkTable;
use std::marker::Model;

/// A phase (Dinic): labels of the nodes, and how far the walk along them has come. Between two calls the labels are sound, and the held
/// pushes can be applied.
#[derive(Drop)]
pub struct Phase {
    /// The links with their rooms.
    pub links: Residual,
    /// The labels of the nodes, and their current links.
    pub levels: Levels,
    /// The nodes near the goal.
    pub ball: Ball,
    /// The walk, and the rest of the last path.
    pub trail: Trail,
}

impl Model for Phase {
    ghost use Rattle.dmf_path.specs.Going.{IsBetweenLooks};
    ghost use Rattle.dmf_path.specs.Phase.{Phased};

    ghost Value = { Phased };

    ghost view = { λ a. record { links = a.links; levels = a.levels; ball = a.ball; trail = a.trail } };

    ghost invariant = { λ a. IsBetweenLooks a.links a.levels a.ball a.trail };
}

impl Phase {
    ghost use Rattle.std.specs.Prelude.{◌+◌, ◌^◌, ◌<◌, length, slice_index};
    ghost use Rattle.dmf_links.specs.Links.{IsSpare};
    ghost use Rattle.dmf_path.specs.Phase.{sought_by, sought_at, with_residual, GoesOn, HasEnds, HasGoneOn, HasNotBegun, IsFoundBy, IsMarked, IsPartedBy, IsSettled, IsWalkBy, MayRise, Settles};
    ghost use Rattle.dmf_path.specs.Residual.{pair_set};
    ghost use Rattle.dmf_path.specs.Searching.{AreAside};

    /// Finds the least path from the start to the goal: goes on with the walk, and if none is left, mends the labels or labels the nodes
    /// anew, and walks again. If there is none, marks the nodes on the start's side, if there is a mark for each node.
    pub fn find(&mut self, marks: &mut [bool]) -> bool
        ensures same { sought_by self.new ≡ sought_by self.old }
        ensures ends { HasEnds (sought_by self.new) }
        ensures found { result ≡ true → IsFoundBy self.new }
        ensures none { result ≡ false → IsPartedBy (sought_by self.old) marks.new }
        ensures kept { result ≡ true → marks.new ≡ marks.old }
    {
        self.ball.keep_for(self.trail.goal);
        if self.go_on_at_once() {
            return true;
        }
        if self.go_on_mended() {
            return true;
        }
        self.go_on_anew(marks)
    }

    /// Goes on with the walk by the present labels, if these may lead to the goal. Whether it comes there.
    fn go_on_at_once(&mut self) -> bool
        requires { IsAround self.old.ball self.old.trail.goal }
        ensures { HasGoneOn self.old self.new result }
    {
        self.may_go_on() && self.go_on()
    }

    /// Whether a walk may lead to the goal by the present labels. Where they are those from the start, whether a link that falls leads to
    /// the goal.
    fn may_go_on(&self) -> bool {
        if !self.levels.all || !self.levels.course.is_to_solve() {
            return true;
        }
        let goal = self.trail.goal;
        let near = &self.levels.near;
        top_before(&self.links, goal, near.labels()) > near.label(goal)
    }

    /// Mends the labels, and walks again if this helps. Whether the walk comes to the goal.
    fn go_on_mended(&mut self) -> bool
        requires { IsAround self.old.ball self.old.trail.goal }
        ensures { HasGoneOn self.old self.new result }
    {
        self.settle();
        self.mend_labels() && self.go_on()
    }

    /// Labels the nodes anew, and walks again. Whether the walk comes to the goal; if not, no path is left.
    fn go_on_anew(&mut self, marks: &mut [bool]) -> bool
        requires { IsAround self.old.ball self.old.trail.goal }
        ensures on { HasGoneOn self.old self.new result }
        ensures none { result ≡ false → IsPartedBy (sought_by self.old) marks.new }
        ensures kept { result ≡ true → marks.new ≡ marks.old }
    {
        self.settle();
        self.relabel(marks) && self.go_on()
    }

    /// Goes on with the walk. Returns whether it comes to the goal.
    fn go_on(&mut self) -> bool
        requires { IsAround self.old.ball self.old.trail.goal }
        ensures on { HasGoneOn self.old self.new result }
        ensures none { result ≡ false → (ps : List ℕ) → ¬ IsWalkBy (sought_by self.old) self.old.levels.near.labels ps }
    {
        walk(
            &mut self.links,
            self.levels.near.labels(),
            &mut self.levels.current,
            &self.ball,
            &mut self.trail,
            &mut self.levels.noted,
        )
    }

    /// Applies the held pushes to the rooms.
    pub fn settle(&mut self)
        ensures { Settles self.old self.new }
    {
        self.trail.settle(&mut self.links);
    }

    /// Mends the labels, where all nodes have some, and frees the slots; no push is held. Returns whether a walk may lead to the goal
    /// then.
    fn mend_labels(&mut self) -> bool
        requires around { IsAround self.old.ball self.old.trail.goal }
        requires settled { IsSettled self.old }
        ensures { GoesOn self.old self.new }
    {
        if !self.levels.all {
            return false;
        }
        let start = self.trail.start;
        let goal = self.trail.goal;
        let is_mended = mend(&self.links, &mut self.levels, &mut self.ball, start, goal);
        let start_label = self.levels.near.label(start);
        let goal_label = self.levels.near.label(goal);
        self.trail.free(start_label - goal_label);
        is_mended
    }

    /// Labels the nodes anew, and frees the slots; no push is held. Returns whether the start has a label, so that a path is left.
    fn relabel(&mut self, marks: &mut [bool]) -> bool
        requires around { IsAround self.old.ball self.old.trail.goal }
        requires settled { IsSettled self.old }
        ensures on { GoesOn self.old self.new }
        ensures labelled { result ≡ true → (ps : List ℕ) × IsWalkBy (sought_by self.new) self.new.levels.near.labels ps }
        ensures none { result ≡ false → IsPartedBy (sought_by self.old) marks.new }
        ensures kept { result ≡ true → marks.new ≡ marks.old }
    {
        let ends = Ends {
            start: self.trail.start,
            goal: self.trail.goal,
        };
        let links = &self.links;
        self.levels.near.unlabel();
        if !label_anew(links, &mut self.levels, ends, marks) {
            make_fresh(&links.table, &mut self.levels, &mut self.trail);
            return false;
        }
        begin_phase(links, &mut self.levels, &mut self.ball, &mut self.trail);
        true
    }

    /// Restarts the search between its two nodes: applies the held pushes and removes all labels, so that the next walk ends at once.
    /// From then on labelling goes from both ends.
    pub fn begin_anew(&mut self)
        ensures fresh { HasNotBegun self.new }
        ensures same { sought_by self.new ≡ sought_by self.old }
    {
        self.settle();
        let links = &self.links;
        make_fresh(&links.table, &mut self.levels, &mut self.trail);
        self.levels.course = self.levels.course.from_both();
    }

    /// Prepares for rooms from outside: forgets the nodes near the goal and, unless it has not begun, begins anew.
    pub fn forget(&mut self, is_fresh: bool)
        requires { IsMarked self.old is_fresh }
        ensures fresh { MayRise self.new }
        ensures same { sought_by self.new ≡ sought_by self.old }
    {
        if !is_fresh {
            self.begin_anew();
        }
        self.ball.forget();
    }

    /// Sets the rooms of a link and of its opposite.
    pub fn set_pair(&mut self, place: u32, along: u64, against: u64)
        requires fresh { MayRise self.old }
        requires within { place < length self.old.links.table.value.heads.items }
        requires fits { along + against < 2 ^ 64 }
        requires used { ¬ IsSpare (links_of self.old.links.table.value) place }
        ensures fresh { HasNotBegun self.new }
        ensures set { sought_by self.new
            ≡ with_residual (sought_by self.old) (pair_set (sought_by self.old).residual place along against) }
    {
        self.links.set_pair(place, along, against);
    }

    /// Restarts the search between other nodes: applies the held pushes, takes up the labels that fit these nodes, and keeps them if they
    /// can be made to lead to the goal. Else it takes them off, and is fresh. Whether it is.
    pub fn aim(&mut self, asides: &mut [Aside], ends: Ends) -> bool
        requires asides { AreAside asides.old (sought_by self.old).residual }
        requires ends { HasEnds (sought_at (sought_by self.old) ends) }
        ensures asides { AreAside asides.new (sought_by self.new).residual }
        ensures marked { IsMarked self.new result }
        ensures same { sought_by self.new ≡ sought_at (sought_by self.old) ends }
    {
        self.settle();
        let before = Ends {
            start: self.trail.start,
            goal: self.trail.goal,
        };
        let used = take_up(asides, &mut self.levels, before, ends);
        self.levels.course = self.levels.course.keeping(used.kept_by(ends));
        self.trail.start = ends.start;
        self.trail.goal = ends.goal;
        let links = &self.links;
        if redirect(
            links,
            &mut self.levels,
            &mut self.ball,
            used.goal,
            ends.start,
            ends.goal,
        ) {
            let start_label = self.levels.near.label(ends.start);
            let goal_label = self.levels.near.label(ends.goal);
            self.trail.free(start_label - goal_label);
            return false;
        }
        make_fresh(&links.table, &mut self.levels, &mut self.trail);
        true
    }
}

/// Lowers the labels near the goal, if they are those from the start, and raises labels to the goal. Returns whether a walk may lead to
/// the goal then: whether the goal's label fell, or a trial found such a walk.
fn mend(links: &Residual, levels: &mut Levels, ball: &mut Ball, start: u32, goal: u32) -> bool
    requires led { Lead levels.old ball.old (residual_of links.now) start goal }
    requires apart { start ≢ goal }
    requires around { IsAround ball.old goal }
    ensures led { Lead levels.new ball.new (residual_of links.now) start goal }
    ensures around { IsAround ball.new goal }
{
    if !levels.course.is_from_start() {
        return raise(
            links,
            Ends { start, goal },
            &mut levels.near,
            &mut levels.current,
            &mut levels.course,
        );
    }
    if levels.course.is_to_solve() {
        return lower_goal(links, levels, ball, start, goal);
    }
    if levels.noted.lost {
        return false;
    }
    let before = levels.near.label(goal);
    refit(links, levels, ball, start, goal);
    levels.near.label(goal) < before
}

/// Lowers the goal's label, if it is one of those from the start, as far as the labels of the nodes before it allow, and makes the first
/// link of each node its current one. Whether the label fell, and links with room lead to the goal.
fn lower_goal(links: &Residual, levels: &mut Levels, ball: &Ball, start: u32, goal: u32) -> bool
    requires led { Lead levels.old ball.now (residual_of links.now) start goal }
    requires apart { start ≢ goal }
    ensures led { Lead levels.new ball.now (residual_of links.now) start goal }
{
    let before = levels.near.label(goal);
    set_current(&links.table, levels.near.queue(), &mut levels.current);
    levels.noted.clear();
    lower_node(links, goal, &mut levels.near, &mut levels.current);
    has_fallen(before, levels.near.label(goal))
}

/// Whether a label has fallen, though not to 0: that it gets where no link with room leads to its node.
fn has_fallen(before: u32, label: u32) -> bool {
    0 < label && label < before
}

/// Labels the nodes anew from the ways out of marked nodes, and frees the slots; no push is held. Returns whether paths may be left, or
/// `None` if the labels were given up; then the search is fresh.
pub fn relabel_through(
    links: &Residual,
    levels: &mut Levels,
    ball: &mut Ball,
    trail: &mut Trail,
    ways: &WaysOut,
    marks: &mut [bool],
) -> Option<bool>
    requires goes { Goes links.now levels.old ball.old trail.old }
    requires settled { with_settled_rooms (residual_of links.now) (way_of trail.old) ≡ residual_of links.now }
    requires out { AreWaysOut (links_of links.now.table.value) links.now.rooms.items trail.old.start trail.old.goal ways.now marks.old }
    ensures goes { Goes links.now levels.new ball.new trail.new }
    ensures same { sought (residual_of links.now) (way_of trail.new) ≡ sought (residual_of links.now) (way_of trail.old) }
    ensures labelled { result ≡ Some true → FallOnce (links_of links.now.table.value) links.now.rooms.items levels.new.near.labels
        trail.old.start trail.old.goal marks.old }
    ensures parted { result ≡ Some false → IsParted (links_of links.now.table.value) links.now.rooms.items trail.old.start trail.old.goal marks.new }
    ensures marks { result ≢ Some false → marks.new ≡ marks.old }
{
    levels.near.unlabel();
    levels.all = false;
    let ends = Ends {
        start: trail.start,
        goal: trail.goal,
    };
    let Some(is_left) = label_through(links, levels, ends, ways, marks) else {
        make_fresh(&links.table, levels, trail);
        return None;
    };
    if !is_left {
        make_fresh(&links.table, levels, trail);
        return Some(false);
    }
    begin_phase(links, levels, ball, trail);
    Some(true)
}

/// Begins the walks along new labels, and frees the slots.
fn begin_phase(links: &Residual, levels: &mut Levels, ball: &mut Ball, trail: &mut Trail)
    requires { IsRelabelledFor links.now levels.old ball.old trail.old }
    ensures goes { Goes links.now levels.new ball.new trail.new }
    ensures same { sought (residual_of links.now) (way_of trail.new) ≡ sought (residual_of links.now) (way_of trail.old) }
    ensures near { levels.new.near ≡ levels.old.near }
{
    set_current(&links.table, levels.near.queue(), &mut levels.current);
    levels.noted.clear();
    let is_wanted = levels.all && levels.course.is_from_start();
    ball.renew(links, trail.goal, is_wanted);
    let start_label = levels.near.label(trail.start);
    let goal_label = levels.near.label(trail.goal);
    trail.free(start_label - goal_label);
}

/// Removes all labels, and gives both ends the label 0. No link falls then, so the next walk ends at once.
pub fn make_fresh(table: &LinkTable, levels: &mut Levels, trail: &mut Trail)
    requires ready { IsReady table.now.nodes levels.old.near levels.old.far }
    requires start { IsNode table.now.nodes trail.old.start }
    requires goal { IsNode table.now.nodes trail.old.goal }
    ensures ready { IsReady table.now.nodes levels.new.near levels.new.far }
    ensures all { levels.new.all ≡ false }
    ensures labels { levels.new.near.labels ≡ fresh_labels table.now.nodes trail.old.start trail.old.goal }
    ensures current { levels.new.current ≡ levels.old.current }
    ensures way { way_of trail.new ≡ with_slots (way_of trail.old) [] }
{
    levels.near.label_ends(table.nodes, trail.start, trail.goal);
    levels.all = false;
    trail.free(0);
}
