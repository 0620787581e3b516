//! The search for least paths, one after the other, from one node to another.
ghost use Rattle.std.specs.Prelude.{if◌then◌else◌, ◌≡◌, ◌≢◌, ℕ, ◌+◌, ◌-◌, ◌^◌, ◌<◌, ◌↔◌, false, None, IsTrue, length, slice_index_or, IfOk, IfSome, MatchOption};
ghost use Rattle.dmf_node.specs.Node.{IsNode};
ghost use Rattle.dmf_links.specs.Pair.{IsPair, pair_number};
ghost use Rattle.dmf_path.specs.ClosedSide.{IsClosedSide};
ghost use Rattle.dmf_path.specs.Path.{HasNoPath, IsReachable};
ghost use Rattle.dmf_path.specs.Pair.{steps_of};
ghost use Rattle.dmf_path.specs.Search.{Augments, HasAlong, along_at, against_at};
ghost use Rattle.dmf_path.specs.Search.{aimed, lowered_along, with_rooms, with_pairs};
ghost use Rattle.dmf_path.specs.Search.{Covers, IsElsewhere, indices_of};
ghost use Rattle.dmf_path.specs.Touched.{AreBelow, Touches};

use crate::aside::{Aside, Ends};
use crate::ball::Ball;
use crate::levels::Levels;
use crate::noted::Noted;
use crate::phase::Phase;
use crate::reach::{labelled, labels_from_start};
use crate::touched::{Indices, Touched};
use dmf_links::{Pair, Places, number_links};
use std::alloc::{AllocError, Global};
use std::marker::Model;
use std::rc::Rc;

mod apart;
mod growing;
mod making;
mod shrinking;
mod spares;
pub mod through;

/// What was pushed along a path.
#[derive(Clone, Copy)]
pub struct AugmentingPath {
    /// The amount of the push.
    pub amount: u64,
    /// The number of links of the path.
    pub links: u32,
}

/// A search for least paths between two nodes, over the links of some pairs. A push along a path takes room off these links.
///
/// It works in phases (Dinic): labels the nodes with their distances to the goal and, while paths of that length are left, finds each
/// by going on from where the path before was split. Once the search has begun anew, labelling goes from both ends, which looks at few
/// nodes if few paths are left.
#[derive(Drop)]
pub struct Search {
    phase: Phase,
    places: Rc<Places>,
    /// For each link the index of its pair, once the links are numbered. Searches over the same links share the numbers.
    numbers: Option<Rc<Vec<u32>>>,
    /// Other labels, if the search keeps two sets. It takes nothing back then, so that they stay valid while others are in use.
    asides: Vec<Aside>,
    /// Whether the search has looked for no path since it began, or began anew: then no push is held, and no link is passed.
    is_fresh: bool,
}

impl Model for Search {
    ghost use Rattle.dmf_path.specs.Phase.{sought_by, IsMarked, IsSearch};
    ghost use Rattle.dmf_path.specs.Search.{Searched};
    ghost use Rattle.dmf_path.specs.Searching.{searched};

    ghost Value = { Searched };

    ghost view = { λ a. searched (sought_by a.phase) a.places.value };

    ghost invariant = { λ a. IsSearch (sought_by a.phase) a.places.value a.numbers a.asides.items × IsMarked a.phase a.is_fresh };
}

impl Search {
    /// Pushes along the least path from the start to the goal as much as the limit and its rooms allow. Returns the amount and the
    /// length of the path, or `None` if no path is left. Afterwards the pairs of the path count as touched, or all pairs unless the
    /// links were numbered. Takes no memory.
    pub fn augment(&mut self, limit: u64, touched: &mut Touched) -> Option<AugmentingPath>
        ensures found { MatchOption result
            (HasNoPath (steps_of self.old.pairs) self.old.start self.old.goal × (self.new ≡ self.old))
            (λ found. Augments limit found self.old self.new) }
        ensures touched { Touches touched.old touched.new self.old.pairs self.new.pairs }
    {
        self.augment_or_mark(limit, touched, &mut [])
    }

    /// Pushes along the same path. If no path is left, marks a closed side: a mark for each node says whether it is on the side of the
    /// start. Takes no memory.
    pub fn augment_or_mark(
        &mut self,
        limit: u64,
        touched: &mut Touched,
        marks: &mut [bool],
    ) -> Option<AugmentingPath>
        ensures found { MatchOption result
            (HasNoPath (steps_of self.old.pairs) self.old.start self.old.goal × (self.new ≡ self.old))
            (λ found. Augments limit found self.old self.new) }
        ensures touched { Touches touched.old touched.new self.old.pairs self.new.pairs }
        ensures side { length marks.old ≡ self.old.nodes → result ≡ None
            → IsClosedSide (steps_of self.old.pairs) self.old.start self.old.goal marks.new }
        ensures kept { result ≢ None → marks.new ≡ marks.old }
    {
        self.is_fresh = false;
        let phase = &mut self.phase;
        if !phase.find(marks) {
            return None;
        }
        let amount = phase.trail.bottleneck(limit);
        let links = phase.trail.slots.len() as u32;
        touched.touch(&self.numbers, &phase.trail.slots);
        phase.trail.sent = phase.trail.sent.wrapping_add(amount);
        phase.trail.split(&mut phase.links);
        Some(AugmentingPath { amount, links })
    }

    /// Numbers the links, so that paths list the pairs that they use. Takes memory for a number a link. If the links have numbers
    /// already, does nothing.
    pub fn number_links(&mut self, alloc: Global) -> Result<(), AllocError>
        ensures { self.new ≡ self.old }
    {
        if self.numbers.is_none() {
            let phase = &self.phase;
            let numbers = number_links(alloc, &phase.links.table, &self.places)?;
            self.numbers = Some(Rc::new(alloc, numbers)?);
        }
        Ok(())
    }

    /// Takes over the numbers of another search, if this one has none and both have the same links. Takes no memory, and time for each
    /// link, but only once, since the numbers stay.
    pub fn share_numbers(&mut self, other: &Search) -> Result<(), AllocError>
        ensures { self.new ≡ self.old }
    {
        if self.numbers.is_some() {
            return Ok(());
        }
        let Some(numbers) = &other.numbers else {
            return Ok(());
        };
        let phase = &self.phase;
        let others = &other.phase;
        if phase.links.table.is(&others.links.table) && self.places.are(&other.places) {
            self.numbers = Some(numbers.clone()?);
        }
        Ok(())
    }

    /// No pair is touched. If the links are numbered, takes memory for a list of so many indices: once paths have used more links, all
    /// pairs count as touched. If not, all count so at once, and it takes none.
    pub fn none_touched(&self, alloc: Global, most: usize) -> Result<Touched, AllocError>
        ensures { IfOk result (λ touched. (count : ℕ) → AreBelow count touched) }
    {
        if self.numbers.is_none() {
            return Ok(Touched::all());
        }
        Touched::new(alloc, most)
    }

    /// The room of the link against the pair at index `k`. `None` if there is no pair. Takes no memory.
    pub fn against(&self, k: usize) -> Option<u64>
        requires { k < length self.now.pairs }
        ensures { result ≡ against_at self.now.pairs k }
    {
        self.room(k, true)
    }

    /// The room of the link along the pair at index `k`. `None` if there is no pair. Takes no memory.
    pub fn along(&self, k: usize) -> Option<u64>
        requires { k < length self.now.pairs }
        ensures { result ≡ along_at self.now.pairs k }
    {
        self.room(k, false)
    }

    /// The pair at index `k` with its present rooms. `None` if there is no pair. Takes no memory.
    pub fn pair(&self, k: usize) -> Option<Pair>
        ensures pair { result ≡ pair_number self.now.pairs k }
        ensures valid { IfSome result (IsPair self.now.nodes) }
    {
        if k >= self.places.len() {
            return None;
        }
        let place = self.places.place_of(k)?;
        let phase = &self.phase;
        let links = &phase.links;
        Some(Pair {
            tail: links.table.tail(place),
            head: links.table.heads[place as usize],
            along: links.settled_room(&phase.trail, place),
            against: links.opposite_room(&phase.trail, place),
        })
    }

    /// The indices of the pairs at a node, in ascending order. Others may be among them; but there are none, and the call looks at
    /// nothing, once the links are numbered, unless a pair is missing. Takes no memory.
    pub fn indices_at(&self, node: u32) -> Indices<'_>
        requires { IsNode self.now.nodes node }
        ensures { Covers (length self.now.pairs) (IsElsewhere self.now.pairs node) (indices_of result) }
    {
        let phase = &self.phase;
        match &self.numbers {
            Some(numbers) if self.places.are_all() => {
                Indices::Listed(&numbers[phase.links.table.used_at(node)])
            }
            _ => Indices::Within(0..self.places.len()),
        }
    }

    /// The room of one of the two links of the pair at index `k`: of that against it where `against` says so.
    fn room(&self, k: usize, against: bool) -> Option<u64>
        requires { k < length self.now.pairs }
        ensures { result ≡ (if against then against_at self.now.pairs k else along_at self.now.pairs k) }
    {
        let place = self.places.place_of(k)?;
        let phase = &self.phase;
        Some(if against {
            phase.links.opposite_room(&phase.trail, place)
        } else {
            phase.links.settled_room(&phase.trail, place)
        })
    }

    /// Takes an amount off the room of the link along the pair at index `k`. Takes no memory.
    pub fn lower(&mut self, k: usize, amount: u64)
        requires { HasAlong self.old.pairs k amount }
        ensures { self.new ≡ with_pairs self.old (lowered_along self.old.pairs k amount) }
    {
        let place = self.places.place_of(k).unwrap();
        self.phase.lower(place, amount);
    }

    /// Keeps two sets of labels until rooms are set from outside, if nothing is taken back: a search that is aimed from one node at many,
    /// and at it from many, then has labels for both. Takes memory for some numbers a node; where two sets are kept already, the call
    /// does nothing.
    pub fn keep_two(&mut self, alloc: Global) -> Result<(), AllocError>
        ensures { self.new ≡ self.old }
    {
        let phase = &self.phase;
        if phase.links.takes_back || !self.asides.is_empty() {
            return Ok(());
        }
        let links = &phase.links;
        let nodes = links.table.nodes as usize;
        let mut levels = Levels::new(alloc, &links.table)?;
        levels.noted = Noted::new(alloc, nodes)?;
        let noted = Noted::new(alloc, nodes)?;
        let ball = Ball::new(alloc, links.table.nodes)?;
        let ends = Ends {
            start: phase.trail.start,
            goal: phase.trail.goal,
        };
        self.asides.push(Aside { levels, ends })?;
        let phase = &mut self.phase;
        phase.levels.noted = noted;
        phase.ball = ball;
        Ok(())
    }

    /// Applies the held pushes to the rooms. Each room is then read in constant time; before, in time for each link of the path. Takes
    /// no memory.
    pub fn settle(&mut self)
        ensures { self.new ≡ self.old }
    {
        self.phase.settle();
    }

    /// Sets the start and the goal of the search, over the same links with their present rooms. Takes no memory. If all nodes have
    /// labels, and these lead to the goal, they stay.
    pub fn aim(&mut self, start: u32, goal: u32)
        requires start { IsNode self.old.nodes start }
        requires goal { IsNode self.old.nodes goal }
        requires apart { start ≢ goal }
        ensures { self.new ≡ aimed self.old start goal }
    {
        self.is_fresh = self.phase.aim(&mut self.asides, Ends { start, goal });
    }

    /// Gives both links of the pair at index `k` these rooms, if there is a pair. Takes no memory. The first call after the search
    /// looked for a path takes time for each node that has a label, since the search then begins anew; each later one takes constant
    /// time.
    pub fn set_rooms(&mut self, k: usize, along: u64, against: u64)
        requires number { k < length self.old.pairs }
        requires fits { along + against < 2 ^ 64 }
        ensures { self.new ≡ with_pairs self.old (with_rooms self.old.pairs k along against) }
    {
        self.asides.clear();
        self.phase.forget(self.is_fresh);
        self.is_fresh = true;
        let Some(place) = self.places.place_of(k) else {
            return;
        };
        self.phase.set_pair(place, along, against);
    }

    /// For each node whether a path leads there from the start. The first mark belongs to node 1. Takes memory for a mark and two
    /// numbers a node and, while paths may be left, for a room a link.
    pub fn reached(&self, alloc: Global) -> Result<Vec<bool>, AllocError>
        ensures one_each { IfOk result (λ marks. length marks.items ≡ self.now.nodes) }
        ensures marks { IfOk result (λ marks. (v : ℕ) → IsNode self.now.nodes v →
            IsTrue (slice_index_or marks.items (v - 1) false) ↔ IsReachable (steps_of self.now.pairs) self.now.start v) }
    {
        let phase = &self.phase;
        let labels = labels_from_start(alloc, &phase.links, &phase.trail)?;
        labelled(alloc, &labels)
    }
}
