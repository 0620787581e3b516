//! The closed side of a search for augmenting paths: a cut without room shows that no path is left, with no look at any other link.
ghost use Rattle.std.specs.Prelude.{◌≡◌, ◌+◌, ◌-◌, ◌^◌, ◌<◌, ◌≤◌, ◌∷◌, ℕ, true, length, insert, remove, Some, IfOk, IfSome};
ghost use Rattle.dmf_links.specs.Pair.{IsPair, pair_number, without_room};
ghost use Rattle.dmf_path.specs.ClosedSide.{IsClosedSide};
ghost use Rattle.dmf_path.specs.Pair.{steps_of};
ghost use Rattle.dmf_path.specs.Path.{HasNoPath};
ghost use Rattle.dmf_path.specs.Search.{with_pairs, with_rooms, Searched};
ghost use Rattle.dmf_solver.specs.Gates.{leads_out, IsClosedBut, KeepsGates, MayBeGated};

use dmf_links::Pair;
use dmf_path::Search;
use std::alloc::{AllocError, Global};
use std::marker::Model;

pub mod ways_out;

/// A side has at most so many gates.
const MOST_GATES: usize = 64;

/// A set of nodes with the start of a search and without its goal, which links with room leave over gates alone.
#[derive(Drop)]
pub struct ClosedSide {
    /// For each node whether it is in the set. The first mark belongs to node 1.
    marks: Vec<bool>,
    /// The indices of pairs: of each whose links may lead out of the set. An index may stand here more than once.
    gates: Vec<usize>,
}

impl ClosedSide {
    /// The side with the pair at index `k` as a gate. If it has too many gates then, those over which nothing leads out are dropped; if
    /// too many are left, the side is given up.
    fn with_gate(mut self, search: &Search, k: usize) -> Option<ClosedSide>
        requires { length self.marks.items ≡ search.now.nodes }
        ensures { IfSome result (KeepsGates search.now self.marks.items (k ∷ self.gates.items)) }
    {
        if self.gates.len() >= MOST_GATES {
            self.drop_shut_gates(search);
            if self.gates.len() > MOST_GATES / 2 {
                return None;
            }
        }
        self.gates.push(k).ok()?;
        Some(self)
    }

    /// Drops the gates over which no link with room leads out of the set.
    fn drop_shut_gates(&mut self, search: &Search)
        requires { length self.old.marks.items ≡ search.now.nodes }
        ensures { KeepsGates search.now self.old.marks.items self.old.gates.items self.new }
    {
        let marks = &self.marks;
        self.gates.retain(|k| leads_out(search, marks, *k));
    }
}

/// Whether a link with room of the pair at index `k`, if there is one, leads out of the marked nodes.
fn leads_out(search: &Search, marks: &[bool], k: usize) -> bool
    requires { length marks.now ≡ search.now.nodes }
    ensures { result ≡ leads_out marks.now (pair_number search.now.pairs k) }
{
    let Some(pair) = search.pair(k) else {
        return false;
    };
    let tail = marks[pair.tail as usize - 1];
    let head = marks[pair.head as usize - 1];
    (pair.along > 0 && tail && !head) || (pair.against > 0 && head && !tail)
}

/// The side, if there is one, with the pair at index `k` as a gate.
fn with_gate(side: Option<ClosedSide>, search: &Search, k: usize) -> Option<ClosedSide>
    requires { IfSome side (λ side. length side.marks.items ≡ search.now.nodes) }
    ensures { MayBeGated search.now side k result }
{
    side?.with_gate(search, k)
}

/// A search for augmenting paths, with the closed side that it came to, while that is known.
///
/// The side follows each change of the rooms: the changed pair becomes a gate.
#[derive(Drop)]
pub struct SidedSearch {
    search: Search,
    side: Option<ClosedSide>,
}

impl Model for SidedSearch {
    ghost use Rattle.dmf_path.specs.Search.{Searched};

    ghost Value = { Searched };

    ghost use Rattle.std.specs.Prelude.{IfSome};
    ghost use Rattle.dmf_solver.specs.Gates.{IsClosedBut};

    ghost view = { λ a. a.search };

    ghost invariant = { λ a. IfSome a.side (IsClosedBut a.search) };
}

impl SidedSearch {
    /// A search of which no side is known.
    pub fn new(search: Search) -> SidedSearch
        ensures { result ≡ search }
    {
        SidedSearch { search, side: None }
    }

    /// A search among so many nodes that found no path, with the side that it marked then, if there is a mark for each node. Takes memory
    /// for the gates; if it is refused, no side is known.
    pub fn at_end(alloc: Global, search: Search, nodes: u32, marks: Vec<bool>) -> SidedSearch
        requires nodes { nodes ≡ search.nodes }
        requires side { length marks.items ≡ nodes → IsClosedSide (steps_of search.pairs) search.start search.goal marks.items }
        ensures { result ≡ search }
    {
        if marks.len() != nodes as usize {
            return SidedSearch::new(search);
        }
        let Ok(gates) = Vec::with_capacity(alloc, MOST_GATES) else {
            return SidedSearch::new(search);
        };
        let side = Some(ClosedSide { marks, gates });
        SidedSearch { search, side }
    }

    /// The search.
    pub fn as_search(&self) -> &Search
        ensures { result.now ≡ self.now }
    {
        &self.search
    }

    /// Numbers the links as [`Search::number_links`] does.
    pub fn number_links(&mut self, alloc: Global) -> Result<(), AllocError>
        ensures { self.new ≡ self.old }
    {
        self.search.number_links(alloc)
    }

    /// Whether the side has no gate over which a link with room leads out: then no path is left. If the answer is no, there may be a path
    /// or none. Looks at the gates alone, and takes no memory.
    pub fn is_closed(&mut self) -> bool
        ensures same { self.new ≡ self.old }
        ensures none { result ≡ true → HasNoPath (steps_of self.old.pairs) self.old.start self.old.goal }
    {
        let Some(mut side) = self.side.take() else {
            return false;
        };
        side.drop_shut_gates(&self.search);
        let is_closed = side.gates.is_empty();
        self.side = Some(side);
        is_closed
    }

    /// Gives both links of the pair at index `k` these rooms as [`Search::set_rooms`] does.
    pub fn set_rooms(&mut self, k: usize, along: u64, against: u64)
        requires number { k < length self.old.pairs }
        requires fits { along + against < 2 ^ 64 }
        ensures { self.new ≡ with_pairs self.old (with_rooms self.old.pairs k along against) }
    {
        self.search.set_rooms(k, along, against);
        self.side = with_gate(self.side.take(), &self.search, k);
    }

    /// The search with this pair before the last one, at index `k` and without room, as [`Search::insert`] makes it.
    pub fn insert(
        self,
        alloc: Global,
        k: usize,
        pair: Option<Pair>,
        other: Option<Search>,
    ) -> Option<(SidedSearch, Option<Search>)>
        requires index { k + 1 ≡ length self.pairs }
        requires pair { IfSome pair (IsPair self.nodes) }
        requires few { length self.pairs ≤ 2 ^ 27 }
        ensures search { IfSome result (λ both. both.0 ≡ with_pairs self (insert self.pairs (length self.pairs - 1) (without_room pair))) }
        ensures other { IfSome result (λ both. IfSome both.1 (λ search. (o : Searched) × ((other ≡ Some o)
            × (search ≡ with_pairs o (insert o.pairs (length o.pairs - 1) (without_room pair)))))) }
    {
        let SidedSearch { search, side } = self;
        let (search, other) = search.insert(alloc, pair, other)?;
        let side = with_gate(side, &search, k + 1);
        Some((SidedSearch { search, side }, other))
    }

    /// The search without the pair before the last one, at index `k`, as [`Search::remove`] makes it.
    pub fn remove(self, k: usize, other: Option<Search>) -> Option<(SidedSearch, Option<Search>)>
        requires index { k + 2 ≡ length self.pairs }
        ensures search { IfSome result (λ both. both.0 ≡ with_pairs self (remove self.pairs (length self.pairs - 2))) }
        ensures other { IfSome result (λ both. IfSome both.1 (λ search. (o : Searched) × ((other ≡ Some o)
            × (search ≡ with_pairs o (remove o.pairs (length o.pairs - 2)))))) }
    {
        let SidedSearch { search, side } = self;
        let (search, other) = search.remove(other)?;
        let side = with_gate(side, &search, k);
        Some((SidedSearch { search, side }, other))
    }
}
