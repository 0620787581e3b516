//! The ways out of a closed side: the ends of the links that lead out over gates. Each path passes some, so that searches may begin there.
ghost use Rattle.std.specs.Prelude.{◌≡◌, ℕ, length, IfSome, MatchOption};
ghost use Rattle.dmf_links.specs.Pair.{pair_number};
ghost use Rattle.dmf_node.specs.Node.{IsNode};
ghost use Rattle.dmf_solver.specs.WaysOut.{AreKnown, HasWays, LeadsOut};

use crate::closed_side::{ClosedSide, SidedSearch};
use dmf_path::{Search, WaysOut};
use std::alloc::Global;

/// At most so many paths are looked for from the ways out of a side. More are found sooner from the source and the sink.
const MOST_PATHS: u32 = 16;

/// What is known of the ways out of marked nodes, which have the start of a search and not its goal.
#[derive(Drop)]
pub struct KnownWays {
    /// The indices of pairs: of each whose links may lead out.
    gates: Vec<usize>,
    /// So many paths may be looked for from the ways out.
    left: u32,
}

impl KnownWays {
    /// The ends of the links with room that lead out now: those without room any more are no ways out. Takes memory for them; `None` if it
    /// is refused.
    pub fn ways_out(&self, alloc: Global, search: &Search, marks: &[bool]) -> Option<WaysOut>
        requires { AreKnown search.now marks.now self.now }
        ensures { IfSome result (HasWays search.now marks.now) }
    {
        let mut tails = Vec::new(alloc);
        let mut heads = Vec::new(alloc);
        for k in &self.gates {
            if let Some(link) = link_out(search, marks, *k) {
                tails.push(link.from).ok()?;
                heads.push(link.to).ok()?;
            }
        }
        Some(WaysOut { tails, heads })
    }

    /// The same gates after one more path, unless there were enough.
    pub fn next(self) -> Option<KnownWays>
        ensures { IfSome result (λ known. known.gates ≡ self.gates) }
    {
        let left = self.left.checked_sub(1)?;
        Some(KnownWays {
            gates: self.gates,
            left,
        })
    }
}

/// A link that leads out of marked nodes.
#[derive(Clone, Copy)]
struct Leaving {
    /// The marked node at which it begins.
    from: u32,
    /// The node at which it ends.
    to: u32,
}

impl SidedSearch {
    /// The search alone, with the marks of its side and what is known of the ways out of it, if the side is known. Else with some mark for
    /// each node, or with none if memory for them is refused.
    pub fn into_ways_out(self, alloc: Global, nodes: u32) -> (Search, Vec<bool>, Option<KnownWays>)
        ensures search { result.0 ≡ self }
        ensures ways { IfSome result.2 (AreKnown self result.1.items) }
    {
        let SidedSearch { search, side } = self;
        let Some(ClosedSide { marks, gates }) = side else {
            return (search, marks_or_none(alloc, nodes), None);
        };
        let left = MOST_PATHS;
        (search, marks, Some(KnownWays { gates, left }))
    }
}

/// The link with room of the pair at index `k` that leads out of the marked nodes, if there is one.
fn link_out(search: &Search, marks: &[bool], k: usize) -> Option<Leaving>
    requires { length marks.now ≡ search.now.nodes }
    ensures { MatchOption result
        ((from to : ℕ) → ¬ LeadsOut marks.now (pair_number search.now.pairs k) from to)
        (λ link. IsNode search.now.nodes link.from × IsNode search.now.nodes link.to
        × LeadsOut marks.now (pair_number search.now.pairs k) link.from link.to) }
{
    let pair = search.pair(k)?;
    let tail = marks[pair.tail as usize - 1];
    let head = marks[pair.head as usize - 1];
    if pair.along > 0 && tail && !head {
        return Some(Leaving {
            from: pair.tail,
            to: pair.head,
        });
    }
    if pair.against > 0 && head && !tail {
        return Some(Leaving {
            from: pair.head,
            to: pair.tail,
        });
    }
    None
}

/// A mark for each of so many nodes, or none if memory for them is refused.
pub fn marks_or_none(alloc: Global, nodes: u32) -> Vec<bool> {
    match vec![in alloc; false; nodes as usize] {
        Ok(marks) => marks,
        Err(_) => Vec::new(alloc),
    }
}
