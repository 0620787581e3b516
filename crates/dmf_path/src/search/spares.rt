//! A search is made anew with spare links, for pairs to come.
ghost use Rattle.std.specs.Prelude.{◌≡◌, ◌+◌, ◌-◌, ◌^◌, ◌<◌, ◌≤◌, length, IfSome};
ghost use Rattle.dmf_node.specs.Node.{IsNode};
ghost use Rattle.dmf_path.specs.Spares.{node_after, spare_pair};

use crate::aside::Ends;
use crate::search::Search;
use dmf_links::{Pair, Pairs};
use std::alloc::Global;

/// A search has at most so many pairs.
const MOST_PAIRS: usize = (1 << 27) + 1;

/// A search is made over at most so many nodes.
const MOST_NODES: u32 = 1 << 24;

impl Search {
    /// This search over links made anew: two spare ones at each node, and as many more at the node `hub` as it has links now. Takes
    /// memory as [`new`](Search::new) does, and for the spare links. `None` if it is refused, or if there are too many links.
    pub(super) fn with_spares(self, alloc: Global, hub: u32) -> Option<Search>
        requires { IsNode self.nodes hub }
        ensures { IfSome result (λ search. search ≡ self) }
    {
        let phase = &self.phase;
        let nodes = phase.links.table.nodes;
        if nodes > MOST_NODES {
            return None;
        }
        let places = phase.links.table.places_at(hub);
        let more = ((places.end - places.start) as u32).min(nodes - 1);
        let spares = nodes as usize + more as usize;
        if self.places.len() + spares > MOST_PAIRS {
            return None;
        }
        let ends = Ends {
            start: phase.trail.start,
            goal: phase.trail.goal,
        };
        let pairs = RoomyPairs {
            search: &self,
            hub,
            more,
        };
        let mut made = Search::new(alloc, nodes, &pairs, ends, phase.links.takes_back).ok()?;
        if self.numbers.is_some() {
            made.number_links(alloc).ok()?;
        }
        made.without_last(spares)
    }
}

/// The pairs of a search, and behind them pairs without room whose links become spare.
#[derive(Drop)]
struct RoomyPairs<'a> {
    search: &'a Search,
    hub: u32,
    more: u32,
    ghost few: { length search.now.pairs + search.now.nodes + more ≤ 2 ^ 27 + 1 },
    ghost more_is: { more < search.now.nodes },
    ghost hub_is: { IsNode search.now.nodes hub },
}

impl Pairs for RoomyPairs<'_> {
    ghost use Rattle.std.specs.Prelude.{◌++◌};
    ghost use Rattle.dmf_path.specs.Spares.{spare_pairs};

    ghost pairs = { λ p. p.search.now.pairs ++ spare_pairs p.search.now.nodes p.hub p.more };

    fn len(&self) -> usize {
        let search = self.search;
        let phase = &search.phase;
        search.places.len() + phase.links.table.nodes as usize + self.more as usize
    }

    fn pair(&self, k: usize) -> Option<Pair> {
        let search = self.search;
        let count = search.places.len();
        if k < count {
            return search.pair(k);
        }
        let phase = &search.phase;
        Some(spare_pair(phase.links.table.nodes, self.hub, (k - count) as u32))
    }
}

/// Pair number `k` of those whose links become spare: between each node and the next one, and then between the node `hub` and others.
fn spare_pair(nodes: u32, hub: u32, k: u32) -> Pair
    requires nodes { nodes < 2 ^ 31 }
    requires hub { hub ≤ nodes }
    requires k { k < nodes + nodes }
    ensures { result ≡ spare_pair nodes hub k }
{
    if k < nodes {
        Pair {
            tail: k + 1,
            head: node_after(nodes, k + 1),
            along: 0,
            against: 0,
        }
    } else {
        Pair {
            tail: hub,
            head: node_after(nodes, hub + (k - nodes)),
            along: 0,
            against: 0,
        }
    }
}

/// The node after this one; after the last one come the first ones again.
fn node_after(nodes: u32, node: u32) -> u32
    requires { node < 2 ^ 32 - 1 }
    ensures { result ≡ node_after nodes node }
{
    if node + 1 > nodes {
        node + 1 - nodes
    } else {
        node + 1
    }
}
