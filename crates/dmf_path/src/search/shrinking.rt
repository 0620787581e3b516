//! A search leaves out the pair before the last one, and with it another search over the same links.
ghost use Rattle.std.specs.Prelude.{◌≡◌, ℕ, ◌+◌, ◌-◌, ◌^◌, ◌<◌, ◌≤◌, length, remove, take, Some, IfSome};
ghost use Rattle.dmf_path.specs.Apart.{AreShared, LeavesOut};
ghost use Rattle.dmf_links.specs.LinkTable.{links_of};
ghost use Rattle.dmf_links.specs.Pair.{without_room, pair_number};
ghost use Rattle.dmf_path.specs.Search.{Searched, with_pairs, with_rooms};

use crate::search::Search;
use crate::search::apart::{Shared, begun_over};
use dmf_links::idle_pair;

impl Search {
    /// The search without the pair before the last one, as it was before [`insert`](Search::insert), and with it another search without
    /// its pair before the last one, if one is given.
    ///
    /// The links of the pair are spare then. Takes constant time, and time for each node that has a label, since labelling begins anew; with
    /// another search, time for a look at each link. Takes no memory, but the first time for a number a node. `None` if that is refused, if
    /// the other search has other links, or where one more search has the same links.
    pub fn remove(self, other: Option<Search>) -> Option<(Search, Option<Search>)>
        requires { 2 ≤ length self.pairs }
        ensures search { IfSome result (λ both. both.0 ≡ with_pairs self (remove self.pairs (length self.pairs - 2))) }
        ensures other { IfSome result (λ both. IfSome both.1 (λ search. (o : Searched) × ((other ≡ Some o)
            × (search ≡ with_pairs o (remove o.pairs (length o.pairs - 2)))))) }
    {
        let k = self.places.len() - 1;
        let (mut search, last) = self.idled(k)?;
        search.set_rooms(k - 1, 0, 0);
        let (shared, own) = search.begun();
        let Some(other) = other else {
            let shared = shared.leaving_out()?;
            return Some((own.over(shared).with_last_rooms(k - 1, last), None));
        };
        let (mut other, other_last) = other.idled(k)?;
        other.set_rooms(k - 1, 0, 0);
        let others = begun_over(Some(other), &shared)?;
        let shared = shared.leaving_out()?;
        let other = others.over(shared.share()?);
        let search = own.over(shared);
        Some((
            search.with_last_rooms(k - 1, last),
            Some(other.with_last_rooms(k - 1, other_last)),
        ))
    }

    /// The search without its last pairs, so many, which have no room: their links are spare then. Takes a number a node. `None` if that
    /// is refused, or where another search has the same links.
    pub fn without_last(self, count: usize) -> Option<Search>
        requires many { count ≤ length self.pairs }
        requires idle { (k : ℕ) → length self.pairs - count ≤ k → without_room (pair_number self.pairs k) ≡ pair_number self.pairs k }
        ensures { IfSome result (λ search. search ≡ with_pairs self (take (length self.pairs - count) self.pairs)) }
    {
        let (shared, own) = self.begun();
        let mut left = shared;
        for _ in 0..count {
            left = left.without_last()?;
        }
        Some(own.over(left))
    }
}

impl Shared {
    /// The links without those of the pair before the last one. Takes no memory, but the first time for a number a node. `None` if that is
    /// refused, or where another search has the same links.
    fn leaving_out(self) -> Option<Shared>
        requires shared { AreShared self }
        requires two { 2 ≤ length self.places.value }
        ensures shared { IfSome result AreShared }
        ensures left { IfSome result (λ after. LeavesOut (links_of self.table.value) self.places.value (links_of after.table.value) after.places.value) }
    {
        let last = idle_pair(&self.table, &self.places, self.places.len() - 1);
        let off = self.without_last()?;
        let less = off.without_last()?;
        less.with_last(last)
    }
}
