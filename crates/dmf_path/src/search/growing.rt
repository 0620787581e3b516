//! A search takes in a pair more, and with it another search over the same links.
ghost use Rattle.std.specs.Prelude.{◌≡◌, ◌≢◌, ◌+◌, ◌-◌, ◌^◌, ◌<◌, ◌≤◌, length, insert, Some, IfSome};
ghost use Rattle.dmf_path.specs.Apart.{AreShared, IsIdled, TakesIn};
ghost use Rattle.dmf_links.specs.LinkTable.{links_of};
ghost use Rattle.dmf_links.specs.Pair.{IsPair, without_room};
ghost use Rattle.dmf_links.specs.Stack.{IsPutOn, IsTakenOff};
ghost use Rattle.dmf_path.specs.Search.{Searched, with_pairs, with_rooms};

use crate::search::Search;
use crate::search::apart::{Shared, begun_over};
use dmf_links::{Pair, has_spare, idle_pair, number_last, put_on, take_off};
use std::alloc::Global;
use std::rc::Rc;

/// The rooms of a pair.
#[derive(Clone, Copy)]
pub struct Rooms {
    /// The room of the link along it.
    pub along: u64,
    /// The room of the link against it.
    pub against: u64,
    ghost fits: { along + against < 2 ^ 64 },
}

impl Search {
    /// The search with this pair before the last one, without room, and with it another search with the same pair there, if one is given.
    /// `None` stands for no pair there. The two share the links. In place of the other search there is `None`, if it has other links.
    ///
    /// The pair gets spare links. Takes constant time, and time for each node that has a label, since labelling begins anew; with another
    /// search, time for a look at each link. Takes memory for a place. Where an end of the pair has no spare link, all links are made anew,
    /// with memory and time as [`new`](Search::new) takes them, and in place of the other search there is `None`. `None` if memory is
    /// refused, or where one more search has the same links.
    pub fn insert(
        self,
        alloc: Global,
        pair: Option<Pair>,
        other: Option<Search>,
    ) -> Option<(Search, Option<Search>)>
        requires pair { IfSome pair (IsPair self.nodes) }
        requires some { 0 < length self.pairs }
        requires few { length self.pairs ≤ 2 ^ 27 }
        ensures search { IfSome result (λ both. both.0 ≡ with_pairs self (insert self.pairs (length self.pairs - 1) (without_room pair))) }
        ensures other { IfSome result (λ both. IfSome both.1 (λ search. (o : Searched) × ((other ≡ Some o)
            × (search ≡ with_pairs o (insert o.pairs (length o.pairs - 1) (without_room pair)))))) }
    {
        let k = self.places.len() - 1;
        let (search, other) = self.ready_for(alloc, pair, other)?;
        let (search, last) = search.idled(k)?;
        let (shared, own) = search.begun();
        let Some(other) = other else {
            let shared = shared.taking_in(pair)?;
            return Some((own.over(shared).with_last_rooms(k + 1, last), None));
        };
        let (other, other_last) = other.idled(k)?;
        let others = begun_over(Some(other), &shared)?;
        let shared = shared.taking_in(pair)?;
        let other = others.over(shared.share()?);
        let search = own.over(shared);
        Some((
            search.with_last_rooms(k + 1, last),
            Some(other.with_last_rooms(k + 1, other_last)),
        ))
    }

    /// Both searches as they are, if both ends of the pair have spare links; or else the first one alone, over links made anew.
    fn ready_for(
        self,
        alloc: Global,
        pair: Option<Pair>,
        other: Option<Search>,
    ) -> Option<(Search, Option<Search>)>
        requires { IfSome pair (IsPair self.nodes) }
        ensures search { IfSome result (λ both. both.0 ≡ self) }
        ensures other { IfSome result (λ both. IfSome both.1 (λ search. other ≡ Some search)) }
    {
        let Some(pair) = pair else {
            return Some((self, other));
        };
        let phase = &self.phase;
        if !has_spare(&phase.links.table, pair.tail) {
            return Some((self.with_spares(alloc, pair.tail)?, None));
        }
        if !has_spare(&phase.links.table, pair.head) {
            return Some((self.with_spares(alloc, pair.head)?, None));
        }
        Some((self, other))
    }

    /// The search without room at its last pair, if that has index `k`, and the rooms that the pair had, or none if there is no pair. Takes
    /// no memory.
    pub(super) fn idled(mut self, k: usize) -> Option<(Search, Rooms)>
        requires { k < 2 ^ 32 }
        ensures { IfSome result (λ idle. IsIdled self k idle.0 idle.1.along idle.1.against) }
    {
        if self.places.len() != k + 1 {
            return None;
        }
        let along = self.along(k).unwrap_or(0);
        let against = self.against(k).unwrap_or(0);
        if along > u64::MAX - against {
            return None;
        }
        self.set_rooms(k, 0, 0);
        Some((self, Rooms { along, against }))
    }

    /// The search with these rooms of its last pair, at index `k`. Takes no memory.
    pub(super) fn with_last_rooms(mut self, k: usize, last: Rooms) -> Search
        requires { k < length self.pairs }
        ensures { result ≡ with_pairs self (with_rooms self.pairs k last.along last.against) }
    {
        self.set_rooms(k, last.along, last.against);
        self
    }
}

impl Shared {
    /// The links with those of this pair before the last one, both without room. Takes memory for a place. `None` if it is refused, if an
    /// end of a pair has no spare link, or where another search has the same links.
    fn taking_in(self, pair: Option<Pair>) -> Option<Shared>
        requires shared { AreShared self }
        requires pair { IfSome pair (IsPair self.table.value.nodes) }
        requires some { 0 < length self.places.value }
        requires few { length self.places.value ≤ 2 ^ 27 }
        ensures shared { IfSome result AreShared }
        ensures taken { IfSome result (λ after. TakesIn (links_of self.table.value) self.places.value pair (links_of after.table.value) after.places.value) }
    {
        let last = idle_pair(&self.table, &self.places, self.places.len() - 1);
        let off = self.without_last()?;
        let on = off.with_last(pair)?;
        on.with_last(last)
    }

    /// The links with those of this pair, without room, behind the others. Takes memory for a place. `None` if it is refused, if an end of
    /// the pair has no spare link, or where another search has the same links.
    pub(super) fn with_last(self, pair: Option<Pair>) -> Option<Shared>
        requires shared { AreShared self }
        requires pair { IfSome pair (IsPair self.table.value.nodes) }
        requires few { length self.places.value ≤ 2 ^ 27 }
        ensures shared { IfSome result AreShared }
        ensures on { IfSome result (λ after. IsPutOn (links_of self.table.value) self.places.value (without_room pair)
            (links_of after.table.value) after.places.value) }
    {
        let Shared {
            mut table,
            mut places,
            numbers,
        } = self;
        if !put_on(Rc::get_mut(&mut table)?, Rc::get_mut(&mut places)?, pair) {
            return None;
        }
        let numbers = number_last(&table, &places, numbers);
        Some(Shared {
            table,
            places,
            numbers,
        })
    }

    /// The links without those of the last pair, which are spare then. `None` where another search has the same links, or if the memory is
    /// refused that the call takes the first time.
    pub(super) fn without_last(self) -> Option<Shared>
        requires shared { AreShared self }
        requires some { 0 < length self.places.value }
        ensures shared { IfSome result AreShared }
        ensures off { IfSome result (λ after. IsTakenOff (links_of self.table.value) self.places.value
            (links_of after.table.value) after.places.value) }
    {
        let Shared {
            mut table,
            mut places,
            numbers,
        } = self;
        if !take_off(Rc::get_mut(&mut table)?, Rc::get_mut(&mut places)?) {
            return None;
        }
        Some(Shared {
            table,
            places,
            numbers,
        })
    }
}
