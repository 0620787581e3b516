//! The places of the links along of pairs.
ghost use Rattle.std.specs.Bool.{Decides};
ghost use Rattle.std.specs.Prelude.{◌≡◌, ◌-◌, ◌<◌, ◌++◌, ◌∷◌, [], true, length, take, slice_index, MatchOption};
ghost use Rattle.dmf_links.specs.Links.{no_place, HaveAllPlaces, HaveFirstPlaces, IsPlaceOf};

use crate::links::NO_PLACE;
use std::marker::Model;

/// The place of each pair's link along, or [`NO_PLACE`].
#[derive(Drop)]
pub struct Places {
    places: Vec<u32>,
    /// So many of the first pairs are there.
    there: usize,
}

impl Model for Places {
    ghost use Rattle.std.specs.Prelude.{ℕ, List};
    ghost use Rattle.dmf_links.specs.Links.{HaveFirstPlaces};

    ghost Value = { List ℕ };

    ghost view = { λ a. a.places.items };

    ghost invariant = { λ a. HaveFirstPlaces a.there a.places.items };
}

impl Places {
    /// These places, one for each pair.
    pub fn new(places: Vec<u32>) -> Places
        ensures { result ≡ places.items }
    {
        let there = count_first(&places);
        Places { places, there }
    }

    /// Puts on the place of one more pair, or [`NO_PLACE`]. Takes memory where there is no room for it. `false` if it is refused.
    pub fn put_on(&mut self, place: u32) -> bool
        ensures { result ≡ true → self.new ≡ self.old ++ place ∷ [] }
    {
        let count = self.places.len();
        if self.places.push(place).is_err() {
            return false;
        }
        if self.there == count && place != NO_PLACE {
            self.there = count + 1;
        }
        true
    }

    /// Takes off the place of the last pair. Takes no memory.
    pub fn take_off(&mut self)
        requires { 0 < length self.old }
        ensures { self.new ≡ take (length self.old - 1) self.old }
    {
        let _ = self.places.pop();
        self.there = self.there.min(self.places.len());
    }

    /// Whether these are the same places.
    pub fn are(&self, other: &Places) -> bool
        ensures { Decides result (self.now ≡ other.now) }
    {
        self.places == other.places
    }

    /// How many pairs there are.
    pub fn len(&self) -> usize
        ensures { result ≡ length self.now }
    {
        self.places.len()
    }

    /// Whether no pair is missing.
    pub fn are_all(&self) -> bool
        ensures { result ≡ true → HaveAllPlaces self.now }
    {
        self.there == self.places.len()
    }

    /// The place of the pair at index `k`, if it has one.
    pub fn place_of(&self, k: usize) -> Option<u32>
        requires { k < length self.now }
        ensures { MatchOption result (slice_index self.now k ≡ no_place) (IsPlaceOf self.now k) }
    {
        let place = self.places[k];
        if place == NO_PLACE {
            return None;
        }
        Some(place)
    }
}

/// How many pairs stand before the first that is missing.
fn count_first(places: &[u32]) -> usize
    ensures { HaveFirstPlaces result places.now }
{
    for (k, place) in places.iter().enumerate() {
        if *place == NO_PLACE {
            return k;
        }
    }
    places.len()
}
