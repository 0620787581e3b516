//! Pairs are put on behind the others, where spare links become theirs, and taken off there, which leaves their links spare.
ghost use Rattle.std.specs.Prelude.{◌≡◌, ◌≢◌, ℕ, ◌+◌, ◌-◌, ◌^◌, ◌<◌, ◌≤◌, true, List, length, slice_set, IfSome};
ghost use Rattle.dmf_node.specs.Node.{IsNode};
ghost use Rattle.dmf_links.specs.Links.{AreLinks, ArePlaces, IsSpare, pairs_at};
ghost use Rattle.dmf_links.specs.LinkTable.{links_of};
ghost use Rattle.dmf_links.specs.Pair.{IsPair, without_room, pair_number};
ghost use Rattle.dmf_links.specs.Stack.{AreCoupled, IsFirstSpare, IsPutOn, IsTakenOff, ending_at};

use crate::links::NO_PLACE;
use crate::pair::Pair;
use crate::places::Places;
use crate::table::LinkTable;

/// The pair at index `k` without its rooms.
pub fn idle_pair(table: &LinkTable, places: &Places, k: usize) -> Option<Pair>
    requires places { ArePlaces (links_of table.now) places.now }
    requires index { k < length places.now }
    ensures is { (rooms : List ℕ) → result ≡ without_room (pair_number (pairs_at (links_of table.now) places.now rooms) k) }
    ensures pair { IfSome result (IsPair table.now.nodes) }
{
    let place = places.place_of(k)?;
    Some(Pair {
        tail: table.tail(place),
        head: table.heads[place as usize],
        along: 0,
        against: 0,
    })
}

/// Whether a node has a spare link.
pub fn has_spare(table: &LinkTable, node: u32) -> bool
    requires { IsNode table.now.nodes node }
{
    table.spare(node).is_some()
}

/// Puts on a pair with these ends behind the others, without room: spare links become its links. Takes memory for a place, and the first
/// time for a number a node. `false` if memory is refused, or if an end has no spare link.
pub fn put_on(table: &mut LinkTable, places: &mut Places, pair: Option<Pair>) -> bool
    requires places { ArePlaces (links_of table.old) places.old }
    requires few { length places.old ≤ 2 ^ 27 }
    requires pair { IfSome pair (IsPair table.old.nodes) }
    ensures { result ≡ true → IsPutOn (links_of table.old) places.old (without_room pair) (links_of table.new) places.new }
{
    let Some(pair) = pair else {
        return places.put_on(NO_PLACE);
    };
    let Some(along) = table.spare(pair.tail) else {
        return false;
    };
    let Some(against) = table.spare(pair.head) else {
        return false;
    };
    table.couple(along, against);
    table.set_ends(along, along + 1, against + 1) && places.put_on(along)
}

/// Takes off the last pair: its links are spare then. Takes no memory, but the first time for a number a node. `false` if it is refused.
pub fn take_off(table: &mut LinkTable, places: &mut Places) -> bool
    requires places { ArePlaces (links_of table.old) places.old }
    requires some { 0 < length places.old }
    ensures { result ≡ true → IsTakenOff (links_of table.old) places.old (links_of table.new) places.new }
{
    if let Some(place) = places.place_of(places.len() - 1) {
        let opposite = table.opposite(place);
        if !table.set_ends(place, place, opposite) {
            return false;
        }
    }
    places.take_off();
    true
}

impl LinkTable {
    /// The first spare link of a node, if it has one.
    fn spare(&self, node: u32) -> Option<u32>
        requires { IsNode self.now.nodes node }
        ensures { IfSome result (IsFirstSpare (links_of self.now) node) }
    {
        let place = self.ends()[node as usize + 1];
        if place < self.first[node as usize + 1] {
            return Some(place);
        }
        None
    }

    /// Makes two spare links opposites of each other, and so those that were theirs.
    fn couple(&mut self, a: u32, b: u32)
        requires a_within { a < length self.old.heads.items }
        requires b_within { b < length self.old.heads.items }
        requires apart { a ≢ b }
        requires a_spare { IsSpare (links_of self.old) a }
        requires b_spare { IsSpare (links_of self.old) b }
        ensures { AreCoupled (links_of self.old) a b (links_of self.new) }
    {
        let a_opposite = self.opposite(a);
        let b_opposite = self.opposite(b);
        if a_opposite == b {
            return;
        }
        let a_tail = self.tail(a);
        let b_tail = self.tail(b);
        let a_head = self.heads[a as usize];
        let b_head = self.heads[b as usize];
        put_two(&mut self.partners, a, b, b, a);
        put_two(
            &mut self.partners,
            a_opposite,
            b_opposite,
            b_opposite,
            a_opposite,
        );
        put_two(&mut self.heads, a, b_tail, b, a_tail);
        put_two(&mut self.heads, a_opposite, b_head, b_opposite, a_head);
    }

    /// Sets where the links of both ends of a link end that belong to pairs: before `to` at its tail, and before `opposite_to` at its head.
    /// The first time takes memory for a number a node. `false` if it is refused.
    fn set_ends(&mut self, place: u32, to: u32, opposite_to: u32) -> bool
        requires within { place < length self.old.heads.items }
        requires links { AreLinks (ending_at (links_of self.old) place to opposite_to) }
        ensures { result ≡ true → links_of self.new ≡ ending_at (links_of self.old) place to opposite_to }
    {
        let tail = self.tail(place);
        let head = self.heads[place as usize];
        let mut ends = match self.ends.take() {
            Some(ends) => ends,
            None => match self.first.clone() {
                Ok(ends) => ends,
                Err(_) => return false,
            },
        };
        ends[tail as usize + 1] = to;
        ends[head as usize + 1] = opposite_to;
        self.ends = Some(ends);
        true
    }
}

/// Puts `x` at index `i`, and `y` at index `j`.
pub fn put_two(items: &mut Vec<u32>, i: u32, x: u32, j: u32, y: u32)
    requires first { i < length items.old.items }
    requires second { j < length items.old.items }
    ensures { items.new.items ≡ slice_set (slice_set items.old.items i x) j y }
{
    items[i as usize] = x;
    items[j as usize] = y;
}
