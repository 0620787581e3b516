//! Making a search from pairs, or over the links of another search.
ghost use Rattle.std.specs.Prelude.{◌≡◌, ◌≢◌, ℕ, ◌^◌, ◌≤◌, ◌<◌, slice_index, length, map, replicate, [], IfOk};
ghost use Rattle.dmf_node.specs.Node.{IsNode};
ghost use Rattle.dmf_links.specs.Pair.{ArePairs, without_room};
ghost use Rattle.dmf_links.specs.Links.{AreBuilt, ArePlaces, AreRooms, IsSpare, pairs_at};
ghost use Rattle.dmf_links.specs.LinkTable.{links_of};

use crate::aside::Ends;
use crate::ball::Ball;
use crate::levels::Levels;
use crate::phase::{Phase, make_fresh};
use crate::residual::Residual;
use crate::search::Search;
use crate::trail::Trail;
use dmf_links::{LinkTable, Pairs, Places, build, opposite_flags, put_pair};
use std::alloc::{AllocError, Global};
use std::rc::Rc;

/// Links with their rooms, and the places of the pairs from which they were made.
#[derive(Drop)]
struct Linked {
    table: Rc<LinkTable>,
    places: Rc<Places>,
    rooms: Vec<u64>,
}

impl Search {
    /// A search over these pairs, between so many nodes. `takes_back` says whether a push along one link of a pair can be pushed back
    /// along the other. Takes memory for two links a pair, and for some numbers a node.
    pub fn new<P: Pairs>(
        alloc: Global,
        nodes: u32,
        pairs: &P,
        ends: Ends,
        takes_back: bool,
    ) -> Result<Search, AllocError>
        requires nodes { nodes ≤ 2 ^ 24 }
        requires pairs { ArePairs nodes (P.pairs pairs.now) }
        requires start { IsNode nodes ends.start }
        requires goal { IsNode nodes ends.goal }
        requires apart { ends.start ≢ ends.goal }
        ensures { IfOk result (λ search. search ≡ record {
          nodes = nodes;
          pairs = P.pairs pairs.now;
          start = ends.start;
          goal = ends.goal;
          takes_back = takes_back;
        }) }
    {
        let linked = link(alloc, nodes, pairs)?;
        linked.search(alloc, ends.start, ends.goal, takes_back)
    }

    /// Another search over the same links, with the rooms of these pairs, which have the same ends. Takes memory for a room and a flag
    /// a link, and for some numbers a node.
    pub fn twin<P: Pairs>(
        &self,
        alloc: Global,
        pairs: &P,
        takes_back: bool,
    ) -> Result<Search, AllocError>
        requires pairs { ArePairs self.now.nodes (P.pairs pairs.now) }
        requires same_ends { map without_room (P.pairs pairs.now) ≡ map without_room self.now.pairs }
        ensures { IfOk result (λ search. search ≡ record {
          nodes = self.now.nodes;
          pairs = P.pairs pairs.now;
          start = self.now.start;
          goal = self.now.goal;
          takes_back = takes_back;
        }) }
    {
        let phase = &self.phase;
        let rooms = rooms_of(alloc, &phase.links.table, &self.places, pairs)?;
        let linked = Linked {
            table: phase.links.table.clone()?,
            places: self.places.clone()?,
            rooms,
        };
        linked.search(alloc, phase.trail.start, phase.trail.goal, takes_back)
    }
}

impl Linked {
    /// A search over these links. Takes memory for a flag a link, and for some numbers a node.
    fn search(
        self,
        alloc: Global,
        start: u32,
        goal: u32,
        takes_back: bool,
    ) -> Result<Search, AllocError>
        requires start { IsNode self.table.value.nodes start }
        requires goal { IsNode self.table.value.nodes goal }
        requires apart { start ≢ goal }
        requires places { ArePlaces (links_of self.table.value) self.places.value }
        requires rooms { AreRooms (links_of self.table.value) self.rooms.items }
        ensures { IfOk result (λ search. search ≡ record {
          nodes = self.table.value.nodes;
          pairs = pairs_at (links_of self.table.value) self.places.value self.rooms.items;
          start = start;
          goal = goal;
          takes_back = takes_back;
        }) }
    {
        let flags = opposite_flags(alloc, &self.table, &self.rooms)?;
        let mut levels = Levels::new(alloc, &self.table)?;
        let slots = Vec::with_capacity(alloc, self.table.nodes as usize)?;
        let mut trail = Trail {
            slots,
            walked: 0,
            rest: 0,
            joint: goal,
            sent: 0,
            start,
            goal,
        };
        make_fresh(&self.table, &mut levels, &mut trail);
        let links = Residual {
            table: self.table,
            takes_back,
            rooms: self.rooms,
            flags,
        };
        let phase = Phase {
            links,
            levels,
            ball: Ball::none(alloc),
            trail,
        };
        Ok(Search {
            phase,
            places: self.places,
            numbers: None,
            asides: Vec::new(alloc),
            is_fresh: true,
        })
    }
}

/// Makes links from pairs, so that several searches can share them. Takes memory for two links a pair.
fn link<P: Pairs>(alloc: Global, nodes: u32, pairs: &P) -> Result<Linked, AllocError>
    requires nodes { nodes ≤ 2 ^ 24 }
    requires pairs { ArePairs nodes (P.pairs pairs.now) }
    ensures { IfOk result (λ linked. AreBuilt nodes (P.pairs pairs.now) (links_of linked.table.value) linked.places.value linked.rooms.items) }
{
    let built = build(alloc, nodes, pairs)?;
    Ok(Linked {
        table: Rc::new(alloc, built.table)?,
        places: Rc::new(alloc, Places::new(built.places))?,
        rooms: built.rooms,
    })
}

/// The rooms of the links at these places, as pairs with the same ends have them. Takes memory for them.
fn rooms_of<P: Pairs>(
    alloc: Global,
    table: &LinkTable,
    places: &Places,
    pairs: &P,
) -> Result<Vec<u64>, AllocError>
    requires places { ArePlaces (links_of table.now) places.now }
    requires pairs { ArePairs table.now.nodes (P.pairs pairs.now) }
    requires same_ends { map without_room (P.pairs pairs.now) ≡ pairs_at (links_of table.now) places.now [] }
    ensures rooms { IfOk result (λ rooms. AreRooms (links_of table.now) rooms.items) }
    ensures pairs { IfOk result (λ rooms. pairs_at (links_of table.now) places.now rooms.items ≡ P.pairs pairs.now) }
{
    let mut rooms = vec![in alloc; 0u64; table.heads.len()]?;
    put_pairs(table, places, pairs, &mut rooms);
    Ok(rooms)
}

/// Gives the links at these places, which have no room, the rooms of pairs with the same ends.
fn put_pairs<P: Pairs>(table: &LinkTable, places: &Places, pairs: &P, rooms: &mut [u64])
    requires places { ArePlaces (links_of table.now) places.now }
    requires same_ends { map without_room (P.pairs pairs.now) ≡ pairs_at (links_of table.now) places.now [] }
    requires one_room_each { length rooms.old ≡ length table.now.heads.items }
    requires zeros { rooms.old ≡ replicate (length rooms.old) 0 }
    ensures pairs { pairs_at (links_of table.now) places.now rooms.new ≡ P.pairs pairs.now }
    ensures spares { (p : ℕ) → p < length table.now.heads.items → IsSpare (links_of table.now) p → slice_index rooms.new p ≡ 0 }
{
    for k in 0..pairs.len() {
        if let Some(pair) = pairs.pair(k) {
            let place = places.place_of(k).unwrap();
            put_pair(table, place, pair, rooms);
        }
    }
}
