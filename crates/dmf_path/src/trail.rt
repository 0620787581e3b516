//! The trail: a slot for each link of the augmenting path. A slot holds the pushes along its link until the link leaves.
ghost use Rattle.std.specs.Prelude.{◌≡◌, ◌≤◌, length, vec_capacity};

use crate::residual::Residual;

/// A link of the path. Its room stays as it was when the link entered the slot: the pushes since then are held.
#[derive(Clone, Copy)]
pub struct Slot {
    /// The place of the link.
    pub place: u32,
    /// The total sent at which the link is saturated, modulo 2^64.
    pub full_at: u64,
}

/// Two parts of a path from the start to the goal: the walk so far, and the rest, which is the end of the last path.
#[derive(Drop)]
pub struct Trail {
    /// A slot for each link that a path has.
    pub slots: Vec<Slot>,
    /// The walk fills the slots below this index.
    pub walked: usize,
    /// The rest fills the slots from this index on. The slots between are free.
    pub rest: usize,
    /// The node at which the rest begins, or the goal if it is empty.
    pub joint: u32,
    /// The total sent so far, modulo 2^64.
    pub sent: u64,
    /// The node at which paths begin.
    pub start: u32,
    /// The node at which they end.
    pub goal: u32,
    ghost order: { walked ≤ rest },
    ghost within: { rest ≤ length slots.items },
}

impl Slot {
    ghost use Rattle.dmf_path.specs.Held.{room_left};

    /// The room that the link has left once this total has been sent.
    pub fn room_left(self, sent: u64) -> u64
        ensures { result ≡ room_left sent self.full_at }
    {
        self.full_at.wrapping_sub(sent)
    }
}

impl Residual {
    ghost use Rattle.dmf_path.specs.Held.{CanPut, IsSlot};
    ghost use Rattle.dmf_links.specs.LinkTable.{links_of};
    ghost use Rattle.dmf_path.specs.Residual.{residual_of, put_once_on, put_each_on};

    /// Applies the pushes that these slots hold to the rooms of their links.
    fn put_each_on(&mut self, slots: &[Slot], sent: u64)
        requires can { CanPut (links_of self.old.table.value) self.old.takes_back sent slots.now self.old.rooms.items }
        ensures { residual_of self.new ≡ put_each_on (residual_of self.old) sent slots.now }
    {
        for slot in slots {
            self.put_on(*slot, sent);
        }
    }

    /// Applies the pushes that a slot holds to the rooms of its link. If it holds none, does not look at the opposite link, so a walk
    /// that steps back from a dead end reads less memory.
    fn put_on(&mut self, slot: Slot, sent: u64)
        requires slot { IsSlot (links_of self.old.table.value) sent self.old.rooms.items slot }
        ensures { residual_of self.new ≡ put_once_on (residual_of self.old) sent slot }
    {
        let held = self.rooms[slot.place as usize] - slot.room_left(sent);
        if held > 0 {
            self.push(slot.place, held);
        }
    }
}

impl Trail {
    ghost use Rattle.std.specs.Prelude.{◌≢◌, ℕ, ◌<◌, true, [], ◌-◌, take, drop};
    ghost use Rattle.dmf_links.specs.LinkTable.{links_of};
    ghost use Rattle.dmf_path.specs.Held.{least_left, way_of, filled_slots, slot_at, CanPut, IsSlot, entered, stepped_back, emptied, with_slots};
    ghost use Rattle.dmf_path.specs.Residual.{residual_of, with_settled_rooms, put_once_on, CanSettle, MakesWay, SplitsAtFull};

    /// Whether all slots are free.
    pub fn is_empty(&self) -> bool
        ensures { result ≡ true → filled_slots (way_of self.now) ≡ [] }
    {
        self.walked == 0 && self.rest == self.slots.len()
    }

    /// The bottleneck: the least of the limit and of the rooms that the links in slots have left.
    pub fn bottleneck(&self, limit: u64) -> u64
        ensures { result ≡ least_left self.now.sent limit self.now.slots.items }
    {
        let mut least = limit;
        for slot in &self.slots {
            least = least.min(slot.room_left(self.sent));
        }
        least
    }

    /// Frees the next slot: if the rest begins there, its first link leaves.
    pub fn make_way(&mut self, links: &mut Residual)
        requires within { self.old.walked < length self.old.slots.items }
        requires slot { self.old.walked ≡ self.old.rest →
            IsSlot (links_of links.old.table.value) self.old.sent links.old.rooms.items (slot_at self.old.slots.items self.old.rest) }
        ensures { MakesWay (residual_of links.old) (way_of self.old) (residual_of links.new) (way_of self.new) }
    {
        if self.walked == self.rest {
            let slot = self.slots[self.rest];
            links.put_on(slot, self.sent);
            self.rest += 1;
            self.joint = links.table.heads[slot.place as usize];
        }
    }

    /// Takes the walk one step on: a link with this room enters the next slot, which is free.
    pub fn enter(&mut self, place: u32, room: u64)
        requires free { self.old.walked < self.old.rest }
        ensures { way_of self.new ≡ entered (way_of self.old) place room }
    {
        self.slots[self.walked] = Slot {
            place,
            full_at: self.sent.wrapping_add(room),
        };
        self.walked += 1;
    }

    /// Takes the walk one step back: its last link leaves. Returns the place of that link.
    pub fn step_back(&mut self, links: &mut Residual) -> u32
        requires some { 0 < self.old.walked }
        requires slot { IsSlot (links_of links.old.table.value) self.old.sent links.old.rooms.items
            (slot_at self.old.slots.items (self.old.walked - 1)) }
        ensures place { result ≡ (slot_at self.old.slots.items (self.old.walked - 1)).place }
        ensures way { way_of self.new ≡ stepped_back (way_of self.old) }
        ensures links { residual_of links.new ≡ put_once_on (residual_of links.old) self.old.sent
            (slot_at self.old.slots.items (self.old.walked - 1)) }
    {
        self.walked -= 1;
        let slot = self.slots[self.walked];
        links.put_on(slot, self.sent);
        slot.place
    }

    /// Applies all held pushes to the rooms, and frees all slots.
    pub fn settle(&mut self, links: &mut Residual)
        requires can { CanSettle (residual_of links.old) (way_of self.old) }
        ensures way { way_of self.new ≡ emptied (way_of self.old) }
        ensures links { residual_of links.new ≡ with_settled_rooms (residual_of links.old) (way_of self.old) }
    {
        links.put_each_on(&self.slots[..self.walked], self.sent);
        links.put_each_on(&self.slots[self.rest..], self.sent);
        self.walked = 0;
        self.rest = self.slots.len();
        self.joint = self.goal;
    }

    /// Splits the path at its saturated links: the links from the first to the last of them leave. The links before them stay as the
    /// walk, and the links after them as the rest.
    pub fn split(&mut self, links: &mut Residual)
        requires can { (first behind : ℕ) → first < behind → behind ≤ length self.old.slots.items →
            CanPut (links_of links.old.table.value) links.old.takes_back self.old.sent
            (take (behind - first) (drop first self.old.slots.items)) links.old.rooms.items }
        requires places { (i : ℕ) → i < length self.old.slots.items →
            (slot_at self.old.slots.items i).place < length links.old.table.value.heads.items }
        ensures { SplitsAtFull (residual_of links.old) (way_of self.old) (residual_of links.new) (way_of self.new) }
    {
        let first = self.first_full();
        let behind = self.behind_last_full();
        if first < behind {
            links.put_each_on(&self.slots[first..behind], self.sent);
            self.walked = first;
            self.rest = behind;
            self.joint = links.table.heads[self.slots[behind - 1].place as usize];
        }
    }

    /// The index of the first saturated link, or the number of slots if there is none.
    fn first_full(&self) -> usize
        ensures within { result ≤ length self.now.slots.items }
        ensures open_links { (i : ℕ) → i < result → (slot_at self.now.slots.items i).full_at ≢ self.now.sent }
    {
        for i in 0..self.slots.len() {
            if self.slots[i].full_at == self.sent {
                return i;
            }
        }
        self.slots.len()
    }

    /// The index after the last saturated link, or 0 if there is none.
    fn behind_last_full(&self) -> usize
        ensures within { result ≤ length self.now.slots.items }
        ensures open_links { (i : ℕ) → result ≤ i → i < length self.now.slots.items → (slot_at self.now.slots.items i).full_at ≢ self.now.sent }
    {
        let mut behind = self.slots.len();
        while behind > 0 && self.slots[behind - 1].full_at != self.sent {
            behind -= 1;
        }
        behind
    }

    /// Makes a free slot for each link that paths have.
    pub fn free(&mut self, links: u32)
        requires capacity { links ≤ vec_capacity self.old.slots }
        ensures count { length self.new.slots.items ≡ links }
        ensures way { way_of self.new ≡ with_slots (way_of self.old) self.new.slots.items }
    {
        make_slots(&mut self.slots, links);
        self.walked = 0;
        self.rest = self.slots.len();
        self.joint = self.goal;
    }
}

/// Replaces the slots by this many free ones.
fn make_slots(slots: &mut Vec<Slot>, links: u32)
    requires capacity { links ≤ vec_capacity slots.old }
    ensures count { length slots.new.items ≡ links }
    ensures capacity { vec_capacity slots.new ≡ vec_capacity slots.old }
{
    slots.clear();
    for _ in 0..links {
        slots.push_reserved(Slot {
            place: 0,
            full_at: 0,
        });
    }
}
