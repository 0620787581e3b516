//! The room of one link with the held pushes applied.
ghost use Rattle.std.specs.Prelude.{◌≡◌, ◌<◌, length, slice_index};
ghost use Rattle.dmf_path.specs.Held.{way_of, filled_slots, HaveLeft, held_for, held_in};

use crate::residual::Residual;
use crate::trail::{Slot, Trail};

impl Residual {
    ghost use Rattle.dmf_path.specs.Residual.{residual_of, with_settled_rooms};

    /// The room of a link with the held pushes applied.
    pub fn settled_room(&self, trail: &Trail, place: u32) -> u64
        requires place { place < length self.now.table.value.heads.items }
        requires have { HaveLeft trail.now.sent self.now.rooms.items (filled_slots (way_of trail.now)) }
        ensures { result ≡ slice_index (with_settled_rooms (residual_of self.now) (way_of trail.now)).rooms place }
    {
        let room = self.rooms[place as usize];
        if trail.is_empty() {
            return room;
        }
        let left = room - held_for(&self.rooms, trail, place);
        if !self.takes_back {
            return left;
        }
        left + held_for(&self.rooms, trail, self.table.opposite(place))
    }

    /// The room of the opposite of the link at this place, with the held pushes applied. If no push is held and the flag says that
    /// there is no room, the call does not look at the opposite link.
    pub fn opposite_room(&self, trail: &Trail, place: u32) -> u64
        requires place { place < length self.now.table.value.heads.items }
        requires have { HaveLeft trail.now.sent self.now.rooms.items (filled_slots (way_of trail.now)) }
        ensures { result ≡ slice_index (with_settled_rooms (residual_of self.now) (way_of trail.now)).rooms (slice_index self.now.table.value.partners.items place) }
    {
        if self.flags[place as usize] == 0 && trail.is_empty() {
            return 0;
        }
        self.settled_room(trail, self.table.opposite(place))
    }
}

/// The amount held for a link.
fn held_for(rooms: &[u64], trail: &Trail, place: u32) -> u64
    requires place { place < length rooms.now }
    requires have { HaveLeft trail.now.sent rooms.now (filled_slots (way_of trail.now)) }
    ensures { result ≡ held_for trail.now.sent rooms.now (filled_slots (way_of trail.now)) place }
{
    let walked = &trail.slots[..trail.walked];
    let rest = &trail.slots[trail.rest..];
    match held_in(rooms, walked, trail.sent, place) {
        Some(held) => held,
        None => held_in(rooms, rest, trail.sent, place).unwrap_or(0),
    }
}

/// The amount that these slots hold for a link, if it is in one of them.
fn held_in(rooms: &[u64], slots: &[Slot], sent: u64, place: u32) -> Option<u64>
    requires place { place < length rooms.now }
    requires have { HaveLeft sent rooms.now slots.now }
    ensures { result ≡ held_in sent rooms.now slots.now place }
{
    for slot in slots {
        if slot.place == place {
            return Some(rooms[place as usize] - slot.room_left(sent));
        }
    }
    None
}
