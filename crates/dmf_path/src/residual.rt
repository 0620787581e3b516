//! Links with their rooms: the residual network.
ghost use Rattle.std.specs.Prelude.{◌≡◌, ◌<◌, length, slice_index, slice_set};
ghost use Rattle.dmf_links.specs.Links.{AreRooms, AreFlags, IsSpare, open_flag};
ghost use Rattle.dmf_links.specs.LinkTable.{links_of};

use dmf_links::{LinkTable, open_flag};
use std::rc::Rc;

/// Links with their rooms.
#[derive(Drop)]
pub struct Residual {
    /// The links, which several searches may share.
    pub table: Rc<LinkTable>,
    /// Whether a push along a link can be pushed back along its opposite.
    pub takes_back: bool,
    /// The room of each link.
    pub rooms: Vec<u64>,
    /// For each link 1 if its opposite has room, else 0.
    pub flags: Vec<u8>,
    // The rooms of two opposite links fit 64 bits together, a spare link has none, and each flag says whether there is room.
    ghost rooms_are: { AreRooms (links_of table.value) rooms.items },
    ghost flags_are: { AreFlags (links_of table.value) rooms.items flags.items },
}

impl Residual {
    ghost use Rattle.std.specs.Prelude.{◌+◌, ◌^◌, ◌≤◌};
    ghost use Rattle.dmf_path.specs.Residual.{residual_of, put_at, pushed_along, room_lowered, pair_set};

    /// Pushes an amount along a link: its room falls by the amount, and the room of its opposite rises by it if pushes are taken back.
    pub fn push(&mut self, place: u32, amount: u64)
        requires within { place < length self.old.table.value.heads.items }
        requires room { amount ≤ slice_index self.old.rooms.items place }
        ensures { residual_of self.new ≡ pushed_along (residual_of self.old) place amount }
    {
        self.lower(place, amount);
        if self.takes_back {
            let opposite = self.table.opposite(place);
            let room = self.rooms[opposite as usize];
            self.put(opposite, place, room + amount);
        }
    }

    /// Takes an amount off the room of a link.
    pub fn lower(&mut self, place: u32, amount: u64)
        requires within { place < length self.old.table.value.heads.items }
        requires room { amount ≤ slice_index self.old.rooms.items place }
        ensures { residual_of self.new ≡ room_lowered (residual_of self.old) place amount }
    {
        let opposite = self.table.opposite(place);
        let room = self.rooms[place as usize];
        self.put(place, opposite, room - amount);
    }

    /// Sets the rooms of a link and of its opposite.
    pub fn set_pair(&mut self, place: u32, along: u64, against: u64)
        requires within { place < length self.old.table.value.heads.items }
        requires fits { along + against < 2 ^ 64 }
        requires used { ¬ IsSpare (links_of self.old.table.value) place }
        ensures { residual_of self.new ≡ pair_set (residual_of self.old) place along against }
    {
        let opposite = self.table.opposite(place);
        self.put(place, opposite, 0);
        self.put(opposite, place, against);
        self.put(place, opposite, along);
    }

    /// Sets the room of a link, and the flag at its opposite, which says whether the link has room.
    fn put(&mut self, place: u32, opposite: u32, room: u64)
        requires within { place < length self.old.table.value.heads.items }
        requires opposite { opposite ≡ slice_index self.old.table.value.partners.items place }
        requires fits { room + slice_index self.old.rooms.items opposite < 2 ^ 64 }
        requires spare { IsSpare (links_of self.old.table.value) place → room ≡ 0 }
        ensures { residual_of self.new ≡ put_at (residual_of self.old) place room }
    {
        let before = self.rooms[place as usize];
        self.rooms[place as usize] = room;
        renew_flag(&mut self.flags, opposite, before, room);
    }
}

/// Updates the flag for a room that has changed. Most changes leave the flag as it is, and then the call does not touch its memory.
fn renew_flag(flags: &mut [u8], place: u32, before: u64, after: u64)
    requires within { place < length flags.old }
    requires told { slice_index flags.old place ≡ open_flag before }
    ensures { flags.new ≡ slice_set flags.old place (open_flag after) }
{
    if (before > 0) != (after > 0) {
        flags[place as usize] = open_flag(after);
    }
}
