//! Taking room off a link: first the held pushes are applied that may change its room.
ghost use Rattle.std.specs.Prelude.{◌≡◌, ◌≤◌, ◌+◌, ◌<◌, ◌==◌, length, slice_index};
ghost use Rattle.dmf_links.specs.Links.{tail_of};
ghost use Rattle.dmf_links.specs.LinkTable.{links_of};

use crate::phase::Phase;
use dmf_links::LinkTable;

impl Phase {
    ghost use Rattle.dmf_path.specs.Held.{way_of, places_of, filled_slots, IsOff};
    ghost use Rattle.dmf_path.specs.Phase.{sought_by, with_residual, IsAlike};
    ghost use Rattle.dmf_path.specs.Residual.{room_lowered};

    /// Takes an amount off the room of a link.
    pub fn lower(&mut self, place: u32, amount: u64)
        requires within { place < length self.old.links.table.value.heads.items }
        requires room { amount ≤ slice_index (sought_by self.old).residual.rooms place }
        ensures lowered { sought_by self.new
            ≡ with_residual (sought_by self.old) (room_lowered (sought_by self.old).residual place amount) }
        ensures levels { self.new.levels ≡ self.old.levels }
    {
        self.release(place);
        self.links.lower(place, amount);
    }

    /// Applies all held pushes if one of them may change the room of the link at this place: if pushes are taken back, or if the link
    /// falls, as the links in slots do.
    fn release(&mut self, place: u32)
        requires { place < length self.old.links.table.value.heads.items }
        ensures alike { IsAlike self.old self.new }
        ensures off { IsOff place (places_of (filled_slots (way_of self.new.trail))) }
        ensures room { slice_index (sought_by self.new).residual.rooms place ≡ slice_index self.new.links.rooms.items place }
    {
        let links = &self.links;
        if links.takes_back || falls(&links.table, self.levels.near.labels(), place) {
            self.settle();
        }
    }
}

/// Whether the link at this place leads to a node whose label is lower by one.
fn falls(table: &LinkTable, labels: &[u32], place: u32) -> bool
    requires one_label_each { length labels.now ≡ table.now.nodes + 1 }
    requires place { place < length table.now.heads.items }
    ensures { result ≡ (slice_index labels.now (slice_index table.now.heads.items place) + 1
        == slice_index labels.now (tail_of (links_of table.now) place)) }
{
    let head = table.heads[place as usize];
    u64::from(labels[head as usize]) + 1 == u64::from(labels[table.tail(place) as usize])
}
