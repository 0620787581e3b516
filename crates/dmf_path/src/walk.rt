//! The walk from the start to the goal, along admissible links.
ghost use Rattle.std.specs.Prelude.{◌≡◌, ℕ, true, false, List, ◌+◌, ◌-◌, ◌≤◌, ◌<◌, length, slice_index};
ghost use Rattle.dmf_path.specs.Ball.{IsAround, IsFit};
ghost use Rattle.dmf_path.specs.Walk.{IsWalk};
ghost use Rattle.dmf_path.specs.Held.{way_of, slot_at};
ghost use Rattle.dmf_path.specs.Residual.{residual_of, with_settled_rooms};
ghost use Rattle.dmf_path.specs.Searching.{sought, IsSearching, IsFound, MaySkip};

use crate::ball::Ball;
use crate::look::LinkRange;
use crate::noted::Noted;
use crate::residual::Residual;
use crate::trail::Trail;
use dmf_links::LinkTable;

/// Goes on from where the trail ends, until it leads from the start to where the end of the last path begins, or no walk leads to the
/// goal. At each node the walk takes the first admissible link from the current one on; but near the goal only one that may lead there:
/// it passes those of which it is known that they do not. If there is none, it steps back. Notes the admissible links that it passes.
pub fn walk(
    links: &mut Residual,
    labels: &[u32],
    current: &mut [u32],
    ball: &Ball,
    trail: &mut Trail,
    noted: &mut Noted,
) -> bool
    requires searching { IsSearching (residual_of links.old) (record { labels = labels.now; current = current.old }) (way_of trail.old) }
    requires fit { IsFit ball.now (with_settled_rooms (residual_of links.old) (way_of trail.old)) }
    requires around { IsAround ball.now trail.old.goal }
    ensures searching { IsSearching (residual_of links.new) (record { labels = labels.now; current = current.new }) (way_of trail.new) }
    ensures same { sought (residual_of links.new) (way_of trail.new) ≡ sought (residual_of links.old) (way_of trail.old) }
    ensures skipped { MaySkip noted.old (with_settled_rooms (residual_of links.old) (way_of trail.old)) labels.now current.old
        → MaySkip noted.new (with_settled_rooms (residual_of links.old) (way_of trail.old)) labels.now current.new }
    ensures found { result ≡ true → IsFound (residual_of links.new) (way_of trail.new) }
    ensures none { result ≡ false → (ps : List ℕ) → ¬ IsWalk (residual_of links.old).links labels.now
        (with_settled_rooms (residual_of links.old) (way_of trail.old)).rooms trail.old.goal trail.old.start ps }
{
    let low = labels[trail.goal as usize];
    let mut node = end_node(&links.table, trail);
    while node != trail.joint {
        let end = links.table.first[node as usize + 1];
        let from = current[node as usize];
        let look = links.first_leading(labels, ball, trail.goal, LinkRange { node, from, end });
        let place = look.place;
        current[node as usize] = place;
        noted.pass(look.skipped, place);
        if place < end {
            if links.is_spent(labels, current, low, place) {
                current[node as usize] = place + 1;
                noted.note(place);
                continue;
            }
            trail.make_way(links);
            let room = links.rooms[place as usize];
            trail.enter(place, room);
            node = links.table.heads[place as usize];
        } else {
            if trail.walked == 0 {
                return false;
            }
            let back = trail.step_back(links);
            node = end_node(&links.table, trail);
            current[node as usize] = back + 1;
            noted.note(back);
        }
    }
    true
}

/// The last node of the walk.
fn end_node(table: &LinkTable, trail: &Trail) -> u32
    requires last { 0 < trail.now.walked → (slot_at trail.now.slots.items (trail.now.walked - 1)).place < length table.now.heads.items }
    ensures first { trail.now.walked ≡ 0 → result ≡ trail.now.start }
    ensures last { 0 < trail.now.walked → result ≡ slice_index table.now.heads.items (slot_at trail.now.slots.items (trail.now.walked - 1)).place }
{
    if trail.walked == 0 {
        return trail.start;
    }
    table.heads[trail.slots[trail.walked - 1].place as usize]
}

impl Residual {
    /// Whether the link at this place leads to a node above the goal, which has the label `low`, whose links are all passed.
    fn is_spent(&self, labels: &[u32], current: &[u32], low: u32, place: u32) -> bool
        requires place { place < length self.now.table.value.heads.items }
        requires one_label_each { length labels.now ≡ self.now.table.value.nodes + 1 }
        requires one_current_each { length current.now ≡ self.now.table.value.nodes + 1 }
        ensures above { result ≡ true → low < slice_index labels.now (slice_index self.now.table.value.heads.items place) }
        ensures passed { result ≡ true → slice_index self.now.table.value.first.items (slice_index self.now.table.value.heads.items place + 1)
            ≤ slice_index current.now (slice_index self.now.table.value.heads.items place) }
    {
        let head = self.table.heads[place as usize];
        labels[head as usize] > low && current[head as usize] >= self.table.first[head as usize + 1]
    }
}
