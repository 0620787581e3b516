//! The nodes that are reachable from the start, with the held pushes applied.
ghost use Rattle.std.specs.Prelude.{◌≡◌, drop, length, map, IfOk};
ghost use Rattle.dmf_node.specs.Node.{IsNode};
ghost use Rattle.dmf_links.specs.Links.{open_flag};
ghost use Rattle.dmf_links.specs.LinkTable.{links_of};
ghost use Rattle.dmf_path.specs.Labels.{AreLabels, is_label};
ghost use Rattle.dmf_path.specs.Held.{way_of, filled_slots, HaveLeft};
ghost use Rattle.dmf_path.specs.Residual.{residual_of, with_settled_rooms};

use crate::frontier::Frontier;
use crate::label::NO_LABEL;
use crate::open::OpenByRoom;
use crate::residual::Residual;
use crate::trail::Trail;
use dmf_links::LinkTable;
use std::alloc::{AllocError, Global};

/// Labels from the start over the links that have room, with the held pushes applied. Takes memory for two numbers a node, and for
/// the rooms too if a slot is filled.
pub fn labels_from_start(
    alloc: Global,
    links: &Residual,
    trail: &Trail,
) -> Result<Vec<u32>, AllocError>
    requires start { IsNode links.now.table.value.nodes trail.now.start }
    requires have { HaveLeft trail.now.sent links.now.rooms.items (filled_slots (way_of trail.now)) }
    ensures { IfOk result (λ labels. AreLabels (links_of links.now.table.value)
        (map open_flag (with_settled_rooms (residual_of links.now) (way_of trail.now)).rooms) trail.now.start 0 labels.items) }
{
    if trail.is_empty() {
        return labels_over(alloc, &links.table, &links.rooms, trail.start);
    }
    let settled = settled_rooms(alloc, links, trail)?;
    labels_over(alloc, &links.table, &settled, trail.start)
}

/// The rooms of all links with the held pushes applied. Takes memory for them.
fn settled_rooms(alloc: Global, links: &Residual, trail: &Trail) -> Result<Vec<u64>, AllocError>
    requires have { HaveLeft trail.now.sent links.now.rooms.items (filled_slots (way_of trail.now)) }
    ensures { IfOk result (λ rooms. rooms.items ≡ (with_settled_rooms (residual_of links.now) (way_of trail.now)).rooms) }
{
    let mut settled = Vec::with_capacity(alloc, links.rooms.len())?;
    for place in 0..links.rooms.len() {
        settled.push(links.settled_room(trail, place as u32))?;
    }
    Ok(settled)
}

/// Labels from a root over the links with room. Takes memory for them, and for a queue.
fn labels_over(
    alloc: Global,
    table: &LinkTable,
    rooms: &[u64],
    root: u32,
) -> Result<Vec<u32>, AllocError>
    requires one_room_each { length rooms.now ≡ length table.now.heads.items }
    requires root { IsNode table.now.nodes root }
    ensures { IfOk result (λ labels. AreLabels (links_of table.now) (map open_flag rooms.now) root 0 labels.items) }
{
    let mut frontier = Frontier::new(alloc, table.nodes)?;
    frontier.label_from(table, &OpenByRoom(rooms), root, 0);
    Ok(frontier.into_labels())
}

/// Which nodes have a label. The first mark belongs to node 1.
pub fn labelled(alloc: Global, labels: &[u32]) -> Result<Vec<bool>, AllocError>
    ensures { IfOk result (λ marks. marks.items ≡ map is_label (drop 1 labels.now)) }
{
    labels
        .iter()
        .skip(1)
        .map(|label| *label != NO_LABEL)
        .collect(alloc)
}
