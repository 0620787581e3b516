//! Raising labels where rooms have fallen.
ghost use Rattle.std.specs.Prelude.{◌≡◌, ◌≢◌, ◌+◌, ℕ, List, true, length};
ghost use Rattle.dmf_node.specs.Node.{IsNode};
ghost use Rattle.dmf_links.specs.LinkTable.{links_of};
ghost use Rattle.dmf_path.specs.Raising.{AreRaised, IsLeastAhead, MayBeRaised};
ghost use Rattle.dmf_path.specs.Residual.{residual_of};
ghost use Rattle.dmf_path.specs.Walk.{IsWalk};

use crate::aside::Ends;
use crate::course::Course;
use crate::frontier::Frontier;
use crate::label::NO_LABEL;
use crate::residual::Residual;

/// The trials from one start have at most so many steps.
const MOST: u32 = 16384;

/// Raises labels on trials, until a trial raises none: then a walk leads from the start to the goal. A trial goes from the start to the
/// goal along admissible links, and where a node has none, it raises the node's label. Whether such a walk is found; if not, that would
/// take too many steps, or [`Course::may_raise`] says that no label may be raised.
pub fn raise(
    links: &Residual,
    ends: Ends,
    near: &mut Frontier,
    current: &mut [u32],
    course: &mut Course,
) -> bool
    requires start { IsNode links.now.table.value.nodes ends.start }
    requires labels { MayBeRaised (residual_of links.now) ends.goal (record { labels = near.old.labels; current = current.old }) }
    ensures raised { AreRaised (residual_of links.now) ends.goal (record { labels = near.old.labels; current = current.old })
        (record { labels = near.new.labels; current = current.new }) }
    ensures walk { result ≡ true
        → (ps : List ℕ) × IsWalk (links_of links.now.table.value) near.new.labels links.now.rooms.items ends.goal ends.start ps }
{
    let mut node = ends.start;
    let mut is_raised = false;
    for _ in 0..MOST {
        if node == ends.goal {
            if !is_raised {
                return true;
            }
            node = ends.start;
            is_raised = false;
            continue;
        }
        let end = links.table.first[node as usize + 1];
        let from = current[node as usize];
        let place = links.first_admissible(near.labels(), from, end, near.label(node));
        current[node as usize] = place;
        if place < end {
            node = links.table.heads[place as usize];
            continue;
        }
        if !raise_node(links, ends.goal, node, near, current, course) {
            return false;
        }
        is_raised = true;
    }
    false
}

/// Makes the first link of this node its current one, and raises its label, if it is lower, to one above the least label to which a link
/// with room leads from it. Whether that can be done: not if there is no such label, or no label may be raised.
fn raise_node(
    links: &Residual,
    goal: u32,
    node: u32,
    near: &mut Frontier,
    current: &mut [u32],
    course: &mut Course,
) -> bool
    requires node { IsNode links.now.table.value.nodes node }
    requires other { node ≢ goal }
    requires labels { MayBeRaised (residual_of links.now) goal (record { labels = near.old.labels; current = current.old }) }
    ensures raised { AreRaised (residual_of links.now) goal (record { labels = near.old.labels; current = current.old })
        (record { labels = near.new.labels; current = current.new }) }
{
    let places = links.table.places_at(node);
    *course = course.after((places.end - places.start) as u64);
    if !course.may_raise(links.table.heads.len() as u64) {
        return false;
    }
    let label = least_label(links, node, near.labels());
    if label >= links.table.nodes {
        return false;
    }
    current[node as usize] = links.table.first[node as usize];
    if label >= near.label(node) {
        near.set_label(node, label + 1);
    }
    true
}

/// The least label of the nodes to which links with room lead from this node, or [`NO_LABEL`].
fn least_label(links: &Residual, node: u32, labels: &[u32]) -> u32
    requires node { IsNode links.now.table.value.nodes node }
    requires one_each { length labels.now ≡ links.now.table.value.nodes + 1 }
    ensures { IsLeastAhead (links_of links.now.table.value) labels.now links.now.rooms.items node result }
{
    let mut least = NO_LABEL;
    let places = links.table.places_at(node);
    for place in places.start..places.end {
        if links.rooms[place] > 0 {
            least = least.min(labels[links.table.heads[place] as usize]);
        }
    }
    least
}
