//! Labelling the nodes anew: from the goal alone, or from both ends.
ghost use Rattle.std.specs.Prelude.{◌≡◌, ◌≢◌, true, false};
ghost use Rattle.dmf_links.specs.LinkTable.{links_of};
ghost use Rattle.dmf_path.specs.BothEnds.{AreWhole};
ghost use Rattle.dmf_path.specs.Searching.{IsRelabelled, MayBeLabelled};

use crate::aside::Ends;
use crate::course::Course;
use crate::levels::Levels;
use crate::mark::{has_label_or_mark, mark_labelled};
use crate::meet::meet;
use crate::open::{Flagged, OpenByRoom};
use crate::residual::Residual;

/// Labels the nodes, none of which has a label. Returns whether the start has one then; if not, no path is left, and the nodes on the
/// start's side are marked.
///
/// If a search looks for paths from several starts in turn, all nodes get a label once labelling from both ends has looked at more
/// links than there are.
pub fn label_anew(links: &Residual, levels: &mut Levels, ends: Ends, marks: &mut [bool]) -> bool
    requires { MayBeLabelled links.now levels.old ends }
    ensures relabelled { IsRelabelled links.now levels.old levels.new ends result marks.new }
    ensures kept { result ≡ true → marks.new ≡ marks.old }
    ensures whole { result ≡ true → levels.new.all ≡ true → AreWhole (links_of links.now.table.value) levels.new.near.labels links.now.rooms.items }
{
    levels.all = levels.course.is_to_all(links.table.heads.len() as u64);
    if levels.all {
        levels.course = levels.course.with_all();
        if levels.course.is_from_start() {
            return label_all_from(links, levels, ends, marks);
        }
        return label_all(links, levels, ends, marks);
    }
    match levels.course {
        Course::FromGoal { looked } => {
            if misses_goal(links, levels, ends, looked / 32, marks) {
                return false;
            }
            label_from_goal(links, levels, ends, marks)
        }
        Course::FromBoth { .. } => label_from_both(links, levels, ends, marks),
    }
}

/// Labels the nodes from the goal, until the start has a label.
fn label_from_goal(links: &Residual, levels: &mut Levels, ends: Ends, marks: &mut [bool]) -> bool
    requires { MayBeLabelled links.now levels.old ends }
    ensures relabelled { IsRelabelled links.now levels.old levels.new ends result marks.new }
    ensures kept { result ≡ true → marks.new ≡ marks.old }
    ensures all { levels.new.all ≡ levels.old.all }
{
    let near = &mut levels.near;
    near.label_from(&links.table, &Flagged(&links.flags), ends.goal, ends.start);
    levels.course = Course::FromGoal {
        looked: near.looked(),
    };
    has_label_or_mark(near, ends.start, marks)
}

/// Labels all nodes from which paths lead to the goal.
fn label_all(links: &Residual, levels: &mut Levels, ends: Ends, marks: &mut [bool]) -> bool
    requires { MayBeLabelled links.now levels.old ends }
    ensures relabelled { IsRelabelled links.now levels.old levels.new ends result marks.new }
    ensures kept { result ≡ true → marks.new ≡ marks.old }
    ensures whole { AreWhole (links_of links.now.table.value) levels.new.near.labels links.now.rooms.items }
{
    let near = &mut levels.near;
    near.label_from(&links.table, &Flagged(&links.flags), ends.goal, 0);
    has_label_or_mark(near, ends.start, marks)
}

/// Labels all nodes by their distances from the start: each label is the number of nodes less that distance. Returns whether a path leads
/// to the goal. These labels are right for any goal: how far a node is above it is all that a walk asks.
fn label_all_from(links: &Residual, levels: &mut Levels, ends: Ends, marks: &mut [bool]) -> bool
    requires { MayBeLabelled links.now levels.old ends }
    ensures relabelled { IsRelabelled links.now levels.old levels.new ends result marks.new }
    ensures kept { result ≡ true → marks.new ≡ marks.old }
    ensures whole { result ≡ true → AreWhole (links_of links.now.table.value) levels.new.near.labels links.now.rooms.items }
{
    let far = &mut levels.far;
    far.label_from(&links.table, &OpenByRoom(&links.rooms), ends.start, 0);
    if !far.has_label(ends.goal) {
        mark_labelled(far.labels(), marks);
        far.unlabel();
        return false;
    }
    levels.near.turn(far, links.table.nodes);
    far.unlabel();
    true
}

/// Searches from the start over links with room, and gives up after `few` links. Returns whether the search ended before that without
/// the goal: then no path is left. If not, removes all labels again.
///
/// If no path is left, labelling from the goal would often look at nearly all links.
fn misses_goal(
    links: &Residual,
    levels: &mut Levels,
    ends: Ends,
    few: u64,
    marks: &mut [bool],
) -> bool
    requires { MayBeLabelled links.now levels.old ends }
    ensures enclosed { result ≡ true → IsRelabelled links.now levels.old levels.new ends false marks.new }
    ensures clean { result ≡ false → MayBeLabelled links.now levels.new ends }
    ensures kept { result ≡ false → marks.new ≡ marks.old }
    ensures all { levels.new.all ≡ levels.old.all }
    ensures current { levels.new.current ≡ levels.old.current }
{
    let near = &mut levels.near;
    near.begin(ends.start);
    let ended = near.label_within(&links.table, &OpenByRoom(&links.rooms), ends.goal, few);
    if ended && !near.has_label(ends.goal) {
        mark_labelled(near.labels(), marks);
        return true;
    }
    near.unlabel();
    false
}

/// Labels the nodes from the goal and from the start until the searches meet, and joins the labels to those of the goal's side. Returns
/// whether they meet.
fn label_from_both(links: &Residual, levels: &mut Levels, ends: Ends, marks: &mut [bool]) -> bool
    requires { MayBeLabelled links.now levels.old ends }
    ensures relabelled { IsRelabelled links.now levels.old levels.new ends result marks.new }
    ensures kept { result ≡ true → marks.new ≡ marks.old }
    ensures all { levels.new.all ≡ levels.old.all }
{
    let near = &mut levels.near;
    let far = &mut levels.far;
    near.begin(ends.goal);
    far.begin(ends.start);
    let Some(node) = meet(links, near, far, marks) else {
        far.unlabel();
        return false;
    };
    let long = near.label(node) + far.label(node);
    let looked = near.looked().saturating_add(far.looked());
    near.join(far, long);
    far.unlabel();
    levels.course = levels.course.after(looked);
    true
}
