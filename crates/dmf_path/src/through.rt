//! Labels from the ways out of marked nodes: two short searches, one on from where they lead to the goal, and one back to the start.
ghost use Rattle.std.specs.Prelude.{◌≡◌, ◌≢◌, ◌+◌, Some, true, false, map, length};
ghost use Rattle.dmf_node.specs.Node.{IsNode};
ghost use Rattle.dmf_links.specs.LinkTable.{links_of};
ghost use Rattle.dmf_links.specs.Links.{open_flag};
ghost use Rattle.dmf_path.specs.Frontier.{IsClean};
ghost use Rattle.dmf_path.specs.Searching.{IsParted, MayBeLabelled};
ghost use Rattle.dmf_path.specs.Through.{flags_to, AreWaysOut, HasLooked, HasPassed};

use crate::aside::Ends;
use crate::frontier::Frontier;
use crate::levels::Levels;
use crate::mark::mark_queued;
use crate::open::{Flagged, LedTo, OpenByRoom};
use crate::residual::Residual;

/// The ends of the links with room that lead from marked nodes to others.
#[derive(Drop)]
pub struct WaysOut {
    /// The marked nodes from which they lead.
    pub tails: Vec<u32>,
    /// The nodes without a mark to which they lead.
    pub heads: Vec<u32>,
}

/// Each search looks at so many links, or at this part of all of them.
const FEW: u64 = 1024;

const PART: u64 = 256;

/// Labels nodes on the two sides of the ways out. Returns whether paths may be left; if not, changes marks, so that they are those of a
/// closed side. `None` if one end is too far away; the labels do not lead to the goal then.
pub fn label_through(
    links: &Residual,
    levels: &mut Levels,
    ends: Ends,
    ways: &WaysOut,
    marks: &mut [bool],
) -> Option<bool>
    requires clean { MayBeLabelled links.now levels.old ends }
    requires out { AreWaysOut (links_of links.now.table.value) links.now.rooms.items ends.start ends.goal ways.now marks.old }
    ensures passed { HasPassed links.now levels.new.near ends.start ends.goal result marks.old marks.new }
    ensures far { IsClean links.now.table.value.nodes levels.new.far }
    ensures current { levels.new.current ≡ levels.old.current }
    ensures all { levels.new.all ≡ levels.old.all }
{
    let found = label_sides(links, &mut levels.near, &mut levels.far, ends, ways, marks);
    levels.far.unlabel();
    found
}

/// Labels nodes on the two sides of the ways out, and leaves labels of the last search behind.
fn label_sides(
    links: &Residual,
    near: &mut Frontier,
    far: &mut Frontier,
    ends: Ends,
    ways: &WaysOut,
    marks: &mut [bool],
) -> Option<bool>
    requires near { IsClean links.now.table.value.nodes near.old }
    requires far { IsClean links.now.table.value.nodes far.old }
    requires start { IsNode links.now.table.value.nodes ends.start }
    requires goal { IsNode links.now.table.value.nodes ends.goal }
    requires out { AreWaysOut (links_of links.now.table.value) links.now.rooms.items ends.start ends.goal ways.now marks.old }
    ensures passed { HasPassed links.now near.new ends.start ends.goal result marks.old marks.new }
    ensures long { length far.new.labels ≡ links.now.table.value.nodes + 1 }
{
    if !look_on(links, far, ends, ways, marks)? {
        return Some(false);
    }
    let long = far.label(ends.goal);
    near.begin(ends.goal);
    near.join(far, long);
    far.unlabel();
    if !look_back(links, far, ends, ways, marks)? {
        return Some(false);
    }
    near.join_before(far, long + 1);
    Some(true)
}

/// Searches on from the heads among the nodes without a mark. Returns whether it comes to the goal; if not, marks the nodes to which it
/// comes.
fn look_on(
    links: &Residual,
    search: &mut Frontier,
    ends: Ends,
    ways: &WaysOut,
    marks: &mut [bool],
) -> Option<bool>
    requires clean { IsClean links.now.table.value.nodes search.old }
    requires start { IsNode links.now.table.value.nodes ends.start }
    requires goal { IsNode links.now.table.value.nodes ends.goal }
    requires out { AreWaysOut (links_of links.now.table.value) links.now.rooms.items ends.start ends.goal ways.now marks.old }
    ensures looked { HasLooked (links_of links.now.table.value)
        (flags_to false marks.old links.now.table.value.heads.items (map open_flag links.now.rooms.items)) ways.now.heads.items
        ends.goal search.new result }
    ensures parted { result ≡ Some false → IsParted (links_of links.now.table.value) links.now.rooms.items ends.start ends.goal marks.new }
    ensures same { result ≢ Some false → marks.new ≡ marks.old }
{
    search.begin_at(&ways.heads);
    let opens = LedTo {
        opens: OpenByRoom(&links.rooms),
        heads: &links.table.heads,
        marks: &*marks,
        mark: false,
    };
    if !search.label_within(&links.table, &opens, ends.goal, most(links)) {
        return None;
    }
    if search.has_label(ends.goal) {
        return Some(true);
    }
    mark_queued(search, true, marks);
    Some(false)
}

/// Searches back from the tails among the marked nodes. Returns whether it comes to the start; if not, takes the marks off the nodes to
/// which it comes.
fn look_back(
    links: &Residual,
    search: &mut Frontier,
    ends: Ends,
    ways: &WaysOut,
    marks: &mut [bool],
) -> Option<bool>
    requires clean { IsClean links.now.table.value.nodes search.old }
    requires start { IsNode links.now.table.value.nodes ends.start }
    requires goal { IsNode links.now.table.value.nodes ends.goal }
    requires out { AreWaysOut (links_of links.now.table.value) links.now.rooms.items ends.start ends.goal ways.now marks.old }
    ensures looked { HasLooked (links_of links.now.table.value)
        (flags_to true marks.old links.now.table.value.heads.items links.now.flags.items) ways.now.tails.items ends.start
        search.new result }
    ensures parted { result ≡ Some false → IsParted (links_of links.now.table.value) links.now.rooms.items ends.start ends.goal marks.new }
    ensures same { result ≢ Some false → marks.new ≡ marks.old }
{
    search.begin_at(&ways.tails);
    let opens = LedTo {
        opens: Flagged(&links.flags),
        heads: &links.table.heads,
        marks: &*marks,
        mark: true,
    };
    if !search.label_within(&links.table, &opens, ends.start, most(links)) {
        return None;
    }
    if search.has_label(ends.start) {
        return Some(true);
    }
    mark_queued(search, false, marks);
    Some(false)
}

/// At how many links each of the two searches looks.
fn most(links: &Residual) -> u64 {
    FEW.max(links.table.heads.len() as u64 / PART)
}
