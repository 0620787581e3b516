//! Making labels that lead to one goal lead to another.
ghost use Rattle.std.specs.Prelude.{◌≡◌, ◌≤◌, ◌<◌, ℕ, true, false, length, slice_index};
ghost use Rattle.std.specs.List.{All};
ghost use Rattle.dmf_node.specs.Node.{IsNode};
ghost use Rattle.dmf_links.specs.Links.{tail_of};
ghost use Rattle.dmf_links.specs.LinkTable.{links_of};
ghost use Rattle.dmf_path.specs.Ball.{IsAround, IsFit};
ghost use Rattle.dmf_path.specs.Residual.{residual_of};
ghost use Rattle.dmf_path.specs.Searching.{AreLowered, AreUsable, Lead, MayBeLowered, MayLead};
ghost use Rattle.dmf_path.specs.Walk.{AreCurrent};

use crate::ball::Ball;
use crate::frontier::Frontier;
use crate::levels::Levels;
use crate::lower::lower_near;
use crate::residual::Residual;
use dmf_links::LinkTable;

/// Makes the labels, which lead to one goal, lead to another, and to that from this start: if all nodes from which paths lead to a goal
/// have labels, the start has one that is not lower than the goal's, and all links are noted that have to be looked at again. Whether
/// they lead there then.
pub fn redirect(
    links: &Residual,
    levels: &mut Levels,
    ball: &mut Ball,
    from: u32,
    start: u32,
    goal: u32,
) -> bool
    requires usable { AreUsable levels.old (residual_of links.now) from }
    requires fit { IsFit ball.old (residual_of links.now) }
    requires start { IsNode links.now.table.value.nodes start }
    requires goal { IsNode links.now.table.value.nodes goal }
    ensures led { result ≡ true → Lead levels.new ball.new (residual_of links.now) start goal }
    ensures same { result ≡ false → (levels.new ≡ levels.old) × (ball.new ≡ ball.old) }
{
    let near = &levels.near;
    if !levels.all || !near.has_label(start) || near.label(goal) > near.label(start) {
        return false;
    }
    if from == goal {
        return true;
    }
    if levels.noted.lost {
        return false;
    }
    refit(links, levels, ball, start, goal);
    true
}

/// Makes labels lead to this goal, once all links are noted that have to be looked at again. Labels from the start are first lowered near
/// the goal, where they can be.
pub fn refit(links: &Residual, levels: &mut Levels, ball: &mut Ball, start: u32, goal: u32)
    requires may { MayLead levels.old ball.old (residual_of links.now) start goal }
    requires noted { levels.old.noted.lost ≡ false }
    ensures led { Lead levels.new ball.new (residual_of links.now) start goal }
    ensures around { IsAround ball.new goal }
{
    lower_from_start(links, levels, ball, start, goal);
    bring_back(&links.table, &levels.noted.places, &mut levels.current);
    levels.noted.clear();
}

/// Lowers labels from the start near this goal, where they can be. Leaves other labels.
fn lower_from_start(links: &Residual, levels: &mut Levels, ball: &mut Ball, start: u32, goal: u32)
    requires { MayLead levels.old ball.old (residual_of links.now) start goal }
    ensures may { MayLead levels.new ball.new (residual_of links.now) start goal }
    ensures noted { levels.new.noted ≡ levels.old.noted }
    ensures around { IsAround ball.new goal }
{
    if !levels.course.is_from_start() {
        ball.keep_for(goal);
        return;
    }
    ball.surround(links, goal);
    lower_labels(
        links,
        ball,
        start,
        goal,
        &mut levels.near,
        &mut levels.current,
    );
}

/// Lowers the labels of the nodes in the ball until that of the goal stays.
fn lower_labels(
    links: &Residual,
    ball: &Ball,
    start: u32,
    goal: u32,
    near: &mut Frontier,
    current: &mut [u32],
)
    requires goal { goal < length near.old.labels }
    requires fit { IsFit ball.now (residual_of links.now) }
    requires labels { MayBeLowered (residual_of links.now) (record { labels = near.old.labels; current = current.old }) }
    ensures lowered { AreLowered (residual_of links.now) (record { labels = near.old.labels; current = current.old })
        (record { labels = near.new.labels; current = current.new }) }
    ensures start { slice_index near.new.labels start ≡ slice_index near.old.labels start }
{
    for _ in 0..links.table.nodes {
        let before = near.label(goal);
        lower_near(links, ball, start, near, current);
        if near.label(goal) == before {
            break;
        }
    }
}

/// Makes each of these links, or one before it, the current one of its node again.
fn bring_back(table: &LinkTable, places: &[u32], current: &mut [u32])
    requires places { All (λ p. p < length table.now.heads.items) places.now }
    requires current { AreCurrent (links_of table.now) current.old }
    ensures current { AreCurrent (links_of table.now) current.new }
    ensures less { (v : ℕ) → slice_index current.new v ≤ slice_index current.old v }
    ensures back { (i : ℕ) → i < length places.now
        → slice_index current.new (tail_of (links_of table.now) (slice_index places.now i)) ≤ slice_index places.now i }
{
    for place in places {
        let tail = table.tail(*place);
        if current[tail as usize] > *place {
            current[tail as usize] = *place;
        }
    }
}
