//! Lowering labels near the goal.
ghost use Rattle.std.specs.Prelude.{◌≡◌, ◌≢◌, ◌+◌, ◌≤◌, ℕ, length, slice_index};
ghost use Rattle.dmf_node.specs.Node.{IsNode};
ghost use Rattle.dmf_links.specs.Links.{LiesAt};
ghost use Rattle.dmf_links.specs.LinkTable.{links_of};
ghost use Rattle.dmf_path.specs.Ball.{IsFit};
ghost use Rattle.dmf_path.specs.Residual.{residual_of};
ghost use Rattle.dmf_path.specs.Searching.{AreLowered, MayBeLowered};
ghost use Rattle.dmf_path.specs.Walk.{AreCurrent};

use crate::ball::Ball;
use crate::frontier::Frontier;
use crate::label::NO_LABEL;
use crate::residual::Residual;

/// Lowers the labels of the nodes in the ball, the farthest first, as far as the labels of the nodes before them allow, and makes links
/// that fall then current again. No label of the start falls.
pub fn lower_near(
    links: &Residual,
    ball: &Ball,
    start: u32,
    near: &mut Frontier,
    current: &mut [u32],
)
    requires fit { IsFit ball.now (residual_of links.now) }
    requires labels { MayBeLowered (residual_of links.now) (record { labels = near.old.labels; current = current.old }) }
    ensures lowered { AreLowered (residual_of links.now) (record { labels = near.old.labels; current = current.old })
        (record { labels = near.new.labels; current = current.new }) }
    ensures start { slice_index near.new.labels start ≡ slice_index near.old.labels start }
{
    if ball.radius == 0 {
        return;
    }
    let seen = ball.around.seen();
    for back in 0..seen.len() {
        let node = seen[seen.len() - 1 - back];
        if node != start {
            lower_node(links, node, near, current);
        }
    }
}

/// Lowers the label of this node, if it has one, as far as the labels of the nodes before it allow, and makes the links that fall to it
/// then current again.
pub fn lower_node(links: &Residual, node: u32, near: &mut Frontier, current: &mut [u32])
    requires node { IsNode links.now.table.value.nodes node }
    requires labels { MayBeLowered (residual_of links.now) (record { labels = near.old.labels; current = current.old }) }
    ensures lowered { AreLowered (residual_of links.now) (record { labels = near.old.labels; current = current.old })
        (record { labels = near.new.labels; current = current.new }) }
    ensures others { (v : ℕ) → v ≢ node → slice_index near.new.labels v ≡ slice_index near.old.labels v }
{
    let label = top_before(links, node, near.labels()).saturating_sub(1);
    let own = near.label(node);
    if own == NO_LABEL || label >= own {
        return;
    }
    near.set_label(node, label);
    make_current(links, node, label + 1, near.labels(), current);
}

/// The greatest label of the nodes from which links with room lead to this node, or 0 if there are none. If one is greater than the
/// node's own, the first such label: it does not fall then.
pub fn top_before(links: &Residual, node: u32, labels: &[u32]) -> u32
    requires node { IsNode links.now.table.value.nodes node }
    requires one_each { length labels.now ≡ links.now.table.value.nodes + 1 }
    ensures { result ≤ slice_index labels.now node → (p : ℕ) → LiesAt (links_of links.now.table.value) node p
        → slice_index links.now.flags.items p ≡ 1
        → slice_index labels.now (slice_index links.now.table.value.heads.items p) ≤ result }
{
    let own = labels[node as usize];
    let mut top = 0u32;
    let places = links.table.places_at(node);
    for place in places.start..places.end {
        if links.flags[place] == 1 {
            top = top.max(labels[links.table.heads[place] as usize]);
        }
        if top > own {
            return top;
        }
    }
    top
}

/// Makes each link with room that leads to this node from one with this label current again, or leaves one before it current.
fn make_current(links: &Residual, node: u32, label: u32, labels: &[u32], current: &mut [u32])
    requires node { IsNode links.now.table.value.nodes node }
    requires one_each { length labels.now ≡ links.now.table.value.nodes + 1 }
    requires current { AreCurrent (links_of links.now.table.value) current.old }
    ensures current { AreCurrent (links_of links.now.table.value) current.new }
    ensures less { (v : ℕ) → slice_index current.new v ≤ slice_index current.old v }
    ensures back { (p : ℕ) → LiesAt (links_of links.now.table.value) node p → slice_index links.now.flags.items p ≡ 1
        → slice_index labels.now (slice_index links.now.table.value.heads.items p) ≡ label
        → slice_index current.new (slice_index links.now.table.value.heads.items p) ≤ slice_index links.now.table.value.partners.items p }
{
    let places = links.table.places_at(node);
    for place in places.start..places.end {
        let before = links.table.heads[place];
        if links.flags[place] == 1 && labels[before as usize] == label {
            current[before as usize] = current[before as usize].min(links.table.partners[place]);
        }
    }
}
