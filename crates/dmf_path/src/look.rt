//! Which link of a node a walk takes.
ghost use Rattle.std.specs.Prelude.{◌≡◌, ◌≢◌, ℕ, true, false, ◌+◌, ◌≤◌, ◌<◌, ◌⊎◌, length, slice_index};
ghost use Rattle.dmf_node.specs.Node.{IsNode};
ghost use Rattle.dmf_links.specs.LinkTable.{links_of};
ghost use Rattle.dmf_path.specs.Astray.{IsAstray, IsOutside};
ghost use Rattle.dmf_path.specs.Labels.{no_label};
ghost use Rattle.dmf_path.specs.Look.{AreLinksOf, AreSeen, IsLook, IsLookFrom, IsNext};
ghost use Rattle.dmf_path.specs.Windows.{AreRanges};

use crate::ball::Ball;
use crate::residual::Residual;

/// The links that a walk to the goal may take from a node.
#[derive(Clone, Copy)]
struct Wanted {
    /// The node's label: such a link leads to a node whose label is lower by one.
    label: u32,
    /// The node at which the walk ends.
    goal: u32,
    /// So many links lead on to it from the head of such a link.
    left: u32,
}

/// Links of a node that lie side by side.
#[derive(Clone, Copy)]
pub struct LinkRange {
    /// The node.
    pub node: u32,
    /// The place of the first of them.
    pub from: u32,
    /// The place after the last of them.
    pub end: u32,
}

/// What a look over links of a node has found.
#[derive(Clone, Copy)]
pub struct Look {
    /// No link before this one is admissible. From it up to `place` there may be some, but no walk to the goal begins with one.
    pub skipped: u32,
    /// The link that the walk takes, or the end of the look.
    pub place: u32,
}

impl Residual {
    /// The first place in the range at which a walk to the goal may go on, or the end of the range: an admissible link of which it is not
    /// known that it leads astray.
    pub fn first_leading(&self, labels: &[u32], ball: &Ball, goal: u32, range: LinkRange) -> Look
        requires links { AreLinksOf self.now range.node range.from range.end }
        requires goal { IsNode self.now.table.value.nodes goal }
        requires seen { AreSeen self.now labels.now ball.now }
        ensures { IsLookFrom self.now labels.now ball.now goal range result }
    {
        let label = labels[range.node as usize];
        let low = labels[goal as usize];
        if label <= low {
            return Look {
                skipped: range.from,
                place: range.end,
            };
        }
        let wanted = Wanted {
            label,
            goal,
            left: label - low - 1,
        };
        if wanted.left > 0 && wanted.left > ball.radius {
            let place = self.first_admissible(labels, range.from, range.end, label);
            return Look {
                skipped: place,
                place,
            };
        }
        self.first_near(labels, ball, wanted, range)
    }

    /// The first place in the range at which a walk to a goal near the node may go on, or the end of the range. Looks at no more links of
    /// the node than the ball has; what is left it finds at the nodes in the ball.
    fn first_near(&self, labels: &[u32], ball: &Ball, wanted: Wanted, range: LinkRange) -> Look
        requires links { AreLinksOf self.now range.node range.from range.end }
        requires goal { IsNode self.now.table.value.nodes wanted.goal }
        requires low { slice_index labels.now wanted.goal + 1 + wanted.left ≡ wanted.label }
        requires near { (wanted.left ≡ 0) ⊎ (wanted.left ≤ ball.now.radius) }
        requires seen { AreSeen self.now labels.now ball.now }
        ensures { IsLook self.now labels.now ball.now wanted range.from range.end result }
    {
        let few = self.few(ball, wanted, range.from, range.end);
        let look = self.look(labels, ball, wanted, range.from, few);
        if look.place < few || few == range.end {
            return look;
        }
        let left = LinkRange { from: few, ..range };
        Look {
            skipped: look.skipped,
            place: self.first_across(labels, ball, wanted, left),
        }
    }

    /// Where the look over the links of a node from `from` up to `end` is to stop, and to go on at the nodes near the goal. `end` where
    /// these have more links than are left.
    fn few(&self, ball: &Ball, wanted: Wanted, from: u32, end: u32) -> u32
        requires goal { IsNode self.now.table.value.nodes wanted.goal }
        requires ranges { ball.now.windows.known ≡ true → AreRanges (links_of self.now.table.value) ball.now.windows }
        requires range { from ≤ end }
        ensures from { from ≤ result }
        ensures to { result ≤ end }
    {
        let mut count = ball.around.looked();
        if wanted.left >= ball.radius {
            count = ball.links;
        }
        if wanted.left == 0 {
            let places = ball.places_at(&self.table, wanted.goal);
            count = (places.end - places.start) as u64;
        }
        if count < u64::from(end - from) {
            return from + count as u32;
        }
        end
    }

    /// The first of the links at these places with which a walk to the goal may begin.
    fn look(&self, labels: &[u32], ball: &Ball, wanted: Wanted, from: u32, end: u32) -> Look
        requires range { from ≤ end }
        requires links { end ≤ length self.now.table.value.heads.items }
        requires seen { AreSeen self.now labels.now ball.now }
        ensures { IsLook self.now labels.now ball.now wanted from end result }
    {
        let mut skipped = end;
        for place in from..end {
            if self.is_admissible(labels, wanted.label, place) {
                let head = self.table.heads[place as usize];
                skipped = lesser(skipped, place);
                if may_lead(ball, wanted, head) {
                    return Look { skipped, place };
                }
            }
        }
        Look {
            skipped,
            place: end,
        }
    }

    /// Whether the link has room and leads to a node whose label is lower than `label` by one.
    fn is_admissible(&self, labels: &[u32], label: u32, place: u32) -> bool
        requires place { place < length self.now.table.value.heads.items }
        requires one_label_each { length labels.now ≡ self.now.table.value.nodes + 1 }
        ensures room { result ≡ true → 0 < slice_index self.now.rooms.items place }
        ensures falls { result ≡ true → slice_index labels.now (slice_index self.now.table.value.heads.items place) + 1 ≡ label }
        ensures none { result ≡ false → 0 < slice_index self.now.rooms.items place
            → slice_index labels.now (slice_index self.now.table.value.heads.items place) + 1 ≢ label }
    {
        self.rooms[place as usize] > 0 && is_next(labels, label, self.table.heads[place as usize])
    }

    /// The first place in the range whose link may begin a walk to the goal, or the end of the range: found at the nodes near the goal.
    fn first_across(&self, labels: &[u32], ball: &Ball, wanted: Wanted, range: LinkRange) -> u32
        requires links { AreLinksOf self.now range.node range.from range.end }
        requires goal { IsNode self.now.table.value.nodes wanted.goal }
        requires low { slice_index labels.now wanted.goal + 1 + wanted.left ≡ wanted.label }
        requires near { (wanted.left ≡ 0) ⊎ (wanted.left ≤ ball.now.radius) }
        requires seen { AreSeen self.now labels.now ball.now }
        ensures { IsNext self.now labels.now ball.now wanted range.from range.end result }
    {
        if wanted.left == 0 {
            return self.first_from(ball, wanted.goal, range.node, range.from, range.end);
        }
        self.first_inside(labels, ball, wanted, range.node, range.from, range.end)
    }

    /// The first place from `from` up to `end`, among links of the node, whose link may begin a walk to the goal, or `end`: found at each
    /// node of the ball from which so few links lead to the goal.
    fn first_inside(
        &self,
        labels: &[u32],
        ball: &Ball,
        wanted: Wanted,
        node: u32,
        from: u32,
        end: u32,
    ) -> u32
        requires links { AreLinksOf self.now node from end }
        requires near { 0 < ball.now.radius }
        requires left { wanted.left < no_label }
        requires seen { AreSeen self.now labels.now ball.now }
        ensures from { from ≤ result }
        ensures to { result ≤ end }
        ensures room { result < end → 0 < slice_index self.now.rooms.items result }
        ensures falls { result < end → slice_index labels.now (slice_index self.now.table.value.heads.items result) + 1 ≡ wanted.label }
        ensures only { (p : ℕ) → from ≤ p → p < result → 0 < slice_index self.now.rooms.items p
            → slice_index labels.now (slice_index self.now.table.value.heads.items p) + 1 ≡ wanted.label
            → (wanted.left < slice_index ball.now.around.labels (slice_index self.now.table.value.heads.items p))
            ⊎ IsOutside ball.now (links_of self.now.table.value) p }
    {
        let mut first = end;
        for head in ball.around.queue() {
            if is_next(labels, wanted.label, *head) && ball.around.label(*head) <= wanted.left {
                first = self.first_from(ball, *head, node, from, first);
            }
        }
        first
    }

    /// The first place from `from` up to `end`, among links of the node, whose link has room and leads to `head`, or `end`. Found at the
    /// head: among its links are the opposites of all that lead there.
    fn first_from(&self, ball: &Ball, head: u32, node: u32, from: u32, end: u32) -> u32
        requires links { AreLinksOf self.now node from end }
        requires ranges { ball.now.windows.known ≡ true → AreRanges (links_of self.now.table.value) ball.now.windows }
        requires head { IsNode self.now.table.value.nodes head }
        ensures from { from ≤ result }
        ensures to { result ≤ end }
        ensures room { result < end → 0 < slice_index self.now.rooms.items result }
        ensures leads { result < end → slice_index self.now.table.value.heads.items result ≡ head }
        ensures first { (p : ℕ) → from ≤ p → p < result → 0 < slice_index self.now.rooms.items p
            → (slice_index self.now.table.value.heads.items p ≢ head) ⊎ IsOutside ball.now (links_of self.now.table.value) p }
    {
        let places = ball.places_at(&self.table, head);
        let mut first = end;
        for place in places.start..places.end {
            if self.flags[place] == 1 && self.table.heads[place] == node {
                first = nearer(first, from, self.table.partners[place]);
            }
        }
        first
    }

    /// The first place from `from` up to `end` whose link has room and leads to a node whose label is lower than `label` by one, or
    /// `end`.
    pub fn first_admissible(&self, labels: &[u32], from: u32, end: u32, label: u32) -> u32
        requires range { from ≤ end }
        requires links { end ≤ length self.now.table.value.heads.items }
        requires one_label_each { length labels.now ≡ self.now.table.value.nodes + 1 }
        ensures from { from ≤ result }
        ensures to { result ≤ end }
        ensures room { result < end → 0 < slice_index self.now.rooms.items result }
        ensures falls { result < end → slice_index labels.now (slice_index self.now.table.value.heads.items result) + 1 ≡ label }
        ensures first { (p : ℕ) → from ≤ p → p < result → 0 < slice_index self.now.rooms.items p
            → slice_index labels.now (slice_index self.now.table.value.heads.items p) + 1 ≢ label }
    {
        for place in from..end {
            if self.is_admissible(labels, label, place) {
                return place;
            }
        }
        end
    }
}

/// Whether the label of this node is lower than `label` by one.
fn is_next(labels: &[u32], label: u32, node: u32) -> bool
    requires { node < length labels.now }
    ensures yes { result ≡ true → slice_index labels.now node + 1 ≡ label }
    ensures no { result ≡ false → slice_index labels.now node + 1 ≢ label }
{
    u64::from(labels[node as usize]) + 1 == u64::from(label)
}

/// Whether a walk may lead from this node to the goal, over so many links as are left: whether the node is the goal, if none is left, and
/// else whether it is near enough, as far as that is known.
fn may_lead(ball: &Ball, wanted: Wanted, head: u32) -> bool
    requires { 0 < ball.now.radius → head < length ball.now.around.labels }
    ensures { result ≡ false → IsAstray ball.now wanted.goal wanted.left head }
{
    if wanted.left == 0 {
        return head == wanted.goal;
    }
    wanted.left > ball.radius || ball.around.label(head) <= wanted.left
}

/// The lower one of two places.
fn lesser(first: u32, place: u32) -> u32
    ensures first { result ≤ first }
    ensures place { result ≤ place }
    ensures one { (result ≡ first) ⊎ (result ≡ place) }
{
    first.min(place)
}

/// The lower one of two places, if the second is not below `from`.
fn nearer(first: u32, from: u32, place: u32) -> u32
    ensures low { result ≤ first }
    ensures lower { from ≤ place → result ≤ place }
    ensures one { (result ≡ first) ⊎ ((result ≡ place) × (from ≤ place)) }
{
    if from <= place && place < first {
        return place;
    }
    first
}
