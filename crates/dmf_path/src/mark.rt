//! Marks of the nodes on the start's side of a cut without room.
ghost use Rattle.std.specs.Prelude.{◌≡◌, ◌≢◌, ◌+◌, ◌<◌, ℕ, true, false, length, slice_index};
ghost use Rattle.dmf_path.specs.Labels.{no_label, MarksLabelled, MarksUnlabelled};
ghost use Rattle.dmf_path.specs.Through.{AreMarked};

use crate::frontier::Frontier;
use crate::label::NO_LABEL;

/// Marks the nodes with a label, if there is a mark for each node; the first one belongs to node 1.
pub fn mark_labelled(labels: &[u32], marks: &mut [bool])
    ensures { MarksLabelled labels.now marks.new }
{
    if labels.len() != marks.len() + 1 {
        return;
    }
    for k in 0..marks.len() {
        marks[k] = labels[k + 1] != NO_LABEL;
    }
}

/// Marks the nodes without a label, if there is a mark for each node; the first one belongs to node 1.
pub fn mark_unlabelled(labels: &[u32], marks: &mut [bool])
    ensures { MarksUnlabelled labels.now marks.new }
{
    if labels.len() != marks.len() + 1 {
        return;
    }
    for k in 0..marks.len() {
        marks[k] = labels[k + 1] == NO_LABEL;
    }
}

/// Whether a node has a label of the search. If not, marks the nodes without one.
pub fn has_label_or_mark(search: &Frontier, node: u32, marks: &mut [bool]) -> bool
    requires { node < length search.now.labels }
    ensures has { result ≡ true → slice_index search.now.labels node ≢ no_label }
    ensures none { result ≡ false → slice_index search.now.labels node ≡ no_label }
    ensures marks { result ≡ false → MarksUnlabelled search.now.labels marks.new }
    ensures kept { result ≡ true → marks.new ≡ marks.old }
{
    if search.has_label(node) {
        return true;
    }
    mark_unlabelled(search.labels(), marks);
    false
}

/// Gives the nodes with a label this mark. The other marks stay.
pub fn mark_queued(search: &Frontier, mark: bool, marks: &mut [bool])
    requires one_each { length search.now.labels ≡ length marks.old + 1 }
    requires labelled { (i : ℕ) → i < length search.now.queue → slice_index search.now.labels (slice_index search.now.queue i) ≢ no_label }
    requires zero { slice_index search.now.labels 0 ≡ no_label }
    ensures { AreMarked search.now.labels mark marks.old marks.new }
{
    let nodes = search.queue();
    for node in nodes {
        marks[*node as usize - 1] = mark;
    }
}
