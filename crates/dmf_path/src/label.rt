//! Labels: how far nodes are from a root.
ghost use Rattle.std.specs.Prelude.{◌≡◌, length, replicate};
ghost use Rattle.dmf_path.specs.Labels.{AreQueued, no_label};

/// The number that stands for no label.
pub const NO_LABEL: u32 = u32::MAX;

/// Removes the labels, if all nodes that have one are in the queue. If these are many, it goes over all nodes.
pub fn take_labels_off(labels: &mut [u32], queue: &[u32])
    requires queued { AreQueued labels.old queue.now }
    ensures { labels.new ≡ replicate (length labels.old) no_label }
{
    if queue.len() > labels.len() / 8 {
        clear(labels);
    } else {
        clear_queued(labels, queue);
    }
}

/// Removes every label.
fn clear(labels: &mut [u32])
    ensures { labels.new ≡ replicate (length labels.old) no_label }
{
    for label in labels.iter_mut() {
        *label = NO_LABEL;
    }
}

/// Removes the labels, if all nodes that have one are in the queue.
fn clear_queued(labels: &mut [u32], queue: &[u32])
    requires queued { AreQueued labels.old queue.now }
    ensures { labels.new ≡ replicate (length labels.old) no_label }
{
    for node in queue {
        labels[*node as usize] = NO_LABEL;
    }
}
