//! How the nodes are labelled next.

/// Which end of a search stayed the same when it was aimed last.
#[derive(Clone, Copy)]
pub enum KeptEnd {
    /// None did.
    Neither,
    /// The goal did, and not the start.
    Goal,
    /// The start did.
    Start,
    /// Both are as they were when the search began anew: it solves.
    Both,
}

/// In a solve, all nodes are labelled once labelling from both ends has examined this many times as many links as there are.
const MANY: u64 = 4;

/// From where the nodes are labelled next.
#[derive(Clone, Copy)]
pub enum Course {
    /// From the goal alone. The last labelling looked at so many links.
    FromGoal {
        /// The number of links.
        looked: u64,
    },
    /// From both ends, until that has looked at more links than there are and an end was kept: then all nodes get a label.
    FromBoth {
        /// The end that was kept.
        kept: KeptEnd,
        /// So many links were looked at, to label or to raise, since all nodes got a label, or since both ends of the search changed.
        spent: u64,
    },
}

impl Course {
    /// Whether all nodes get a label next, among so many links.
    pub fn is_to_all(self, links: u64) -> bool {
        match self {
            Course::FromGoal { .. } => false,
            Course::FromBoth { kept, spent } => {
                if kept.is_both() {
                    spent > links.saturating_mul(MANY)
                } else {
                    kept.is_one() && spent > links
                }
            }
        }
    }

    /// Whether the search goes on between the ends that it began with.
    pub fn is_to_solve(self) -> bool {
        match self {
            Course::FromGoal { .. } => false,
            Course::FromBoth { kept, .. } => kept.is_both(),
        }
    }

    /// Whether labels may be raised, among so many links: the goal was kept, and no more links than these were looked at.
    pub fn may_raise(self, links: u64) -> bool {
        match self {
            Course::FromGoal { .. } => false,
            Course::FromBoth { kept, spent } => {
                kept.is_one() && !kept.is_start() && spent <= links
            }
        }
    }

    /// Whether all nodes get the labels that distances from the start give.
    pub fn is_from_start(self) -> bool {
        match self {
            Course::FromGoal { .. } => false,
            Course::FromBoth { kept, .. } => kept.is_start(),
        }
    }

    /// From both ends from now on.
    pub fn from_both(self) -> Course {
        match self {
            Course::FromGoal { .. } => Course::FromBoth {
                kept: KeptEnd::Both,
                spent: 0,
            },
            Course::FromBoth { kept, spent } => {
                let spent = if kept.is_both() { 0 } else { spent };
                Course::FromBoth { kept, spent }
            }
        }
    }

    /// The course after the search was aimed, and kept this end.
    pub fn keeping(self, kept: KeptEnd) -> Course {
        match self {
            Course::FromGoal { .. } => Course::FromBoth { kept, spent: 0 },
            Course::FromBoth { spent, .. } => Course::FromBoth { kept, spent },
        }
    }

    /// The course after all nodes got a label.
    pub fn with_all(self) -> Course {
        match self {
            Course::FromGoal { looked } => Course::FromGoal { looked },
            Course::FromBoth { kept, .. } => Course::FromBoth { kept, spent: 0 },
        }
    }

    /// The course after labelling from both ends looked at so many links.
    pub fn after(self, looked: u64) -> Course {
        match self {
            Course::FromGoal { .. } => Course::FromBoth {
                kept: KeptEnd::Neither,
                spent: looked,
            },
            Course::FromBoth { kept, spent } => {
                let before = if kept.is_one() { spent } else { 0 };
                Course::FromBoth {
                    kept,
                    spent: before.saturating_add(looked),
                }
            }
        }
    }
}

impl KeptEnd {
    /// Whether an end was kept.
    fn is_one(self) -> bool {
        match self {
            KeptEnd::Neither => false,
            KeptEnd::Goal | KeptEnd::Start | KeptEnd::Both => true,
        }
    }

    /// Whether the start was kept.
    fn is_start(self) -> bool {
        match self {
            KeptEnd::Neither | KeptEnd::Goal => false,
            KeptEnd::Start | KeptEnd::Both => true,
        }
    }

    /// Whether both were.
    fn is_both(self) -> bool {
        match self {
            KeptEnd::Neither | KeptEnd::Goal | KeptEnd::Start => false,
            KeptEnd::Both => true,
        }
    }
}
