use crate::chains::Chains;
use crate::hop::Hop;

/// The steps from a node that are still to be looked at. Contracts say no more of these calls than that they are safe.
#[derive(Clone, Copy)]
pub struct Cursor {
    /// The next arc to look along; 0 past the last.
    pub along: u32,
    /// The next arc to look against; 0 past the last.
    pub against: u32,
}

/// No steps.
pub fn no_steps() -> Cursor {
    Cursor {
        along: 0,
        against: 0,
    }
}

/// Whether no step is left.
pub fn has_none(left: Cursor) -> bool {
    left.along == 0 && left.against == 0
}

/// All steps from the node at an index.
pub fn begin_at(along: &Chains, against: &Chains, index: usize) -> Cursor {
    Cursor {
        along: read(&along.last, index),
        against: read(&against.last, index),
    }
}

/// Takes the next step: the last along an arc, and after these the last against one. Returns a step over arc number 0 if none is left.
pub fn next_hop(left: &mut Cursor, along: &Chains, against: &Chains) -> Hop {
    let arc = left.along;
    if arc != 0 {
        left.along = read(&along.before, arc as usize - 1);
        return Hop {
            arc,
            against: false,
        };
    }
    let arc = left.against;
    if arc != 0 {
        left.against = read(&against.before, arc as usize - 1);
    }
    Hop { arc, against: true }
}

/// The number at an index; 0 past the last.
pub fn read(numbers: &[u32], index: usize) -> u32 {
    if index < numbers.len() {
        numbers[index]
    } else {
        0
    }
}
