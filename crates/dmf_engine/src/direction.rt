//! From which end the engine pushes.
use crate::links::{BACK, OPPOSITE_ROOM, ROOM};

/// From which end excess is pushed, and to which. From the sink it goes against the links, as if the network was turned round.
#[derive(Clone, Copy)]
pub struct PushDirection {
    /// The end from which excess comes.
    pub base: u32,
    /// The end to which it is to go.
    pub goal: u32,
    /// Whether it begins at the sink.
    pub is_reversed: bool,
    /// The flag of a link over which excess can leave its node.
    leave: u32,
    /// The flag of a link over which excess can come to its node.
    come: u32,
    /// The flags of a link whose pushes can be undone by a push over it.
    carry: u32,
}

impl PushDirection {
    /// From the source to the sink.
    pub fn forward(source: u32, sink: u32) -> PushDirection {
        PushDirection {
            base: source,
            goal: sink,
            is_reversed: false,
            leave: ROOM,
            come: OPPOSITE_ROOM,
            carry: ROOM | BACK,
        }
    }

    /// From the sink to the source.
    pub fn backward(source: u32, sink: u32) -> PushDirection {
        PushDirection {
            base: sink,
            goal: source,
            is_reversed: true,
            leave: OPPOSITE_ROOM,
            come: ROOM,
            carry: OPPOSITE_ROOM,
        }
    }

    /// Whether excess can leave a node over a link with this word.
    #[inline(always)]
    pub fn can_leave(self, word: u32) -> bool {
        word & self.leave != 0
    }

    /// Whether excess can come to a node over a link with this word.
    #[inline(always)]
    pub fn can_come(self, word: u32) -> bool {
        word & self.come != 0
    }

    /// Whether excess that leaves a node over a link with this word takes back flow.
    #[inline(always)]
    pub fn takes_back(self, word: u32) -> bool {
        word & (self.leave | BACK) == self.carry
    }
}
