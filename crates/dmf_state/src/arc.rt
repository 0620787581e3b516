ghost use Rattle.std.specs.Prelude.{◌≡◌};
ghost use Rattle.dmf_state.specs.Arc.{open_arc, with_cap, closed_arc, is_open_at};

/// A directed arc of a network.
///
/// Its ends are numbers of nodes, counted from 1. A closed arc keeps its number in the network, and has capacity 0.
#[derive(Clone, Copy, Debug, PartialEq, Eq, Hash)]
pub struct Arc {
    /// The node that the arc leaves.
    pub tail: u32,
    /// The node that the arc enters.
    pub head: u32,
    /// The capacity: the largest flow that the arc can carry.
    pub cap: u64,
    /// Whether the arc was closed.
    pub closed: bool,
}

impl Arc {
    /// An open arc.
    pub fn open(tail: u32, head: u32, cap: u64) -> Self
        ensures { result ≡ open_arc tail head cap }
    {
        Arc {
            tail,
            head,
            cap,
            closed: false,
        }
    }

    /// The arc with another capacity.
    pub fn with_cap(self, cap: u64) -> Self
        ensures { result ≡ with_cap cap self }
    {
        Arc { cap, ..self }
    }

    /// The arc, closed.
    pub fn closed(self) -> Self
        ensures { result ≡ closed_arc self }
    {
        Arc {
            cap: 0,
            closed: true,
            ..self
        }
    }

    /// Whether the arc is open, and node `v` is its tail or its head.
    pub fn is_open_at(self, v: u32) -> bool
        ensures { result ≡ is_open_at v self }
    {
        !self.closed && (self.tail == v || self.head == v)
    }
}
