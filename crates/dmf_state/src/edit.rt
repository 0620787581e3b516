ghost use Rattle.std.specs.Prelude.{◌≡◌};
ghost use Rattle.dmf_state.specs.Edit.{moves_of};

/// A change of the flow on one arc.
#[derive(Clone, Copy, Debug, PartialEq, Eq, Hash)]
pub struct Move {
    /// The arc's number, counted from 1.
    pub arc: u32,
    /// The flow before.
    pub from: u64,
    /// The flow after.
    pub to: u64,
}

/// An arc that an [`Edit::Shut`] closes.
#[derive(Clone, Copy, Debug, PartialEq, Eq, Hash)]
pub struct Shutting {
    /// The arc's number, counted from 1.
    pub arc: u32,
    /// Its capacity before.
    pub old: u64,
}

/// A change planned on a state, with all that it takes to apply it there and to revert it.
#[derive(Clone, Debug, PartialEq, Eq, Drop)]
pub enum Edit {
    /// Gives an arc another capacity.
    Cap {
        /// The arc's number, counted from 1.
        arc: u32,
        /// Its capacity before.
        old: u64,
        /// Its capacity after.
        new: u64,
        /// The arcs whose flow differs, in the order of their numbers.
        moves: Vec<Move>,
    },
    /// Appends an open arc without flow.
    Add {
        /// The node that the arc leaves.
        tail: u32,
        /// The node that the arc enters.
        head: u32,
        /// Its capacity.
        cap: u64,
    },
    /// Closes an arc.
    Close {
        /// The arc's number, counted from 1.
        arc: u32,
        /// Its capacity before.
        old: u64,
        /// The arcs whose flow differs, in the order of their numbers.
        moves: Vec<Move>,
    },
    /// Closes all open arcs at a node.
    Shut {
        /// These arcs, in ascending order.
        arcs: Vec<Shutting>,
        /// The arcs whose flow differs, in the order of their numbers.
        moves: Vec<Move>,
    },
    /// Augments the flow to a maximum flow.
    Solve {
        /// The arcs whose flow differs, in the order of their numbers.
        moves: Vec<Move>,
    },
}

impl Edit {
    /// The moves of the edit: none for an added arc.
    pub fn moves(&self) -> &[Move]
        ensures { result.now ≡ moves_of self.now }
    {
        match *self {
            Edit::Cap { ref moves, .. } => moves,
            Edit::Close { ref moves, .. } => moves,
            Edit::Add { .. } => &[],
            Edit::Shut { ref moves, .. } => moves,
            Edit::Solve { ref moves } => moves,
        }
    }
}
