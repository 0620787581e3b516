ghost use Rattle.std.specs.Prelude.{◌≡◌};

use dmf_state::State;

/// A watch gets reports of how far a solve or a drain is. A solve reports each augmenting path, in turn, and nothing else; a run also
/// reports the state from which each solve begins. A drain reports what each path takes off. Whatever a watch does, the result of the
/// solve or the drain is the same, except that a watch may end a solve. What is reported is only tested.
pub trait Watch {
    /// A run begins to solve this state. This reports no path.
    fn begun(&mut self, _state: &State) {}

    /// The flow was augmented along one more path, of so many links, and now has this value. No path of a solve has fewer links than
    /// the one before; a path with more links begins a phase.
    fn augmented(&mut self, value: u64, links: u32);

    /// Whether a solve may go on, asked after each augmenting path. If it may not, it is refused as if memory were, and only the watch
    /// knows why.
    fn goes_on(&mut self) -> bool {
        true
    }

    /// A path that comes back to the arc whose turn it is took so much flow off it.
    fn lowered(&mut self, turn: Turn, amount: u64);
}

/// A watch has ended a solve.
#[derive(Clone, Copy)]
pub struct Stopped;

/// An arc whose turn it is to be drained.
#[derive(Clone, Copy, Debug)]
pub struct Turn {
    /// The number of the arc.
    pub arc: u32,
    /// How much may stay on it.
    pub limit: u64,
    /// The arc's place among the arcs that the change drains, from 1.
    pub place: usize,
    /// How many arcs the change drains.
    pub count: usize,
}

impl Turn {
    /// The turn of the one arc that a change drains.
    pub(crate) fn only(arc: u32, limit: u64) -> Turn
        ensures { result ≡ record { arc = arc; limit = limit; place = 1; count = 1 } }
    {
        Turn {
            arc,
            limit,
            place: 1,
            count: 1,
        }
    }
}

/// A watch that does nothing.
#[derive(Clone, Copy, Debug)]
pub struct Unwatched;

impl Watch for Unwatched {
    fn augmented(&mut self, _value: u64, _links: u32) {}

    fn lowered(&mut self, _turn: Turn, _amount: u64) {}
}
