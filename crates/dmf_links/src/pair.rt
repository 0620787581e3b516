/// Two opposite links between two nodes, each with its room: its residual capacity.
#[derive(Clone, Copy, Debug, PartialEq, Eq)]
pub struct Pair {
    /// The node at which the link along begins, and the link against ends.
    pub tail: u32,
    /// The node at which the link along ends, and the link against begins.
    pub head: u32,
    /// The room of the link from tail to head.
    pub along: u64,
    /// The room of the link from head to tail.
    pub against: u64,
}

/// Pairs of links, numbered from 1. A number may stand for no pair.
pub trait Pairs {
    ghost use Rattle.std.specs.Prelude.{◌≡◌, ◌<◌, List, Option, Some, length, slice_get};
    ghost use Rattle.dmf_links.specs.declared.pair.Pair.{Pair};

    // The pairs in the order of their numbers.
    ghost pairs: { Self → List (Option Pair) };

    /// How many numbers there are.
    fn len(&self) -> usize
        ensures { result ≡ length (pairs self.now) };

    /// The pair at index `k`, which has number `k + 1`.
    fn pair(&self, k: usize) -> Option<Pair>
        requires { k < length (pairs self.now) }
        ensures { slice_get (pairs self.now) k ≡ Some result };
}
