ghost use Rattle.std.specs.Prelude.{◌≡◌};
ghost use Rattle.std.specs.Bool.{Decides};
ghost use Rattle.std.specs.List.Sorted.{IsStrictlyIncreasing};
ghost use Rattle.dmf_state.specs.Side.{has_node};

use crate::side_ids::SideIds;
use std::marker::Model;

/// A set of nodes that is a cut, with the capacity of the cut.
///
/// [`Side::new`] asks only that the numbers of the nodes ascend. Each call that finds a side says in its contract that the nodes are a
/// cut of this capacity. No method takes memory.
#[derive(Debug, Drop)]
pub struct Side {
    ids: Vec<u32>,
    capacity: u64,
}

impl Model for Side {
    ghost use Rattle.std.specs.List.Sorted.{IsStrictlyIncreasing};
    ghost use Rattle.dmf_state.specs.Side.{CutSide};

    ghost Value = { CutSide };

    ghost view = { λ a. record { ids = a.ids.items; capacity = a.capacity } };

    ghost invariant = { λ a. IsStrictlyIncreasing a.ids.items };
}

impl PartialEq for Side {
    ghost use Rattle.std.proofs.Common.{rules};
    ghost use Rattle.std.specs.Cmp.Rules.{comparing};
    ghost use Rattle.dmf_state.specs.Equality.{same_side};

    ghost eq = { same_side };

    ghost laws = { Prim.search (comparing, rules) };

    fn eq(&self, other: &Side) -> bool
        ensures told { result ≡ same_side self.now other.now }
        ensures same { Decides result (self.now ≡ other.now) }
    {
        self.ids.as_slice() == other.ids.as_slice() && self.capacity == other.capacity
    }
}

impl Eq for Side {
    ghost use Rattle.std.proofs.Common.{rules};
    ghost use Rattle.std.specs.Cmp.Rules.{comparing};

    ghost laws = { Prim.search (comparing, rules) };
}

impl Side {
    /// Makes the set of these nodes, which ascend, with this capacity.
    pub fn new(ids: Vec<u32>, capacity: u64) -> Side
        requires { IsStrictlyIncreasing ids.items }
        ensures { result ≡ record { ids = ids.items; capacity = capacity } }
    {
        Side { ids, capacity }
    }

    /// Whether the set has node `v`.
    pub fn contains(&self, v: u32) -> bool
        ensures { result ≡ has_node self.now.ids v }
    {
        self.ids.binary_search(&v).is_ok()
    }

    /// The capacity of the cut.
    pub fn capacity(&self) -> u64
        ensures { result ≡ self.now.capacity }
    {
        self.capacity
    }

    /// The numbers of the nodes, ascending.
    pub fn ids(&self) -> SideIds<'_>
        ensures value { result ≡ self.now.ids }
        ensures ascending { IsStrictlyIncreasing result }
    {
        SideIds::new(&self.ids)
    }
}
