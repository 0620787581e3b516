ghost use Rattle.std.proofs.Common.{rules};
ghost use Rattle.std.specs.Bool.{Decides};
ghost use Rattle.std.specs.Cmp.{partial_equiv_from_equiv};
ghost use Rattle.std.specs.Cmp.Rules.{comparing};
ghost use Rattle.std.specs.Prelude.{◌≡◌};
ghost use Rattle.dmf_state.specs.Equality.{same_state};

use crate::state::State;

impl PartialEq for State {
    ghost eq = { same_state };

    ghost laws = { partial_equiv_from_equiv (Prim.search (comparing, rules) depth 12) };

    fn eq(&self, other: &State) -> bool
        ensures told { result ≡ same_state self.now other.now }
        ensures same { Decides result (self.now ≡ other.now) }
    {
        self.nodes == other.nodes
            && self.source == other.source
            && self.sink == other.sink
            && self.arcs.as_slice() == other.arcs.as_slice()
            && self.flows.as_slice() == other.flows.as_slice()
    }
}

impl Eq for State {
    ghost laws = { Prim.search (comparing, rules) depth 12 };
}
