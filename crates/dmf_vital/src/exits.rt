ghost use Rattle.std.specs.Prelude.{◌≡◌};
ghost use Rattle.dmf_vital.specs.Exits.{is_barred_arc, is_exit_arc};

use crate::ranks::is_across;
use dmf_state::Arc;

/// The arcs whose flow is to go another way: one arc, or each arc from a node to another node.
#[derive(Clone, Copy)]
pub struct Exits<'a> {
    /// The node that they leave.
    pub node: u32,
    /// The number of the only one; 0 if they are all arcs from the node to others.
    pub arc: u32,
    /// The rank of each node. The other way stays in one rank.
    pub ranks: &'a [u32],
}

/// Whether arc number `j` is one of them.
pub fn is_exit(exits: Exits, j: u32, arc: Arc) -> bool
    ensures { result ≡ is_exit_arc exits.entry j arc }
{
    if exits.arc == 0 {
        arc.tail == exits.node && arc.head != exits.node
    } else {
        j == exits.arc
    }
}

/// Whether a search leaves arc number `j` out: it is one of them, or leads between nodes of different ranks.
pub fn is_barred(exits: Exits, j: u32, arc: Arc) -> bool
    ensures { result ≡ is_barred_arc exits.entry j arc }
{
    is_exit(exits, j, arc) || is_across(exits.ranks, arc)
}
