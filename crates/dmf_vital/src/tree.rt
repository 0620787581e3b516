ghost use Rattle.std.specs.Prelude.{◌≡◌, ℕ, ◌+◌, ◌-◌, ◌++◌, ◌∷◌, [], length, slice_set, IfOk, OnOk, OnErr};
ghost use Rattle.dmf_node.specs.Node.{IsNode};
ghost use Rattle.dmf_vital.specs.Tree.{AreListed, place_of};

use crate::hop::Hop;
use std::alloc::{AllocError, Global};

/// What a search knows of a node.
#[derive(Clone, Copy)]
pub struct Reached {
    /// Its place in the order in which nodes were reached, from 1 on; 0 if it was not.
    pub place: usize,
    /// The last step to it, or the exit that enters it.
    pub hop: Hop,
    /// So much can be sent over all steps to it.
    pub width: u64,
    /// Whether it was reached from behind.
    pub back: bool,
}

/// The nodes that a search has reached.
#[derive(Drop)]
pub struct Tree {
    /// What is known of each node.
    pub nodes: Vec<Reached>,
    /// The reached nodes, in the order of their places.
    pub found: Vec<u32>,
}

/// A tree that has reached no node. Takes memory for each node.
pub fn make_tree(alloc: Global, nodes: u32) -> Result<Tree, AllocError>
    ensures { IfOk result (λ tree. AreListed nodes tree.nodes.items tree.found.items) }
{
    let nobody = Reached {
        place: 0,
        hop: Hop {
            arc: 0,
            against: false,
        },
        width: 0,
        back: false,
    };
    Ok(Tree {
        nodes: vec![in alloc; nobody; nodes as usize]?,
        found: Vec::with_capacity(alloc, nodes as usize)?,
    })
}

/// Forgets the reached nodes, in time for each of them.
pub fn forget(tree: &mut Tree)
    requires { AreListed (length tree.old.nodes.items) tree.old.nodes.items tree.old.found.items }
    ensures none { (v : ℕ) → IsNode (length tree.old.nodes.items) v → place_of tree.new.nodes.items v ≡ 0 }
    ensures one_each { length tree.new.nodes.items ≡ length tree.old.nodes.items }
    ensures empty { tree.new.found.items ≡ [] }
{
    for k in 0..tree.found.len() {
        let v = tree.found[k] as usize - 1;
        tree.nodes[v].place = 0;
    }
    tree.found.clear();
}

/// Counts node `v` as reached in this way, at the next place.
pub fn reach(tree: &mut Tree, v: u32, by: Reached) -> Result<(), AllocError>
    requires { IsNode (length tree.old.nodes.items) v }
    ensures nodes { OnOk result (tree.new.nodes.items ≡ slice_set tree.old.nodes.items (v - 1)
        (record { place = length tree.old.found.items + 1; hop = by.hop; width = by.width; back = by.back })) }
    ensures found { OnOk result (tree.new.found.items ≡ tree.old.found.items ++ v ∷ []) }
    ensures nodes_stay { OnErr result (tree.new.nodes.items ≡ tree.old.nodes.items) }
    ensures found_stay { OnErr result (tree.new.found.items ≡ tree.old.found.items) }
{
    let place = tree.found.len() + 1;
    tree.found.push(v)?;
    tree.nodes[v as usize - 1] = Reached { place, ..by };
    Ok(())
}
