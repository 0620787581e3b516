//! Windows: for each node, where among its links those lie whose opposites have room.
ghost use Rattle.std.specs.Prelude.{◌≡◌, ◌≢◌, ◌<◌, ◌≤◌, ◌^◌, ℕ, false, true, length, slice_index, IfOk};
ghost use Rattle.dmf_node.specs.Node.{IsNode};
ghost use Rattle.dmf_links.specs.LinkTable.{links_of};
ghost use Rattle.dmf_path.specs.Residual.{residual_of};
ghost use Rattle.dmf_path.specs.Windows.{AreWindows};

use crate::residual::Residual;
use dmf_links::LinkTable;
use std::alloc::{AllocError, Global};

/// For each node a range of its places, its window: all links whose opposites have room lie there. While rooms fall, windows only get
/// narrower.
#[derive(Drop)]
pub struct Windows {
    /// For each node the place at which its window begins.
    pub from: Vec<u32>,
    /// For each node the place after its window.
    pub end: Vec<u32>,
    /// Whether they are known.
    pub known: bool,
}

impl Windows {
    /// No window is known, nor will any be. Takes no memory.
    pub fn none(alloc: Global) -> Windows
        ensures { result.known ≡ false }
    {
        Windows {
            from: Vec::new(alloc),
            end: Vec::new(alloc),
            known: false,
        }
    }

    /// No window is known yet. Takes memory for two numbers a node.
    pub fn new(alloc: Global, nodes: u32) -> Result<Windows, AllocError>
        requires { nodes < 2 ^ 31 }
        ensures { IfOk result (λ windows. windows.known ≡ false) }
    {
        Ok(Windows {
            from: vec![in alloc; 0u32; nodes as usize + 1]?,
            end: vec![in alloc; 0u32; nodes as usize + 1]?,
            known: false,
        })
    }

    /// Makes the window of each node all its places, if no window is known, there is memory for them, and no push is taken back.
    pub fn open(&mut self, links: &Residual)
        requires { self.old.known ≡ true → AreWindows self.old (residual_of links.now) }
        ensures { self.new.known ≡ true → AreWindows self.new (residual_of links.now) }
    {
        let count = links.table.nodes as usize + 1;
        if self.known || links.takes_back || self.from.len() != count || self.end.len() != count {
            return;
        }
        self.from.copy_from_slice(&links.table.first[..count]);
        self.end.copy_from_slice(&links.table.first[1..count + 1]);
        self.known = true;
    }

    /// Makes the window of a node, if it is known, as narrow as the rooms allow. Returns how many links it has then.
    pub fn narrow(&mut self, links: &Residual, node: u32) -> u64
        requires node { IsNode links.now.table.value.nodes node }
        requires known { self.old.known ≡ true → AreWindows self.old (residual_of links.now) }
        ensures known { self.new.known ≡ true → AreWindows self.new (residual_of links.now) }
    {
        if !self.known {
            return u64::MAX;
        }
        let from = self.from[node as usize];
        let end = self.end[node as usize];
        let first = first_flagged(&links.flags, from, end);
        let behind = behind_flagged(&links.flags, first, end);
        self.from[node as usize] = first;
        self.end[node as usize] = behind;
        u64::from(behind - first)
    }
}

/// The first place in the range with the flag 1, or the end of the range.
fn first_flagged(flags: &[u8], from: u32, end: u32) -> u32
    requires range { from ≤ end }
    requires within { end ≤ length flags.now }
    ensures from { from ≤ result }
    ensures to { result ≤ end }
    ensures none { (p : ℕ) → from ≤ p → p < result → slice_index flags.now p ≢ 1 }
{
    for place in from..end {
        if flags[place as usize] == 1 {
            return place;
        }
    }
    end
}

/// The place after the last one in the range with the flag 1, or the beginning of the range.
fn behind_flagged(flags: &[u8], from: u32, end: u32) -> u32
    requires range { from ≤ end }
    requires within { end ≤ length flags.now }
    ensures from { from ≤ result }
    ensures to { result ≤ end }
    ensures none { (p : ℕ) → result ≤ p → p < end → slice_index flags.now p ≢ 1 }
{
    let mut behind = end;
    while from < behind && flags[behind as usize - 1] != 1 {
        behind -= 1;
    }
    behind
}
