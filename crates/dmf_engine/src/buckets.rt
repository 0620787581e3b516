//! The nodes by label: all nodes of a label, and those with excess.
use crate::list::{fill, read, write};
use dmf_state::NoMemory;
use std::alloc::Global;

/// For each label a list of its nodes, linked both ways, and a stack of those that were found to be active. Node 0 ends a list.
#[derive(Drop)]
pub struct Buckets {
    first: Vec<u32>,
    next: Vec<u32>,
    previous: Vec<u32>,
    active: Vec<u32>,
    next_active: Vec<u32>,
    /// The highest label with an active node, or more.
    pub top: u32,
    /// The highest label with a node, or more.
    pub last: u32,
}

impl Buckets {
    /// Buckets without nodes, for nodes and labels less than `size`.
    pub fn new(alloc: Global, size: usize) -> Result<Buckets, NoMemory> {
        Ok(Buckets {
            first: vec![in alloc; 0u32; size]?,
            next: vec![in alloc; 0u32; size]?,
            previous: vec![in alloc; 0u32; size]?,
            active: vec![in alloc; 0u32; size]?,
            next_active: vec![in alloc; 0u32; size]?,
            top: 0,
            last: 0,
        })
    }

    /// Takes all nodes out.
    pub fn clear(&mut self) {
        fill(&mut self.first, 0);
        fill(&mut self.active, 0);
        self.top = 0;
        self.last = 0;
    }

    /// The first node of a label, or 0.
    #[inline(always)]
    pub fn first(&self, label: u32) -> u32 {
        read(&self.first, label, 0)
    }

    /// The least label from 1 on without a node.
    pub fn gap(&self) -> u32 {
        for label in 1..self.last {
            if self.first(label) == 0 {
                return label;
            }
        }
        self.last.wrapping_add(1)
    }

    /// The node after a node of the same label, or 0.
    #[inline(always)]
    pub fn next(&self, node: u32) -> u32 {
        read(&self.next, node, 0)
    }

    /// Puts a node in.
    #[inline(always)]
    pub fn enter(&mut self, node: u32, label: u32) {
        let head = self.first(label);
        write(&mut self.next, node, head);
        write(&mut self.previous, node, 0);
        write(&mut self.previous, head, node);
        write(&mut self.first, label, node);
        self.last = self.last.max(label);
    }

    /// Takes a node out.
    #[inline(always)]
    pub fn leave(&mut self, node: u32, label: u32) {
        let before = read(&self.previous, node, 0);
        let after = self.next(node);
        if before == 0 {
            write(&mut self.first, label, after);
        } else {
            write(&mut self.next, before, after);
        }
        write(&mut self.previous, after, before);
    }

    /// Takes all nodes of a label out.
    pub fn empty(&mut self, label: u32) {
        write(&mut self.first, label, 0);
    }

    /// Puts a node with this label among the active ones.
    #[inline(always)]
    pub fn wake(&mut self, node: u32, label: u32) {
        let head = read(&self.active, label, 0);
        write(&mut self.next_active, node, head);
        write(&mut self.active, label, node);
        self.top = self.top.max(label);
    }

    /// Takes an active node with this label, or answers 0.
    #[inline(always)]
    pub fn take_active(&mut self, label: u32) -> u32 {
        let node = read(&self.active, label, 0);
        if node != 0 {
            write(&mut self.active, label, read(&self.next_active, node, 0));
        }
        node
    }
}
