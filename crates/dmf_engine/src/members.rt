//! The nodes of two search trees, and which of them are active.
use crate::list::{read, write};
use dmf_state::NoMemory;
use std::alloc::Global;

/// Stands for the link to the parent of a node that is in no tree.
pub const FREE: u32 = u32::MAX;
/// Stands for the link to the parent of a node that has lost its parent.
pub const ORPHAN: u32 = u32::MAX - 1;
/// Stands for the link to the parent of the source and of the sink. Every link has a smaller place.
pub const ROOT: u32 = u32::MAX - 2;

/// A node of a tree.
#[derive(Clone, Copy)]
pub struct Member {
    /// The place of the link to its parent, or `FREE`, `ORPHAN` or `ROOT`.
    pub parent: u32,
    /// How many links lead to its root, as of the time below.
    pub distance: u32,
    /// When that was found.
    pub time: u32,
    /// The next active node, or the node itself if it is the last one; 0 if it is not active.
    next: u32,
}

const NOBODY: Member = Member {
    parent: FREE,
    distance: 0,
    time: 0,
    next: 0,
};

/// The nodes by number, and the active ones in a list.
#[derive(Drop)]
pub struct Members {
    all: Vec<Member>,
    /// For each node of a tree whether it is the sink's.
    is_behind: Vec<bool>,
    /// The first and the last active node, or 0.
    first: u32,
    last: u32,
    /// The node whose links are looked at, or 0.
    pub current: u32,
    /// Whether it became active again since.
    pub is_woken: bool,
}

impl Members {
    /// Takes memory for some numbers a node.
    pub fn new(alloc: Global, size: usize) -> Result<Members, NoMemory> {
        Ok(Members {
            all: vec![in alloc; NOBODY; size]?,
            is_behind: vec![in alloc; false; size]?,
            first: 0,
            last: 0,
            current: 0,
            is_woken: false,
        })
    }

    /// What is known of a node.
    #[inline(always)]
    pub fn at(&self, node: u32) -> Member {
        read(&self.all, node, NOBODY)
    }

    /// Whether a node of a tree is in the sink's.
    #[inline(always)]
    pub fn is_behind(&self, node: u32) -> bool {
        read(&self.is_behind, node, false)
    }

    /// Sets a node's parent, and how far it is from its root at a time.
    #[inline(always)]
    pub fn put(&mut self, node: u32, parent: u32, distance: u32, time: u32) {
        let member = Member {
            parent,
            distance,
            time,
            next: self.at(node).next,
        };
        write(&mut self.all, node, member);
    }

    /// Puts a free node into a tree, where it becomes active.
    #[inline(always)]
    pub fn join(&mut self, node: u32, parent: u32, distance: u32, time: u32, is_behind: bool) {
        self.put(node, parent, distance, time);
        write(&mut self.is_behind, node, is_behind);
        self.wake(node);
    }

    /// Makes a node active, unless it is.
    #[inline(always)]
    pub fn wake(&mut self, node: u32) {
        if node == self.current {
            self.is_woken = true;
        }
        if self.at(node).next != 0 {
            return;
        }
        self.set_next(node, node);
        if self.last == 0 {
            self.first = node;
        } else {
            self.set_next(self.last, node);
        }
        self.last = node;
    }

    /// Makes a node the current one: its links are looked at next.
    pub fn keep(&mut self, node: u32) {
        self.set_next(node, node);
        self.current = node;
    }

    /// Returns the current node if it is still in a tree, or else the next active one that is; 0 if there is none.
    pub fn take_active(&mut self) -> u32 {
        let current = self.current;
        if current != 0 {
            self.set_next(current, 0);
            if self.at(current).parent != FREE {
                return current;
            }
            self.current = 0;
        }
        for _ in 0..self.all.len() {
            let node = self.first;
            if node == 0 {
                break;
            }
            self.pass(node);
            if self.at(node).parent != FREE {
                return node;
            }
        }
        0
    }

    /// Takes the first node out of the list.
    fn pass(&mut self, node: u32) {
        let next = self.at(node).next;
        if next == node {
            self.first = 0;
            self.last = 0;
        } else {
            self.first = next;
        }
        self.set_next(node, 0);
    }

    #[inline(always)]
    fn set_next(&mut self, node: u32, next: u32) {
        let member = Member {
            next,
            ..self.at(node)
        };
        write(&mut self.all, node, member);
    }
}
