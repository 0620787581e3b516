//! Lists that are safe at any index.
ghost use Rattle.std.specs.Prelude.{◌<◌, length};

use crate::links::Link;
use dmf_state::NoMemory;
use std::alloc::Global;

/// The item at an index, or `other` past the end.
#[inline(always)]
pub fn read<T: Copy + Drop>(items: &[T], index: u32, other: T) -> T {
    let index = index as usize;
    if index < items.len() {
        items[index]
    } else {
        other
    }
}

/// Sets the item at an index. Past the end it does nothing.
#[inline(always)]
pub fn write<T: Copy + Drop>(items: &mut [T], index: u32, item: T) {
    let index = index as usize;
    if index < items.len() {
        items[index] = item;
    }
}

/// The least power of two from a number on, up to 2^25.
pub fn power_from(number: usize) -> usize {
    let mut power = 1usize;
    for _ in 0..25 {
        if power < number {
            power = power.wrapping_mul(2);
        }
    }
    power
}

/// The largest index of a list.
#[inline(always)]
pub fn mask_of(items: &[u32]) -> usize
    requires { 0 < length items.now }
    ensures { result < length items.now }
{
    items.len() - 1
}

/// The item at the part of a word that a mask leaves.
#[inline(always)]
pub fn masked(items: &[u32], word: u32, mask: usize) -> u32
    requires { mask < length items.now }
{
    items[word as usize & mask]
}

/// The items from `start` up to `end`. None where these are no places of the list.
#[inline(always)]
pub fn within(items: &[Link], start: u32, end: u32) -> &[Link] {
    let start = start as usize;
    let end = end as usize;
    if start <= end && end <= items.len() {
        &items[start..end]
    } else {
        &items[..0]
    }
}

/// Sets each item.
pub fn fill(items: &mut [u32], item: u32) {
    for each in items.iter_mut() {
        *each = item;
    }
}

/// A list of nodes or places that takes no memory after it is made: a queue, or a stack.
#[derive(Drop)]
pub struct Row {
    items: Vec<u32>,
    count: u32,
}

impl Row {
    /// An empty list with room for `most` items.
    pub fn new(alloc: Global, most: usize) -> Result<Row, NoMemory> {
        Ok(Row {
            items: vec![in alloc; 0u32; most]?,
            count: 0,
        })
    }

    /// How many items there are.
    #[inline(always)]
    pub fn len(&self) -> u32 {
        self.count
    }

    /// The item at an index, or 0 past the end.
    #[inline(always)]
    pub fn at(&self, index: u32) -> u32 {
        if index < self.count {
            read(&self.items, index, 0)
        } else {
            0
        }
    }

    /// Appends an item. Does nothing where there is no room.
    #[inline(always)]
    pub fn push(&mut self, item: u32) {
        write(&mut self.items, self.count, item);
        self.count = self.count.wrapping_add(1);
    }

    /// Keeps the first items.
    pub fn truncate(&mut self, count: u32) {
        self.count = count;
    }
}

/// A queue of nodes in which each node is at most once. It takes no memory after it is made.
#[derive(Drop)]
pub struct Ring {
    items: Vec<u32>,
    start: u32,
    end: u32,
}

impl Ring {
    /// An empty queue with `size` places, one of which always stays free.
    pub fn new(alloc: Global, size: usize) -> Result<Ring, NoMemory> {
        Ok(Ring {
            items: vec![in alloc; 0u32; size]?,
            start: 0,
            end: 0,
        })
    }

    /// Appends a node.
    #[inline(always)]
    pub fn push(&mut self, node: u32) {
        write(&mut self.items, self.end, node);
        self.end = self.after(self.end);
    }

    /// Takes the first node, or answers 0 if there is none.
    #[inline(always)]
    pub fn take(&mut self) -> u32 {
        if self.start == self.end {
            return 0;
        }
        let node = read(&self.items, self.start, 0);
        self.start = self.after(self.start);
        node
    }

    #[inline(always)]
    fn after(&self, index: u32) -> u32 {
        let next = index.wrapping_add(1);
        if (next as usize) < self.items.len() {
            next
        } else {
            0
        }
    }
}
