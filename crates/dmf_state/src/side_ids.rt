ghost use Rattle.std.specs.Prelude.{◌≡◌, ℕ, List};
ghost use Rattle.std.specs.Iterator.{YieldsFirst, item_count};

use std::marker::Model;

/// An iterator over the numbers of the nodes of a side, ascending. Takes no memory.
#[derive(Drop)]
pub struct SideIds<'a> {
    left: &'a [u32],
}

impl<'a> Model for SideIds<'a> {
    ghost Value = { List ℕ };

    ghost view = { λ s. s.left.now };
}

impl<'a> SideIds<'a> {
    /// Iterates over these numbers.
    pub(crate) fn new(ids: &'a [u32]) -> SideIds<'a>
        ensures { result ≡ ids.now }
    {
        SideIds { left: ids }
    }
}

impl<'a> Iterator for SideIds<'a> {
    type Item = u32;

    ghost next_gives = { YieldsFirst (λ left. left) };

    ghost remaining = { item_count (λ left. left) };

    fn next(&mut self) -> Option<u32> {
        let (&id, left) = self.left.split_first()?;
        self.left = left;
        Some(id)
    }
}
