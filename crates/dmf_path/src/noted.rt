//! The admissible links that walks have passed.
ghost use Rattle.std.specs.Prelude.{◌≡◌, ◌<◌, ◌≤◌, ◌⊎◌, ◌++◌, ◌∷◌, [], true, false, IfOk};

use std::alloc::{AllocError, Global};

/// The admissible links that walks to the present goal have passed: walks to another one look at them again.
#[derive(Drop)]
pub struct Noted {
    /// The places of some of them: at each node no other one lies before all of these.
    pub places: Vec<u32>,
    /// Whether the list was full when one was passed. Then labels are kept for no other goal.
    pub lost: bool,
}

impl Noted {
    /// None is noted, nor will any be. Takes no memory.
    pub fn none(alloc: Global) -> Noted
        ensures { result.lost ≡ true }
    {
        Noted {
            places: Vec::new(alloc),
            lost: true,
        }
    }

    /// None is noted, nor will any be until the next labelling. Takes memory for so many places.
    pub fn new(alloc: Global, most: usize) -> Result<Noted, AllocError>
        ensures { IfOk result (λ noted. noted.lost ≡ true) }
    {
        Ok(Noted {
            places: Vec::with_capacity(alloc, most)?,
            lost: true,
        })
    }

    /// Notes a link.
    pub fn note(&mut self, place: u32)
        ensures { self.new.lost ≡ false → (self.old.lost ≡ false) × (self.new.places.items ≡ self.old.places.items ++ place ∷ []) }
    {
        if self.places.len() < self.places.capacity() {
            self.places.push_reserved(place);
        } else {
            self.lost = true;
        }
    }

    /// Notes the link at `from`, if a walk goes on at another one.
    pub fn pass(&mut self, from: u32, place: u32)
        ensures { self.new.lost ≡ false → (self.old.lost ≡ false)
            × (((place ≤ from) × (self.new.places.items ≡ self.old.places.items))
            ⊎ ((from < place) × (self.new.places.items ≡ self.old.places.items ++ from ∷ []))) }
    {
        if from < place {
            self.note(from);
        }
    }

    /// No link is noted, since none is passed.
    pub fn clear(&mut self)
        ensures none { self.new.places.items ≡ [] }
        ensures known { self.new.lost ≡ false }
    {
        self.places.clear();
        self.lost = false;
    }
}
