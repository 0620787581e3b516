ghost use Rattle.std.specs.Prelude.{◌≡◌, Option, Some};
ghost use Rattle.std.specs.Borrow.{sem};
ghost use Rattle.std.specs.Box.Ownership.{box_owns};
ghost use Rattle.std.specs.contracts.impls.GlobalAllocator.TheImpl.{ghosts};
ghost use Rattle.dmf_c.specs.contracts.flag.Flag as flag;

use crate::flag::Flag;
use crate::handle::Hidden;
use std::alloc::Global;
use std::marker::Model;

/// An owner of a flag, on the heap. C has its address, and never looks inside.
#[repr(C)]
pub struct Stop {
    at: *mut Hidden,
    alloc: Global,
    pub ghost inside: { Unit {0} },
}

impl Model for Stop {
    ghost also_owns = { λ s. box_owns (ghosts.dealloc_token s.alloc) flag.the_row s.at s.inside };
}

unsafe impl Send for Stop {}

impl Stop {
    ghost use Rattle.dmf_c.specs.Stop.{LendsFlag};

    /// Takes the flag.
    pub fn of(flag: Box<Flag>) -> Stop
        ensures { result.inside ≡ flag.value }
    {
        let (at, alloc) = Box::into_raw_with_allocator(flag);
        Stop {
            at: at as *mut Hidden,
            alloc,
        }
    }

    /// Gives the flag back.
    pub fn into_box(self) -> Box<Flag>
        ensures { result.value ≡ self.inside }
    {
        let Stop { at, alloc } = self;
        unsafe { Box::from_raw(alloc, at as *mut Flag) }
    }

    /// Lends the flag.
    pub fn flag(&mut self) -> &mut Flag
        ensures* writes_back { sem 𝓛 (LendsFlag self.entry result) }
        ensures value { result.now ≡ self.old.inside }
    {
        unsafe { &mut *(self.at as *mut Flag) }
    }
}

impl Drop for Stop {
    fn drop(self) {
        drop(self.into_box());
    }
}

/// A variable of C's that holds the address of a stop, or anything before there is one. To write it again forgets the stop.
#[repr(C)]
#[derive(Drop)]
pub struct StopSlot {
    at: *mut Stop,
    alloc: Global,
    pub ghost stop: { Option (Unit {0}) },
}

impl Model for StopSlot {
    ghost use Rattle.dmf_c.specs.Stop.{owns_if_some};

    ghost also_owns = { λ s. owns_if_some s.at s.stop };
}

impl StopSlot {
    /// Takes the stop.
    pub fn of(stop: Box<Stop>) -> StopSlot
        ensures { result.stop ≡ Some stop.value.inside }
    {
        let (at, alloc) = Box::into_raw_with_allocator(stop);
        StopSlot { at, alloc }
    }
}
