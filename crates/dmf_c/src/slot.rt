ghost use Rattle.std.specs.Prelude.{◌≡◌, Option, Some};
ghost use Rattle.dmf_history.specs.Timeline.{Timeline};

use crate::handle::Handle;
use std::alloc::Global;
use std::marker::Model;

/// A variable of C's that holds the address of a session, or anything before there is one. To write it again forgets the session.
#[repr(C)]
#[derive(Drop)]
pub struct Slot {
    at: *mut Handle,
    alloc: Global,
    pub ghost session: { Option Timeline },
}

impl Model for Slot {
    ghost use Rattle.dmf_c.specs.Owned.{owns_session};

    ghost also_owns = { λ s. owns_session s.at s.session };
}

impl Slot {
    /// Takes the handle.
    pub fn of(handle: Box<Handle>) -> Slot
        ensures { result.session ≡ Some handle.value.timeline }
    {
        let (at, alloc) = Box::into_raw_with_allocator(handle);
        Slot { at, alloc }
    }
}
