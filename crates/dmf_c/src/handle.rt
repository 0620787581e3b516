ghost use Rattle.std.specs.Prelude.{◌≡◌};
ghost use Rattle.std.specs.Borrow.{sem};
ghost use Rattle.std.specs.Box.Ownership.{box_owns};
ghost use Rattle.std.specs.contracts.impls.GlobalAllocator.TheImpl.{ghosts};
ghost use Rattle.dmf_c.specs.contracts.plan.Plan as plan;
ghost use Rattle.dmf_history.specs.Timeline.{Timeline};

use crate::plan::Plan;
use std::alloc::Global;
use std::marker::Model;

/// What C sees of a session: nothing.
#[repr(C)]
pub struct Hidden {
    byte: u8,
}

/// A session on the heap. C has its address, and never looks inside.
#[repr(C)]
pub struct Handle {
    at: *mut Hidden,
    alloc: Global,
    pub ghost timeline: { Timeline },
}

impl Model for Handle {
    ghost also_owns = { λ h. box_owns (ghosts.dealloc_token h.alloc) plan.the_row h.at h.timeline };
}

impl Handle {
    ghost use Rattle.dmf_c.specs.Handle.{LendsPlan};

    /// Takes the plan.
    pub fn of(plan: Box<Plan>) -> Handle
        ensures { result.timeline ≡ plan.value }
    {
        let (at, alloc) = Box::into_raw_with_allocator(plan);
        Handle {
            at: at as *mut Hidden,
            alloc,
        }
    }

    /// Gives the plan back.
    pub fn into_box(self) -> Box<Plan>
        ensures { result.value ≡ self.timeline }
    {
        let Handle { at, alloc } = self;
        unsafe { Box::from_raw(alloc, at as *mut Plan) }
    }

    /// Lends the plan.
    pub fn plan(&mut self) -> &mut Plan
        ensures* writes_back { sem 𝓛 (LendsPlan self.entry result) }
        ensures value { result.now ≡ self.old.timeline }
    {
        unsafe { &mut *(self.at as *mut Plan) }
    }
}

impl Drop for Handle {
    fn drop(self) {
        drop(self.into_box());
    }
}
