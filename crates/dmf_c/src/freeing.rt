ghost use Rattle.std.specs.Borrow.{sem};
ghost use Rattle.std.specs.Ptr.{if_non_null};
ghost use Rattle.dmf_c.specs.Owned.{owns_handle};
ghost use Rattle.dmf_c.specs.declared.handle.Handle.{Handle as Owned};

use crate::handle::Handle;
use std::alloc::Global;

/// Frees a session, and does nothing at NULL.
#[unsafe(no_mangle)]
pub unsafe extern "C" fn dmf_session_free(alloc: Global, session: *mut Handle)
    ghost handle: { Owned }
    requires* { sem 𝓛 (if_non_null session (owns_handle session handle)) }
{
    if session.is_null() {
        return;
    }
    closed(Box::from_raw(alloc, session));
}

fn closed(session: Box<Handle>) {
    drop(session);
}
