//! How C ends a long call from another thread.
ghost use Rattle.std.specs.Prelude.{◌≡◌, ◌≢◌, ◌∷◌, [], Some, IfOk, IsSome};
ghost use Rattle.std.specs.Borrow.{sem};
ghost use Rattle.std.specs.Ptr.{if_non_null};
ghost use Rattle.dmf_session.specs.Optimal.{HasOptimalPresent};
ghost use Rattle.dmf_c.specs.Codes.{AnswersUntil, Ends, until_code};
ghost use Rattle.dmf_c.specs.Status.{IsOneOf, DMF_OK, DMF_NO_MEMORY, DMF_STOPPED};
ghost use Rattle.dmf_c.specs.Stop.{owns_stop};
ghost use Rattle.dmf_c.specs.declared.stop.Stop.{Stop as Owned};

use crate::code::answer_code;
use crate::flag::{Flag, StopWatch};
use crate::handle::Handle;
use crate::stop::{Stop, StopSlot};
use dmf_session::{Refusal, Reply};
use std::alloc::{AllocError, Global};

/// The answer of a call that a flag has ended.
const STOPPED: u32 = 16;

/// Makes a stop, which is not raised.
#[unsafe(no_mangle)]
pub extern "C" fn dmf_stop_new(alloc: Global, stop: &mut StopSlot) -> u32
    ensures among { IsOneOf result (DMF_OK ∷ DMF_NO_MEMORY ∷ []) }
    ensures made { result ≡ DMF_OK → IsSome stop.new.stop }
    ensures refused { result ≢ DMF_OK → stop.new ≡ stop.old }
{
    put_stop(alloc, Flag::new(alloc), stop)
}

/// Makes another stop, which is raised whenever this one is.
#[unsafe(no_mangle)]
pub extern "C" fn dmf_stop_share(alloc: Global, stop: &mut Stop, other: &mut StopSlot) -> u32
    ensures among { IsOneOf result (DMF_OK ∷ DMF_NO_MEMORY ∷ []) }
    ensures made { result ≡ DMF_OK → IsSome other.new.stop }
    ensures refused { result ≢ DMF_OK → other.new ≡ other.old }
{
    let shared = stop.flag().share();
    put_stop(alloc, shared, other)
}

/// Puts the flag into the variable, if there is one.
fn put_stop(alloc: Global, flag: Result<Flag, AllocError>, stop: &mut StopSlot) -> u32
    ensures among { IsOneOf result (DMF_OK ∷ DMF_NO_MEMORY ∷ []) }
    ensures made { result ≡ DMF_OK → IsSome stop.new.stop }
    ensures refused { result ≢ DMF_OK → stop.new ≡ stop.old }
{
    match made_stop(alloc, flag) {
        Ok(slot) => {
            *stop = slot;
            0
        }
        Err(_) => 1,
    }
}

fn made_stop(alloc: Global, flag: Result<Flag, AllocError>) -> Result<StopSlot, AllocError>
    ensures { IfOk result (λ slot. IsSome slot.stop) }
{
    let flag = Box::new(alloc, flag?)?;
    let stop = Box::new(alloc, Stop::of(flag))?;
    Ok(StopSlot::of(stop))
}

/// Raises the flag, which ends each call that looks at it.
#[unsafe(no_mangle)]
pub extern "C" fn dmf_stop_raise(stop: &mut Stop) {
    stop.flag().set(true);
}

/// Takes the flag down.
#[unsafe(no_mangle)]
pub extern "C" fn dmf_stop_clear(stop: &mut Stop) {
    stop.flag().set(false);
}

/// Augments the present flow to a maximum flow, unless the flag is raised before that.
#[unsafe(no_mangle)]
pub extern "C" fn dmf_session_solve_until(
    alloc: Global,
    session: &mut Handle,
    stop: &mut Stop,
) -> u32
    ensures answer { AnswersUntil session.old.timeline result session.new.timeline }
    ensures among { IsOneOf result (DMF_OK ∷ DMF_NO_MEMORY ∷ DMF_STOPPED ∷ []) }
    ensures refused { result ≢ DMF_OK → session.new.timeline ≡ session.old.timeline }
    ensures optimal { result ≡ DMF_OK → HasOptimalPresent session.new.timeline }
{
    let flag = stop.flag();
    if flag.is_raised() {
        return STOPPED;
    }
    let mut watch = StopWatch::new(flag);
    let answer = session.plan().solve_until(alloc, &mut watch);
    until_code(&answer, watch.has_stopped)
}

/// The number of a solve's answer. If the watch has ended the solve, that is why it was refused.
fn until_code(answer: &Result<Reply, Refusal>, has_stopped: bool) -> u32
    ensures { result ≡ until_code answer.now has_stopped }
{
    match answer {
        Err(Refusal::NoMemory) if has_stopped => STOPPED,
        _ => answer_code(answer),
    }
}

/// The number of a call's answer. If the watch has ended the call, that is why memory was said to be refused.
pub fn ended_code(code: u32, has_stopped: bool) -> u32
    ensures { Ends code result }
{
    if has_stopped && code == 1 {
        STOPPED
    } else {
        code
    }
}

/// Frees a stop, and does nothing at NULL.
#[unsafe(no_mangle)]
pub unsafe extern "C" fn dmf_stop_free(alloc: Global, stop: *mut Stop)
    ghost handle: { Owned }
    requires* { sem 𝓛 (if_non_null stop (owns_stop stop handle)) }
{
    if stop.is_null() {
        return;
    }
    closed_stop(Box::from_raw(alloc, stop));
}

fn closed_stop(stop: Box<Stop>) {
    drop(stop);
}
