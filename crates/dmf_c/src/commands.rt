//! A function of C's for each command that changes a session.
ghost use Rattle.std.specs.Prelude.{◌≡◌, ◌≢◌, ◌∷◌, []};
ghost use Rattle.dmf_session.specs.declared.command.Command.TheVariants.{Cap, Add, Close, Shut, Solve, Undo, Redo};
ghost use Rattle.dmf_session.specs.Optimal.{HasOptimalPresent};
ghost use Rattle.dmf_c.specs.Codes.{AnswersCode, AddsLast};
ghost use Rattle.dmf_c.specs.Status.{IsOneOf, DMF_OK, DMF_NO_MEMORY, DMF_NO_SUCH_NODE, DMF_NO_SUCH_ARC, DMF_CLOSED, DMF_TOO_MANY_ARCS};
ghost use Rattle.dmf_c.specs.Status.{DMF_SUM_TOO_LARGE, DMF_NOTHING_TO_UNDO, DMF_NOTHING_TO_REDO};

use crate::code::answer_code;
use crate::handle::Handle;
use dmf_session::Command;
use std::alloc::Global;

/// Gives an arc another capacity.
#[unsafe(no_mangle)]
pub extern "C" fn dmf_session_cap(
    alloc: Global,
    session: &mut Handle,
    arc: u64,
    capacity: u64,
) -> u32
    ensures answer { AnswersCode session.old.timeline (Cap arc capacity) result session.new.timeline }
    ensures among { IsOneOf result (DMF_OK ∷ DMF_NO_MEMORY ∷ DMF_NO_SUCH_ARC ∷ DMF_CLOSED ∷ DMF_SUM_TOO_LARGE ∷ []) }
    ensures refused { result ≢ DMF_OK → session.new.timeline ≡ session.old.timeline }
{
    let command = Command::Cap { arc, cap: capacity };
    answer_code(&session.plan().step(alloc, command))
}

/// Adds an arc.
#[unsafe(no_mangle)]
pub extern "C" fn dmf_session_add(
    alloc: Global,
    session: &mut Handle,
    tail: u64,
    head: u64,
    capacity: u64,
) -> u32
    ensures answer { AnswersCode session.old.timeline (Add tail head capacity) result session.new.timeline }
    ensures number { result ≡ DMF_OK → AddsLast session.old.timeline tail head capacity session.new.timeline }
    ensures among { IsOneOf result (DMF_OK ∷ DMF_NO_MEMORY ∷ DMF_NO_SUCH_NODE ∷ DMF_TOO_MANY_ARCS ∷ DMF_SUM_TOO_LARGE ∷ []) }
    ensures refused { result ≢ DMF_OK → session.new.timeline ≡ session.old.timeline }
{
    let command = Command::Add {
        tail,
        head,
        cap: capacity,
    };
    answer_code(&session.plan().step(alloc, command))
}

/// Closes an arc.
#[unsafe(no_mangle)]
pub extern "C" fn dmf_session_close(alloc: Global, session: &mut Handle, arc: u64) -> u32
    ensures answer { AnswersCode session.old.timeline (Close arc) result session.new.timeline }
    ensures among { IsOneOf result (DMF_OK ∷ DMF_NO_MEMORY ∷ DMF_NO_SUCH_ARC ∷ DMF_CLOSED ∷ []) }
    ensures refused { result ≢ DMF_OK → session.new.timeline ≡ session.old.timeline }
{
    answer_code(&session.plan().step(alloc, Command::Close { arc }))
}

/// Closes every open arc at a node, as one change.
#[unsafe(no_mangle)]
pub extern "C" fn dmf_session_shut(alloc: Global, session: &mut Handle, node: u64) -> u32
    ensures answer { AnswersCode session.old.timeline (Shut node) result session.new.timeline }
    ensures among { IsOneOf result (DMF_OK ∷ DMF_NO_MEMORY ∷ DMF_NO_SUCH_NODE ∷ []) }
    ensures refused { result ≢ DMF_OK → session.new.timeline ≡ session.old.timeline }
{
    answer_code(&session.plan().step(alloc, Command::Shut { node }))
}

/// Augments the present flow to a maximum flow.
#[unsafe(no_mangle)]
pub extern "C" fn dmf_session_solve(alloc: Global, session: &mut Handle) -> u32
    ensures answer { AnswersCode session.old.timeline Solve result session.new.timeline }
    ensures among { IsOneOf result (DMF_OK ∷ DMF_NO_MEMORY ∷ []) }
    ensures refused { result ≢ DMF_OK → session.new.timeline ≡ session.old.timeline }
    ensures optimal { result ≡ DMF_OK → HasOptimalPresent session.new.timeline }
{
    answer_code(&session.plan().step(alloc, Command::Solve))
}

/// Undoes so many changes.
#[unsafe(no_mangle)]
pub extern "C" fn dmf_session_undo(alloc: Global, session: &mut Handle, steps: u64) -> u32
    ensures answer { AnswersCode session.old.timeline (Undo steps) result session.new.timeline }
    ensures among { IsOneOf result (DMF_OK ∷ DMF_NOTHING_TO_UNDO ∷ []) }
    ensures refused { result ≢ DMF_OK → session.new.timeline ≡ session.old.timeline }
{
    answer_code(&session.plan().step(alloc, Command::Undo(steps)))
}

/// Redoes so many undone changes.
#[unsafe(no_mangle)]
pub extern "C" fn dmf_session_redo(alloc: Global, session: &mut Handle, steps: u64) -> u32
    ensures answer { AnswersCode session.old.timeline (Redo steps) result session.new.timeline }
    ensures among { IsOneOf result (DMF_OK ∷ DMF_NO_MEMORY ∷ DMF_NOTHING_TO_REDO ∷ []) }
    ensures refused { result ≢ DMF_OK → session.new.timeline ≡ session.old.timeline }
{
    answer_code(&session.plan().step(alloc, Command::Redo(steps)))
}
