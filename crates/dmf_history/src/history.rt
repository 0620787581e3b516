ghost use Rattle.std.specs.Prelude.{◌≡◌, drop};

use dmf_state::{Edit, NoMemory, State};
use std::alloc::Allocator;
use std::collections::VecDeque;
use thiserror::Error;

/// The largest bound of a history: the most states that any history keeps before the present one.
pub const MAX_BOUND: u32 = 1_000_000;

/// There is no change before the present state.
#[derive(Clone, Copy, Debug, PartialEq, Eq, Error)]
#[error("nothing to undo")]
pub struct NothingToUndo;

/// Why a step forward is refused.
#[derive(Clone, Copy, Debug, PartialEq, Eq, Error)]
pub enum RedoFault {
    /// There is no undone change.
    #[error("nothing to redo")]
    NothingToRedo,
    /// A request for memory was refused.
    #[error("no memory")]
    NoMemory,
}

/// A list of states and the place of the present one, however the history keeps them. The bound of a history, which nothing changes, is
/// the most states that it keeps before the present one.
pub trait History {
    ghost use Rattle.std.specs.Prelude.{◌≡◌, ◌<◌, ◌↔◌, Ok, Err, IfSome, OnOk, OnErr, IsOk};
    ghost use Rattle.dmf_history.specs.declared.history.RedoFault.TheVariants as redo;
    ghost use Rattle.dmf_history.specs.Timeline.{Timeline, IsTimeline, IsPresent, future_of, back, forward, FitsPresent, Appends, AddsArcs, LeadsBack, LeadsOn};

    /// The states and the place that the history stands for.
    ghost timeline: { Self → Timeline };

    /// The present state. Takes no memory.
    fn present(&self) -> &State
        ensures state { IsPresent (timeline self.now) result.now }
        ensures timeline { IsTimeline (timeline self.now) };

    /// The number of states before the present one. Takes no memory.
    fn past(&self) -> u32
        ensures count { result ≡ (timeline self.now).place }
        ensures timeline { IsTimeline (timeline self.now) };

    /// The number of states past the present one. Takes no memory.
    fn future(&self) -> u32
        ensures count { result ≡ future_of (timeline self.now) }
        ensures timeline { IsTimeline (timeline self.now) };

    /// The bound: the most states that the history keeps before the present one. Takes no memory.
    fn bound(&self) -> u32
        ensures count { result ≡ (timeline self.now).bound }
        ensures timeline { IsTimeline (timeline self.now) };

    /// Drops the states past the present one, and appends the state that the edit makes of the present one. This becomes the present
    /// state. If more states than the bound then stand before it, the history forgets the oldest. The edit has to fit the present
    /// state, as one planned on it does.
    ///
    /// Fails only if memory is refused, and then nothing has changed. Forgetting a state takes no memory.
    fn append(&mut self, edit: Edit) -> Result<(), NoMemory>
        requires fits { FitsPresent edit (timeline self.old) }
        ensures ok { OnOk result (Appends edit (timeline self.old) (timeline self.new)) }
        ensures err { OnErr result (timeline self.new ≡ timeline self.old) };

    /// Steps one state back. Fails only if there is none, and then nothing has changed. Takes no memory.
    fn undo(&mut self) -> Result<(), NothingToUndo>
        ensures variant { IsOk result ↔ (0 < (timeline self.old).place) }
        ensures ok { OnOk result (timeline self.new ≡ back (timeline self.old) 1) }
        ensures err { OnErr result (timeline self.new ≡ timeline self.old) };

    /// Steps one state forward. Takes memory only if that state has more arcs than the present one. After an error nothing has
    /// changed.
    fn redo(&mut self) -> Result<(), RedoFault>
        ensures last { (result ≡ Err redo.NothingToRedo) ↔ (future_of (timeline self.old) ≡ 0) }
        ensures memory { result ≡ Err redo.NoMemory → AddsArcs (timeline self.old) (timeline self.old).place }
        ensures ok { OnOk result (timeline self.new ≡ forward (timeline self.old) 1) }
        ensures err { OnErr result (timeline self.new ≡ timeline self.old) };

    /// The edit that made the present state of the one before it. `None` if no state stands before it, or if the history keeps no
    /// edits. Takes no memory.
    fn last_edit(&self) -> Option<&Edit>
        ensures { IfSome result (λ edit. LeadsBack edit.now (timeline self.now)) }
    {
        None
    }

    /// The edit that makes the next state of the present one. `None` if no state stands past it, or if the history keeps no edits.
    /// Takes no memory.
    fn next_edit(&self) -> Option<&Edit>
        ensures { IfSome result (λ edit. LeadsOn edit.now (timeline self.now)) }
    {
        None
    }
}

/// Drops the oldest element, in constant time. Takes no memory.
pub(crate) fn forget_oldest<T: Drop, A: Allocator>(kept: &mut VecDeque<T, A>)
    ensures { kept.new.items ≡ drop 1 kept.old.items }
{
    let _oldest = kept.pop_front();
}
