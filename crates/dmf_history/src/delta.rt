ghost use Rattle.std.specs.Prelude.{◌≡◌, ◌≤◌, ◌↔◌, IfSome, None, IfOk};
ghost use Rattle.dmf_history.specs.declared.history.RedoFault.TheVariants as redo;
ghost use Rattle.dmf_history.specs.Timeline.{start, future_of, LeadsBack, LeadsOn};

use crate::history::{History, MAX_BOUND, NothingToUndo, RedoFault, forget_oldest};
use dmf_state::{Edit, NoMemory, State, reverting_gives_back};
use std::alloc::Global;
use std::collections::VecDeque;
use std::marker::Model;

/// A history that keeps only the present state, and an edit for each step from one state to the next.
///
/// A step back or forward looks only at the arcs that its edit names. Forgetting a state drops one edit, in constant time.
#[derive(Drop)]
pub struct DeltaHistory {
    present: State,
    edits: VecDeque<Edit>,
    place: usize,
    bound: u32,
}

impl Model for DeltaHistory {
    ghost use Rattle.dmf_history.specs.Timeline.{Timeline};
    ghost use Rattle.dmf_history.specs.Delta.{timeline_of, AreWithinBound};

    ghost Value = { Timeline };

    ghost view = { λ a. timeline_of a.present a.edits.items a.place a.bound };

    ghost invariant = { λ a. AreWithinBound a.present a.edits.items a.place a.bound };
}

impl DeltaHistory {
    /// Makes a history of this one state, with the largest bound, [`MAX_BOUND`]. Takes no memory.
    pub fn new(alloc: Global, state: State) -> Self
        ensures { result ≡ start 1000000 state }
    {
        DeltaHistory::with_bound(alloc, state, MAX_BOUND)
    }

    /// Makes a history of this one state, with this bound, at most [`MAX_BOUND`]. Takes no memory.
    pub fn with_bound(alloc: Global, state: State, bound: u32) -> Self
        requires { bound ≤ 1000000 }
        ensures { result ≡ start bound state }
    {
        // The contract of the reader says that this is a state, as each state of a timeline has to be.
        let _nodes = state.nodes();
        DeltaHistory {
            present: state,
            edits: VecDeque::new(alloc),
            place: 0,
            bound,
        }
    }

    /// Copies the history, which then shares nothing with its copy. Fails only if memory is refused.
    pub fn copy(&self, alloc: Global) -> Result<DeltaHistory, NoMemory>
        ensures { IfOk result (λ copy. copy ≡ self.now) }
    {
        Ok(DeltaHistory {
            present: self.present.copy(alloc)?,
            edits: self.edits.clone()?,
            ..*self
        })
    }
}

impl History for DeltaHistory {
    ghost timeline = { λ history. history };

    fn present(&self) -> &State {
        &self.present
    }

    fn past(&self) -> u32 {
        self.place as u32
    }

    fn future(&self) -> u32 {
        (self.edits.len() - self.place) as u32
    }

    fn bound(&self) -> u32 {
        self.bound
    }

    // The requests for memory come first: room for the edit, and for an arc that it adds. Only then does the call drop edits.
    fn append(&mut self, edit: Edit) -> Result<(), NoMemory> {
        reverting_gives_back();
        self.edits.reserve(1)?;
        self.present.apply(&edit)?;
        self.edits.truncate(self.place);
        self.edits.push_back_reserved(edit);
        if self.place < self.bound as usize {
            self.place += 1;
        } else {
            forget_oldest(&mut self.edits);
        }
        Ok(())
    }

    fn undo(&mut self) -> Result<(), NothingToUndo> {
        reverting_gives_back();
        if self.place == 0 {
            return Err(NothingToUndo);
        }
        self.place -= 1;
        self.present.revert(&self.edits[self.place]);
        Ok(())
    }

    fn redo(&mut self) -> Result<(), RedoFault> {
        reverting_gives_back();
        if self.place == self.edits.len() {
            return Err(RedoFault::NothingToRedo);
        }
        self.present.apply(&self.edits[self.place])?;
        self.place += 1;
        Ok(())
    }

    fn last_edit(&self) -> Option<&Edit>
        ensures edit { IfSome result (λ edit. LeadsBack edit.now self.now) }
        ensures none { (result ≡ None) ↔ (self.now.place ≡ 0) }
    {
        reverting_gives_back();
        let last = self.place.checked_sub(1)?;
        self.edits.get(last)
    }

    fn next_edit(&self) -> Option<&Edit>
        ensures edit { IfSome result (λ edit. LeadsOn edit.now self.now) }
        ensures none { (result ≡ None) ↔ (future_of self.now ≡ 0) }
    {
        self.edits.get(self.place)
    }
}

impl From<NoMemory> for RedoFault {
    ghost from_gives = { λ _ fault. fault ≡ redo.NoMemory };

    fn from(_error: NoMemory) -> RedoFault {
        RedoFault::NoMemory
    }
}
