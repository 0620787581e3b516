ghost use Rattle.std.specs.Prelude.{◌≡◌, ◌≤◌, IfOk};
ghost use Rattle.dmf_history.specs.Timeline.{start};

use crate::history::{History, MAX_BOUND, NothingToUndo, RedoFault, forget_oldest};
use dmf_state::{Edit, NoMemory, State};
use std::alloc::Global;
use std::collections::VecDeque;
use std::marker::Model;

/// A history that keeps each state whole.
#[derive(Drop)]
pub struct WholeHistory {
    states: VecDeque<State>,
    place: usize,
    bound: u32,
    alloc: Global,
}

impl Model for WholeHistory {
    ghost use Rattle.dmf_history.specs.Timeline.{Timeline, IsTimeline};

    ghost Value = { Timeline };

    ghost view = { λ a. record { states = a.states.items; place = a.place; bound = a.bound } };

    ghost invariant = { λ a. IsTimeline (record { states = a.states.items; place = a.place; bound = a.bound }) };
}

impl WholeHistory {
    /// Makes a history of this one state, with the largest bound, [`MAX_BOUND`]. Fails only if memory is refused, and then drops the
    /// state.
    pub fn new(alloc: Global, state: State) -> Result<Self, NoMemory>
        ensures { IfOk result (λ history. history ≡ start 1000000 state) }
    {
        WholeHistory::with_bound(alloc, state, MAX_BOUND)
    }

    /// Makes a history of this one state, with this bound, at most [`MAX_BOUND`]. Fails only if memory is refused, and then drops the
    /// state.
    pub fn with_bound(alloc: Global, state: State, bound: u32) -> Result<Self, NoMemory>
        requires { bound ≤ 1000000 }
        ensures { IfOk result (λ history. history ≡ start bound state) }
    {
        let mut states = VecDeque::with_capacity(alloc, 1)?;
        states.push_back_reserved(state);
        Ok(WholeHistory {
            states,
            place: 0,
            bound,
            alloc,
        })
    }
}

impl History for WholeHistory {
    ghost timeline = { λ history. history };

    fn present(&self) -> &State {
        &self.states[self.place]
    }

    fn past(&self) -> u32 {
        self.place as u32
    }

    fn future(&self) -> u32 {
        (self.states.len() - 1 - self.place) as u32
    }

    fn bound(&self) -> u32 {
        self.bound
    }

    // The requests for memory come first: the copy, an arc that the edit adds, and room for the state. Only then does the call drop states.
    fn append(&mut self, edit: Edit) -> Result<(), NoMemory> {
        let mut next = self.states[self.place].copy(self.alloc)?;
        next.apply(&edit)?;
        self.states.reserve(1)?;
        self.states.truncate(self.place + 1);
        self.states.push_back_reserved(next);
        if self.place < self.bound as usize {
            self.place += 1;
        } else {
            forget_oldest(&mut self.states);
        }
        Ok(())
    }

    fn undo(&mut self) -> Result<(), NothingToUndo> {
        if self.place == 0 {
            return Err(NothingToUndo);
        }
        self.place -= 1;
        Ok(())
    }

    fn redo(&mut self) -> Result<(), RedoFault> {
        if self.place + 1 == self.states.len() {
            return Err(RedoFault::NothingToRedo);
        }
        self.place += 1;
        Ok(())
    }
}
