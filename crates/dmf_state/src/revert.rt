//! Reverting an edit.
ghost use Rattle.std.specs.Prelude.{◌≡◌, true, map};
ghost use Rattle.dmf_state.specs.Network.{has_arc};
ghost use Rattle.dmf_state.specs.NetworkState.{IsState};
ghost use Rattle.dmf_state.specs.Edit.{MovesFit};
ghost use Rattle.dmf_state.specs.Revert.{Stands, opposite, moved_back, reverted, with_open};

use crate::arc::Arc;
use crate::edit::{Edit, Move};
use crate::moves::Direction;
use crate::state::State;

impl State {
    /// Reverts an edit that stands in the state, and so restores the state to which the edit was applied. Looks only at the arcs that
    /// the edit names. Takes no memory.
    pub fn revert(&mut self, edit: &Edit)
        requires { Stands edit.now self.old }
        ensures { self.new ≡ reverted edit.now self.old }
    {
        match *edit {
            Edit::Cap {
                arc,
                old,
                ref moves,
                ..
            } => self.open_again(arc, old, moves),
            Edit::Close {
                arc,
                old,
                ref moves,
            } => self.open_again(arc, old, moves),
            Edit::Shut {
                ref arcs,
                ref moves,
            } => {
                self.open_all(arcs);
                self.move_flows(moves, Direction::Back);
            }
            Edit::Add { .. } => self.drop_last(),
            Edit::Solve { ref moves } => self.move_flows(moves, Direction::Back),
        }
    }
    /// Opens arc number `j` with its old capacity, and reverts the moves.
    fn open_again(&mut self, j: u32, old: u64, moves: &[Move])
        requires is_there { has_arc self.old.network j ≡ true }
        requires fit { MovesFit 0 (map opposite moves.now) self.old.flows }
        requires state { IsState (record { network = with_open self.old.network j old; flows = moved_back moves.now self.old.flows }) }
        ensures { self.new ≡ record { network = with_open self.old.network j old; flows = moved_back moves.now self.old.flows } }
    {
        let arc = self.arc(j);
        let arc = Arc::open(arc.tail, arc.head, old);
        self.change_arc(j, arc, moves, Direction::Back);
    }
}
