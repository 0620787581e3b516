//! Applying edits to a state.
ghost use Rattle.std.specs.Prelude.{◌≡◌, true, ◌+◌, ◌-◌, ◌^◌, ◌<◌, ◌≤◌, Ok, OnOk, OnErr};
ghost use Rattle.dmf_state.specs.Arc.{capacity_sum};
ghost use Rattle.dmf_state.specs.Network.{arc_number, has_arc, with_arc};
ghost use Rattle.dmf_state.specs.NetworkState.{IsState, with_flows};
ghost use Rattle.dmf_state.specs.Direction.{along, AreClosed, HasIdleLast};
ghost use Rattle.dmf_state.specs.Edit.{moved, applied, with_closed, AddsArc, AreOpenWith, MovesFit, Fits};
ghost use Rattle.dmf_state.specs.Revert.{with_opened, without_last};

use crate::arc::Arc;
use crate::edit::{Edit, Move, Shutting};
use crate::fault::NoMemory;
use crate::moves::{Direction, Moving, make_moves};
use crate::state::State;

impl State {
    /// Applies an edit that fits the state.
    ///
    /// Only an edit that adds an arc takes memory. If that is refused, the state is unchanged.
    pub fn apply(&mut self, edit: &Edit) -> Result<(), NoMemory>
        requires { Fits edit.now self.old }
        ensures ok { OnOk result (self.new ≡ applied edit.now self.old) }
        ensures err { OnErr result (self.new ≡ self.old) }
        ensures refused { OnErr result (AddsArc edit.now) }
    {
        match *edit {
            Edit::Cap {
                arc: j,
                new,
                ref moves,
                ..
            } => {
                let arc = self.arc(j).with_cap(new);
                self.change_arc(j, arc, moves, Direction::Forward);
                Ok(())
            }
            Edit::Close {
                arc: j,
                ref moves,
                ..
            } => {
                let arc = self.arc(j).closed();
                self.change_arc(j, arc, moves, Direction::Forward);
                Ok(())
            }
            Edit::Shut {
                ref arcs,
                ref moves,
            } => {
                self.move_flows(moves, Direction::Forward);
                self.close_all(arcs);
                Ok(())
            }
            Edit::Add { tail, head, cap } => self.append(Arc::open(tail, head, cap)),
            Edit::Solve { ref moves } => {
                self.move_flows(moves, Direction::Forward);
                Ok(())
            }
        }
    }

    /// The largest capacity that an arc of capacity `old` can get, since the sum of the capacities has to stay below 2^64.
    pub fn largest_cap(&self, old: u64) -> u64
        requires { old ≤ capacity_sum self.now.network.arcs }
        ensures { result + (capacity_sum self.now.network.arcs - old) + 1 ≡ 2 ^ 64 }
    {
        u64::MAX - (self.capacities - old)
    }

    /// Replaces arc number `j` by one with the same ends, and applies or reverts the moves.
    pub(crate) fn change_arc(&mut self, j: u32, arc: Arc, moves: &[Move], direction: Direction)
        requires is_there { has_arc self.old.network j ≡ true }
        requires tail { arc.tail ≡ (arc_number self.old.network j).tail }
        requires head { arc.head ≡ (arc_number self.old.network j).head }
        requires fit { MovesFit 0 (along direction moves.now) self.old.flows }
        requires state { IsState (record { network = with_arc self.old.network j arc; flows = moved (along direction moves.now) self.old.flows }) }
        ensures { self.new ≡ record { network = with_arc self.old.network j arc; flows = moved (along direction moves.now) self.old.flows } }
    {
        // While the flows move, the arc has the larger of the two capacities, so its flow stays within it.
        if arc.cap < self.arc(j).cap {
            self.move_flows(moves, direction);
            self.set_arc(j, arc);
        } else {
            self.set_arc(j, arc);
            self.move_flows(moves, direction);
        }
    }

    /// Closes these arcs, which carry no flow.
    fn close_all(&mut self, arcs: &[Shutting])
        requires are_open { AreOpenWith 0 arcs.now self.old.network }
        requires state { IsState (record { network = with_closed arcs.now self.old.network; flows = self.old.flows }) }
        ensures { self.new ≡ record { network = with_closed arcs.now self.old.network; flows = self.old.flows } }
    {
        for shutting in arcs {
            let arc = self.arc(shutting.arc).closed();
            self.set_arc(shutting.arc, arc);
        }
    }

    /// Opens these arcs with their old capacities. They were closed together.
    pub(crate) fn open_all(&mut self, arcs: &[Shutting])
        requires { AreClosed arcs.now self.old }
        ensures { self.new ≡ record { network = with_opened arcs.now self.old.network; flows = self.old.flows } }
    {
        for shutting in arcs {
            let arc = self.arc(shutting.arc);
            let arc = Arc::open(arc.tail, arc.head, shutting.old);
            self.set_arc(shutting.arc, arc);
        }
    }

    /// Replaces arc number `j` by one with the same ends.
    fn set_arc(&mut self, j: u32, arc: Arc)
        requires is_there { has_arc self.old.network j ≡ true }
        requires tail { arc.tail ≡ (arc_number self.old.network j).tail }
        requires head { arc.head ≡ (arc_number self.old.network j).head }
        requires state { IsState (record { network = with_arc self.old.network j arc; flows = self.old.flows }) }
        ensures { self.new ≡ record { network = with_arc self.old.network j arc; flows = self.old.flows } }
    {
        let old = self.arc(j);
        self.capacities = self.capacities - old.cap + arc.cap;
        self.open_arcs = self.open_arcs - u32::from(!old.closed) + u32::from(!arc.closed);
        self.arcs[j as usize - 1] = arc;
    }

    /// Applies or reverts the moves.
    pub(crate) fn move_flows(&mut self, moves: &[Move], direction: Direction)
        requires fit { MovesFit 0 (along direction moves.now) self.old.flows }
        requires state { IsState self.old → IsState (with_flows self.old (moved (along direction moves.now) self.old.flows)) }
        ensures { self.new ≡ with_flows self.old (moved (along direction moves.now) self.old.flows) }
    {
        let moving = Moving { moves, direction };
        make_moves(
            &self.arcs,
            &mut self.flows,
            moving,
            self.source,
            &mut self.at_source,
        );
    }

    /// Drops the last arc, which is open and carries no flow. Both vectors keep their allocations.
    pub(crate) fn drop_last(&mut self)
        requires { HasIdleLast self.old }
        ensures { self.new ≡ without_last self.old }
    {
        let last = self.arcs.len() - 1;
        self.capacities -= self.arcs[last].cap;
        self.open_arcs -= 1;
        self.arcs.truncate(last);
        self.flows.truncate(last);
    }
}
