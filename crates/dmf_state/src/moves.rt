ghost use Rattle.std.specs.Prelude.{◌≡◌, ◌+◌, ◌-◌, ◌^◌, ◌<◌, ◌≤◌, true, if◌then◌else◌};
ghost use Rattle.dmf_state.specs.Arc.{capacity_sum};
ghost use Rattle.dmf_state.specs.Flow.{AreWithinCapacities};
ghost use Rattle.dmf_state.specs.FlowSums.{IsNodeFlow};
ghost use Rattle.dmf_state.specs.Edit.{MovesFit, moved};
ghost use Rattle.dmf_state.specs.Direction.{step_along, along, cap_along};

use crate::arc::Arc;
use crate::edit::Move;
use crate::flow_sums::NodeFlow;

/// Whether an edit is applied or reverted.
#[derive(Clone, Copy)]
pub enum Direction {
    /// It is applied.
    Forward,
    /// It is reverted.
    Back,
}

impl Direction {
    /// The move in this direction: the move itself, or the one that reverts it.
    pub fn step(self, m: &Move) -> Move
        ensures { result ≡ step_along self m.now }
    {
        match self {
            Direction::Forward => *m,
            Direction::Back => Move {
                arc: m.arc,
                from: m.to,
                to: m.from,
            },
        }
    }

    /// The capacity that the arc gets in this direction.
    pub fn cap(self, before: u64, after: u64) -> u64
        ensures { result ≡ cap_along self before after }
    {
        match self {
            Direction::Forward => after,
            Direction::Back => before,
        }
    }
}

/// Moves that are made, or taken back.
#[derive(Clone, Copy)]
pub struct Moving<'a> {
    /// The moves, in the order of their arcs.
    pub moves: &'a [Move],
    /// Whether they are made or taken back.
    pub direction: Direction,
}

/// Gives each arc that the moves name its flow after them, or before them. `at_node` stays the outflow and the inflow of the node.
pub fn make_moves(
    arcs: &[Arc],
    flows: &mut [u64],
    moving: Moving<'_>,
    node: u32,
    at_node: &mut NodeFlow,
)
    requires capacities { capacity_sum arcs.now < 2 ^ 64 }
    requires within { AreWithinCapacities arcs.now flows.old }
    requires fit { MovesFit 0 (along moving.direction moving.moves.now) flows.old }
    requires within_after { AreWithinCapacities arcs.now (moved (along moving.direction moving.moves.now) flows.old) }
    requires at_node { IsNodeFlow arcs.now flows.old node at_node.old }
    ensures flows { flows.new ≡ moved (along moving.entry.direction moving.entry.moves.now) flows.old }
    ensures at_node { IsNodeFlow arcs.now flows.new node at_node.new }
{
    for m in moving.moves {
        let step = moving.direction.step(m);
        let i = step.arc as usize - 1;
        let arc = arcs[i];
        at_node.leaving = sum_after(at_node.leaving, arc.tail == node, &step);
        at_node.entering = sum_after(at_node.entering, arc.head == node, &step);
        flows[i] = step.to;
    }
}

/// A sum of flows after a move. `is_part` says whether the flow that the move changes is part of the sum.
fn sum_after(sum: u64, is_part: bool, m: &Move) -> u64
    requires part { is_part ≡ true → m.now.from ≤ sum }
    requires small { is_part ≡ true → sum - m.now.from + m.now.to < 2 ^ 64 }
    ensures { result + (if is_part then m.now.from else 0) ≡ sum + (if is_part then m.now.to else 0) }
{
    if is_part { sum - m.from + m.to } else { sum }
}
