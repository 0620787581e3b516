ghost use Rattle.dmf_session.specs.Laws.{HasAnswer, HasOneAnswer, SolvedIsOptimal, ChangeIsUndone};

use dmf_solver::{
    change_has_one_outcome, change_has_outcome, flow_is_greatest_or_surpassed, greatest_is_optimal,
    network_has_one_smallest_side, network_has_smallest_side, solved_is_greatest,
};

/// The law that after a solve that was not refused the value of the present flow is the greatest of all flows, and the
/// capacity of the smallest minimum cut.
pub fn solved_is_optimal()
    ensures { SolvedIsOptimal }
{
    solved_is_greatest();
    greatest_is_optimal();
}

/// The law that each command has an answer that is not want of memory.
pub fn command_has_answer()
    ensures { HasAnswer }
{
    change_has_outcome();
    network_has_smallest_side();
    flow_is_greatest_or_surpassed();
}

/// The law that each command has only one answer that is not want of memory: any two such answers from one timeline agree, and leave
/// the same timeline.
pub fn command_has_one_answer()
    ensures { HasOneAnswer }
{
    change_has_one_outcome();
    network_has_one_smallest_side();
}

/// The law that one step back right after an accepted change is accepted if and only if the bound is at least 1, and restores the state
/// before the change.
pub fn change_is_undone()
    ensures { ChangeIsUndone }
{}
