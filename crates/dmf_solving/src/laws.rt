ghost use Rattle.dmf_solving.specs.Laws.{AnyIsOptimal, ValueIsOptimal, WrittenIsOptimal};

use dmf_solver::{greatest_is_optimal, solved_is_greatest};
use dmf_text::accepted_is_state;

/// The law that the solution that a solving run writes has the greatest value of all flows, and that this value is the capacity of the
/// smallest minimum cut.
pub fn written_is_optimal()
    ensures { WrittenIsOptimal }
{
    accepted_is_state();
    solved_is_greatest();
    greatest_is_optimal();
}

/// The law that the value that a run for the value writes is the greatest of all flows and the capacity of a minimum cut, and so is the
/// value of the solution that a run for any greatest flow writes.
pub fn any_is_optimal()
    ensures value { ValueIsOptimal }
    ensures any { AnyIsOptimal }
{
    accepted_is_state();
    solved_is_greatest();
    greatest_is_optimal();
}
