ghost use Rattle.dmf_runs.specs.Laws.{HasRun, HasOneRun, StepsAreAnswers, SolvesAreOptimal, RunsAreOptimal, MillionIsNeverForgotten};

use dmf_session::{command_has_answer, command_has_one_answer, solved_is_optimal};

/// The law that each command text, of any bytes, has a run from the start of each state in which no command is refused memory.
pub fn command_text_has_run()
    ensures { HasRun }
{
    command_has_answer();
}

/// The law that each command text has only one such run: any two write the same text, and agree on whether a line is refused.
pub fn command_text_has_one_run()
    ensures { HasOneRun }
{
    command_has_answer();
    command_has_one_answer();
}

/// The law that each such run is also a run in which commands may be refused memory, as the contracts of runs have it.
pub fn steps_are_answers()
    ensures { StepsAreAnswers }
{
    command_has_answer();
    command_has_one_answer();
}

/// The law that in each run, also if commands are refused memory, a solve that is not refused leaves a state with the greatest value of
/// all flows, which is the capacity of the smallest minimum cut.
pub fn solves_are_optimal()
    ensures each { SolvesAreOptimal }
    ensures whole { RunsAreOptimal }
{
    command_has_answer();
    command_has_one_answer();
    solved_is_optimal();
}

/// The law that with the bound 1,000,000, the largest, no run of at most 1,000,000 lines forgets a state: each change appends its
/// state as if there were no bound.
pub fn million_is_never_forgotten()
    ensures { MillionIsNeverForgotten }
{}
