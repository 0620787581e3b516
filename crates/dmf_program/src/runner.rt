//! What runs the task that the program's arguments ask for.
ghost use Rattle.dmf_arguments.specs.Words.{HasBound, task_of};
ghost use Rattle.dmf_program.specs.Program.{MayRun, Running};

use dmf_arguments::Arguments;
use dmf_host::Fault;
use dmf_streams::Status;

/// Runs one task. A run takes the runner by value, so that no task is run twice.
pub trait Runner {
    // How the program may end if this runner runs a task.
    ghost runs: { Self → Running };

    /// Runs what the arguments ask for, over files and streams of its own.
    fn run(self, asked: &Arguments) -> Result<Status, Fault>
        requires { HasBound asked.now.mode }
        ensures task { MayRun (task_of asked.now) result }
        ensures runs { runs self (task_of asked.now) result };
}
