//! What the program tells beside a run: a fault, and its status.
ghost use Rattle.std.specs.Prelude.{◌≡◌};
ghost use Rattle.dmf_host.specs.Ending.{exit_status};

use crate::fault::Fault;
use dmf_streams::{Status, status_of};

/// Tells a fault on standard error. What is wrong with words is told already.
#[inline(never)]
pub fn tell(rt: &HostRuntime, fault: &Fault) -> std::io::Result<()> {
    match fault {
        Fault::Usage => Ok(()),
        fault => eprintln!(rt; "dmf: {fault}"),
    }
}

/// The exit status of the program: 2 for words that it does not take, 4 if the problem cannot be opened, and else that of the run.
pub fn exit_status(outcome: &Result<Status, Fault>) -> u8
    ensures { result ≡ exit_status outcome.now }
{
    match outcome {
        Ok(status) => status_of(&Ok(*status)),
        Err(Fault::Usage | Fault::Words) => 2,
        Err(Fault::Open) => 4,
        Err(Fault::Run(fault)) => status_of(&Err(*fault)),
    }
}
