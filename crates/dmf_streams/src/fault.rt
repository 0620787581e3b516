ghost use Rattle.std.specs.Prelude.{◌≡◌};
ghost use Rattle.dmf_streams.specs.declared.fault.EngineFault.TheVariants as engine;
ghost use Rattle.dmf_streams.specs.Status.{status_of};

use dmf_state::NoMemory;
use dmf_text::{ProblemFault, SolutionFault, WriteFault};
use std::alloc::AllocError;
use std::fmt;

/// How a run ended without a fault.
#[derive(Clone, Copy, Debug, PartialEq, Eq)]
pub enum Status {
    /// No command was refused.
    Well,
    /// At least one command was refused.
    SomeRefused,
    /// The checked flow is not greatest.
    NotGreatest,
}

/// The fault that stopped a run.
#[derive(Clone, Copy, Debug, PartialEq, Eq)]
pub enum EngineFault {
    /// A read failed.
    Read,
    /// A write or a flush failed, or the writer took none of the bytes that it got.
    Write,
    /// The problem text has a fault.
    Problem(ProblemFault),
    /// The solution text has a fault.
    Solution(SolutionFault),
    /// A request for memory was refused.
    NoMemory,
    /// A text or the list of commands exceeds its limit.
    TooMuchInput,
    /// A network cannot take the second arcs by whose losses their gains are found.
    NoRoom,
}

impl fmt::Display for EngineFault {
    fn fmt<W: fmt::Write>(&self, f: &mut fmt::Formatter<W>) -> fmt::Result {
        match self {
            EngineFault::Read => f.write_str("read failed"),
            EngineFault::Write => f.write_str("write failed"),
            EngineFault::Problem(fault) => fmt::Display::fmt(fault, f),
            EngineFault::Solution(fault) => fmt::Display::fmt(fault, f),
            EngineFault::NoMemory => f.write_str("no memory"),
            EngineFault::TooMuchInput => f.write_str("too much input"),
            EngineFault::NoRoom => f.write_str("no room for second arcs"),
        }
    }
}

impl std::error::Error for EngineFault {}

impl From<WriteFault> for EngineFault {
    ghost from_gives = { λ _ fault. fault ≡ engine.Write };

    fn from(_fault: WriteFault) -> EngineFault {
        EngineFault::Write
    }
}

impl From<NoMemory> for EngineFault {
    ghost from_gives = { λ _ fault. fault ≡ engine.NoMemory };

    fn from(_fault: NoMemory) -> EngineFault {
        EngineFault::NoMemory
    }
}

impl From<AllocError> for EngineFault {
    ghost from_gives = { λ _ fault. fault ≡ engine.NoMemory };

    fn from(_fault: AllocError) -> EngineFault {
        EngineFault::NoMemory
    }
}

/// The exit status of the program after a run: 0 if all is well, 1 if a command was refused or a checked flow is not greatest, 3 for a
/// fault in a text, 4 for a failed read or write or an exceeded limit, 5 if memory is refused.
pub fn status_of(outcome: &Result<Status, EngineFault>) -> u8
    ensures { result ≡ status_of outcome.now }
{
    match outcome {
        Ok(Status::Well) => 0,
        Ok(Status::SomeRefused) => 1,
        Ok(Status::NotGreatest) => 1,
        Err(EngineFault::Problem(_)) => 3,
        Err(EngineFault::Solution(_)) => 3,
        Err(EngineFault::Read) => 4,
        Err(EngineFault::Write) => 4,
        Err(EngineFault::TooMuchInput) => 4,
        Err(EngineFault::NoRoom) => 4,
        Err(EngineFault::NoMemory) => 5,
    }
}
