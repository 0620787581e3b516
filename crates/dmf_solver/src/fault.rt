ghost use Rattle.std.specs.Prelude.{◌≡◌};
ghost use Rattle.dmf_solver.specs.declared.fault.PlanFault.TheVariants as plan;
ghost use Rattle.dmf_solver.specs.declared.fault.CutFault.TheVariants as cut;
ghost use Rattle.dmf_solver.specs.Change.{plan_fault};

use crate::watch::Stopped;
use dmf_state::{ArcFault, NoMemory};
use std::alloc::AllocError;
use thiserror::Error;

/// Why a change cannot be planned.
#[derive(Clone, Copy, Debug, PartialEq, Eq, Error)]
#[error("{}", self.text())]
pub enum PlanFault {
    /// The arc's number is 0 or exceeds the number of arcs.
    NoSuchArc,
    /// The arc is closed.
    Closed,
    /// A node's number is 0 or exceeds the number of nodes.
    NoSuchNode,
    /// The network has as many arcs as it may have.
    TooManyArcs,
    /// The sum of the capacities would exceed 2^64 - 1.
    SumTooLarge,
    /// A request for memory was refused.
    NoMemory,
}

impl PlanFault {
    /// The text of the fault.
    fn text(self) -> &'static str {
        match self {
            PlanFault::NoSuchArc => "no such arc",
            PlanFault::Closed => "arc is closed",
            PlanFault::NoSuchNode => "no such node",
            PlanFault::TooManyArcs => "too many arcs",
            PlanFault::SumTooLarge => "capacities past 64 bits",
            PlanFault::NoMemory => "no memory",
        }
    }
}

impl From<ArcFault> for PlanFault {
    ghost from_gives = { λ fault e. e ≡ plan_fault fault };

    fn from(fault: ArcFault) -> PlanFault {
        match fault {
            ArcFault::NoSuchNode => PlanFault::NoSuchNode,
            ArcFault::TooManyArcs => PlanFault::TooManyArcs,
            ArcFault::SumTooLarge => PlanFault::SumTooLarge,
        }
    }
}

impl From<AllocError> for PlanFault {
    ghost from_gives = { λ _ e. e ≡ plan.NoMemory };

    fn from(_error: AllocError) -> PlanFault {
        PlanFault::NoMemory
    }
}

/// A plan whose watch ends it is refused as if memory were: nothing has changed, and the watch knows why.
impl From<Stopped> for PlanFault {
    ghost from_gives = { λ _ e. e ≡ plan.NoMemory };

    fn from(_stopped: Stopped) -> PlanFault {
        PlanFault::NoMemory
    }
}

/// Why the smallest side of a network is not told.
#[derive(Clone, Copy, Debug, PartialEq, Eq, Error)]
#[error("{}", self.text())]
pub enum CutFault {
    /// Some flow of the network has a larger value.
    NotGreatest,
    /// A request for memory was refused.
    NoMemory,
}

impl CutFault {
    /// The text of the fault.
    fn text(self) -> &'static str {
        match self {
            CutFault::NotGreatest => "flow is not greatest",
            CutFault::NoMemory => "no memory",
        }
    }
}

impl From<AllocError> for CutFault {
    ghost from_gives = { λ _ e. e ≡ cut.NoMemory };

    fn from(_error: AllocError) -> CutFault {
        CutFault::NoMemory
    }
}

impl From<NoMemory> for CutFault {
    ghost from_gives = { λ _ e. e ≡ cut.NoMemory };

    fn from(_error: NoMemory) -> CutFault {
        CutFault::NoMemory
    }
}
