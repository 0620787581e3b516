ghost use Rattle.std.specs.Prelude.{◌≡◌};
ghost use Rattle.dmf_state.specs.declared.fault.NetFault.TheVariants as net;
ghost use Rattle.dmf_state.specs.declared.fault.FlowFault.TheVariants as flow;
ghost use Rattle.dmf_state.specs.ArcFault.{net_fault};

use std::alloc::AllocError;
use std::fmt;
use thiserror::Error;

/// A request for memory was refused.
#[derive(Clone, Copy, Debug, PartialEq, Eq, Error)]
#[error("no memory")]
pub struct NoMemory;

impl From<AllocError> for NoMemory {
    fn from(_error: AllocError) -> NoMemory {
        NoMemory
    }
}

/// Why a network cannot take an arc. [`NetFault`] and the faults of a plan come from it.
#[derive(Clone, Copy, Debug, PartialEq, Eq, Error)]
#[error("{}", self.text())]
pub enum ArcFault {
    /// An end is 0 or past the last node.
    NoSuchNode,
    /// The network has as many arcs as it may have.
    TooManyArcs,
    /// The sum of the capacities would pass 2^64 - 1.
    SumTooLarge,
}

impl ArcFault {
    /// The text of the fault.
    fn text(self) -> &'static str {
        match self {
            ArcFault::NoSuchNode => "no such node",
            ArcFault::TooManyArcs => "too many arcs",
            ArcFault::SumTooLarge => "capacities past 64 bits",
        }
    }
}

/// Why an arc was not added while a network was built.
#[derive(Clone, Copy, Debug, PartialEq, Eq, Error)]
#[error("{}", self.text())]
pub enum NetFault {
    /// An end is 0 or past the last node.
    NoSuchNode,
    /// The network has as many arcs as it may have.
    TooManyArcs,
    /// The sum of the capacities would pass 2^64 - 1.
    SumTooLarge,
    /// A request for memory was refused.
    NoMemory,
}

impl NetFault {
    /// The text of the fault.
    fn text(self) -> &'static str {
        match self {
            NetFault::NoSuchNode => "no such node",
            NetFault::TooManyArcs => "too many arcs",
            NetFault::SumTooLarge => "capacities past 64 bits",
            NetFault::NoMemory => "no memory",
        }
    }
}

impl From<ArcFault> for NetFault {
    ghost from_gives = { λ fault e. e ≡ net_fault fault };

    fn from(fault: ArcFault) -> NetFault {
        match fault {
            ArcFault::NoSuchNode => NetFault::NoSuchNode,
            ArcFault::TooManyArcs => NetFault::TooManyArcs,
            ArcFault::SumTooLarge => NetFault::SumTooLarge,
        }
    }
}

impl From<NoMemory> for NetFault {
    ghost from_gives = { λ _ e. e ≡ net.NoMemory };

    fn from(_error: NoMemory) -> NetFault {
        NetFault::NoMemory
    }
}

/// Why the numbers on the arcs of a network are no flow, or a flow of negative value.
#[derive(Clone, Copy, Debug, PartialEq, Eq)]
pub enum FlowFault {
    /// The flow on this arc exceeds its capacity. It is the first such arc, counted from 1.
    OverCapacity(u32),
    /// This node, neither source nor sink, does not conserve flow. It is the least such node.
    NotConserved(u32),
    /// The value is negative: the inflow of the source exceeds its outflow.
    Negative,
    /// A request for memory was refused.
    NoMemory,
}

impl FlowFault {
    /// The text of the fault, without its number.
    fn text(self) -> &'static str {
        match self {
            FlowFault::OverCapacity(_) => "over capacity on arc",
            FlowFault::NotConserved(_) => "flow not conserved at node",
            FlowFault::Negative => "value below 0",
            FlowFault::NoMemory => "no memory",
        }
    }
}

impl fmt::Display for FlowFault {
    fn fmt<W: fmt::Write>(&self, f: &mut fmt::Formatter<W>) -> fmt::Result {
        let text = self.text();
        match self {
            FlowFault::OverCapacity(number) | FlowFault::NotConserved(number) => {
                write!(f, "{text} {number}")
            }
            _ => f.write_str(text),
        }
    }
}

impl std::error::Error for FlowFault {}

impl From<AllocError> for FlowFault {
    ghost from_gives = { λ _ e. e ≡ flow.NoMemory };

    fn from(_error: AllocError) -> FlowFault {
        FlowFault::NoMemory
    }
}
