ghost use Rattle.std.specs.Prelude.{◌≡◌, ◌≤◌, Some, length};
ghost use Rattle.dmf_session.specs.declared.command.Refusal.TheVariants as refusal;
ghost use Rattle.dmf_session.specs.RefusalText.{refusal_text};
ghost use Rattle.dmf_session.specs.Step.{refusal_of, refusal_of_cut};

use dmf_solver::{CutFault, PlanFault};
use dmf_state::{NoMemory, Side};
use std::fmt;

/// A command to a session.
#[derive(Clone, Copy, Debug, PartialEq, Eq)]
pub enum Command {
    /// Give an arc another capacity.
    Cap {
        /// The arc's number, counted from 1.
        arc: u64,
        /// Its new capacity.
        cap: u64,
    },
    /// Add an arc from `tail` to `head`.
    Add {
        /// The node that the arc leaves.
        tail: u64,
        /// The node that the arc enters.
        head: u64,
        /// Its capacity.
        cap: u64,
    },
    /// Close an arc, so that it carries no flow any more.
    Close {
        /// The arc's number, counted from 1.
        arc: u64,
    },
    /// Close every open arc that leaves a node or enters it, as one change.
    Shut {
        /// The node's number, counted from 1.
        node: u64,
    },
    /// Augment the present flow to a maximum flow.
    Solve,
    /// Undo so many changes.
    Undo(u64),
    /// Redo so many undone changes.
    Redo(u64),
    /// Print the problem.
    PrintProblem,
    /// Print the flow.
    PrintFlow,
    /// Print the smallest minimum cut.
    PrintCut,
}

/// The reply of a session to a command that it accepts.
#[derive(Debug, PartialEq, Eq, Drop)]
pub enum Reply {
    /// The value of the present flow.
    Value(u64),
    /// The number of the new arc, and the value of the present flow.
    Added(u32, u64),
    /// The problem is solved. The reply is the present flow, and this cut after it if one was wanted.
    Solution(Option<Side>),
    /// The reply is the present problem.
    Problem,
    /// The reply is the present flow.
    Flow,
    /// The reply is this cut.
    Cut(Side),
}

/// Why a command is refused. Only the reader of command lines gives the first four and the last.
#[derive(Clone, Copy, Debug, PartialEq, Eq)]
pub enum Refusal {
    /// The first field is no command, or the field after `print` names nothing to print.
    UnknownCommand,
    /// The command takes a different number of fields.
    FieldCount,
    /// A field that should be a number has a byte that is no digit.
    NotANumber,
    /// A number exceeds 2^64 - 1.
    TooLarge,
    /// The arc's number is 0 or exceeds the number of arcs.
    NoSuchArc,
    /// The arc is closed.
    Closed,
    /// A node's number is 0 or exceeds the number of nodes.
    NoSuchNode,
    /// The network has as many arcs as it may have.
    TooManyArcs,
    /// The sum of the capacities would exceed 2^64 - 1.
    SumTooLarge,
    /// There are fewer changes before the present state than the command undoes.
    NothingToUndo,
    /// There are fewer undone changes than the command redoes.
    NothingToRedo,
    /// Some flow has a larger value.
    NotGreatest,
    /// A request for memory was refused.
    NoMemory,
    /// The line has more bytes than a command line may have.
    LineTooLong,
}

impl Refusal {
    /// The text that a session writes about the refusal. Takes no memory.
    pub fn text(self) -> &'static str
        ensures text { result.now ≡ refusal_text self }
        ensures short { length result.now ≤ 24 }
    {
        match self {
            Refusal::UnknownCommand => "unknown command",
            Refusal::FieldCount => "wrong number of fields",
            Refusal::NotANumber => "not a number",
            Refusal::TooLarge => "number too large",
            Refusal::NoSuchArc => "no such arc",
            Refusal::Closed => "arc is closed",
            Refusal::NoSuchNode => "no such node",
            Refusal::TooManyArcs => "too many arcs",
            Refusal::SumTooLarge => "capacities past 64 bits",
            Refusal::NothingToUndo => "nothing to undo",
            Refusal::NothingToRedo => "nothing to redo",
            Refusal::NotGreatest => "flow is not greatest",
            Refusal::NoMemory => "no memory",
            Refusal::LineTooLong => "line too long",
        }
    }
}

impl fmt::Display for Refusal {
    ghost output = { λ refusal. Some (refusal_text refusal) };

    fn fmt<W: fmt::Write>(&self, f: &mut fmt::Formatter<W>) -> fmt::Result {
        f.write_str(self.text())
    }
}

impl std::error::Error for Refusal {}

impl From<PlanFault> for Refusal {
    ghost from_gives = { λ fault told. told ≡ refusal_of fault };

    fn from(fault: PlanFault) -> Refusal {
        match fault {
            PlanFault::NoSuchArc => Refusal::NoSuchArc,
            PlanFault::Closed => Refusal::Closed,
            PlanFault::NoSuchNode => Refusal::NoSuchNode,
            PlanFault::TooManyArcs => Refusal::TooManyArcs,
            PlanFault::SumTooLarge => Refusal::SumTooLarge,
            PlanFault::NoMemory => Refusal::NoMemory,
        }
    }
}

impl From<CutFault> for Refusal {
    ghost from_gives = { λ fault told. told ≡ refusal_of_cut fault };

    fn from(fault: CutFault) -> Refusal {
        match fault {
            CutFault::NotGreatest => Refusal::NotGreatest,
            CutFault::NoMemory => Refusal::NoMemory,
        }
    }
}

impl From<NoMemory> for Refusal {
    ghost from_gives = { λ _ told. told ≡ refusal.NoMemory };

    fn from(_error: NoMemory) -> Refusal {
        Refusal::NoMemory
    }
}
