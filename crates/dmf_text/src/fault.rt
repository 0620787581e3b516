//! Why a text is no problem text, or no solution text.
ghost use Rattle.std.specs.Prelude.{◌≡◌, ◌⊎◌, if◌then◌else◌};
ghost use Rattle.dmf_text.specs.declared.fault.ProblemFaultKind.TheVariants as problem_kind;
ghost use Rattle.dmf_text.specs.declared.fault.SolutionFaultKind.TheVariants as solution_kind;
ghost use Rattle.dmf_text.specs.Numbers.{numbers_kind};
ghost use Rattle.dmf_text.specs.Problem as problem;
ghost use Rattle.dmf_text.specs.Solution as solution;
ghost use Rattle.dmf_text.specs.Reading.{arc_kind};
ghost use Rattle.dmf_text.specs.SolutionReading.{flow_kind};

use crate::digits::NumberFault;
use crate::exact_fields::WrongFieldCount;
use crate::numbers::NumbersFault;
use dmf_state::{FlowFault, NetFault};
use std::alloc::AllocError;
use std::fmt;
use thiserror::Error;

/// What is wrong with a line of a problem text, or with its end.
#[derive(Clone, Copy, Debug, PartialEq, Eq, Error)]
#[error("{}", self.text())]
pub enum ProblemFaultKind {
    /// A node or arc line comes before the problem line, or the text has no problem line.
    ProblemLineExpected = 1,
    /// A problem line comes after the problem line.
    SecondProblemLine = 2,
    /// The first field is not `p`, `n` or `a`, and does not begin with `c`.
    UnknownLine = 3,
    /// The second field of the problem line is not `max`.
    NotMax = 4,
    /// The line has too few or too many fields.
    FieldCount = 5,
    /// A field that should be a number has a byte that is no digit.
    NotANumber = 6,
    /// A number exceeds 2^64 - 1.
    TooLarge = 7,
    /// The number of nodes is not from 2 to [`dmf_state::MAX_NODES`], or the number of arcs exceeds [`dmf_state::MAX_ARCS`].
    CountOutOfRange = 8,
    /// A node is 0 or exceeds the number of nodes.
    NodeOutOfRange = 9,
    /// The letter of a node line is not `s` or `t`.
    NotSourceOrSink = 10,
    /// An earlier node line has the same letter.
    SecondTerminal = 11,
    /// The source and the sink are the same node.
    SameTerminals = 12,
    /// An arc line comes before the node lines of the source and the sink.
    ArcBeforeTerminals = 13,
    /// There are more arc lines than the problem line says.
    TooManyArcs = 14,
    /// There are fewer arc lines than the problem line says.
    TooFewArcs = 15,
    /// The text ends without a node line of the source or of the sink.
    TerminalMissing = 16,
    /// The sum of the capacities up to this line exceeds 2^64 - 1.
    SumTooLarge = 17,
    /// A request for memory was refused.
    NoMemory = 18,
}

impl ProblemFaultKind {
    /// The text of the fault.
    fn text(self) -> &'static str {
        match self {
            ProblemFaultKind::ProblemLineExpected => "problem line expected",
            ProblemFaultKind::SecondProblemLine => "second problem line",
            ProblemFaultKind::UnknownLine => "unknown line",
            ProblemFaultKind::NotMax => "not a max problem",
            ProblemFaultKind::FieldCount => "wrong number of fields",
            ProblemFaultKind::NotANumber => "not a number",
            ProblemFaultKind::TooLarge => "number too large",
            ProblemFaultKind::CountOutOfRange => "count out of range",
            ProblemFaultKind::NodeOutOfRange => "no such node",
            ProblemFaultKind::NotSourceOrSink => "neither source nor sink",
            ProblemFaultKind::SecondTerminal => "terminal named twice",
            ProblemFaultKind::SameTerminals => "source and sink are the same",
            ProblemFaultKind::ArcBeforeTerminals => "arc before source and sink",
            ProblemFaultKind::TooManyArcs => "too many arcs",
            ProblemFaultKind::TooFewArcs => "too few arcs",
            ProblemFaultKind::TerminalMissing => "source or sink missing",
            ProblemFaultKind::SumTooLarge => "capacities past 64 bits",
            ProblemFaultKind::NoMemory => "no memory",
        }
    }
}

impl From<NumberFault> for ProblemFaultKind {
    ghost from_gives = { λ fault kind. kind ≡ problem.number_fault fault };

    fn from(fault: NumberFault) -> ProblemFaultKind {
        match fault {
            NumberFault::NotANumber => ProblemFaultKind::NotANumber,
            NumberFault::TooLarge => ProblemFaultKind::TooLarge,
        }
    }
}

impl From<WrongFieldCount> for ProblemFaultKind {
    ghost from_gives = { λ _ kind. kind ≡ problem_kind.FieldCount };

    fn from(_count: WrongFieldCount) -> ProblemFaultKind {
        ProblemFaultKind::FieldCount
    }
}

impl From<NumbersFault> for ProblemFaultKind {
    ghost from_gives = { λ fault kind. kind ≡ numbers_kind problem_kind.FieldCount problem.number_fault fault };

    fn from(fault: NumbersFault) -> ProblemFaultKind {
        match fault {
            NumbersFault::FieldCount => ProblemFaultKind::FieldCount,
            NumbersFault::Number(fault) => ProblemFaultKind::from(fault),
        }
    }
}

impl From<NetFault> for ProblemFaultKind {
    ghost from_gives = { λ fault kind. kind ≡ arc_kind fault };

    fn from(fault: NetFault) -> ProblemFaultKind {
        match fault {
            NetFault::NoSuchNode => ProblemFaultKind::NodeOutOfRange,
            NetFault::TooManyArcs => ProblemFaultKind::TooManyArcs,
            NetFault::SumTooLarge => ProblemFaultKind::SumTooLarge,
            NetFault::NoMemory => ProblemFaultKind::NoMemory,
        }
    }
}

/// The first fault of a problem text.
#[derive(Clone, Copy, Debug, PartialEq, Eq, Error)]
#[error("line {line}: {kind}")]
pub struct ProblemFault {
    /// The number of the line, from 1. A fault of the end has the number of lines plus one, and
    /// [`ProblemFaultKind::NoMemory`] has 0.
    pub line: u64,
    /// What is wrong with it.
    pub kind: ProblemFaultKind,
}

impl ProblemFault {
    /// The fault of this line, or of line 0 if memory was refused.
    pub(crate) fn at(line: u64, kind: ProblemFaultKind) -> ProblemFault
        ensures memory { kind ≡ ProblemFaultKind.NoMemory → result ≡ problem.out_of_memory }
        ensures told { (result ≡ problem.out_of_memory) ⊎ (result ≡ record { line = line; kind = kind }) }
    {
        let line = told_line(line, kind == ProblemFaultKind::NoMemory);
        ProblemFault { line, kind }
    }
}

/// What is wrong with a line of a solution text, or with its end.
#[derive(Clone, Copy, Debug, PartialEq, Eq)]
pub enum SolutionFaultKind {
    /// The first field is not `s` or `f`, and does not begin with `c`.
    UnknownLine,
    /// The line has too few or too many fields.
    FieldCount,
    /// A field that should be a number has a byte that is no digit.
    NotANumber,
    /// A number exceeds 2^64 - 1.
    TooLarge,
    /// No arc leads from this tail to this head.
    NoSuchPair,
    /// The flows from this tail to this head, up to this line, exceed the capacities of the arcs together.
    OverCapacity,
    /// A value line comes after the value line.
    SecondValue,
    /// The text has no value line.
    ValueMissing,
    /// This node, neither source nor sink, does not conserve flow. It is the least such node.
    NotConserved(u32),
    /// The value of the flow differs from the value that the value line says.
    ValueDiffers,
    /// A request for memory was refused.
    NoMemory,
}

impl SolutionFaultKind {
    /// The text of the fault, without the node.
    fn text(self) -> &'static str {
        match self {
            SolutionFaultKind::UnknownLine => "unknown line",
            SolutionFaultKind::FieldCount => "wrong number of fields",
            SolutionFaultKind::NotANumber => "not a number",
            SolutionFaultKind::TooLarge => "number too large",
            SolutionFaultKind::NoSuchPair => "no such arc",
            SolutionFaultKind::OverCapacity => "over capacity",
            SolutionFaultKind::SecondValue => "second value line",
            SolutionFaultKind::ValueMissing => "value line missing",
            SolutionFaultKind::NotConserved(_) => "flow not conserved",
            SolutionFaultKind::ValueDiffers => "value differs",
            SolutionFaultKind::NoMemory => "no memory",
        }
    }
}

impl fmt::Display for SolutionFaultKind {
    fn fmt<W: fmt::Write>(&self, f: &mut fmt::Formatter<W>) -> fmt::Result {
        let text = self.text();
        match self {
            SolutionFaultKind::NotConserved(node) => write!(f, "{text} at node {node}"),
            _ => f.write_str(text),
        }
    }
}

impl std::error::Error for SolutionFaultKind {}

impl From<NumberFault> for SolutionFaultKind {
    ghost from_gives = { λ fault kind. kind ≡ solution.number_fault fault };

    fn from(fault: NumberFault) -> SolutionFaultKind {
        match fault {
            NumberFault::NotANumber => SolutionFaultKind::NotANumber,
            NumberFault::TooLarge => SolutionFaultKind::TooLarge,
        }
    }
}

impl From<WrongFieldCount> for SolutionFaultKind {
    ghost from_gives = { λ _ kind. kind ≡ solution_kind.FieldCount };

    fn from(_count: WrongFieldCount) -> SolutionFaultKind {
        SolutionFaultKind::FieldCount
    }
}

impl From<NumbersFault> for SolutionFaultKind {
    ghost from_gives = { λ fault kind. kind ≡ numbers_kind solution_kind.FieldCount solution.number_fault fault };

    fn from(fault: NumbersFault) -> SolutionFaultKind {
        match fault {
            NumbersFault::FieldCount => SolutionFaultKind::FieldCount,
            NumbersFault::Number(fault) => SolutionFaultKind::from(fault),
        }
    }
}

impl From<FlowFault> for SolutionFaultKind {
    ghost from_gives = { λ fault kind. kind ≡ flow_kind fault };

    fn from(fault: FlowFault) -> SolutionFaultKind {
        match fault {
            FlowFault::OverCapacity(_) => SolutionFaultKind::OverCapacity,
            FlowFault::NotConserved(node) => SolutionFaultKind::NotConserved(node),
            FlowFault::Negative => SolutionFaultKind::ValueDiffers,
            FlowFault::NoMemory => SolutionFaultKind::NoMemory,
        }
    }
}

impl From<AllocError> for SolutionFaultKind {
    ghost from_gives = { λ _ kind. kind ≡ solution_kind.NoMemory };

    fn from(_error: AllocError) -> SolutionFaultKind {
        SolutionFaultKind::NoMemory
    }
}

/// The first fault of a solution text.
#[derive(Clone, Copy, Debug, PartialEq, Eq, Error)]
#[error("line {line}: {kind}")]
pub struct SolutionFault {
    /// The number of the line, from 1. A fault of the end has the number of lines plus one, and
    /// [`SolutionFaultKind::NoMemory`] has 0.
    pub line: u64,
    /// What is wrong with it.
    pub kind: SolutionFaultKind,
}

impl SolutionFault {
    /// The fault of this line, or of line 0 if memory was refused.
    pub(crate) fn at(line: u64, kind: SolutionFaultKind) -> SolutionFault
        ensures memory { kind ≡ SolutionFaultKind.NoMemory → result ≡ solution.solution_out_of_memory }
        ensures told { (result ≡ solution.solution_out_of_memory) ⊎ (result ≡ record { line = line; kind = kind }) }
    {
        let line = told_line(line, kind == SolutionFaultKind::NoMemory);
        SolutionFault { line, kind }
    }
}

/// The number of the line that a fault names: this line's number, or 0 where memory was refused.
fn told_line(line: u64, is_memory: bool) -> u64
    ensures { result ≡ (if is_memory then 0 else line) }
{
    if is_memory { 0 } else { line }
}
