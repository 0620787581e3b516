//! The parts that the options of `vital` ask for, and what is told where clap takes options that the program does not take together.
ghost use Rattle.std.specs.Prelude.{◌≡◌, ◌≢◌, IfOk, true, false};
ghost use Rattle.clap.specs.Words.{kind_of};
ghost use Rattle.dmf_arguments.specs.Words.{GivesParts, IsUsage};

use crate::words::{Parts, WordsFault, fault_of, vital};
use clap::Error;
use clap::error::ErrorKind;
use std::alloc::{AllocError, Global};

/// What is told where pairs are asked for without `--worst`, in the words of clap.
const NO_WORST: &str = "the following required arguments were not provided:\n  --worst <N>";

/// What is told where pairs and nodes are asked for, in the words of clap.
const PAIRS_AND_NODES: &str = "the argument '--nodes' cannot be used with '--pairs'";

/// What is told where second arcs and nodes are asked for, in the words of clap.
const SECOND_AND_NODES: &str = "the argument '--nodes' cannot be used with '--second'";

/// What is told where second arcs and pairs are asked for, in the words of clap.
const SECOND_AND_PAIRS: &str = "the argument '--pairs' cannot be used with '--second'";

/// What is told where second arcs and the worst are asked for, in the words of clap.
const SECOND_AND_WORST: &str = "the argument '--second' cannot be used with '--worst <N>'";

/// The parts that these options of `vital` ask for.
pub fn parts_of(
    alloc: Global,
    second: bool,
    nodes: bool,
    pairs: bool,
    worst: Option<u32>,
) -> Result<Parts, WordsFault>
    ensures { GivesParts second nodes pairs worst result }
{
    if second {
        return seconds_of(alloc, nodes, pairs, worst);
    }
    if pairs {
        return pairs_of(alloc, nodes, worst);
    }
    match worst {
        Some(most) if nodes => Ok(Parts::WorstNodes(most)),
        Some(most) => Ok(Parts::WorstArcs(most)),
        None if nodes => Ok(Parts::Nodes),
        None => Ok(Parts::Arcs),
    }
}

/// All arcs with second ones beside them, unless nodes, pairs or the worst are asked for, too.
fn seconds_of(
    alloc: Global,
    nodes: bool,
    pairs: bool,
    worst: Option<u32>,
) -> Result<Parts, WordsFault>
    ensures { GivesParts true nodes pairs worst result }
{
    if nodes {
        return Err(refused(alloc, ErrorKind::ArgumentConflict, SECOND_AND_NODES));
    }
    if pairs {
        return Err(refused(alloc, ErrorKind::ArgumentConflict, SECOND_AND_PAIRS));
    }
    match worst {
        Some(_) => Err(refused(alloc, ErrorKind::ArgumentConflict, SECOND_AND_WORST)),
        None => Ok(Parts::Seconds),
    }
}

/// The pairs that are asked for, unless nodes are, too, or all pairs.
fn pairs_of(alloc: Global, nodes: bool, worst: Option<u32>) -> Result<Parts, WordsFault>
    ensures { GivesParts false nodes true worst result }
{
    if nodes {
        return Err(refused(alloc, ErrorKind::ArgumentConflict, PAIRS_AND_NODES));
    }
    match worst {
        Some(most) => Ok(Parts::WorstPairs(most)),
        None => Err(refused(alloc, ErrorKind::MissingRequiredArgument, NO_WORST)),
    }
}

/// Why the program does not take words of `vital` that clap takes.
fn refused(alloc: Global, kind: ErrorKind, message: &str) -> WordsFault
    requires no_help { kind ≢ ErrorKind.DisplayHelp }
    requires no_version { kind ≢ ErrorKind.DisplayVersion }
    ensures { IsUsage result }
{
    match vital_error(alloc, kind, message) {
        Ok(error) => fault_of(alloc, &error),
        Err(_) => WordsFault::NoMemory,
    }
}

/// A fault of the command `vital`, in the form of those of clap.
fn vital_error(alloc: Global, kind: ErrorKind, message: &str) -> Result<Error, AllocError>
    ensures { IfOk result (λ error. kind_of error ≡ kind) }
{
    vital(alloc)?.error(kind, message)
}
