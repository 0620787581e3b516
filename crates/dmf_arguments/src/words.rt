//! The words of the program's arguments: what they ask for.
ghost use Rattle.std.specs.Prelude.{ℕ, ◌≡◌, ◌≤◌, IfOk, None, Some, codes, map};
ghost use Rattle.clap.specs.Words.{app_of, first_value, found_of, kind_of, new_app, one_text, subcommand_rows_of, Text};
ghost use Rattle.dmf_arguments.specs.CommandLine.{IsCommandLine, IsRule, asked_of, arguments, flag_rule, history_rule, problem_rule};
ghost use Rattle.dmf_arguments.specs.CommandLine.{check_line, program_line, session_line, solve_line, vital_line, worst_rule};
ghost use Rattle.dmf_arguments.specs.Words.{AsksCheck, AsksNothing, AsksSession, AsksSolve, AsksVital, HasBound, IsBound, IsNumberUpTo, ReadsMode, ReadsWords, TellsKind};

use crate::help;
use crate::help::Help;
use crate::parts::parts_of;
use clap::error::ErrorKind;
use clap::{Arg, ArgAction, ArgMatches, Command, Error, value_parser};
use std::alloc::{AllocError, Global};

/// The largest number that `--history` takes. It is the largest bound of a session's history, too, so each history can be asked for.
pub const MAX_HISTORY: u32 = 1_000_000;

/// The largest number that `--worst` takes.
pub const MAX_WORST: u32 = 10_000;

/// What is left out of a network in turn.
#[derive(Clone, Copy, Debug, PartialEq, Eq)]
pub enum Parts {
    /// Each arc.
    Arcs,
    /// Each arc, and besides a second one is put beside each.
    Seconds,
    /// Each node but the source and the sink.
    Nodes,
    /// The given number of arcs, those that cost most to lose.
    WorstArcs(u32),
    /// The given number of nodes, those that cost most to lose.
    WorstNodes(u32),
    /// The given number of pairs of arcs, those that cost most to lose together.
    WorstPairs(u32),
}

/// A run that the arguments ask for.
#[derive(Debug, Drop, PartialEq, Eq)]
pub enum Mode {
    /// Solve the problem on standard input. The cut follows the solution if it is wanted. With `any` the solution may be any greatest
    /// flow.
    Solve {
        cut: bool,
        any: bool,
    },
    /// Hold a session on the problem in the file at this path. The cut follows each solution if it is wanted, and at most so many
    /// states are kept before the present one.
    Session {
        cut: bool,
        history: u32,
        problem: String,
    },
    /// Judge the solution on standard input of the problem in the file at this path.
    Check {
        problem: String,
    },
    /// Find the greatest value without each of these parts of the problem on standard input.
    Vital {
        parts: Parts,
    },
}

/// All that the arguments ask for: a run; whether it reports progress even if standard error is no terminal; and whether a solve is
/// answered with the value instead of the solution, in a session too.
#[derive(Debug, Drop, PartialEq, Eq)]
pub struct Arguments {
    pub mode: Mode,
    pub progress: bool,
    pub brief: bool,
}

/// Why the words ask for no run.
#[derive(Debug, Drop, PartialEq, Eq)]
pub enum WordsFault {
    /// They ask for a text, the help or the program's version, and this is it.
    Help(String),
    /// They are invalid, and this text, the one of `clap`, names the word and says why.
    Usage(String),
    /// A request for memory was refused.
    NoMemory,
}

impl From<AllocError> for WordsFault {
    ghost use Rattle.std.specs.Prelude.{◌≡◌};
    ghost use Rattle.dmf_arguments.specs.declared.words.WordsFault.TheVariants.{NoMemory};

    ghost from_gives = { λ _ fault. fault ≡ NoMemory };

    fn from(_error: AllocError) -> WordsFault {
        WordsFault::NoMemory
    }
}

/// Reads which run the program's arguments ask for, as [`read_arguments`] does, without `--progress` and `--brief`.
#[inline(never)]
pub fn read_words(alloc: Global, words: Vec<String>) -> Result<Mode, WordsFault>
    ensures words { ReadsMode (map (λ word. word.bytes.items) words.items) result }
    ensures bound { IfOk result HasBound }
{
    match read_arguments(alloc, words) {
        Ok(asked) => Ok(asked.mode),
        Err(fault) => Err(fault),
    }
}

/// Reads the program's arguments, of which the first is its name.
///
/// No words after it, or `solve`, ask for [`Mode::Solve`]. `session PROBLEM` asks for [`Mode::Session`], `check PROBLEM` for
/// [`Mode::Check`], and `vital` for [`Mode::Vital`]. The flags `--brief`, `--cut` and `--progress` may stand after `solve` and `session`,
/// `--any` after `solve` alone, `--history N` after `session` alone, `--nodes`, `--pairs`, `--second` and `--worst N` after `vital` alone,
/// and `--progress` after `vital` too. `--pairs` stands with `--worst N`, and not with `--nodes`, and `--second` with none of these three. The N of `--history` is a number up to [`MAX_HISTORY`], which is its default, and that of `--worst` one up to [`MAX_WORST`]. `--help` may stand after each command or alone. A PROBLEM that begins with a dash stands after `--`.
///
/// `--help` gives [`WordsFault::Help`], and so do `help`, alone or before a command, and `--version` alone. All other words give
/// [`WordsFault::Usage`]. The texts are those of `clap`. [`WordsFault::NoMemory`] may come in place of any answer.
#[inline(never)]
pub fn read_arguments(alloc: Global, words: Vec<String>) -> Result<Arguments, WordsFault>
    ensures words { ReadsWords (map (λ word. word.bytes.items) words.items) result }
    ensures bound { IfOk result (λ asked. HasBound asked.mode) }
{
    let command = command(alloc)?;
    match command.try_get_matches_from(words.as_slice()) {
        Ok(matches) => arguments_of(alloc, &matches),
        Err(error) => Err(fault_of(alloc, &error)),
    }
}

/// The arguments that the program takes.
fn command<'a>(alloc: Global) -> Result<Command<'a>, AllocError>
    ensures { IfOk result (λ made. app_of made ≡ arguments) }
{
    program(alloc)
        .subcommand(solve(alloc)?)?
        .subcommand(session(alloc)?)?
        .subcommand(check(alloc)?)?
        .subcommand(vital(alloc)?)
}

/// The program, without its commands.
#[inline(never)]
fn program<'a>(alloc: Global) -> Command<'a>
    ensures { app_of result ≡ program_line }
{
    named(alloc, "dmf", help::PROGRAM).version(help::VERSION)
}

/// A command without arguments, with its texts of help.
fn named<'a>(alloc: Global, name: &'a str, help: Help) -> Command<'a>
    ensures { IsCommandLine (new_app name.now) result }
{
    Command::new(alloc, name)
        .about(help.about)
        .override_usage(help.usage)
        .after_help(help.notes)
}

/// The command `solve`.
#[inline(never)]
fn solve<'a>(alloc: Global) -> Result<Command<'a>, AllocError>
    ensures { IfOk result (IsCommandLine solve_line) }
{
    named(alloc, "solve", help::SOLVE)
        .arg(flag(alloc, "any", help::ANY))?
        .arg(flag(alloc, "brief", help::VALUE))?
        .arg(flag(alloc, "cut", help::CUT))?
        .arg(flag(alloc, "progress", help::PROGRESS))
}

/// The command `session`.
#[inline(never)]
fn session<'a>(alloc: Global) -> Result<Command<'a>, AllocError>
    ensures { IfOk result (IsCommandLine session_line) }
{
    named(alloc, "session", help::SESSION)
        .arg(flag(alloc, "brief", help::BRIEF))?
        .arg(flag(alloc, "cut", help::CUTS))?
        .arg(history(alloc))?
        .arg(flag(alloc, "progress", help::PROGRESS))?
        .arg(problem(alloc))
}

/// The command `check`.
#[inline(never)]
fn check<'a>(alloc: Global) -> Result<Command<'a>, AllocError>
    ensures { IfOk result (IsCommandLine check_line) }
{
    named(alloc, "check", help::CHECK).arg(problem(alloc))
}

/// The command `vital`.
#[inline(never)]
pub fn vital<'a>(alloc: Global) -> Result<Command<'a>, AllocError>
    ensures { IfOk result (IsCommandLine vital_line) }
{
    named(alloc, "vital", help::VITAL)
        .arg(flag(alloc, "nodes", help::NODES))?
        .arg(flag(alloc, "pairs", help::PAIRS))?
        .arg(flag(alloc, "progress", help::PROGRESS))?
        .arg(flag(alloc, "second", help::SECOND))?
        .arg(worst(alloc))
}

/// The option of this name, which has no value.
fn flag<'a>(alloc: Global, name: &'a str, help: &'a str) -> Arg<'a>
    ensures { IsRule (flag_rule name.now) result }
{
    Arg::new(alloc, name)
        .long(name)
        .action(ArgAction::SetTrue)
        .help(help)
}

/// The option that says how many states are kept before the present one.
#[inline(never)]
fn history<'a>(alloc: Global) -> Arg<'a>
    ensures { IsRule history_rule result }
{
    Arg::new(alloc, "history")
        .long("history")
        .value_name("N")
        .default_value("1000000")
        .value_parser(value_parser!(u32).range(0..=i64::from(MAX_HISTORY)))
        .help(help::HISTORY)
}

/// The option that says how many arcs, nodes or pairs of arcs are told, the worst first.
#[inline(never)]
fn worst<'a>(alloc: Global) -> Arg<'a>
    ensures { IsRule worst_rule result }
{
    Arg::new(alloc, "worst")
        .long("worst")
        .value_name("N")
        .value_parser(value_parser!(u32).range(0..=i64::from(MAX_WORST)))
        .help(help::WORST)
}

/// The word that names the problem's file.
fn problem<'a>(alloc: Global) -> Arg<'a>
    ensures { IsRule problem_rule result }
{
    Arg::new(alloc, "problem")
        .value_name("PROBLEM")
        .required(true)
        .help(help::PROBLEM)
}

/// What the parsed words ask for.
fn arguments_of(alloc: Global, matches: &ArgMatches<'_>) -> Result<Arguments, WordsFault>
    ensures nothing { AsksNothing (asked_of (subcommand_rows_of matches.now)) result }
    ensures solve { AsksSolve (asked_of (subcommand_rows_of matches.now)) result }
    ensures session { AsksSession (asked_of (subcommand_rows_of matches.now)) result }
    ensures check { AsksCheck (asked_of (subcommand_rows_of matches.now)) result }
    ensures vital { AsksVital (asked_of (subcommand_rows_of matches.now)) result }
    ensures bound { IfOk result (λ asked. HasBound asked.mode) }
{
    match matches.subcommand() {
        Some(("session", session)) => Ok(Arguments {
            progress: session.get_flag("progress"),
            brief: session.get_flag("brief"),
            mode: Mode::Session {
                cut: session.get_flag("cut"),
                history: bound_of(session),
                problem: path_of(alloc, session)?,
            },
        }),
        Some(("check", check)) => Ok(Arguments {
            progress: false,
            brief: false,
            mode: Mode::Check {
                problem: path_of(alloc, check)?,
            },
        }),
        Some(("vital", vital)) => Ok(Arguments {
            progress: vital.get_flag("progress"),
            brief: false,
            mode: Mode::Vital {
                parts: parts_of(
                    alloc,
                    vital.get_flag("second"),
                    vital.get_flag("nodes"),
                    vital.get_flag("pairs"),
                    worst_of(vital),
                )?,
            },
        }),
        Some((_, solve)) => Ok(Arguments {
            progress: solve.get_flag("progress"),
            brief: solve.get_flag("brief"),
            mode: Mode::Solve {
                cut: solve.get_flag("cut"),
                any: solve.get_flag("any"),
            },
        }),
        None => Ok(Arguments {
            progress: false,
            brief: false,
            mode: Mode::Solve {
                cut: false,
                any: false,
            },
        }),
    }
}

/// The bound of a session's history. It has a default, and the parser accepts no larger number.
fn bound_of(matches: &ArgMatches<'_>) -> u32
    ensures value { (text : Text) (bound : ℕ) → one_text (found_of matches.now) (codes "history") ≡ Some text
        → IsBound text bound → result ≡ bound }
    ensures at_most { result ≤ 1000000 }
{
    matches
        .get_one::<u32>("history")
        .unwrap_or(MAX_HISTORY)
        .min(MAX_HISTORY)
}

/// How many of the worst are told, if that is asked for.
fn worst_of(matches: &ArgMatches<'_>) -> Option<u32>
    ensures all { one_text (found_of matches.now) (codes "worst") ≡ None → result ≡ None }
    ensures some { (text : Text) (most : ℕ) → one_text (found_of matches.now) (codes "worst") ≡ Some text
        → IsNumberUpTo 10000 text most → result ≡ Some most }
{
    matches.get_one::<u32>("worst")
}

/// The path of the problem's file. It is required, so it is there.
fn path_of(alloc: Global, matches: &ArgMatches<'_>) -> Result<String, AllocError>
    ensures { (path : Text) → first_value (found_of matches.now) (codes "problem") ≡ Some path
        → IfOk result (λ read. read.bytes.items ≡ path) }
{
    String::from_str(alloc, matches.get_str("problem").unwrap_or(""))
}

/// Why the program does not take the words.
pub fn fault_of(alloc: Global, error: &Error) -> WordsFault
    ensures { TellsKind (kind_of error.now) result }
{
    if error.kind() == ErrorKind::OutOfMemory {
        return WordsFault::NoMemory;
    }
    let Ok(text) = format!(in alloc; "{error}") else {
        return WordsFault::NoMemory;
    };
    match error.kind() {
        ErrorKind::DisplayHelp | ErrorKind::DisplayVersion => WordsFault::Help(text),
        _ => WordsFault::Usage(text),
    }
}
