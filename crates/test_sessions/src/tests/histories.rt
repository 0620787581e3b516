//! Sessions over a history of edits and over a history of whole states write the same.
ghost use Rattle.std.specs.Prelude.{◌≤◌};

use crate::tests::draws::Draws;
use crate::tests::texts::{FULL_ARC, LENIENT, NETWORK_A, NETWORK_B, PARALLEL, TWO_SHORTEST};
use crate::tests::words::{WORD_COUNT, WORDS};
use dmf_history::{DeltaHistory, WholeHistory};
use dmf_runs::{EngineFault, Status, run_commands};
use dmf_session::Session;
use dmf_text::{StdSink, StdSource, read_problem};
use std::alloc::{AllocError, Global};
use std::test::Fail;

/// How many random scripts are tried on each network, and how many commands each has.
const SCRIPTS: u32 = 20;

const COMMANDS: u32 = 200;

/// Adds a command line with numbers below 7.
fn add_command(script: &mut Vec<u8>, draws: &mut Draws) -> Result<(), AllocError> {
    let (word, numbers) = WORDS[draws.below(WORD_COUNT) as usize];
    script.extend_from_slice(word)?;
    for _ in 0..numbers {
        script.push(b' ')?;
        script.push(b'0' + draws.below(7) as u8)?;
    }
    script.push(b'\n')?;
    Ok(())
}

fn random_script(alloc: Global, draws: &mut Draws) -> Result<Vec<u8>, AllocError> {
    let mut script = Vec::new(alloc);
    for _ in 0..COMMANDS {
        add_command(&mut script, draws)?;
    }
    Ok(script)
}

/// What a history keeps: so many edits, or states.
#[derive(Clone, Copy)]
struct Keeping {
    bound: u32,
    states: bool,
    ghost few: { bound ≤ 1000000 },
}

/// Holds a session over a history that keeps this.
fn hold(
    alloc: Global,
    problem: &[u8],
    commands: &[u8],
    keeping: Keeping,
    written: &mut Vec<u8>,
) -> Result<Status, EngineFault> {
    let bound = keeping.bound;
    let state = read_problem(alloc, problem).map_err(EngineFault::Problem)?;
    let mut commands = StdSource::new(commands);
    let mut out = StdSink::new(written);
    if keeping.states {
        let session = Session::new(WholeHistory::with_bound(alloc, state, bound)?);
        return run_commands(alloc, session, &mut commands, &mut out, false);
    }
    let session = Session::new(DeltaHistory::with_bound(alloc, state, bound));
    run_commands(alloc, session, &mut commands, &mut out, false)
}

/// The script's session has to write the same over both histories with the bound, and to end the same.
fn compare(alloc: Global, problem: &[u8], script: &[u8], bound: u32) -> Result<(), Fail>
    requires { bound ≤ 1000000 }
{
    let (edits, states) = (
        Keeping {
            bound,
            states: false,
        },
        Keeping {
            bound,
            states: true,
        },
    );
    let mut by_edits = Vec::new(alloc);
    let status = hold(alloc, problem, script, edits, &mut by_edits)?;
    let mut by_states = Vec::new(alloc);
    let status_by_states = hold(alloc, problem, script, states, &mut by_states)?;
    if status != status_by_states || by_edits.as_slice() != by_states.as_slice() {
        return Err(Fail::from("the histories differ"));
    }
    Ok(())
}

/// Compares the sessions of random scripts.
fn compare_random(alloc: Global, problem: &[u8], draws: &mut Draws, bound: u32) -> Result<(), Fail>
    requires { bound ≤ 1000000 }
{
    for _ in 0..SCRIPTS {
        let script = random_script(alloc, draws)?;
        compare(alloc, problem, &script, bound)?;
    }
    Ok(())
}

const PROBLEMS: &[&[u8]] = &[
    NETWORK_A,
    NETWORK_B,
    FULL_ARC,
    LENIENT,
    TWO_SHORTEST,
    PARALLEL,
];

#[test]
fn random_sessions_are_the_same_over_both_histories(rt: HostRuntime) -> Result<(), Fail> {
    let mut draws = Draws::new(20_262);
    for problem in PROBLEMS {
        compare_random(rt.alloc(), problem, &mut draws, 1_000_000)?;
    }
    Ok(())
}

/// Commands of which fewer can be undone if one state is kept, or none.
const BOUNDED: &[&[u8]] = &[
    b"cap 1 4\nclose 2\nundo 2\nundo\nredo\nprint problem\n",
    b"solve\nundo\nprint flow\n",
];

#[test]
fn bounded_sessions_are_the_same_over_both_histories(rt: HostRuntime) -> Result<(), Fail> {
    let mut draws = Draws::new(31_415);
    for bound in [0, 1, 2, 5] {
        for script in BOUNDED {
            compare(rt.alloc(), NETWORK_A, script, bound)?;
        }
        compare_random(rt.alloc(), NETWORK_A, &mut draws, bound)?;
    }
    Ok(())
}
