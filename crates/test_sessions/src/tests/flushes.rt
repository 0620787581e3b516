//! Which lines of a session flush the writer.
use crate::tests::counts::FlushCounter;
use crate::tests::texts::NO_ARCS;
use dmf_runs::{EngineFault, Status, run_session};
use dmf_text::{StdSink, StdSource};
use std::alloc::Global;
use std::test::Fail;

/// How a session of these commands ends, and how often it flushes. Either each flush fails or none.
fn run_counted(
    alloc: Global,
    commands: &[u8],
    fails: bool,
) -> (Result<Status, EngineFault>, usize) {
    let mut flushes = 0;
    let writer = FlushCounter {
        flushes: &mut flushes,
        fails,
    };
    let outcome = run_session(
        alloc,
        &mut StdSource::new(NO_ARCS),
        &mut StdSource::new(commands),
        &mut StdSink::new(writer),
        false,
    );
    (outcome, flushes)
}

/// Command lines, whether each flush fails, how the session ends, and how often it flushes.
type Flushed = (&'static [u8], bool, Result<Status, EngineFault>, usize);

const SESSIONS: &[Flushed] = &[
    // comments and blank lines, and a comment that no line feed ends
    (b"c what if\n\n \t\r\nc solve", false, Ok(Status::Well), 0),
    (b"c what if\n\n \t\r\nc solve", true, Ok(Status::Well), 0),
    // a solve, a print, a refused command, and an undo that no line feed ends
    (
        b"c\nsolve\n\nprint flow\nsolve it\nc\nundo",
        false,
        Ok(Status::SomeRefused),
        4,
    ),
    // the first reply belongs to the last line that is carried out
    (
        b"c\n\nprint flow\nprint flow\n",
        true,
        Err(EngineFault::Write),
        1,
    ),
];

#[test]
fn each_reply_is_flushed_once(rt: HostRuntime) -> Result<(), Fail> {
    for (lines, fails, outcome, flushes) in SESSIONS {
        assert!(rt; run_counted(rt.alloc(), lines, *fails) == (*outcome, *flushes));
    }
    Ok(())
}
