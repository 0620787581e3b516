//! What a session reports to a watch.
use crate::tests::texts::NETWORK_A;
use dmf_history::MAX_BOUND;
use dmf_runs::{SessionWatch, SolveReply, Status, run_session_watched};
use dmf_session::{Refusal, Reply};
use dmf_solver::{Turn, Watch};
use dmf_text::{StdSink, StdSource};
use std::alloc::AllocError;
use std::test::Fail;

/// Keeps the reported paths: the value that each leads to, and how many links it has.
#[derive(Drop)]
struct Paths {
    told: Vec<(u64, u32)>,
    /// Whether memory was never refused for them.
    is_whole: bool,
}

impl Watch for Paths {
    fn augmented(&mut self, value: u64, links: u32) {
        self.is_whole = self.is_whole && self.told.push((value, links)).is_ok();
    }

    fn lowered(&mut self, _turn: Turn, _amount: u64) {}
}

impl SessionWatch for Paths {}

/// Keeps the refused lines, each with its refusal, and how many commands were carried out.
#[derive(Drop)]
struct Answers {
    refused: Vec<u8>,
    carried_out: u32,
}

impl Answers {
    fn keep(&mut self, line: &[u8], refusal: Refusal) -> Result<(), AllocError> {
        self.refused.extend_from_slice(line)?;
        self.refused.extend_from_slice(b": ")?;
        self.refused.extend_from_slice(refusal.text().as_bytes())?;
        self.refused.push(b'\n')?;
        Ok(())
    }
}

impl Watch for Answers {
    fn augmented(&mut self, _value: u64, _links: u32) {}

    fn lowered(&mut self, _turn: Turn, _amount: u64) {}
}

impl SessionWatch for Answers {
    fn carried_out(&mut self, _reply: &Reply) {
        self.carried_out = self.carried_out.saturating_add(1);
    }

    fn refused(&mut self, line: &[u8], refusal: Refusal) {
        let _ = self.keep(line, refusal);
    }
}

/// The first solve goes along 1 2 4, 1 3 4 and 1 2 3 4; the second along the new arc before these.
#[test]
fn each_path_of_each_solve_is_told(rt: HostRuntime) -> Result<(), Fail> {
    let mut written = Vec::new(rt.alloc());
    let mut paths = Paths {
        told: Vec::new(rt.alloc()),
        is_whole: true,
    };
    let outcome = run_session_watched(
        rt.alloc(),
        &mut StdSource::new(NETWORK_A),
        &mut StdSource::new(b"solve\nundo\nadd 1 4 7\nsolve\n".as_slice()),
        &mut StdSink::new(&mut written),
        SolveReply {
            cut: false,
            brief: false,
        },
        MAX_BOUND,
        &mut paths,
    );
    assert!(rt; outcome == Ok(Status::Well));
    let wanted = [(2, 2), (4, 2), (5, 3), (7, 1), (9, 2), (11, 2), (12, 3)];
    assert!(rt; paths.is_whole);
    assert!(rt; paths.told.as_slice() == wanted.as_slice());
    Ok(())
}

/// The lines are told without their ends. A comment and a blank line have no answer.
#[test]
fn each_answer_is_told(rt: HostRuntime) -> Result<(), Fail> {
    let mut written = Vec::new(rt.alloc());
    let mut answers = Answers {
        refused: Vec::new(rt.alloc()),
        carried_out: 0,
    };
    let outcome = run_session_watched(
        rt.alloc(),
        &mut StdSource::new(NETWORK_A),
        &mut StdSource::new(b"cap 99 1\r\nc undo\nsolve\n\nSolve me\nadd 1 4 7\nundo 9".as_slice()),
        &mut StdSink::new(&mut written),
        SolveReply {
            cut: false,
            brief: false,
        },
        MAX_BOUND,
        &mut answers,
    );
    assert!(rt; outcome == Ok(Status::SomeRefused));
    assert!(rt; answers.carried_out == 2);
    let told = b"cap 99 1: no such arc\nSolve me: unknown command\nundo 9: nothing to undo\n";
    assert!(rt; answers.refused.as_slice() == told.as_slice());
    Ok(())
}
