//! Histories and sessions over them: those of the library, and one that a caller writes.
use crate::tests::networks::two_arcs;
use dmf_net::{Edit, NoMemory, State, plan_solve};
use dmf_session::{
    Command, DeltaHistory, History, NothingToUndo, RedoFault, Refusal, Reply, Session, WholeHistory,
};
use std::alloc::Global;
use std::process::Abort;
use std::test::Fail;

/// A history of a caller's own, over one of the library's.
#[derive(Drop)]
struct Own {
    kept: WholeHistory,
}

impl History for Own {
    ghost timeline = { λ own. ⟦<WholeHistory as History>⟧.timeline own.kept };

    fn present(&self) -> &State {
        self.kept.present()
    }

    fn past(&self) -> u32 {
        self.kept.past()
    }

    fn future(&self) -> u32 {
        self.kept.future()
    }

    fn bound(&self) -> u32 {
        self.kept.bound()
    }

    fn append(&mut self, edit: Edit) -> Result<(), NoMemory> {
        self.kept.append(edit)
    }

    fn undo(&mut self) -> Result<(), NothingToUndo> {
        self.kept.undo()
    }

    fn redo(&mut self) -> Result<(), RedoFault> {
        self.kept.redo()
    }
}

/// Appends a solve to a history, undoes it and redoes it.
fn step_over_a_solve<H: History>(
    rt: &impl Abort,
    alloc: Global,
    history: &mut H,
) -> Result<(), Fail> {
    let solve = plan_solve(alloc, history.present())?;
    let appended: Result<(), NoMemory> = history.append(solve);
    appended?;
    let undone: Result<(), NothingToUndo> = history.undo();
    undone?;
    let places: (u32, u32) = (history.past(), history.future());
    assert!(rt; places == (0, 1));
    let redone: Result<(), RedoFault> = history.redo();
    redone?;
    assert!(rt; history.present().value() == 3);
    Ok(())
}

#[test]
fn each_history_steps(rt: HostRuntime) -> Result<(), Fail> {
    let alloc = rt.alloc();
    let whole: Result<WholeHistory, NoMemory> = WholeHistory::new(alloc, two_arcs(alloc)?);
    step_over_a_solve(&rt, alloc, &mut whole?)?;
    let mut edits: DeltaHistory = DeltaHistory::new(alloc, two_arcs(alloc)?);
    step_over_a_solve(&rt, alloc, &mut edits)
}

#[test]
fn a_history_has_a_bound(rt: HostRuntime) -> Result<(), Fail> {
    let alloc = rt.alloc();
    let whole: Result<WholeHistory, NoMemory> = WholeHistory::with_bound(
        alloc,
        two_arcs(alloc)?,
        7,
    );
    assert!(rt; whole?.bound() == 7);
    let edits: DeltaHistory = DeltaHistory::with_bound(alloc, two_arcs(alloc)?, 8);
    assert!(rt; edits.bound() == 8);
    Ok(())
}

#[test]
fn a_session_is_held_over_a_history_of_a_caller_s_own(rt: HostRuntime) -> Result<(), Fail> {
    let alloc = rt.alloc();
    let kept = WholeHistory::new(alloc, two_arcs(alloc)?)?;
    let mut session: Session<Own> = Session::new(Own { kept });
    let solved: Result<Reply, Refusal> = session.step(alloc, Command::Solve, true);
    assert!(rt; told(&solved?) == (3, [3, 0]));
    let present: &State = session.present();
    assert!(rt; present.value() == 3);
    let places: (u32, u32) = (session.past(), session.future());
    assert!(rt; places == (1, 0));
    Ok(())
}

/// The contents of a reply: its kind, and its numbers; of a side its capacity.
fn told(reply: &Reply) -> (u32, [u64; 2]) {
    match reply {
        Reply::Value(value) => (1, [*value, 0]),
        Reply::Added(arc, value) => (2, [u64::from(*arc), *value]),
        Reply::Solution(Some(side)) => (3, [side.capacity(), 0]),
        Reply::Solution(None) => (4, [0, 0]),
        Reply::Problem => (5, [0, 0]),
        Reply::Flow => (6, [0, 0]),
        Reply::Cut(side) => (7, [side.capacity(), 0]),
    }
}

/// Commands, each with the contents of its reply, or why it is refused.
const COMMANDS: &[(Command, Result<(u32, [u64; 2]), Refusal>)] = &[
    (Command::Cap { arc: 1, cap: 5 }, Ok((1, [0, 0]))),
    (
        Command::Add {
            tail: 1,
            head: 3,
            cap: 2,
        },
        Ok((2, [3, 0])),
    ),
    (Command::Solve, Ok((4, [0, 0]))),
    (Command::PrintCut, Ok((7, [5, 0]))),
    (Command::Close { arc: 3 }, Ok((1, [3, 0]))),
    (Command::Shut { node: 2 }, Ok((1, [0, 0]))),
    (Command::Undo(2), Ok((1, [5, 0]))),
    (Command::Redo(1), Ok((1, [3, 0]))),
    (Command::PrintProblem, Ok((5, [0, 0]))),
    (Command::PrintFlow, Ok((6, [0, 0]))),
    (Command::Close { arc: 3 }, Err(Refusal::Closed)),
];

#[test]
fn each_command_is_answered(rt: HostRuntime) -> Result<(), Fail> {
    let alloc = rt.alloc();
    let mut session = Session::new(DeltaHistory::new(alloc, two_arcs(alloc)?));
    for (command, wanted) in COMMANDS {
        let reply = session.step(alloc, *command, false);
        assert!(rt; reply.map(|reply| told(&reply)) == *wanted);
    }
    Ok(())
}
