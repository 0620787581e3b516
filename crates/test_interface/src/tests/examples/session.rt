//! A change is tried out, and undone.
use dmf_net::State;
use dmf_session::{Command, DeltaHistory, Reply, Session};
use std::test::Fail;

#[test]
fn a_change_is_taken_back(rt: HostRuntime) -> Result<(), Fail> {
    let alloc = rt.alloc();
    let mut state = State::new(alloc, 2, 1, 2);
    state.push_arc(1, 2, 7)?;
    let mut session = Session::new(DeltaHistory::new(alloc, state));
    for command in [Command::Solve, Command::Cap { arc: 1, cap: 3 }] {
        session.step(alloc, command, false)?;
    }
    assert!(rt; session.present().value() == 3);
    assert!(rt; (session.past(), session.future()) == (2, 0));
    // Undo restores exactly the state before, its flow included.
    let undone = session.step(alloc, Command::Undo(1), false);
    assert!(rt; undone == Ok(Reply::Value(7)));
    assert!(rt; session.present().flow(1) == 7);
    Ok(())
}
