//! A history with the bound 1: it keeps one state before the present one, and forgets older ones.
use dmf_net::{State, plan_cap, plan_solve};
use dmf_session::{DeltaHistory, History, NothingToUndo};
use std::test::Fail;

#[test]
fn the_oldest_state_is_forgotten(rt: HostRuntime) -> Result<(), Fail> {
    let alloc = rt.alloc();
    let mut state = State::new(alloc, 2, 1, 2);
    state.push_arc(1, 2, 7)?;
    let mut history = DeltaHistory::with_bound(alloc, state, 1);
    // A change is planned on the present state. The state that it makes is appended, and is the present one.
    let solve = plan_solve(alloc, history.present())?;
    history.append(solve)?;
    let cap = plan_cap(alloc, history.present(), 1, 3)?;
    history.append(cap)?;
    // The state before the solve is forgotten.
    assert!(rt; (history.past(), history.future()) == (1, 0));
    history.undo()?;
    assert!(rt; history.present().value() == 7);
    assert!(rt; history.undo() == Err(NothingToUndo));
    history.redo()?;
    assert!(rt; (history.past(), history.present().value()) == (1, 3));
    Ok(())
}
