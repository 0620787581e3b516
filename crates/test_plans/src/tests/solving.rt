//! A test of the solve that tells the smallest side too, which no run makes.
use crate::tests::networks::example;
use dmf_solver::{Unwatched, plan_solve_watched};
use std::test::Fail;

#[test]
fn a_solve_tells_the_smallest_side(rt: HostRuntime) -> Result<(), Fail> {
    let state = example(rt.alloc())?;
    let (_, side) = plan_solve_watched(rt.alloc(), &state, true, &mut Unwatched)?;
    let told = match &side {
        Some(side) => (side.contains(1), side.contains(2), side.capacity()),
        None => (false, false, 0),
    };
    assert!(rt; told == (true, false, 5));
    Ok(())
}
