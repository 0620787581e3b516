//! Residual networks that are kept: they follow an added arc, and follow back where it is taken off. No contract says so, since a
//! network may also be made anew.
ghost use Rattle.dmf_solver.specs.KeptNetwork.{IsNetworkOf};

use crate::tests::networks::example;
use dmf_solver::{ResidualNetwork, plan_add};
use dmf_state::{Direction, State};
use std::alloc::Global;
use std::test::Fail;

/// Whether the kept network follows where an arc is added to the state, and follows back.
fn follows_an_arc(
    alloc: Global,
    state: &mut State,
    kept: ResidualNetwork,
    tail: u64,
    head: u64,
) -> Result<(bool, bool), Fail>
    requires { IsNetworkOf state.old kept }
{
    // The contract of each reader says that this is a state.
    let _nodes = state.nodes();
    let edit = plan_add(state, tail, head, 7)?;
    let followed = kept.follow(alloc, state, &edit, Direction::Forward);
    state.apply(&edit)?;
    match followed {
        Some(followed) => {
            let back = followed.follow(alloc, state, &edit, Direction::Back);
            Ok((true, back.is_some()))
        }
        None => Ok((false, false)),
    }
}

#[test]
fn an_added_arc_is_followed(rt: HostRuntime) -> Result<(), Fail> {
    let alloc = rt.alloc();
    let mut state = example(alloc)?;
    let kept = ResidualNetwork::new(alloc, &state)?;
    assert!(rt; follows_an_arc(alloc, &mut state, kept, 1, 4)? == (true, true));
    Ok(())
}
