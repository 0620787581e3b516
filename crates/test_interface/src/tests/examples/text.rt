//! A problem text is read, and the network that it stands for is written again.
use dmf_text::{ProblemFaultKind, StdSink, read_problem, write_problem};
use std::test::Fail;

#[test]
fn a_problem_is_read_and_written(rt: HostRuntime) -> Result<(), Fail> {
    let text = b"c one arc\np  max 2 1\nn 2 t\nn 1 s\na 1 2 007";
    let state = read_problem(rt.alloc(), text)?;
    assert!(rt; state.arcs().len() == 1);
    let mut written = Vec::new(rt.alloc());
    write_problem(&state, &mut StdSink::new(&mut written))?;
    assert!(rt; written.as_slice() == b"p max 2 1\nn 1 s\nn 2 t\na 1 2 7\n".as_slice());
    // A faulty text is refused with its first fault and the number of the line.
    let Err(fault) = read_problem(rt.alloc(), b"p max 2 1\nn 1 s\nn 2 t\na 1 3 7\n") else {
        assert!(rt; false);
        return Ok(());
    };
    assert!(rt; fault.line == 4 && fault.kind == ProblemFaultKind::NodeOutOfRange);
    Ok(())
}
