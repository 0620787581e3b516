//! A session from bytes to bytes, over any reader and writer.
use dmf_run::{Status, run_session};
use dmf_text::{StdSink, StdSource};
use std::test::Fail;

#[test]
fn a_session_is_held_over_memory(rt: HostRuntime) -> Result<(), Fail> {
    let problem = b"p max 2 1\nn 1 s\nn 2 t\na 1 2 7\n";
    let commands = b"solve\ncap 1 3\nclose 2\nundo\n";
    let mut written = Vec::new(rt.alloc());
    let outcome = run_session(
        rt.alloc(),
        &mut StdSource::new(problem.as_slice()),
        &mut StdSource::new(commands.as_slice()),
        &mut StdSink::new(&mut written),
        false,
    );
    // One command was refused, and the session went on.
    assert!(rt; outcome == Ok(Status::SomeRefused));
    let replies = b"s 7\nf 1 2 7\nc cap value 3\nc refused 3 no such arc\nc undo value 7\n";
    assert!(rt; written.as_slice() == replies.as_slice());
    Ok(())
}
