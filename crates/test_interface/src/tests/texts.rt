//! Texts: lines, fields and numbers, problems, solutions and cuts, and what they are read from and written to.
use crate::tests::networks::two_arcs;
use dmf_net::{Side, State, plan_solve, side_after};
use dmf_text::{
    Failed, Fields, Lines, NumberFault, ProblemFault, Sink, SolutionFault, Source, StdSink,
    StdSource, WriteFault, number, read_problem, read_solution, write_cut, write_problem,
    write_solution,
};
use std::test::Fail;

#[test]
fn a_text_is_parted(rt: HostRuntime) {
    let line: Option<(u64, &[u8])> = Lines::new(b"a 7\nb").next();
    assert!(rt; line == Some((1, b"a 7".as_slice())));
    let field: Option<&[u8]> = Fields::new(b" a 7").next();
    assert!(rt; field == Some(b"a".as_slice()));
    let read: (Result<u64, NumberFault>, Result<u64, NumberFault>) = (number(b"07"), number(b"x"));
    assert!(rt; read == (Ok(7), Err(NumberFault::NotANumber)));
    assert!(rt; number(b"18446744073709551616") == Err(NumberFault::TooLarge));
}

#[test]
fn texts_are_read(rt: HostRuntime) -> Result<(), Fail> {
    let text = b"p max 2 1\nn 1 s\nn 2 t\na 1 2 7\n";
    let problem: Result<State, ProblemFault> = read_problem(rt.alloc(), text);
    let problem = problem?;
    let solution: Result<State, SolutionFault> = read_solution(
        rt.alloc(),
        b"s 5\nf 1 2 5\n",
        &problem,
    );
    assert!(rt; solution?.value() == 5);
    let refused = read_solution(rt.alloc(), b"s 5\n", &problem).err();
    assert!(rt; refused.map(|fault| fault.line) == Some(2));
    Ok(())
}

/// Writes the problem of a state that solves it, its solution and its cut.
fn write_all<W: Sink>(state: &State, side: &Side, out: &mut W) -> Result<(), WriteFault> {
    write_problem(state, out)?;
    write_solution(state, out)?;
    write_cut(side, out)
}

#[test]
fn texts_are_written(rt: HostRuntime) -> Result<(), Fail> {
    let alloc = rt.alloc();
    let state = two_arcs(alloc)?;
    let side = side_after(alloc, &state, &plan_solve(alloc, &state)?)?;
    let mut written = Vec::new(alloc);
    write_all(&state, &side, &mut StdSink::new(&mut written))?;
    let problem = b"p max 3 2\nn 1 s\nn 3 t\na 1 2 4\na 2 3 3\n";
    assert!(rt; written.starts_with(problem));
    assert!(rt; written.ends_with(b"s 0\nf 1 2 0\nf 2 3 0\nc cut 3\nc side 1\nc side 2\n"));
    Ok(())
}

#[test]
fn bytes_are_read_and_put(rt: HostRuntime) -> Result<(), Fail> {
    let mut room = [0; 4];
    let mut source = StdSource::new(b"abc".as_slice());
    let read: Result<usize, Failed> = source.read(&mut room);
    assert!(rt; read == Ok(3));
    let mut written = Vec::new(rt.alloc());
    let mut sink = StdSink::new(&mut written);
    let put: Result<usize, Failed> = sink.put(b"abc");
    assert!(rt; put == Ok(3));
    let flushed: Result<(), Failed> = sink.flush();
    assert!(rt; flushed == Ok(()));
    Ok(())
}
