//! Runs from bytes to bytes, single command lines, and the program's arguments.
use dmf_net::Unwatched;
use dmf_run::{
    EngineFault, Mode, Parts, SolveReply, Status, WordsFault, read_command, read_words,
    refusal_text, run_check, run_commands, run_session, run_session_bounded, run_session_watched,
    run_solve, run_vital, run_vital_nodes, status_of,
};
use dmf_session::{Command, DeltaHistory, Refusal, Session};
use dmf_text::{StdSink, StdSource, read_problem};
use std::alloc::{AllocError, Global};
use std::test::Fail;

const PROBLEM: &[u8] = b"p max 2 1\nn 1 s\nn 2 t\na 1 2 7\n";

#[test]
fn a_command_line_is_read(rt: HostRuntime) {
    let read: Result<Option<Command>, Refusal> = read_command(b" cap\t09 18446744073709551615");
    let cap = Command::Cap {
        arc: 9,
        cap: u64::MAX,
    };
    assert!(rt; read == Ok(Some(cap)) && read_command(b"c undo") == Ok(None));
    assert!(rt; read_command(b"cap x 18446744073709551616") == Err(Refusal::NotANumber));
    // No network of a test is large enough for one arc too many, so the program never writes this text.
    let text: &'static [u8] = refusal_text(&Refusal::TooManyArcs);
    let told: &'static str = Refusal::TooManyArcs.text();
    assert!(rt; text == b"too many arcs".as_slice() && told.as_bytes() == text);
}

/// The number that the documents give to this fault of a run.
fn fault_number(fault: EngineFault) -> u32 {
    match fault {
        EngineFault::Read => 1,
        EngineFault::Write => 2,
        EngineFault::Problem(_) => 3,
        EngineFault::Solution(_) => 4,
        EngineFault::NoMemory => 5,
        EngineFault::TooMuchInput => 6,
        EngineFault::NoRoom => 7,
    }
}

#[test]
fn a_problem_is_solved(rt: HostRuntime) {
    let mut written = Vec::new(rt.alloc());
    let mut problem = StdSource::new(PROBLEM);
    let mut out = StdSink::new(&mut written);
    let outcome: Result<Status, EngineFault> = run_solve(rt.alloc(), &mut problem, &mut out, true);
    assert!(rt; outcome == Ok(Status::Well) && status_of(&outcome) == 0);
    assert!(rt; status_of(&Err(EngineFault::NoMemory)) == 5);
    assert!(rt; written.as_slice() == b"s 7\nf 1 2 7\nc cut 7\nc side 1\n".as_slice());
    let mut faulty = StdSource::new(b"x".as_slice());
    let mut out = StdSink::new(Vec::new(rt.alloc()));
    let refused = run_solve(rt.alloc(), &mut faulty, &mut out, false).err();
    assert!(rt; refused.map(fault_number) == Some(3));
}

#[test]
fn each_arc_is_valued(rt: HostRuntime) {
    let mut written = Vec::new(rt.alloc());
    let mut problem = StdSource::new(PROBLEM);
    let mut out = StdSink::new(&mut written);
    let outcome = run_vital(rt.alloc(), &mut problem, &mut out, &mut Unwatched);
    assert!(rt; outcome == Ok(Status::Well));
    assert!(rt; written.as_slice() == b"c value 7\nv 1 0\n".as_slice());
}

#[test]
fn each_node_is_valued(rt: HostRuntime) {
    let mut written = Vec::new(rt.alloc());
    let mut problem = StdSource::new(
        b"p max 3 3\nn 1 s\nn 3 t\na 1 2 7\na 2 3 4\na 1 3 2\n".as_slice(),
    );
    let mut out = StdSink::new(&mut written);
    let outcome = run_vital_nodes(rt.alloc(), &mut problem, &mut out, &mut Unwatched);
    assert!(rt; outcome == Ok(Status::Well));
    assert!(rt; written.as_slice() == b"c value 6\nv 2 2\n".as_slice());
}

#[test]
fn a_solution_is_checked(rt: HostRuntime) {
    let mut written = Vec::new(rt.alloc());
    let mut problem = StdSource::new(PROBLEM);
    let mut solution = StdSource::new(b"s 1\nf 1 2 1\n".as_slice());
    let mut out = StdSink::new(&mut written);
    let outcome: Result<Status, EngineFault> = run_check(
        rt.alloc(),
        &mut problem,
        &mut solution,
        &mut out,
    );
    assert!(rt; outcome == Ok(Status::NotGreatest));
    assert!(rt; written.as_slice() == b"c flow 1\n".as_slice());
}

/// Holds a session on the problem in each of the four ways, one after the other, and says how each ended.
fn hold_each(alloc: Global, written: &mut Vec<u8>) -> Result<[Status; 4], EngineFault> {
    let mut problem = StdSource::new(PROBLEM);
    let mut commands = StdSource::new(b"solve\n".as_slice());
    let mut out = StdSink::new(written);
    let plain = run_session(alloc, &mut problem, &mut commands, &mut out, false)?;
    let mut problem = StdSource::new(PROBLEM);
    let mut commands = StdSource::new(b"cap 1 6\nundo".as_slice());
    let bounded = run_session_bounded(alloc, &mut problem, &mut commands, &mut out, false, 0)?;
    let mut problem = StdSource::new(PROBLEM);
    let mut commands = StdSource::new(b"solve\nprint flow\n".as_slice());
    let wanted = SolveReply {
        cut: true,
        brief: true,
    };
    let brief = run_session_watched(
        alloc,
        &mut problem,
        &mut commands,
        &mut out,
        wanted,
        1,
        &mut Unwatched,
    )?;
    let state = read_problem(alloc, PROBLEM).map_err(EngineFault::Problem)?;
    let session = Session::new(DeltaHistory::new(alloc, state));
    let mut commands = StdSource::new(b"redo".as_slice());
    let given = run_commands(alloc, session, &mut commands, &mut out, false)?;
    Ok([plain, bounded, brief, given])
}

#[test]
fn sessions_are_held(rt: HostRuntime) -> Result<(), Fail> {
    let mut written = Vec::new(rt.alloc());
    let ended = hold_each(rt.alloc(), &mut written)?;
    let statuses = [
        Status::Well,
        Status::SomeRefused,
        Status::Well,
        Status::SomeRefused,
    ];
    assert!(rt; ended == statuses);
    let replies = b"s 7\nf 1 2 7\n\
          c cap value 0\nc refused 2 nothing to undo\n\
          c solve value 7\nc cut 7\nc side 1\ns 7\nf 1 2 7\n\
          c refused 1 nothing to redo\n";
    assert!(rt; written.as_slice() == replies.as_slice());
    Ok(())
}

/// What the words after the program's name ask for.
fn asked(alloc: Global, line: &str) -> Result<Result<Mode, WordsFault>, AllocError> {
    let mut words = Vec::new(alloc);
    words.push(String::from_str(alloc, "dmf")?)?;
    for word in line.split_ascii_whitespace() {
        words.push(String::from_str(alloc, word)?)?;
    }
    Ok(read_words(alloc, words))
}

/// The number of a run's mode, or that of a fault after 10.
fn number_of(asked: &Result<Mode, WordsFault>) -> u32 {
    match asked {
        Ok(Mode::Solve { cut: _, any: _ }) => 1,
        Ok(
            Mode::Session {
                cut: _,
                problem: _,
                history: _,
            },
        ) => 2,
        Ok(Mode::Check { problem: _ }) => 3,
        Ok(Mode::Vital { parts: Parts::Arcs }) => 4,
        Ok(
            Mode::Vital {
                parts: Parts::WorstNodes(3),
            },
        ) => 5,
        Ok(
            Mode::Vital {
                parts: Parts::WorstPairs(2),
            },
        ) => 6,
        Ok(Mode::Vital { parts: _ }) => 7,
        Err(WordsFault::Help(_)) => 11,
        Err(WordsFault::Usage(_)) => 12,
        Err(WordsFault::NoMemory) => 13,
    }
}

/// Words, each with the number of what they ask for.
const WORDS: [(&str, u32); 11] = [
    ("", 1),
    ("session --cut P", 2),
    ("check P", 3),
    ("vital", 4),
    ("vital --nodes --worst 3", 5),
    ("vital --worst 2 --pairs", 6),
    ("vital --pairs", 12),
    ("vital --pairs --nodes --worst 2", 12),
    ("--help", 11),
    ("--version", 11),
    ("wash", 12),
];

#[test]
fn words_are_read(rt: HostRuntime) -> Result<(), Fail> {
    for (line, number) in &WORDS {
        assert!(rt; number_of(&asked(rt.alloc(), line)?) == *number, "{line}");
    }
    Ok(())
}
