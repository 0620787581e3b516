//! Calls the libraries, and after each call writes the whole state on standard output. A test refuses the program memory, request by
//! request, and compares. With a word after its name the program appends changes that alter nothing, and writes how many are kept; a
//! test counts the requests.
#![tactic(auto)]

ghost use Rattle.std.specs.Prelude.{◌≤◌};

mod commands;

use commands::COMMANDS;
use dmf_history::{DeltaHistory, History, MAX_BOUND, WholeHistory};
use dmf_session::{Command, Refusal, Reply, Session};
use dmf_solver::{plan_add, plan_cap};
use dmf_state::{Arc, NetFault, NoMemory, State};
use std::alloc::Global;
use std::process::ExitCode;
use std::{env, io};

/// The arcs of the network that the documentation uses, each by its tail, its head and its capacity.
const ARCS: [(u64, u64, u64); 5] = [(1, 2, 3), (1, 3, 2), (2, 3, 5), (2, 4, 2), (3, 4, 3)];

fn main(rt: HostRuntime) -> ExitCode {
    let outcome = if has_word(&rt) {
        alter_nothing(&rt)
    } else {
        run(&rt)
    };
    match outcome {
        Ok(()) => ExitCode::SUCCESS,
        Err(_) => ExitCode::FAILURE,
    }
}

fn has_word(rt: &HostRuntime) -> bool {
    env::args(rt).is_ok_and(|words| words.count() > 1)
}

/// Writes how many states stand before the present one after changes that alter nothing, or which call failed.
fn alter_nothing(rt: &HostRuntime) -> io::Result<()> {
    match past_of_same(rt.alloc()) {
        Ok(past) => println!(rt; "past {past}"),
        Err(missing) => println!(rt; "{missing}"),
    }
}

/// Appends 200 changes that give an arc the capacity that it has. Returns the number of states before the present one, or which call
/// failed.
fn past_of_same(alloc: Global) -> Result<u32, &'static str> {
    let Ok(state) = example(alloc) else {
        return Err("no state");
    };
    let mut history = DeltaHistory::new(alloc, state);
    for _ in 0..200 {
        append_same(alloc, &mut history)?;
    }
    Ok(history.past())
}

/// Appends a change that gives an arc the capacity that it has.
fn append_same(alloc: Global, history: &mut DeltaHistory) -> Result<(), &'static str> {
    match plan_cap(alloc, history.present(), 1, 3) {
        Ok(edit) => history.append(edit).or(Err("not appended")),
        Err(_) => Err("no plan"),
    }
}

fn run(rt: &HostRuntime) -> io::Result<()> {
    hold_both(rt, MAX_BOUND, true)?;
    hold_both(rt, 1, false)?;
    hold_both(rt, 0, true)?;
    match example(rt.alloc()) {
        Ok(mut state) => edit(rt, &mut state),
        Err(_) => println!(rt; "no state"),
    }
}

/// Holds a session over a history of each kind.
fn hold_both(rt: &HostRuntime, bound: u32, want_cut: bool) -> io::Result<()>
    requires { bound ≤ 1000000 }
{
    hold(rt, "whole", whole_session(rt.alloc(), bound), want_cut)?;
    hold(rt, "delta", delta_session(rt.alloc(), bound), want_cut)
}

/// A session over a history of whole states.
fn whole_session(alloc: Global, bound: u32) -> Result<Session<WholeHistory>, NetFault>
    requires { bound ≤ 1000000 }
{
    let history = WholeHistory::with_bound(alloc, example(alloc)?, bound)?;
    Ok(Session::new(history))
}

/// A session over a history of edits.
fn delta_session(alloc: Global, bound: u32) -> Result<Session<DeltaHistory>, NetFault>
    requires { bound ≤ 1000000 }
{
    let history = DeltaHistory::with_bound(alloc, example(alloc)?, bound);
    Ok(Session::new(history))
}

/// The network of four nodes and five arcs that the documentation uses.
fn example(alloc: Global) -> Result<State, NetFault> {
    let mut state = State::new(alloc, 4, 1, 4);
    for &(tail, head, cap) in &ARCS {
        state.push_arc(tail, head, cap)?;
    }
    Ok(state)
}

/// Gives all commands to the session over the history of this name, if the session was made.
fn hold<H: History + Drop>(
    rt: &HostRuntime,
    name: &str,
    session: Result<Session<H>, NetFault>,
    want_cut: bool,
) -> io::Result<()> {
    match session {
        Ok(mut session) => step_all(rt, name, &mut session, want_cut),
        Err(_) => println!(rt; "no history"),
    }
}

/// Gives all commands to the session, one after the other. With `want_cut` each solve also finds a cut.
fn step_all<H: History>(
    rt: &HostRuntime,
    name: &str,
    session: &mut Session<H>,
    want_cut: bool,
) -> io::Result<()> {
    tell_history(rt, name, session.bound())?;
    tell_session(rt, session)?;
    for &command in &COMMANDS {
        tell_command(rt, command)?;
        tell_answer(rt, session.step(rt.alloc(), command, want_cut))?;
        tell_session(rt, session)?;
    }
    Ok(())
}

/// Adds arcs to the state, and copies it after each.
fn edit(rt: &HostRuntime, state: &mut State) -> io::Result<()> {
    println!(rt; "state")?;
    tell_state(rt, state)?;
    for cap in 1..8 {
        let command = Command::Add {
            tail: 1,
            head: 4,
            cap,
        };
        tell_command(rt, command)?;
        tell_answer(rt, add_arc(state, cap))?;
        tell_state(rt, state)?;
        tell_copy(rt, state.copy(rt.alloc()))?;
    }
    Ok(())
}

/// Adds an arc from the source to the sink.
fn add_arc(state: &mut State, cap: u64) -> Result<Reply, Refusal> {
    let edit = plan_add(state, 1, 4, cap)?;
    state.apply(&edit)?;
    Ok(Reply::Value(state.value()))
}

fn tell_command(rt: &HostRuntime, command: Command) -> io::Result<()> {
    println!(rt; "command {command:?}")
}

fn tell_answer(rt: &HostRuntime, answer: Result<Reply, Refusal>) -> io::Result<()> {
    match answer {
        Ok(Reply::Cut(side) | Reply::Solution(Some(side))) => {
            println!(rt; "accepted cut {}", side.capacity())
        }
        Ok(_) => println!(rt; "accepted"),
        Err(refusal) => println!(rt; "refused {refusal}"),
    }
}

fn tell_copy(rt: &HostRuntime, copy: Result<State, NoMemory>) -> io::Result<()> {
    match copy {
        Ok(state) => {
            println!(rt; "copy")?;
            tell_state(rt, &state)
        }
        Err(fault) => println!(rt; "no copy {fault}"),
    }
}

fn tell_history(rt: &HostRuntime, name: &str, bound: u32) -> io::Result<()> {
    println!(rt; "history {name} {bound}")
}

fn tell_session<H: History>(rt: &HostRuntime, session: &Session<H>) -> io::Result<()> {
    tell_place(rt, session.past(), session.future(), session.present())
}

/// The number of states before and past the present one, and that state.
fn tell_place(rt: &HostRuntime, past: u32, future: u32, state: &State) -> io::Result<()> {
    println!(rt; "past {past} future {future}")?;
    tell_state(rt, state)
}

/// The value, and each arc with its flow.
fn tell_state(rt: &HostRuntime, state: &State) -> io::Result<()> {
    println!(rt; "value {}", state.value())?;
    for (arc, &flow) in state.arcs().iter().zip(state.flows()) {
        tell_arc(rt, arc, flow)?;
    }
    Ok(())
}

fn tell_arc(rt: &HostRuntime, arc: &Arc, flow: u64) -> io::Result<()> {
    println!(rt;
        "{} {} {} {} {flow}",
        kind(arc),
        arc.tail,
        arc.head,
        arc.cap
    )
}

fn kind(arc: &Arc) -> &'static str {
    if arc.closed { "closed" } else { "open" }
}
