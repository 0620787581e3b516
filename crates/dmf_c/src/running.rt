//! Several commands in one call.
ghost use Rattle.std.specs.Prelude.{◌≡◌, length};
ghost use Rattle.dmf_c.specs.Running.{AnswersKind, AnswersRun, HasRun, command_of, commands_of};

use crate::code::answer_code;
use crate::handle::Handle;
use crate::plan::Plan;
use dmf_session::Command;
use std::alloc::Global;

/// Carries out commands, one after another, up to the first that is refused.
#[unsafe(no_mangle)]
pub extern "C" fn dmf_session_run(
    alloc: Global,
    session: &mut Handle,
    kinds: &[u32],
    firsts: &[u64],
    seconds: &[u64],
    thirds: &[u64],
    values: &mut [u64],
    done: &mut usize,
) -> u32
    ensures { AnswersRun session.old.timeline kinds.now firsts.now seconds.now thirds.now result session.new.timeline values.old values.new done.old done.new }
{
    let count = kinds.len();
    if !(firsts.len() == count
        && seconds.len() == count
        && thirds.len() == count
        && values.len() == count)
    {
        return 10;
    }
    let plan = session.plan();
    run(alloc, plan, kinds, firsts, seconds, thirds, values, done)
}

fn run(
    alloc: Global,
    plan: &mut Plan,
    kinds: &[u32],
    firsts: &[u64],
    seconds: &[u64],
    thirds: &[u64],
    values: &mut [u64],
    done: &mut usize,
) -> u32
    requires firsts { length firsts.now ≡ length kinds.now }
    requires seconds { length seconds.now ≡ length kinds.now }
    requires thirds { length thirds.now ≡ length kinds.now }
    requires values { length values.old ≡ length kinds.now }
    ensures { HasRun plan.old (commands_of kinds.now firsts.now seconds.now thirds.now) result plan.new values.old values.new done.new }
{
    for i in 0..kinds.len() {
        let command = command_of(kinds[i], firsts[i], seconds[i], thirds[i]);
        let code = carry_out(alloc, plan, command);
        if code != 0 {
            *done = i;
            return code;
        }
        values[i] = plan.present().value();
    }
    *done = kinds.len();
    0
}

/// Carries out a command, if there is one.
fn carry_out(alloc: Global, plan: &mut Plan, command: Option<Command>) -> u32
    ensures { AnswersKind plan.old command result plan.new }
{
    match command {
        Some(command) => answer_code(&plan.step(alloc, command)),
        None => 11,
    }
}

/// The command of this kind, with as many of these numbers as it has.
fn command_of(kind: u32, first: u64, second: u64, third: u64) -> Option<Command>
    ensures { result ≡ command_of kind first second third }
{
    match kind {
        1 => Some(Command::Cap {
            arc: first,
            cap: second,
        }),
        2 => Some(Command::Add {
            tail: first,
            head: second,
            cap: third,
        }),
        3 => Some(Command::Close { arc: first }),
        4 => Some(Command::Shut { node: first }),
        5 => Some(Command::Solve),
        6 => Some(Command::Undo(first)),
        7 => Some(Command::Redo(first)),
        _ => None,
    }
}
