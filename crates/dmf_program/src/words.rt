//! What the program makes of its words: it does what they ask for, and ends with the status of that.
ghost use Rattle.std.specs.Prelude.{◌∷◌, ◌++◌, [], IfOk, MatchResult, map};
ghost use Rattle.dmf_arguments.specs.Words.{HasBound};
ghost use Rattle.dmf_text.specs.Writing.{Writes};
ghost use Rattle.dmf_program.specs.Program.{Ends, Follows, IsPrinted, RunsWords, WritesShown, has_ended, outputs_of};

use crate::host::Host;
use crate::runner::Runner;
use dmf_arguments::{Arguments, WordsFault, read_arguments};
use dmf_host::{Fault, exit_status};
use dmf_streams::{EngineFault, Status};
use dmf_text::{Sink, WriteFault, put_all};
use std::alloc::Global;

/// The last sentence of a help text.
const SENTENCE: &str = "man dmf has the formats.\n";

/// Does what the words ask for, of which the first is the program's name, and returns the exit status. A task is run once, by the runner.
/// A text that is asked for is written on `out`, and what is wrong with words on `err`.
///
/// Where the system gives no words, the program ends with the fault of that.
pub fn run_words<R: Runner + Drop, H: Host, W: Sink, E: Sink>(
    alloc: Global,
    words: Result<Vec<String>, Fault>,
    runner: R,
    host: &H,
    out: &mut W,
    err: &mut E,
) -> u8
    ensures { Ends
        (λ outcome. MatchResult words
        (λ words. RunsWords (R.runs runner) (map (λ word. word.bytes.items) words.items)
        (outputs_of (W.written out.old) (E.written err.old)) (outputs_of (W.written out.new) (E.written err.new)) outcome)
        (λ fault. has_ended fault
        (outputs_of (W.written out.old) (E.written err.old)) (outputs_of (W.written out.new) (E.written err.new)) outcome))
        result }
{
    let outcome = answer(alloc, words, runner, host, out, err);
    if let Err(fault) = &outcome {
        host.tell(fault);
    }
    exit_status(&outcome)
}

/// Reads the words, if there are any, and does what they ask for.
#[inline(never)]
fn answer<R: Runner + Drop, H: Host, W: Sink, E: Sink>(
    alloc: Global,
    words: Result<Vec<String>, Fault>,
    runner: R,
    host: &H,
    out: &mut W,
    err: &mut E,
) -> Result<Status, Fault>
    ensures { MatchResult words
        (λ words. RunsWords (R.runs runner) (map (λ word. word.bytes.items) words.items)
        (outputs_of (W.written out.old) (E.written err.old)) (outputs_of (W.written out.new) (E.written err.new)) result)
        (λ fault. has_ended fault
        (outputs_of (W.written out.old) (E.written err.old)) (outputs_of (W.written out.new) (E.written err.new)) result) }
{
    match words {
        Ok(words) => follow(read_arguments(alloc, words), runner, host, out, err),
        Err(fault) => Err(fault),
    }
}

/// Does what follows on these arguments, or on words that ask for no run.
fn follow<R: Runner + Drop, H: Host, W: Sink, E: Sink>(
    read: Result<Arguments, WordsFault>,
    runner: R,
    host: &H,
    out: &mut W,
    err: &mut E,
) -> Result<Status, Fault>
    requires { IfOk read (λ asked. HasBound asked.mode) }
    ensures { Follows (R.runs runner) read
        (outputs_of (W.written out.old) (E.written err.old)) (outputs_of (W.written out.new) (E.written err.new)) result }
{
    match read {
        Ok(asked) => runner.run(&asked),
        Err(WordsFault::Help(text)) => print(text.as_str(), host, out),
        Err(WordsFault::Usage(text)) => {
            // If this cannot be written, the exit status still says it.
            let _ = put_all(err, text.as_bytes());
            Err(Fault::Usage)
        }
        Err(WordsFault::NoMemory) => Err(Fault::NO_MEMORY),
    }
}

/// Writes a text that was asked for.
fn print<H: Host, W: Sink>(text: &str, host: &H, out: &mut W) -> Result<Status, Fault>
    ensures { IsPrinted text.now (W.written out.old) (W.written out.new) result }
{
    match show(text, host, out) {
        Ok(()) => Ok(Status::Well),
        Err(_) => Err(Fault::Run(EngineFault::Write)),
    }
}

/// Writes a text, without its sentence on the manual page and the blanks before that where there is no such page.
fn show<H: Host, W: Sink>(text: &str, host: &H, out: &mut W) -> Result<(), WriteFault>
    ensures { WritesShown text.now (W.written out.old) (W.written out.new) result }
{
    if let Some(front) = text.strip_suffix(SENTENCE) {
        if host.lacks_page(text) {
            return put_line(front.trim_end(), out);
        }
    }
    put_all(out, text.as_bytes())
}

/// Writes a text and a line feed.
fn put_line<W: Sink>(text: &str, out: &mut W) -> Result<(), WriteFault>
    ensures { Writes (W.written out.old) (W.written out.new) result (text.now ++ 10 ∷ []) }
{
    put_all(out, text.as_bytes())?;
    put_all(out, b"\n")
}
