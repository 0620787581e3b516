//! What command lines mean, and the words of commands.
ghost use Rattle.std.specs.Prelude.{◌≡◌, ◌≢◌, ◌≤◌, [], ◌∷◌, length, codes, cond, false, MatchResult};
ghost use Rattle.std.specs.Str.{bytes_eq};
ghost use Rattle.std.specs.Str.Lines.{strip_carriage_return};
ghost use Rattle.dmf_session.specs.declared.command.Refusal.TheVariants.{FieldCount};
ghost use Rattle.dmf_text.specs.Number.{number_of};
ghost use Rattle.dmf_runs.specs.CommandText as text;
ghost use Rattle.dmf_runs.specs.CommandText.{command_of, command_by, meaning_of, meaning_of_other};
ghost use Rattle.dmf_runs.specs.CommandText.{capping, addition, one_number, solving, steps, printing, with_number};
ghost use Rattle.dmf_runs.specs.Line.{Means};

use dmf_session::{Command, Refusal};
use dmf_streams::KeptLine;
use dmf_text::{Fields, NumberFault, number};

/// What a command line means: nothing, a command, or why it is refused.
pub type Meaning = Result<Option<Command>, Refusal>;

/// A command line.
#[derive(Clone, Copy)]
pub struct CommandLine<'a> {
    /// Its number, from 1.
    pub number: u32,
    /// Its bytes without its end, as far as they are kept.
    pub text: &'a [u8],
    /// What it means.
    pub meaning: Meaning,
}

/// What a line means. `ended` says whether a line feed ended it, or the end of the input.
pub fn meaning_of(line: &KeptLine, ended: bool) -> Meaning
    ensures { Means line.now ended result }
{
    if line.is_long() {
        return Err(Refusal::LineTooLong);
    }
    read_command(line_text(line, ended))
}

/// The bytes of a line without its end.
pub fn line_text(line: &KeptLine, ended: bool) -> &[u8]
    ensures { result.now ≡ cond ended (strip_carriage_return line.now.bytes) line.now.bytes }
{
    let text = line.bytes();
    if ended {
        without_carriage_return(text)
    } else {
        text
    }
}

/// The line without the one carriage return at its end, if it has one.
fn without_carriage_return(line: &[u8]) -> &[u8]
    ensures { result.now ≡ strip_carriage_return line.now }
{
    if line.last() == Some(&b'\r') {
        return &line[..line.len() - 1];
    }
    line
}

/// Reads a command line, given without its end. A blank line and a comment, whose first field is `c`, mean nothing.
///
/// Fails with the first of these faults: [`Refusal::UnknownCommand`] of the first field, [`Refusal::FieldCount`],
/// [`Refusal::UnknownCommand`] of the field after `print`, and for each number from left to right [`Refusal::NotANumber`] or
/// [`Refusal::TooLarge`]. Takes no memory.
pub fn read_command(line: &[u8]) -> Result<Option<Command>, Refusal>
    ensures { result ≡ command_of line.now }
{
    let mut fields = Fields::new(line);
    let Some(word) = fields.next() else {
        return Ok(None);
    };
    if word == b"c".as_slice() {
        return Ok(None);
    }
    Ok(Some(read_named(word, fields)?))
}

/// The command with this first field, which is not `c`.
fn read_named(word: &[u8], fields: Fields<'_>) -> Result<Command, Refusal>
    requires { bytes_eq word.now (codes "c") ≡ false }
    ensures { command_by (λ command. command) result ≡ meaning_of (word.now ∷ fields.entry) }
{
    if word == b"cap".as_slice() {
        read_capping(fields)
    } else if word == b"add".as_slice() {
        read_addition(fields)
    } else if word == b"close".as_slice() {
        Ok(Command::Close {
            arc: read_one_number(fields)?,
        })
    } else if word == b"shut".as_slice() {
        Ok(Command::Shut {
            node: read_one_number(fields)?,
        })
    } else {
        read_other(word, fields)
    }
}

/// The command with this first field, which is neither `c` nor the word of a change.
fn read_other(word: &[u8], fields: Fields<'_>) -> Result<Command, Refusal>
    ensures { command_by (λ command. command) result ≡ meaning_of_other word.now fields.entry }
{
    if word == b"solve".as_slice() {
        read_solving(fields)
    } else if word == b"undo".as_slice() {
        Ok(Command::Undo(read_steps(fields)?))
    } else if word == b"redo".as_slice() {
        Ok(Command::Redo(read_steps(fields)?))
    } else if word == b"print".as_slice() {
        read_printing(fields)
    } else {
        Err(Refusal::UnknownCommand)
    }
}

/// Reads the fields after `cap`.
#[tactic(auto, unfolding(crate::specs::CommandText::capping))]
fn read_capping(mut fields: Fields<'_>) -> Result<Command, Refusal>
    ensures { result ≡ capping fields.entry }
{
    match (fields.next(), fields.next(), fields.next()) {
        (Some(arc), Some(cap), None) => capping_of(arc, cap),
        _ => Err(Refusal::FieldCount),
    }
}

/// The command that gives the arc with this number this capacity.
#[tactic(auto, unfolding(crate::specs::CommandText::capping))]
fn capping_of(arc: &[u8], cap: &[u8]) -> Result<Command, Refusal>
    ensures { result ≡ capping (arc.now ∷ cap.now ∷ []) }
{
    Ok(Command::Cap {
        arc: read_number(arc)?,
        cap: read_number(cap)?,
    })
}

/// Reads the fields after `add`.
#[tactic(auto, unfolding(crate::specs::CommandText::addition))]
fn read_addition(mut fields: Fields<'_>) -> Result<Command, Refusal>
    ensures { result ≡ addition fields.entry }
{
    match (fields.next(), fields.next(), fields.next(), fields.next()) {
        (Some(tail), Some(head), Some(cap), None) => addition_of(tail, head, cap),
        _ => Err(Refusal::FieldCount),
    }
}

/// The command that adds an arc with these ends and this capacity.
#[tactic(auto, unfolding(crate::specs::CommandText::addition))]
fn addition_of(tail: &[u8], head: &[u8], cap: &[u8]) -> Result<Command, Refusal>
    ensures { result ≡ addition (tail.now ∷ head.now ∷ cap.now ∷ []) }
{
    Ok(Command::Add {
        tail: read_number(tail)?,
        head: read_number(head)?,
        cap: read_number(cap)?,
    })
}

/// Reads the field after `close` or `shut`.
#[tactic(auto, unfolding(crate::specs::CommandText::one_number))]
fn read_one_number(fields: Fields<'_>) -> Result<u64, Refusal>
    ensures { result ≡ one_number fields.entry }
{
    read_number(only_field(fields)?)
}

/// Reads the fields after `solve`: there must be none.
#[tactic(auto, unfolding(crate::specs::CommandText::solving))]
fn read_solving(mut fields: Fields<'_>) -> Result<Command, Refusal>
    ensures { result ≡ solving fields.entry }
{
    match fields.next() {
        None => Ok(Command::Solve),
        Some(_) => Err(Refusal::FieldCount),
    }
}

/// Reads the fields after `undo` or `redo`.
#[tactic(auto, unfolding(crate::specs::CommandText::steps))]
fn read_steps(mut fields: Fields<'_>) -> Result<u64, Refusal>
    ensures { result ≡ steps fields.entry }
{
    match (fields.next(), fields.next()) {
        (None, _) => Ok(1),
        (Some(count), None) => read_number(count),
        _ => Err(Refusal::FieldCount),
    }
}

/// Reads the field after `print`.
#[tactic(auto, unfolding(crate::specs::CommandText::printing))]
fn read_printing(fields: Fields<'_>) -> Result<Command, Refusal>
    ensures { result ≡ printing fields.entry }
{
    printing_of(only_field(fields)?)
}

/// The command that prints the thing of this name.
#[tactic(auto, unfolding(crate::specs::CommandText::printing))]
fn printing_of(what: &[u8]) -> Result<Command, Refusal>
    ensures { result ≡ printing (what.now ∷ []) }
{
    if what == b"problem".as_slice() {
        Ok(Command::PrintProblem)
    } else if what == b"flow".as_slice() {
        Ok(Command::PrintFlow)
    } else if what == b"cut".as_slice() {
        Ok(Command::PrintCut)
    } else {
        Err(Refusal::UnknownCommand)
    }
}

/// The field after the word of a command that takes exactly one.
fn only_field(mut fields: Fields<'_>) -> Result<&[u8], Refusal>
    ensures { MatchResult result (λ field. fields.entry ≡ field.now ∷ []) (λ refusal. (refusal ≡ FieldCount) × (length fields.entry ≢ 1)) }
{
    match (fields.next(), fields.next()) {
        (Some(field), None) => Ok(field),
        _ => Err(Refusal::FieldCount),
    }
}

/// The number that a field spells.
fn read_number(field: &[u8]) -> Result<u64, Refusal>
    ensures { result ≡ with_number (number_of field.now) Ok }
{
    match number(field) {
        Ok(n) => Ok(n),
        Err(NumberFault::NotANumber) => Err(Refusal::NotANumber),
        Err(NumberFault::TooLarge) => Err(Refusal::TooLarge),
    }
}

/// The word of a command, which is the first field of its lines.
pub fn word_of(command: Command) -> &'static [u8]
    ensures word { result.now ≡ text.word_of command }
    ensures short { length result.now ≤ 5 }
{
    match command {
        Command::Cap { .. } => b"cap",
        Command::Add { .. } => b"add",
        Command::Close { .. } => b"close",
        Command::Shut { .. } => b"shut",
        Command::Solve => b"solve",
        Command::Undo(_) => b"undo",
        Command::Redo(_) => b"redo",
        Command::PrintProblem | Command::PrintFlow | Command::PrintCut => b"print",
    }
}
