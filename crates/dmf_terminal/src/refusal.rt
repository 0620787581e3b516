//! The refusals of a session, explained.
use crate::commands::{COMMANDS, CommandForm, LISTED, NOT_PRINTED};
use dmf_explain::{
    FieldRange, Front, Named, Part, Parts, Thing, about, about_with, behind, count, field_at,
    find_ends, find_named, first_fault, found, no_number, numbered, way_on, without_last_field,
    words,
};
use dmf_session::Refusal;
use dmf_text::NumberFault;

/// Whether the problem's text helps to explain this refusal.
pub fn is_about_problem(refusal: Refusal) -> bool {
    matches!(
        refusal,
        Refusal::NoSuchArc | Refusal::NoSuchNode | Refusal::NotANumber | Refusal::FieldCount
    )
}

/// What is known about the problem of a session.
#[derive(Clone, Copy)]
pub struct Known<'a> {
    /// Its text, where that can be read again.
    pub text: Option<&'a [u8]>,
    /// Whether an arc was added in the session.
    pub has_added: bool,
}

/// The explanation of why this command line was refused.
pub fn refusal_advice<'a>(reason: Refusal, line: &'a [u8], known: Known<'_>) -> Parts<'a> {
    let word = field_at(line, 1).unwrap_or(&[]);
    match reason {
        Refusal::UnknownCommand if word == b"print".as_slice() => {
            about(field_at(line, 2).unwrap_or(b""), NOT_PRINTED)
        }
        Refusal::UnknownCommand => unknown_command(word),
        Refusal::FieldCount => field_count_advice(form_of(word), line, known),
        Refusal::NotANumber => not_a_number_advice(form_of(word), line, known),
        Refusal::TooLarge => words("the largest number is 18446744073709551615"),
        Refusal::NoSuchArc => arcs(known),
        Refusal::NoSuchNode => nodes(known),
        Refusal::Closed => words("undo alone opens a closed arc"),
        Refusal::TooManyArcs => words("a network has at most 134217728 arcs, closed ones counted"),
        Refusal::SumTooLarge => {
            words("the sum of all capacities would pass 2^64 - 1: give a smaller number")
        }
        Refusal::NothingToUndo => {
            words("there are not so many changes to undo; undo K takes back all K or none")
        }
        Refusal::NothingToRedo => words(
            "there are not so many undone changes; a new change drops them, and redo K makes all K or none",
        ),
        Refusal::NotGreatest => words("solve first: a cut is told of a greatest flow alone"),
        Refusal::NoMemory => words("a request for memory was refused; the command changed nothing"),
        Refusal::LineTooLong => words("a command line has at most 4096 bytes"),
    }
}

fn unknown_command<'a>(word: &'a [u8]) -> Parts<'a> {
    if is_asking(word) {
        return words(LISTED);
    }
    if word.iter().any(|byte| byte.is_ascii_uppercase()) {
        return about(
            word,
            " is no command: all commands are in lower case (help lists them)",
        );
    }
    about_with(word, " is no command: ", Part::Words(LISTED))
}

/// Whether this word asks for help or for the end of the session.
fn is_asking(word: &[u8]) -> bool {
    matches!(word, b"help" | b"?" | b"quit" | b"exit" | b"q" | b"h")
}

/// The command of this word.
fn form_of(word: &[u8]) -> Option<&'static CommandForm> {
    COMMANDS.iter().find(|command| command.word == word)
}

fn field_count_advice<'a>(
    command: Option<&'static CommandForm>,
    line: &'a [u8],
    known: Known<'_>,
) -> Parts<'a> {
    let otherwise = found(fields_of(command), count(line));
    match (command, known.text) {
        (Some(command), Some(text)) => by_names(command.numbers, line, text, otherwise),
        _ => otherwise,
    }
}

/// The fields that a command takes.
fn fields_of<'a>(command: Option<&'static CommandForm>) -> &'a str {
    match command {
        Some(command) => command.takes,
        None => LISTED,
    }
}

/// The explanation for names of several words after the first word of a command with these numbers, or else this one.
fn by_names<'a>(
    numbers: &[Option<Thing>],
    line: &'a [u8],
    text: &[u8],
    otherwise: Parts<'a>,
) -> Parts<'a> {
    let names = behind(line, 1);
    match numbers {
        [Some(thing)] => one_name(text, *thing, names, otherwise),
        [Some(thing), None] => one_name(text, *thing, without_last_field(names), otherwise),
        [Some(Thing::Node), Some(Thing::Node), None] => {
            two_names(text, without_last_field(names), otherwise)
        }
        _ => otherwise,
    }
}

fn one_name<'a>(text: &[u8], thing: Thing, name: &'a [u8], otherwise: Parts<'a>) -> Parts<'a> {
    if name.is_empty() {
        return otherwise;
    }
    match find_named(text, thing, name) {
        Some(named) => by_name(thing, name, named),
        None => otherwise,
    }
}

fn two_names<'a>(text: &[u8], names: &[u8], otherwise: Parts<'a>) -> Parts<'a> {
    match find_ends(text, names) {
        Some(ends) => [
            Part::Words("nodes go by number here: the two are "),
            Part::Number(ends.tail),
            Part::Words(" and "),
            Part::Number(ends.head),
            Part::Words(""),
        ],
        None => otherwise,
    }
}

fn not_a_number_advice<'a>(
    command: Option<&'static CommandForm>,
    line: &'a [u8],
    known: Known<'_>,
) -> Parts<'a> {
    let places = FieldRange { first: 2, last: 4 };
    let Some(placed) = first_fault(line, places, NumberFault::NotANumber) else {
        return words("a number has digits alone");
    };
    let Some(thing) = thing_at(command, placed.place) else {
        return no_number(placed.field, way_on(placed.field));
    };
    match known
        .text
        .and_then(|text| find_named(text, thing, placed.field))
    {
        Some(named) => by_name(thing, placed.field, named),
        None => by_number(thing, placed.field),
    }
}

/// What the number in this field of a command stands for, if that may have a name.
fn thing_at(command: Option<&'static CommandForm>, place: usize) -> Option<Thing> {
    *command?.numbers.get(place.checked_sub(2)?)?
}

fn by_name<'a>(thing: Thing, name: &'a [u8], named: Named) -> Parts<'a> {
    [
        Part::Words(match thing {
            Thing::Arc => "arcs go by number here: ",
            Thing::Node => "nodes go by number here: ",
        }),
        Part::Number(named.number),
        Part::Words(" is "),
        Part::Shown(name),
        Part::Words(if named.is_only {
            ""
        } else {
            ", and so is another"
        }),
    ]
}

fn by_number<'a>(thing: Thing, field: &'a [u8]) -> Parts<'a> {
    about(
        field,
        match thing {
            Thing::Arc =>
                " is no number: arcs go by number here, from 1 in the order of the problem",
            Thing::Node => " is no number: nodes go by number here",
        },
    )
}

fn arcs<'a>(known: Known<'_>) -> Parts<'a> {
    let arcs = known.text.and_then(|text| Front::of(text, 0).0.arcs);
    match arcs {
        None => words(
            "arcs are numbered from 1 in the order of the problem, and added ones follow",
        ),
        Some(0) if !known.has_added => words("the problem has no arcs"),
        Some(arcs) if known.has_added => numbered(
            "the problem has arcs 1 to ",
            arcs,
            ", and added ones follow by the number in their reply",
        ),
        Some(arcs) => numbered("there are arcs 1 to ", arcs, ""),
    }
}

fn nodes<'a>(known: Known<'_>) -> Parts<'a> {
    let nodes = known.text.and_then(|text| Front::of(text, 0).0.nodes);
    match nodes {
        None => words("nodes are numbered from 1 to NODES of the problem line"),
        Some(nodes) => numbered("there are nodes 1 to ", nodes, ""),
    }
}
