//! The faults of problem texts, explained.
use crate::advice::{Advice, not_a_number, too_large};
use crate::fields::{FieldRange, Placed, count, field_at, first_outside};
use crate::front::Front;
use crate::look::{is_of_table, look_of};
use crate::part::{Part, Parts, about_with, numbered};
use dmf_state::{MAX_ARCS, MAX_NODES};
use dmf_text::{ProblemFault, ProblemFaultKind};

const PROBLEM_LINE: &str =
    "a problem begins with p max NODES ARCS (tools/dmf-problem makes a problem of a table)";

const ON_NAMES: &str =
    "; nodes go by number (tools/dmf-problem makes a problem of a table with names)";

/// The explanation of a fault of a problem text. The text is given if it can be read again.
pub fn problem_advice<'a>(fault: ProblemFault, text: Option<&'a [u8]>) -> Advice<'a> {
    let Some(text) = text else {
        return line_advice(fault.kind, Front::EMPTY, None);
    };
    if fault.line == 1 {
        if let Some(look) = look_of(text) {
            return Advice::saying(look);
        }
    }
    let (front, line) = Front::of(text, fault.line);
    line_advice(fault.kind, front, line)
}

/// The explanation of a fault of a line, by what the lines before it say.
fn line_advice<'a>(kind: ProblemFaultKind, front: Front, line: Option<&'a [u8]>) -> Advice<'a> {
    match kind {
        ProblemFaultKind::ProblemLineExpected => Advice::saying(PROBLEM_LINE),
        ProblemFaultKind::SecondProblemLine => second_problem_line(front),
        ProblemFaultKind::UnknownLine => unknown_line(front, line),
        ProblemFaultKind::NotMax => not_max(line),
        ProblemFaultKind::FieldCount => field_count(line),
        ProblemFaultKind::NotANumber => wrong_number(line),
        ProblemFaultKind::TooLarge => too_large(line),
        ProblemFaultKind::CountOutOfRange => count_out_of_range(line),
        ProblemFaultKind::NodeOutOfRange => node_out_of_range(front, line),
        ProblemFaultKind::NotSourceOrSink => not_a_terminal(line),
        ProblemFaultKind::SecondTerminal => second_terminal(front, line),
        ProblemFaultKind::SameTerminals => Advice::at(
            line,
            2,
            " is the other terminal too: source and sink are two nodes",
            "source and sink are two nodes",
        ),
        ProblemFaultKind::ArcBeforeTerminals => Advice::saying(
            "put both n lines (n ID s and n ID t) before the first a line",
        ),
        ProblemFaultKind::TooManyArcs => too_many_arcs(front),
        ProblemFaultKind::TooFewArcs => too_few_arcs(front),
        ProblemFaultKind::TerminalMissing => terminal_missing(front),
        ProblemFaultKind::SumTooLarge => Advice::saying(
            "the sum of all capacities passes 2^64 - 1 here: write a smaller number for \"no limit\"",
        ),
        ProblemFaultKind::NoMemory => Advice::saying("a request for memory was refused"),
    }
}

fn wrong_number<'a>(line: Option<&'a [u8]>) -> Advice<'a> {
    let on_names = match line {
        Some(line) => way_with_names(line),
        None => ON_NAMES,
    };
    not_a_number(line, on_names)
}

/// What to write instead of a word that stands for a node.
fn way_with_names<'a>(line: &[u8]) -> &'a str {
    match (field_at(line, 1), field_at(line, 2)) {
        (Some(b"n"), Some(b"s" | b"t")) => "; the number stands before the letter, as in n 1 s",
        _ => ON_NAMES,
    }
}

fn second_problem_line<'a>(front: Front) -> Advice<'a> {
    if front.problem_line == 0 {
        return Advice::saying("a text has one problem: give each its own file");
    }
    Advice::of_line(numbered(
        "the problem line is line ",
        front.problem_line,
        " already: give each problem its own file",
    ))
}

fn unknown_line<'a>(front: Front, line: Option<&'a [u8]>) -> Advice<'a> {
    let Some(line) = line else {
        return Advice::saying("a line of a problem begins with c, p, n or a");
    };
    let field = first_field(line);
    let is_table = front.problem_line == 0 && is_of_table(line);
    Advice::about(Placed { place: 1, field }, unknown_field(field, is_table))
}

/// The first field of a line, or empty if it has none.
fn first_field(line: &[u8]) -> &[u8] {
    field_at(line, 1).unwrap_or(&[])
}

/// What a first field that begins no line of a problem may mean, if the line may be the row of a table.
fn unknown_field<'a>(field: &[u8], is_table: bool) -> &'a str {
    match field {
        b"P" => ": lower case: p",
        b"N" => ": lower case: n",
        b"A" => ": lower case: a",
        _ if is_table => " begins no line of a problem: of a table tools/dmf-problem makes one",
        b"s" | b"f" => " begins a line of a solution, and a problem is expected here",
        b"e" => " begins no line of a problem: an arc is a SRC DST CAP",
        b"\x1a" | b"\0" => " is a control character: take it out of the text",
        [b'#' | b'%' | b'/', ..] => " begins no line of a problem: a comment begins with c",
        _ => " begins no line of a problem: these begin with c, p, n or a",
    }
}

fn not_max<'a>(line: Option<&'a [u8]>) -> Advice<'a> {
    const OTHER: &str = ": dmf solves maximum flow, p max NODES ARCS";
    let Some(field) = line.and_then(|line| field_at(line, 2)) else {
        return Advice::saying("the problem line is p max NODES ARCS, in lower case");
    };
    let text = if field.eq_ignore_ascii_case(b"max") {
        ": lower case: max"
    } else {
        OTHER
    };
    Advice::about(Placed { place: 2, field }, text)
}

fn field_count<'a>(line: Option<&'a [u8]>) -> Advice<'a> {
    const FORMS: &str = "the lines are p max NODES ARCS, n ID s, n ID t and a SRC DST CAP";
    let Some(line) = line else {
        return Advice::saying(FORMS);
    };
    if line.contains(&b'\r') {
        return Advice::saying(
            "lines end with a line feed, and a carriage return stands within this one: tr '\\r' '\\n'",
        );
    }
    let form = match field_at(line, 1) {
        Some(b"a") => arc_form(line),
        Some(b"n") => "a terminal has a number and a letter (n ID s or n ID t, 3 fields)",
        Some(b"p") => "the problem line has two numbers (p max NODES ARCS, 4 fields)",
        _ => FORMS,
    };
    Advice::of_line(found(form, count(line)))
}

/// What an arc line has. A comment may stand after this one.
fn arc_form<'a>(line: &[u8]) -> &'a str {
    match field_at(line, 5) {
        Some([b'c' | b'#' | b'%' | b'/', ..]) => {
            "an arc has three numbers, from, to, capacity (4 fields), and a comment a line of its own"
        }
        _ => "an arc has three numbers, from, to, capacity (a SRC DST CAP, 4 fields)",
    }
}

/// The expected form, and how many fields there are.
pub fn found<'a>(form: &'a str, count: u64) -> Parts<'a> {
    [
        Part::Words(form),
        Part::Words("; found "),
        Part::Number(count),
        Part::Words(if count == 1 { " field" } else { " fields" }),
        Part::Words(""),
    ]
}

fn count_out_of_range<'a>(line: Option<&'a [u8]>) -> Advice<'a> {
    let most_nodes = u64::from(MAX_NODES);
    let nodes = FieldRange { first: 3, last: 3 };
    let Some(line) = line else {
        return Advice::saying("NODES is from 2 to 16777216, ARCS at most 134217728");
    };
    match first_outside(line, nodes, 2, most_nodes) {
        Some(placed) => Advice::about(placed, " nodes: NODES is from 2 to 16777216"),
        None => Advice::at(
            Some(line),
            4,
            " arcs: ARCS is at most 134217728",
            "ARCS is at most 134217728",
        ),
    }
}

fn node_out_of_range<'a>(front: Front, line: Option<&'a [u8]>) -> Advice<'a> {
    let (Some(line), Some(nodes)) = (line, front.nodes) else {
        return Advice::saying("nodes are numbered from 1 to NODES of the problem line");
    };
    let places = match field_at(line, 1) {
        Some(b"n") => FieldRange { first: 2, last: 2 },
        _ => FieldRange { first: 2, last: 3 },
    };
    let Some(placed) = first_outside(line, places, 1, nodes) else {
        return Advice::of_line(numbered("the nodes are numbered from 1 to ", nodes, ""));
    };
    Advice {
        place: placed.place,
        parts: about_with(
            placed.field,
            " is no node: by the problem line they are numbered from 1 to ",
            Part::Number(nodes),
        ),
    }
}

fn not_a_terminal<'a>(line: Option<&'a [u8]>) -> Advice<'a> {
    let letter = line.and_then(|line| field_at(line, 3));
    let text = match letter {
        Some(b"S") => ": lower case: s",
        Some(b"T") => ": lower case: t",
        _ => " is no letter of a node line: s names the source, t the sink",
    };
    Advice::at(
        line,
        3,
        text,
        "in a node line s names the source, t the sink",
    )
}

fn second_terminal<'a>(front: Front, line: Option<&'a [u8]>) -> Advice<'a> {
    const JOIN_SOURCES: &str = ": join several by a node before them (docs/FORMATS.md)";
    const JOIN_SINKS: &str = ": join several by a node behind them (docs/FORMATS.md)";
    match line.and_then(|line| field_at(line, 3)) {
        Some(b"s") if front.source_line > 0 => Advice::of_line(numbered(
            "a second source, the first is in line ",
            front.source_line,
            JOIN_SOURCES,
        )),
        Some(b"t") if front.sink_line > 0 => Advice::of_line(numbered(
            "a second sink, the first is in line ",
            front.sink_line,
            JOIN_SINKS,
        )),
        _ => Advice::saying(
            "a second source or sink: join several by a node before or behind them (docs/FORMATS.md)",
        ),
    }
}

fn too_many_arcs<'a>(front: Front) -> Advice<'a> {
    match front.arcs {
        Some(arcs) => Advice::of_line(numbered(
            "the problem line says ",
            arcs,
            " arcs, and this line has one more: its second number is the number of a lines",
        )),
        None => Advice::saying("there are more a lines than ARCS of the problem line says"),
    }
}

fn too_few_arcs<'a>(front: Front) -> Advice<'a> {
    let Some(arcs) = front.arcs else {
        return Advice::saying("there are fewer a lines than ARCS of the problem line says");
    };
    Advice::of_line([
        Part::Words("the problem line says "),
        Part::Number(arcs),
        Part::Words(" arcs, and the text ends after "),
        Part::Number(front.arc_lines),
        Part::Words(": its second number is the number of a lines"),
    ])
}

fn terminal_missing<'a>(front: Front) -> Advice<'a> {
    Advice::saying(if front.source_line > 0 {
        "no line n ID t names the sink"
    } else if front.sink_line > 0 {
        "no line n ID s names the source"
    } else {
        "a line n ID s names the source, and a line n ID t the sink"
    })
}
