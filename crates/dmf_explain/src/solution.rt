//! The faults of solution texts, explained.
use crate::advice::{Advice, not_a_number, too_large};
use crate::fields::{Placed, count, field_at};
use crate::look::look_of;
use crate::part::{Part, numbered};
use crate::problem::found;
use dmf_text::{Lines, SolutionFault, SolutionFaultKind};

/// The explanation of a fault of a solution text. The text is given if it can be read again.
pub fn solution_advice<'a>(fault: SolutionFault, text: Option<&'a [u8]>) -> Advice<'a> {
    let Some(text) = text else {
        return line_advice(fault.kind, None);
    };
    if fault.line == 1 {
        if let Some(look) = look_of(text) {
            return Advice::saying(look);
        }
    }
    line_advice(fault.kind, line_at(text, fault.line))
}

/// The line of a text with this number.
fn line_at(text: &[u8], wanted: u64) -> Option<&[u8]> {
    for (number, line) in Lines::new(text) {
        if number == wanted {
            return Some(line);
        }
    }
    None
}

fn line_advice<'a>(kind: SolutionFaultKind, line: Option<&'a [u8]>) -> Advice<'a> {
    match kind {
        SolutionFaultKind::UnknownLine => unknown_line(line),
        SolutionFaultKind::FieldCount => field_count(line),
        SolutionFaultKind::NotANumber => not_a_number(line, "; nodes go by number"),
        SolutionFaultKind::TooLarge => too_large(line),
        SolutionFaultKind::NoSuchPair => between(line, "the problem has no arc from ", ""),
        SolutionFaultKind::OverCapacity => between(
            line,
            "up to this line more flows than the arcs can carry from ",
            " (their capacities together)",
        ),
        SolutionFaultKind::SecondValue => {
            Advice::saying("a solution has one line s VALUE, and this is its second")
        }
        SolutionFaultKind::ValueMissing => {
            Advice::saying("the line s VALUE is missing: VALUE is what leaves the source")
        }
        SolutionFaultKind::NotConserved(node) => Advice::of_line(numbered(
            "what enters node ",
            u64::from(node),
            " and what leaves it differ, and it is neither source nor sink",
        )),
        SolutionFaultKind::ValueDiffers => Advice::saying(
            "the s line says another value than the f lines make: what leaves the source, less what enters it",
        ),
        SolutionFaultKind::NoMemory => Advice::saying("a request for memory was refused"),
    }
}

fn unknown_line<'a>(line: Option<&'a [u8]>) -> Advice<'a> {
    let Some(field) = line.and_then(|line| field_at(line, 1)) else {
        return Advice::saying("a line of a solution begins with c, s or f");
    };
    let text = match field {
        b"p" | b"n" | b"a" => {
            " begins a line of a problem, and a solution is expected here: dmf check PROBLEM <SOLUTION"
        }
        b"S" => ": lower case: s",
        b"F" => ": lower case: f",
        _ => " begins no line of a solution: these begin with c, s or f",
    };
    Advice::about(Placed { place: 1, field }, text)
}

fn field_count<'a>(line: Option<&'a [u8]>) -> Advice<'a> {
    const FORMS: &str = "the lines are s VALUE and f SRC DST FLOW";
    let Some(line) = line else {
        return Advice::saying(FORMS);
    };
    let form = match field_at(line, 1) {
        Some(b"s") => "the value line has one number (s VALUE, 2 fields)",
        Some(b"f") => "a flow has three numbers, from, to, flow (f SRC DST FLOW, 4 fields)",
        _ => FORMS,
    };
    Advice::of_line(found(form, count(line)))
}

/// These words, then the two nodes of the flow line if it is there, then the other words.
fn between<'a>(line: Option<&'a [u8]>, before: &'a str, behind: &'a str) -> Advice<'a> {
    let tail = line.and_then(|line| field_at(line, 2));
    let head = line.and_then(|line| field_at(line, 3));
    let (Some(tail), Some(head)) = (tail, head) else {
        return Advice::of_line([
            Part::Words(before),
            Part::Words("SRC to DST"),
            Part::Words(behind),
            Part::Words(""),
            Part::Words(""),
        ]);
    };
    Advice::of_line([
        Part::Words(before),
        Part::Quoted(tail),
        Part::Words(" to "),
        Part::Quoted(head),
        Part::Words(behind),
    ])
}
