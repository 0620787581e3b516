//! The commands, as explanations speak of them.
use dmf_explain::Thing;

// `tests/commands.py` has the commands: /usr/bin/python3 -m pytest --write tests/test_commands.py makes this file.
/// A command: its word, what each of its numbers stands for that may have a name, and the fields that it takes.
pub struct CommandForm {
    pub word: &'static [u8],
    pub numbers: &'static [Option<Thing>],
    pub takes: &'static str,
}

#[rattlefmt::skip]
pub const COMMANDS: &[CommandForm] = &[
    CommandForm { word: b"cap", numbers: &[Some(Thing::Arc), None], takes: "cap takes an arc and its new capacity (cap I U, 3 fields)" },
    CommandForm { word: b"add", numbers: &[Some(Thing::Node), Some(Thing::Node), None], takes: "add takes two nodes and a capacity (add V W U, 4 fields)" },
    CommandForm { word: b"close", numbers: &[Some(Thing::Arc)], takes: "close takes an arc (close I, 2 fields)" },
    CommandForm { word: b"shut", numbers: &[Some(Thing::Node)], takes: "shut takes a node (shut V, 2 fields)" },
    CommandForm { word: b"solve", numbers: &[], takes: "solve takes nothing (1 field)" },
    CommandForm { word: b"undo", numbers: &[None], takes: "undo takes a count or nothing (undo [K], 1 or 2 fields)" },
    CommandForm { word: b"redo", numbers: &[None], takes: "redo takes a count or nothing (redo [K], 1 or 2 fields)" },
    CommandForm { word: b"print", numbers: &[], takes: "print takes problem, flow or cut (2 fields)" },
];

/// The forms of all of them.
#[rattlefmt::skip]
pub const LISTED: &str = "the commands are cap I U, add V W U, close I, shut V, solve, undo [K], redo [K] and print problem, print flow, print cut; Ctrl-D ends the session";

/// What is said of a thing that is not printed.
#[rattlefmt::skip]
pub const NOT_PRINTED: &str = " is not printed: print problem, print flow or print cut";
