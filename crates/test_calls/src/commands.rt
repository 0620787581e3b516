//! The commands that a session is given.

use dmf_session::Command;

// `tests/commands.py` has the commands: /usr/bin/python3 -m pytest --write tests/test_commands.py makes this file.
#[rattlefmt::skip]
pub const COMMANDS: [Command; 21] = [
    Command::Add { tail: 1, head: 4, cap: 1 },
    Command::Solve,
    Command::Add { tail: 1, head: 4, cap: 2 },
    Command::Add { tail: 1, head: 4, cap: 3 },
    Command::Undo(2),
    Command::Redo(2),
    Command::Cap { arc: 5, cap: 1 },
    Command::Add { tail: 1, head: 4, cap: 4 },
    Command::Undo(3),
    Command::Add { tail: 1, head: 4, cap: 5 },
    Command::Add { tail: 1, head: 4, cap: 6 },
    Command::Close { arc: 1 },
    Command::PrintCut,
    Command::Undo(4),
    Command::Redo(3),
    Command::Solve,
    Command::PrintCut,
    Command::Shut { node: 3 },
    Command::Undo(1),
    Command::Redo(1),
    Command::Add { tail: 1, head: 4, cap: 7 },
];
