//! The words of commands.

// `tests/commands.py` has the commands: /usr/bin/python3 -m pytest --write tests/test_commands.py makes this file.

/// How many rows there are.
pub const WORD_COUNT: u32 = 15;

/// Each word with how many numbers follow it. A word that stands twice is drawn twice as often.
pub const WORDS: [(&[u8], u32); 15] = [
    (b"cap", 2),
    (b"cap", 2),
    (b"add", 3),
    (b"add", 3),
    (b"close", 1),
    (b"shut", 1),
    (b"solve", 0),
    (b"solve", 0),
    (b"undo", 1),
    (b"undo", 1),
    (b"redo", 1),
    (b"redo", 1),
    (b"print problem", 0),
    (b"print flow", 0),
    (b"print cut", 0),
];
