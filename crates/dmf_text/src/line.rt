//! The lines of a text.
ghost use Rattle.std.specs.Prelude.{◌≡◌, ℕ, ◌+◌, ◌<◌, ◌≤◌, ◌^◌, List, length};
ghost use Rattle.std.specs.Iterator.{YieldsFirstBy, item_count};
ghost use Rattle.std.specs.List.{enumerate_from};
ghost use Rattle.dmf_text.specs.Lines.{numbered_lines};

use crate::arc_line::{ProblemLine, arc_in_front};
use bstr::ByteSlice;
use std::marker::Model;

/// An iterator over the lines of a text, each with its number, counted from 1. A line ends at a line feed or at the end of the text. A
/// carriage return directly before the line feed does not belong to it. What follows the last line feed is a line unless it is empty.
/// Each line is a slice of the text. Takes no memory.
#[derive(Drop)]
pub struct Lines<'a> {
    given: u64,
    left: bstr::Lines<'a>,
}

impl<'a> Model for Lines<'a> {
    ghost Value = { List (ℕ × List ℕ) };

    ghost view = { λ s. enumerate_from (s.given + 1) s.left };

    ghost invariant = { λ s. s.given + length s.left < 2 ^ 64 };
}

impl<'a> Lines<'a> {
    /// The lines of this text.
    pub fn new(text: &'a [u8]) -> Lines<'a>
        ensures lines { result ≡ numbered_lines text.now }
        ensures len { length result ≤ length text.now }
    {
        Lines {
            given: 0,
            left: text.lines(),
        }
    }
}

impl<'a> Lines<'a> {
    ghost use Rattle.std.specs.Prelude.{[], MatchOption};
    ghost use Rattle.dmf_text.specs.ProblemLine.{BeginsWithLine};

    /// Takes the next line, if there is one, as a line of a problem text.
    pub(crate) fn next_of_problem(&mut self) -> Option<(u64, ProblemLine<'a>)>
        ensures { MatchOption result (self.old ≡ []) (λ given. BeginsWithLine self.old given.0 given.1 self.new) }
    {
        if let Some((arc, behind)) = arc_in_front(self.left.as_bytes()) {
            self.given += 1;
            self.left = behind.lines();
            return Some((self.given, ProblemLine::Arc(arc)));
        }
        let (number, line) = self.next()?;
        Some((number, ProblemLine::Bytes(line)))
    }
}

impl<'a> Iterator for Lines<'a> {
    type Item = (u64, &'a [u8]);

    ghost next_gives = { YieldsFirstBy (λ item. (item.0, item.1.now)) (λ left. left) };

    ghost remaining = { item_count (λ left. left) };

    fn next(&mut self) -> Option<(u64, &'a [u8])> {
        let line = self.left.next()?;
        self.given += 1;
        Some((self.given, line))
    }
}
