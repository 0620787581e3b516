//! What the lines of a problem text before the faulty one say.
use dmf_text::{Fields, Lines, number};

/// What the lines before a fault say. A line number is 0 if there is no such line.
#[derive(Clone, Copy)]
pub struct Front {
    /// The counts of the problem line.
    pub nodes: Option<u64>,
    pub arcs: Option<u64>,
    pub problem_line: u64,
    pub source_line: u64,
    pub sink_line: u64,
    pub arc_lines: u64,
}

impl Front {
    pub const EMPTY: Front = Front {
        nodes: None,
        arcs: None,
        problem_line: 0,
        source_line: 0,
        sink_line: 0,
        arc_lines: 0,
    };

    /// The part of a text before the line with this number, and that line, if there is one.
    pub fn of(text: &[u8], end: u64) -> (Front, Option<&[u8]>) {
        let mut front = Front::EMPTY;
        for (number, line) in Lines::new(text) {
            if number == end {
                return (front, Some(line));
            }
            front = front.with_line(number, line);
        }
        (front, None)
    }

    fn with_line(self, number: u64, line: &[u8]) -> Front {
        let mut fields = Fields::new(line);
        match fields.next() {
            Some(b"a") => Front {
                arc_lines: self.arc_lines.saturating_add(1),
                ..self
            },
            Some(b"n") => self.with_node_line(number, fields),
            Some(b"p") => self.with_problem_line(number, fields),
            _ => self,
        }
    }

    fn with_node_line(self, number: u64, mut fields: Fields<'_>) -> Front {
        match (fields.next(), fields.next()) {
            (Some(_), Some(b"s")) => Front {
                source_line: number,
                ..self
            },
            (Some(_), Some(b"t")) => Front {
                sink_line: number,
                ..self
            },
            _ => self,
        }
    }

    fn with_problem_line(self, line: u64, mut fields: Fields<'_>) -> Front {
        match (fields.next(), fields.next(), fields.next()) {
            (Some(_), Some(nodes), Some(arcs)) => Front {
                problem_line: line,
                nodes: number(nodes).ok(),
                arcs: number(arcs).ok(),
                ..self
            },
            _ => self,
        }
    }
}
