//! Where a fault lies.
use crate::advice::Advice;
use crate::part::{Said, Shown};
use std::fmt;

/// The text that has a fault.
#[derive(Clone, Copy)]
pub struct Place<'a> {
    /// Words before its name, with a blank after them.
    pub before: &'static str,
    /// The file's name, or `None` if the text came from no file.
    pub name: Option<&'a str>,
    pub line: u64,
}

impl fmt::Display for Place<'_> {
    fn fmt<W: fmt::Write>(&self, f: &mut fmt::Formatter<W>) -> fmt::Result {
        let before = self.before;
        let line = self.line;
        match self.name {
            Some(name) => {
                let shown = Shown(name.as_bytes());
                write!(f, "{before}{shown}:{line}")
            }
            None => write!(f, "{before}line {line}"),
        }
    }
}

impl fmt::Display for Advice<'_> {
    fn fmt<W: fmt::Write>(&self, f: &mut fmt::Formatter<W>) -> fmt::Result {
        let said = Said(self.parts);
        match self.place {
            0 => write!(f, ": {said}"),
            field => write!(f, ", field {field}: {said}"),
        }
    }
}
