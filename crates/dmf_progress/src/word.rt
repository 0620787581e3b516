//! Reports of how far a run is.
use std::fmt;

const MEGABYTE: u64 = 1_000_000;

/// How far a task is.
#[derive(Clone, Copy)]
pub enum Word {
    /// The bytes that are read, and those of the whole text, if that is known.
    Reading {
        bytes: u64,
        size: Option<u64>,
    },
    /// The value so far, its upper bound if that is known, the phases so far, and the paths.
    Solving {
        value: u64,
        most: Option<u64>,
        phases: u32,
        paths: u64,
    },
    /// Which of how many arcs is drained, and how much flow is taken off so far.
    Draining {
        place: usize,
        count: usize,
        taken: u64,
    },
    /// The parts that are valued, or need not be, and all of them.
    Valuing {
        done: usize,
        count: usize,
    },
    /// The bytes that are written.
    Writing {
        bytes: u64,
    },
}

impl fmt::Display for Word {
    fn fmt<W: fmt::Write>(&self, f: &mut fmt::Formatter<W>) -> fmt::Result {
        match *self {
            Word::Reading {
                bytes,
                size: Some(size),
            } => {
                let (read, whole) = (bytes / MEGABYTE, size / MEGABYTE);
                write!(f, "dmf: reading, {read} MB of {whole} MB")
            }
            Word::Reading { bytes, size: None } => {
                let read = bytes / MEGABYTE;
                write!(f, "dmf: reading, {read} MB")
            }
            Word::Solving {
                value,
                most: Some(most),
                phases,
                paths,
            } => write!(
                f,
                "dmf: solving, value {value} of at most {most}, phase {phases}, {paths} paths"
            ),
            Word::Solving {
                value,
                most: None,
                phases,
                paths,
            } => write!(
                f,
                "dmf: solving, value {value}, phase {phases}, {paths} paths"
            ),
            Word::Draining {
                place,
                count,
                taken,
            } => write!(
                f,
                "dmf: draining, arc {place} of {count}, {taken} taken off"
            ),
            Word::Valuing { done, count } => write!(f, "dmf: valuing, {done} of {count}"),
            Word::Writing { bytes } => {
                let written = bytes / MEGABYTE;
                write!(f, "dmf: writing, {written} MB")
            }
        }
    }
}
