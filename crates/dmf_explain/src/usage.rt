//! What words that the program refuses may mean.
use crate::part::Shown;
use dmf_text::number;
use std::fmt;

/// What the words may mean.
#[derive(Clone, Copy)]
pub enum Meant<'a> {
    /// To solve the problem in this file, which has to come from standard input.
    Solve {
        flags: SolveFlags,
        file: &'a str,
    },
    /// To leave out parts of the problem in this file in turn, which has to come from standard input.
    Vital {
        flags: VitalFlags<'a>,
        file: &'a str,
    },
    /// To check a problem's solution, or to run commands on a problem, from this file, which has to come from standard input.
    Input {
        command: &'a str,
        problem: &'a str,
        file: &'a str,
    },
    /// The number of an option.
    Number {
        most: u32,
    },
}

/// The flags before a file to be solved.
#[derive(Clone, Copy, Default)]
pub struct SolveFlags {
    any: bool,
    brief: bool,
    cut: bool,
}

/// The options before a file whose parts are left out in turn. With `pairs` there is a number of the worst, and no
/// `nodes`; with `second` there is none of the three.
#[derive(Clone, Copy)]
pub struct VitalFlags<'a> {
    nodes: bool,
    pairs: bool,
    second: bool,
    worst: Option<&'a str>,
}

impl fmt::Display for VitalFlags<'_> {
    fn fmt<W: fmt::Write>(&self, f: &mut fmt::Formatter<W>) -> fmt::Result {
        let nodes = if self.nodes { "--nodes " } else { "" };
        let pairs = if self.pairs { "--pairs " } else { "" };
        match self.worst {
            Some(worst) => write!(f, "{nodes}{pairs}--worst {worst} "),
            None if self.second => f.write_str("--second "),
            None => f.write_str(nodes),
        }
    }
}

impl fmt::Display for SolveFlags {
    fn fmt<W: fmt::Write>(&self, f: &mut fmt::Formatter<W>) -> fmt::Result {
        let any = if self.any { "--any " } else { "" };
        let brief = if self.brief { "--brief " } else { "" };
        let cut = if self.cut { "--cut " } else { "" };
        write!(f, "{any}{brief}{cut}")
    }
}

impl fmt::Display for Meant<'_> {
    fn fmt<W: fmt::Write>(&self, f: &mut fmt::Formatter<W>) -> fmt::Result {
        match self {
            Meant::Solve { flags, file } => {
                let shown = Shown(file.as_bytes());
                write!(f, "dmf solve {flags}<{shown}")
            }
            Meant::Vital { flags, file } => {
                let shown = Shown(file.as_bytes());
                write!(f, "dmf vital {flags}<{shown}")
            }
            Meant::Input {
                command,
                problem,
                file,
            } => {
                let problem = Shown(problem.as_bytes());
                let shown = Shown(file.as_bytes());
                write!(f, "dmf {command} {problem} <{shown}")
            }
            Meant::Number { most } => write!(f, "N is a whole number from 0 to {most}"),
        }
    }
}

/// What these words may mean. The first is the program's name, and the numbers are the largest of `--history` and of `--worst`.
pub fn meant_by<'a>(words: &'a [String], history: u32, worst: u32) -> Option<Meant<'a>> {
    if has_wrong_number(words, "--history", u64::from(history)) {
        return Some(Meant::Number { most: history });
    }
    if has_wrong_number(words, "--worst", u64::from(worst)) {
        return Some(Meant::Number { most: worst });
    }
    match words {
        [_, command, rest @ ..] if command.as_str() == "solve" => solve_of(rest),
        [_, command, rest @ ..] if command.as_str() == "vital" => vital_of(rest),
        [_, command, problem, file] => input_of(command.as_str(), problem.as_str(), file.as_str()),
        [_, file] if is_file_name(file.as_str()) => Some(Meant::Solve {
            flags: SolveFlags::default(),
            file: file.as_str(),
        }),
        _ => None,
    }
}

/// The check or the session that a command with two files may mean.
fn input_of<'a>(command: &'a str, problem: &'a str, file: &'a str) -> Option<Meant<'a>> {
    let takes_input = command == "check" || command == "session";
    if takes_input && is_file_name(problem) && is_file_name(file) {
        return Some(Meant::Input {
            command,
            problem,
            file,
        });
    }
    None
}

/// The solve that the words after `solve` may mean: they have one file beside the flags, whose name needs no quotes.
fn solve_of(words: &[String]) -> Option<Meant<'_>> {
    let mut flags = SolveFlags::default();
    let mut meant: Option<&str> = None;
    for word in words {
        let word = word.as_str();
        match word {
            "--any" => flags.any = true,
            "--brief" => flags.brief = true,
            "--cut" => flags.cut = true,
            "--progress" => {}
            file if meant.is_none() && is_file_name(file) => meant = Some(file),
            _ => return None,
        }
    }
    let file = meant?;
    Some(Meant::Solve { flags, file })
}

/// The run that the words after `vital` may mean: they have one file beside the options, whose name needs no quotes.
fn vital_of(words: &[String]) -> Option<Meant<'_>> {
    let mut nodes = false;
    let mut pairs = false;
    let mut second = false;
    let mut worst: Option<&str> = None;
    let mut is_worst = false;
    let mut meant: Option<&str> = None;
    for word in words {
        let word = word.as_str();
        match word {
            number if is_worst => {
                worst = Some(number);
                is_worst = false;
            }
            "--nodes" => nodes = true,
            "--pairs" => pairs = true,
            "--second" => second = true,
            "--worst" => is_worst = true,
            file if meant.is_none() && is_file_name(file) => meant = Some(file),
            _ => return None,
        }
    }
    if pairs && (nodes || worst.is_none()) || second && (nodes || pairs || worst.is_some()) {
        return None;
    }
    let file = meant?;
    let flags = VitalFlags {
        nodes,
        pairs,
        second,
        worst,
    };
    Some(Meant::Vital { flags, file })
}

/// Whether the word may name a file, by a name that needs no quotes.
fn is_file_name(word: &str) -> bool {
    is_plain(word) && !word.starts_with("-")
}

/// Whether a shell passes the word on unchanged.
fn is_plain(word: &str) -> bool {
    let mut is_plain = !word.is_empty();
    for byte in word.as_bytes() {
        is_plain &= byte.is_ascii_alphanumeric() || b"._/-+,:@%=".contains(byte);
    }
    is_plain
}

/// Whether the option's word is followed by none that is a number up to the most.
fn has_wrong_number(words: &[String], option: &str, most: u64) -> bool {
    let mut is_number = false;
    for word in words {
        let word = word.as_bytes();
        if is_number && !is_at_most(word, most) {
            return true;
        }
        is_number = word == option.as_bytes();
        if let Some([b'=', value @ ..]) = word.strip_prefix(option.as_bytes()) {
            if !is_at_most(value, most) {
                return true;
            }
        }
    }
    is_number
}

fn is_at_most(word: &[u8], most: u64) -> bool {
    matches!(number(word), Ok(number) if number <= most)
}
