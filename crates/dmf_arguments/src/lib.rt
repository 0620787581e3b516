//! The program's arguments: which run they ask for, or why they ask for none.
#![tactic(auto)]

pub use laws::plain_words_are_read;
pub use words::{
    Arguments, MAX_HISTORY, MAX_WORST, Mode, Parts, WordsFault, read_arguments, read_words,
};

mod help;
mod laws;
mod parts;
mod words;
