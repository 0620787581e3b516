//! Explanations for a terminal: what is wrong with an argument, a file or a line of a text.
#![tactic(auto)]

mod advice;
mod explain;
mod fields;
mod front;
mod look;
mod names;
mod page;
mod part;
mod place;
mod problem;
mod solution;
mod usage;

pub use advice::way_on;
pub use explain::{
    Origin, explain_open, explain_problem, explain_read, explain_room, explain_solution,
    explain_words, invite, text_of,
};
pub use fields::{FieldRange, Placed, count, field_at, first_fault};
pub use front::Front;
pub use names::{ArcEnds, Named, Thing, behind, find_ends, find_named, without_last_field};
pub use page::help_without_page;
pub use part::{Part, Parts, Said, about, about_with, no_number, numbered, words};
pub use problem::found;
