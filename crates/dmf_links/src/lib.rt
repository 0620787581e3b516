//! Pairs of opposite links, and the links of pairs by node: made, numbered, and put on and taken off at the end.
#![tactic(auto)]

pub use links::{Built, NO_PLACE, build, open_flag, opposite_flags, put_pair};
pub use numbers::{number_last, number_links, share_known};
pub use pair::{Pair, Pairs};
pub use places::Places;
pub use stack::{has_spare, idle_pair, put_on, take_off};
pub use table::LinkTable;

mod links;
mod numbers;
mod pair;
mod places;
mod stack;
mod table;
