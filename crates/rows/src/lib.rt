// Ties and subtype constraints as rows: which are there, adding them, and their numbers.
#![tactic(auto)]

mod adding; // adding.rt: rows added to the tables of ties and of subtype constraints
mod numbers; // numbers.rt: the numbers of rows

pub use adding::{post_note, subtype_known, tie_known};
pub use numbers::numbers_fit;
