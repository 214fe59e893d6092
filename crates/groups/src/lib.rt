// Groups of tied requests, made of rows of ties.
#![tactic(auto)]

mod names; // names.rt: the first row of each row's name
mod uniting; // uniting.rt: roots of rows, and groups made one
mod claims; // claims.rt: which row named a request
mod grouping; // grouping.rt: the lowest row of each row's group
mod numbered; // numbered.rt: groups as numbers beside the ties, tested and written

pub use grouping::group_rows;
pub use numbered::{groups_fit, write_groups};
