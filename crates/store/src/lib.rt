// Word 1: whether tables are no store. Lengths, counts and the numbers of rows are tested first, then the classes' files; after that classes are read at once, and
// superclasses, sizes, rows, values and the trace of loads are tested, each used row once. And the numbers that added rows get.
#![tactic(auto)]

mod counts; // counts.rt: lengths of the tables, and counts within their limits
mod sources; // sources.rt: classes with their files, entries and constraints
mod values; // values.rt: values of objects' fields and of frames
mod trace; // trace.rt: the loads that can be taken back
mod brokenness; // brokenness.rt: superclasses, whether a store is broken, and the sizes of its classes
mod numbering; // numbering.rt: the numbers of rows that are added

pub use brokenness::{class_sizes, is_broken};
pub use counts::is_shaped;
pub use numbering::number_rows;
