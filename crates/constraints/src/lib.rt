// The test of agreement, and why it fails.
#![tactic(auto)]

mod joining; // joining.rt: places joined into lists by a key
mod numbering; // numbering.rt: the requests of a store as numbers and as nodes
mod grouping; // grouping.rt: groups of tied requests
mod search; // search.rt: a search over groups, along links or against them
mod upward; // upward.rt: the classes above a class
mod pairs; // pairs.rt: whether a pair of requests breaks agreement
mod looking; // looking.rt: whose turn it is to be looked at, and where
mod agreement; // agreement.rt: the test of agreement
mod linking; // linking.rt: the links of rows between nodes
mod order; // order.rt: which of two rows goes first
mod layers; // layers.rt: the search backward from where walks end
mod choosing; // choosing.rt: the best of the chains found
mod singles; // singles.rt: rows that break agreement by themselves
mod reasons; // reasons.rt: why a store doesn't agree

pub use agreement::{agreed, check};
pub use reasons::reason;
