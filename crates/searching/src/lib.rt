// How could this load: a search for an order of offered loads that is accepted throughout and ends with a wanted request cached. Orders are tried on a second store,
// a copy of the box's, by the public loads; a load that led nowhere is undone by the counts before it. The box is only read.
#![tactic(auto)]

mod offers; // offers.rt: the offers as rows of cells and a pool of bytes
mod asking; // asking.rt: loads that can be refused without a look at their code
mod trying; // trying.rt: orders of so many loads, tried on the second store
mod shortest; // shortest.rt: orders by rising length
mod replaying; // replaying.rt: the loads of an order, made
mod searches; // searches.rt: the search, its tests and the second store

pub use searches::search;

// An order of loads: how many it has, and the order as a number, with the offers' numbers as its digits to the base 8, the first load's the lowest.
#[derive(Clone, Copy)]
pub struct Order {
    pub loads: u32,
    pub code: u32,
}
