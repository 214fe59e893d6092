// Lookups on the tables: the class that a request is cached as, what lies upward of a class, its fields and its methods. Each is total and
// reads classes off the kept files without checking them, over `quick_base`, which on a store that isn't broken is the definition's.
#![tactic(auto)]

mod cache; // cache.rt: the row in which a request stands, and the class that it is cached as
mod classes; // classes.rt: classes by their number: loader, file, version, name, superclass
mod fields; // fields.rt: fields upward of a class, and the fields of its objects
mod methods; // methods.rt: methods upward of a class, and their code

pub use methods::code_of;

// The tables in which classes are looked up: the counts, the rows of classes, the kept files and the cache. `base_of` has the Base of the definitions that they
// stand for.
#[derive(Clone, Copy)]
pub struct Base<'a> {
    pub counts: &'a [u16],
    pub classes: &'a [u16],
    pub kept: &'a [u8],
    pub cache: &'a [u16],
}

// A selected method: the class that declares it, and its place there.
#[derive(Clone, Copy)]
pub struct Selection {
    pub class: u32,
    pub place: u32,
}
