// A load, what it adds, and what is decided of it.
use definition::Refusal;

// A load: a define, whose file is lent beside it, or a record. Numbers are as the host gives them.
#[derive(Clone, Copy)]
pub(crate) enum Load {
    Define(u32),
    Record(u32, u32, u32),
}

// The newcomer, what a load adds: an entry of the cache, by loader, name and class. If the class is new too, `above` is its direct superclass's number and 1,
// else 0. With the newcomer there are so many ties and subtype constraints.
#[derive(Clone, Copy)]
pub(crate) struct Newcomer {
    pub(crate) loader: u8,
    pub(crate) name: u16,
    pub(crate) class: u16,
    // As the table of superclasses has it: the superclass's number and 1, 0 where there is none.
    pub(crate) above: u8,
    pub(crate) tied: u16,
    pub(crate) noted: u16,
}

// What is decided of a load: it is refused, it changes nothing, or a newcomer is to be added.
pub(crate) type Plan = Result<Option<Newcomer>, Refusal>;
