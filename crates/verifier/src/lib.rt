// Decoding of instructions, and the verifier.
#![tactic(auto)]

mod decoding; // decoding.rt: opcode bytes, and the instruction at a point
mod types; // types.rt: the verifier's types as numbers, and its state at a point
mod lookups; // lookups.rt: the map at a point, and where an instruction goes on
mod unmapped; // unmapped.rt: a method that lacks a map
mod effects; // effects.rt: what each instruction does to the state
mod changes; // changes.rt: an effect carried out
mod notes; // notes.rt: notes posted as they come
mod flows; // flows.rt: the values above a receiver, and what flows into a map
mod turns; // turns.rt: one turn of the walk over the code
mod quiet; // quiet.rt: turns without notes, as many as there are in a row
mod methods; // methods.rt: the walk over a method
mod classes; // classes.rt: all methods of a class file
mod places; // places.rt: where a class file is refused

pub use classes::verify_class;
pub use decoding::{Reading, decode, extended, inline_length, opcode_of};
pub use methods::verify_method;
pub use notes::Rejected;
pub use places::{Check, Found, find_place};
pub use unmapped::{is_class_unmapped, is_unmapped};
