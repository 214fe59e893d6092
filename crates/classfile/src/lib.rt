// Class files read off any bytes. The quick functions read fixed places and check nothing, so that they are total; `reads` checks every
// rule of a file. Of bytes that `reads` accepts the quick functions give the file that the rules give.
#![tactic(auto)]

mod fields; // fields.rt: the version, a class's names and its fields, by their number
mod signatures; // signatures.rt: a method's signature, by the place at which its record begins
mod methods; // methods.rt: methods, by their number and by the place at which their record begins, and their code
mod maps; // maps.rt: a method's maps, by the place at which each begins
mod rules; // rules.rt: the rules of a file, one after another

pub use fields::{class_name, field_count, field_type, find_field, super_name, version};
pub use maps::{map_count, map_depth, map_local, map_offset, map_operand, map_size, method_maps};
pub use methods::{code, find_method, method_count, method_place, part};
pub use rules::reads;
pub use signatures::{is_named, method_signature};

// A method by its number among the file's methods, and the place at which its record begins.
#[derive(Clone, Copy)]
pub struct MethodFound {
    pub number: u8,
    pub place: u32,
}
