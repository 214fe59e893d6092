// Lines of boxscript: a line of bytes read as a command, and an answer printed as a line.
#![tactic(auto)]

mod fields; // fields.rt: parts of a line, and where the first field ends
mod numbers; // numbers.rt: decimal numbers and ints
mod files; // files.rt: a file as pairs of hexadecimal digits
mod reading; // reading.rt: a line read as a command
mod answers; // answers.rt: the details of an answer
mod printing; // printing.rt: an answer printed as a line

pub use answers::details_of;
pub use printing::print_line;
pub use reading::read_line;

// The call that a line asks for. A define has its file's length; the file's bytes are in the table that was lent.
#[derive(Clone, Copy)]
pub enum Command {
    Record(u16, u16, u16),
    Define(u16, u32),
    Start(u16, u16, u16, u16, u32),
    Step,
    Drop(u16),
}

// A first field that is a number of at most 16 bits, and where the fields after it begin.
#[derive(Clone, Copy)]
struct Head {
    number: u16,
    rest: usize,
}
