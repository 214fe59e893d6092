// Opcode bytes, and the instruction at a point of the code.
ghost use Rattle.std.specs.Prelude.{◌≡◌, ◌+◌, ◌≤◌, length, get_or};
ghost use Rattle.std.proofs.Math.Option.{some};
ghost use Rattle.definition.specs.Instructions.{opcode_of, inline_length, short_at, extend, instruction_of, decode};
ghost use Rattle.cells.specs.Optional.{optional};
ghost use Rattle.verifier.specs.Decoding.{later_of, call_at, reading_of};

use cells::arguments::arguments_at;
use cells::short_at;
use definition::numbers::{ARGUMENT_LIMIT, VERSION_THREE, VERSION_TWO};
use definition::{Condition, Instruction, Kind, Opcode, Operator, Signature};

// What is read at a point of the code: an instruction with its size in bytes.
#[derive(Clone, Copy)]
pub struct Reading {
    pub instruction: Instruction,
    pub size: usize,
}

// The opcodes that are there from version 2 on.
fn later_of(version: u8, b: u8) -> Opcode
    ensures { result ≡ later_of version b }
{
    if version < VERSION_TWO {
        return Opcode::OpUnknown;
    }
    match b {
        0x68 => Opcode::OpArithmetic(Operator::Multiply),
        0x6C => Opcode::OpArithmetic(Operator::Divide),
        0x99 => Opcode::OpBranch(Condition::IfZero),
        0xA1 => Opcode::OpBranch(Condition::IfLess),
        0xA7 => Opcode::OpBranch(Condition::Always),
        _ => Opcode::OpUnknown,
    }
}

// invokevirtual has one argument type inline before version 3, a list from there on.
fn invokevirtual_of(version: u8) -> Opcode
    ensures { result ≡ opcode_of version 0xB6 }
{
    if version < VERSION_THREE {
        Opcode::OpInvokevirtual
    } else {
        Opcode::OpInvokevirtualList
    }
}

// The one decision over opcode bytes, by the version of the class's file: every version has these; the later ones come with version 2.
pub fn opcode_of(version: u8, b: u8) -> Opcode
    ensures { result ≡ opcode_of version b }
{
    match b {
        0x01 => Opcode::OpAconstNull,
        0x11 => Opcode::OpSipush,
        0x15 => Opcode::OpLoad(Kind::IntKind),
        0x19 => Opcode::OpLoad(Kind::ReferenceKind),
        0x36 => Opcode::OpStore(Kind::IntKind),
        0x3A => Opcode::OpStore(Kind::ReferenceKind),
        0x57 => Opcode::OpPop,
        0x59 => Opcode::OpDup,
        0x60 => Opcode::OpArithmetic(Operator::Add),
        0x64 => Opcode::OpArithmetic(Operator::Subtract),
        0xB4 => Opcode::OpGetfield,
        0xB5 => Opcode::OpPutfield,
        0xB6 => invokevirtual_of(version),
        0xBB => Opcode::OpNew,
        0xAC => Opcode::OpReturn(Kind::IntKind),
        0xB0 => Opcode::OpReturn(Kind::ReferenceKind),
        _ => later_of(version, b),
    }
}

// The count of a list of arguments, behind two names that begin at place i; the place may be the last that a slice can have.
fn list_count(code: &[u8], i: usize) -> u8
    ensures { result ≡ get_or code.now (i + 4) 0 }
{
    if i < code.len() {
        cells::at(code, i + 4)
    } else {
        0
    }
}

// How many bytes follow an opcode inline, from place i on.
pub fn inline_length(code: &[u8], i: usize, o: Opcode) -> usize
    ensures { result ≡ inline_length code.now i o }
{
    match o {
        Opcode::OpAconstNull => 0,
        Opcode::OpSipush => 2,
        Opcode::OpLoad(_) => 1,
        Opcode::OpStore(_) => 1,
        Opcode::OpPop => 0,
        Opcode::OpDup => 0,
        Opcode::OpArithmetic(_) => 0,
        Opcode::OpGetfield => 6,
        Opcode::OpPutfield => 6,
        Opcode::OpInvokevirtual => 8,
        Opcode::OpInvokevirtualList => 7 + 2 * usize::from(list_count(code, i)),
        Opcode::OpNew => 2,
        Opcode::OpReturn(_) => 0,
        Opcode::OpBranch(_) => 2,
        Opcode::OpUnknown => 0,
    }
}

// Signed 16 bits as 32.
pub fn extended(n: u16) -> u32
    ensures { result ≡ extend n }
{
    let wide = u32::from(n);
    if wide < 32768 {
        wide
    } else {
        wide + 4294901760
    }
}

// The instructions with several names, which begin at place i.
fn getfield_at(code: &[u8], i: usize) -> Instruction
    requires { i ≤ length code.now }
    ensures { some result ≡ instruction_of code.now i Opcode.OpGetfield }
{
    Instruction::Getfield(
        short_at(code, i),
        short_at(code, i + 2),
        short_at(code, i + 4),
    )
}

fn putfield_at(code: &[u8], i: usize) -> Instruction
    requires { i ≤ length code.now }
    ensures { some result ≡ instruction_of code.now i Opcode.OpPutfield }
{
    Instruction::Putfield(
        short_at(code, i),
        short_at(code, i + 2),
        short_at(code, i + 4),
    )
}

// A call whose argument types, count many, begin at that place, behind two names that begin at place i; more than four types can't be read, as an
// unknown opcode can't.
fn call_at(code: &[u8], i: usize, place: usize, count: u8) -> Option<Instruction>
    requires { (i ≤ length code.now) × (place ≤ i + 5) }
    ensures { result ≡ optional (call_at code.now i place count) }
{
    if ARGUMENT_LIMIT < count {
        return None;
    }
    let s = Signature {
        name: short_at(code, i + 2),
        arguments: arguments_at(code, place, count),
        result: short_at(code, place + 2 * usize::from(count)),
    };
    Some(Instruction::Invokevirtual(short_at(code, i), s))
}

// The point that a branch names: its offset counts from the start of the method's code, not from the branch.
fn target_at(code: &[u8], place: usize) -> u16
    requires { place ≤ length code.now }
    ensures { result ≡ short_at code.now place }
{
    short_at(code, place)
}

// The instruction whose inline bytes begin at place i.
fn instruction_of(code: &[u8], i: usize, o: Opcode) -> Option<Instruction>
    requires { i ≤ length code.now }
    ensures { result ≡ optional (instruction_of code.now i o) }
{
    match o {
        Opcode::OpAconstNull => Some(Instruction::AconstNull),
        Opcode::OpSipush => Some(Instruction::Sipush(extended(short_at(code, i)))),
        Opcode::OpLoad(k) => Some(Instruction::Load(k, cells::at(code, i))),
        Opcode::OpStore(k) => Some(Instruction::Store(k, cells::at(code, i))),
        Opcode::OpPop => Some(Instruction::Pop),
        Opcode::OpDup => Some(Instruction::Dup),
        Opcode::OpArithmetic(a) => Some(Instruction::Arithmetic(a)),
        Opcode::OpGetfield => Some(getfield_at(code, i)),
        Opcode::OpPutfield => Some(putfield_at(code, i)),
        Opcode::OpInvokevirtual => call_at(code, i, i + 4, 1),
        Opcode::OpInvokevirtualList => call_at(code, i, i + 5, list_count(code, i)),
        Opcode::OpNew => Some(Instruction::New(short_at(code, i))),
        Opcode::OpReturn(k) => Some(Instruction::Return(k)),
        Opcode::OpBranch(k) => Some(Instruction::Branch(k, target_at(code, i))),
        Opcode::OpUnknown => None,
    }
}

// The instruction at point p of code of that version.
pub fn decode(version: u8, code: &[u8], p: usize) -> Option<Reading>
    ensures { result ≡ reading_of (decode version code.now p) }
{
    if code.len() <= p {
        return None;
    }
    let o = opcode_of(version, cells::at(code, p));
    let n = inline_length(code, p + 1, o);
    if code.len() - p <= n {
        return None;
    }
    let instruction = instruction_of(code, p + 1, o)?;
    Some(Reading {
        instruction,
        size: n + 1,
    })
}
