// Instructions that touch their own frame alone, and returns: each function decides on the frame's cells and answers a plan.
#![tactic(auto)]

mod ints; // ints.rt: products and quotients of ints, by their bits

ghost use Rattle.std.specs.Prelude.{◌≡◌, ℕ, List};
ghost use Rattle.definition.specs.Answers.{ok};
ghost use Rattle.definition.specs.Machine.{compute};
ghost use Rattle.instructions.specs.Plans.{computed, jumped, FrameOnly, Returning};
ghost use Rattle.instructions.specs.Operands.{is_reference, is_of_kind, is_kind, room_below};

use definition::numbers::{
    KIND_INT, KIND_NULL, KIND_OBJECT, LOCAL_COUNT, NAME_INT, OPERAND_LIMIT, WORD_DIVISOR,
    WORD_FULL, WORD_STUCK,
};
use definition::{Condition, Instruction, Kind, Operator, Refusal};
use frames::{Cell, Top};

// A method to be invoked: a class and its method, the object that is this, and how many arguments it has. Their values stay where they are until the frame
// is entered: among the operands, behind the receiver, which is the first that doesn't stay.
#[derive(Clone, Copy)]
pub struct Invocation {
    pub class: u32,
    pub method: u32,
    pub object: u32,
    pub count: u32,
}

// What a step is going to do. d operands stay; a value is its two cells.
#[derive(Clone, Copy)]
pub enum Plan {
    // A refusal.
    Refuse(Refusal),
    // d operands stay.
    Keep(u32),
    // d operands stay, and the frame goes on at that point of its code.
    Jump(u32, u16),
    // d operands stay, with a value above them.
    Above(u32, Cell),
    // d operands stay; a local is set to a value.
    Local(u32, u8, Cell),
    // A value is given back to the frame below.
    Give(Cell),
    // A first frame gives an int back.
    Finish(u32),
    // d operands stay; a field of an object is set to a value.
    Field(u32, u32, u8, Cell),
    // d operands stay; a frame is entered.
    Enter(u32, Invocation),
    // d operands stay; an object of a class is made, with a number, and stands above them.
    Make(u32, u32, u16),
}

// A refusal by its word.
pub fn refuse(word: u8) -> Plan
    ensures { result ≡ Plan.Refuse (Refusal.Word word) }
{
    Plan::Refuse(Refusal::Word(word))
}

// Whether cells hold null or an object.
pub fn is_reference(v: Cell) -> bool
    ensures { result ≡ is_reference v.kind v.bits }
{
    v.kind == KIND_OBJECT || v.kind == KIND_NULL && v.bits == 0
}

// Whether cells hold a value of the kind.
pub fn is_of_kind(kind: Kind, v: Cell) -> bool
    ensures { result ≡ is_of_kind kind v.kind v.bits }
{
    match kind {
        Kind::IntKind => v.kind == KIND_INT,
        Kind::ReferenceKind => is_reference(v),
    }
}

// Whether cells hold an int, for int, or a reference, for a class name.
pub fn is_kind(name: u16, v: Cell) -> bool
    ensures { result ≡ is_kind name v.kind v.bits }
{
    if name == NAME_INT {
        v.kind == KIND_INT
    } else {
        is_reference(v)
    }
}

// Constants

pub fn aconst_null(top: Top) -> Plan
    ensures { (F : List ℕ) (b : ℕ) → FrameOnly F b top.depth Instruction.AconstNull result }
{
    let d = top.depth;
    if OPERAND_LIMIT <= d {
        return refuse(WORD_FULL);
    }
    Plan::Above(
        d,
        Cell {
            kind: KIND_NULL,
            bits: 0,
        },
    )
}

pub fn sipush(top: Top, n: u32) -> Plan
    ensures { (F : List ℕ) (b : ℕ) → FrameOnly F b top.depth (Instruction.Sipush n) result }
{
    let d = top.depth;
    if OPERAND_LIMIT <= d {
        return refuse(WORD_FULL);
    }
    Plan::Above(
        d,
        Cell {
            kind: KIND_INT,
            bits: n,
        },
    )
}

// Locals

pub fn load(frames: &[u32], top: Top, kind: Kind, j: u8) -> Plan
    ensures { FrameOnly frames.now top.base top.depth (Instruction.Load kind j) result }
{
    let d = top.depth;
    if OPERAND_LIMIT <= d {
        return refuse(WORD_FULL);
    }
    if LOCAL_COUNT <= j {
        return refuse(WORD_STUCK);
    }
    let v = frames::local(frames, top.base, j);
    if !is_of_kind(kind, v) {
        return refuse(WORD_STUCK);
    }
    Plan::Above(d, v)
}

pub fn store(frames: &[u32], top: Top, kind: Kind, j: u8) -> Plan
    ensures { FrameOnly frames.now top.base top.depth (Instruction.Store kind j) result }
{
    let d = top.depth;
    if d == 0 {
        return refuse(WORD_STUCK);
    }
    let v = frames::operand(frames, top.base, d - 1);
    if !is_of_kind(kind, v) {
        return refuse(WORD_STUCK);
    }
    if LOCAL_COUNT <= j {
        return refuse(WORD_STUCK);
    }
    Plan::Local(d - 1, j, v)
}

// Operands

pub fn pop(top: Top) -> Plan
    ensures { (F : List ℕ) (b : ℕ) → FrameOnly F b top.depth Instruction.Pop result }
{
    let d = top.depth;
    if d == 0 {
        return refuse(WORD_STUCK);
    }
    Plan::Keep(d - 1)
}

pub fn dup(frames: &[u32], top: Top) -> Plan
    ensures { FrameOnly frames.now top.base top.depth Instruction.Dup result }
{
    let d = top.depth;
    if OPERAND_LIMIT <= d {
        return refuse(WORD_FULL);
    }
    if d == 0 {
        return refuse(WORD_STUCK);
    }
    let v = frames::operand(frames, top.base, d - 1);
    Plan::Above(d, v)
}

// An int above d operands.
fn int_above(d: u32, bits: u32) -> Plan
    ensures { result ≡ computed d (ok bits) }
{
    Plan::Above(
        d,
        Cell {
            kind: KIND_INT,
            bits,
        },
    )
}

// What an operator makes of the ints x and y, above d operands.
fn compute(o: Operator, d: u32, x: u32, y: u32) -> Plan
    ensures { result ≡ computed d (compute o x y) }
{
    match o {
        Operator::Add => int_above(d, std::num::wrapping_add_u32(x, y)),
        Operator::Subtract => int_above(d, std::num::wrapping_sub_u32(x, y)),
        Operator::Multiply => int_above(d, ints::product(x, y)),
        Operator::Divide => {
            if y == 0 {
                return refuse(WORD_DIVISOR);
            }
            int_above(d, ints::quotient(x, y))
        }
    }
}

pub fn arithmetic(frames: &[u32], top: Top, o: Operator) -> Plan
    ensures { FrameOnly frames.now top.base top.depth (Instruction.Arithmetic o) result }
{
    let d = top.depth;
    if d == 0 {
        return refuse(WORD_STUCK);
    }
    let e = d - 1;
    if e == 0 {
        return refuse(WORD_STUCK);
    }
    let y = frames::operand(frames, top.base, e);
    if y.kind != KIND_INT {
        return refuse(WORD_STUCK);
    }
    let x = frames::operand(frames, top.base, e - 1);
    if x.kind != KIND_INT {
        return refuse(WORD_STUCK);
    }
    compute(o, e - 1, x.bits, y.bits)
}

// Branches

// A branch that leaves d operands: it jumps to the target, or goes on after itself.
fn jump_if(taken: bool, d: u32, target: u16) -> Plan
    ensures { result ≡ jumped taken d target }
{
    if taken {
        return Plan::Jump(d, target);
    }
    Plan::Keep(d)
}

fn if_zero(frames: &[u32], top: Top, target: u16) -> Plan
    ensures { FrameOnly frames.now top.base top.depth (Instruction.Branch Condition.IfZero target) result }
{
    let d = top.depth;
    if d == 0 {
        return refuse(WORD_STUCK);
    }
    let x = frames::operand(frames, top.base, d - 1);
    if x.kind != KIND_INT {
        return refuse(WORD_STUCK);
    }
    jump_if(x.bits == 0, d - 1, target)
}

fn if_less(frames: &[u32], top: Top, target: u16) -> Plan
    ensures { FrameOnly frames.now top.base top.depth (Instruction.Branch Condition.IfLess target) result }
{
    let d = top.depth;
    if d == 0 {
        return refuse(WORD_STUCK);
    }
    let e = d - 1;
    if e == 0 {
        return refuse(WORD_STUCK);
    }
    let y = frames::operand(frames, top.base, e);
    if y.kind != KIND_INT {
        return refuse(WORD_STUCK);
    }
    let x = frames::operand(frames, top.base, e - 1);
    if x.kind != KIND_INT {
        return refuse(WORD_STUCK);
    }
    jump_if(cells::is_less(x.bits, y.bits), e - 1, target)
}

pub fn branch(frames: &[u32], top: Top, c: Condition, target: u16) -> Plan
    ensures { FrameOnly frames.now top.base top.depth (Instruction.Branch c target) result }
{
    match c {
        Condition::Always => Plan::Jump(top.depth, target),
        Condition::IfZero => if_zero(frames, top, target),
        Condition::IfLess => if_less(frames, top, target),
    }
}

// Returns

// Whether the frame below, if there is one, has room for a result.
fn has_room_below(frames: &[u32], top: Top) -> bool
    ensures { result ≡ room_below frames.now top.task top.row }
{
    top.row == 0 || frames::depth(frames, frames::row(top.task, top.row - 1)) < OPERAND_LIMIT
}

// A value of the kind given back; a first frame's must be an int.
pub fn give_back(frames: &[u32], top: Top, kind: Kind) -> Plan
    ensures { Returning frames.now top.task top.row top.base top.depth (Instruction.Return kind) result }
{
    let d = top.depth;
    if !has_room_below(frames, top) {
        return refuse(WORD_FULL);
    }
    if d == 0 {
        return refuse(WORD_STUCK);
    }
    let v = frames::operand(frames, top.base, d - 1);
    if !is_of_kind(kind, v) {
        return refuse(WORD_STUCK);
    }
    if top.row != 0 {
        return Plan::Give(v);
    }
    if v.kind != KIND_INT {
        return refuse(WORD_STUCK);
    }
    Plan::Finish(v.bits)
}
