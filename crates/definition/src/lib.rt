// The answers and instructions of the tariff class machine, as values that code and definitions share.
#![tactic(auto)]

pub mod numbers;

// What a call refuses with: the class it wants, as a loader and a name (word 5), or another word by its number, by which definitions, stores and C programs
// know it.
#[derive(Clone, Copy)]
pub enum Refusal {
    Wanted(u8, u16),
    Word(u8),
}

// What a step answers. A task is 0, the quote, or 1, the report; an int is its 32 bits.
#[derive(Clone, Copy)]
pub enum Answer {
    Idle,
    Ran(u8),
    Finished(u8, u32),
    Refused(Refusal),
}

// What a call answers: define its class's number, a step its answer, a run its count of steps that ran and the last answer, a sweep the
// number of objects that it freed.
#[derive(Clone, Copy)]
pub enum Reply {
    Accepted,
    Defined(u8),
    Stepped(Answer),
    RanFor(u16, Answer),
    Swept(u16),
    Denied(Refusal),
}

// What a tried load answers: the load's reply, and how many rows the listed chain has.
#[derive(Clone, Copy)]
pub struct Trial {
    pub reply: Reply,
    pub count: u16,
}

// What the check of agreement answers: none, where the store agrees, or a pair of loaded requests that breaks agreement, from the one to the
// other, each by its loader and its name. It is no Option: the definitions and their statements speak of it by these words.
#[derive(Clone, Copy)]
pub enum Check {
    Agreed,
    Breaking(u16, u16, u16, u16),
}

// A call's answer as numbers: the refusal's number, 0 if there is none, then three details. An int is its 32 bits.
#[derive(Clone, Copy)]
pub struct Details {
    pub refusal: u8,
    pub one: u32,
    pub two: u32,
    pub three: u32,
}

// The types of a method's arguments in their order: none to four.
#[derive(Clone, Copy)]
pub enum Arguments {
    NoArguments,
    OneArgument(u16),
    TwoArguments(u16, u16),
    ThreeArguments(u16, u16, u16),
    FourArguments(u16, u16, u16, u16),
}

// A method's signature: its name, its arguments' types and its result's.
#[derive(Clone, Copy)]
pub struct Signature {
    pub name: u16,
    pub arguments: Arguments,
    pub result: u16,
}

// Whether a value is an int, or a reference: null or an object.
#[derive(Clone, Copy)]
pub enum Kind {
    IntKind,
    ReferenceKind,
}

// What arithmetic does with two ints.
#[derive(Clone, Copy)]
pub enum Operator {
    Add,
    Subtract,
    Multiply,
    Divide,
}

// When a branch jumps: always; if the int on top is 0; if the lower of two ints is less than the upper.
#[derive(Clone, Copy)]
pub enum Condition {
    Always,
    IfZero,
    IfLess,
}

// What an opcode byte is: load, store and return go by a kind, arithmetic by an operator, a branch by its condition. invokevirtual has one argument type
// inline before version 3, a list from there on.
#[derive(Clone, Copy)]
pub enum Opcode {
    OpAconstNull,
    OpSipush,
    OpLoad(Kind),
    OpStore(Kind),
    OpPop,
    OpDup,
    OpArithmetic(Operator),
    OpGetfield,
    OpPutfield,
    OpInvokevirtual,
    OpInvokevirtualList,
    OpNew,
    OpReturn(Kind),
    OpBranch(Condition),
    OpUnknown,
}

// An instruction: its opcode and what stands inline. A local is its number, the int of sipush its 32 bits, a branch's target an offset from the
// start of its method's code, the others names and a signature.
#[derive(Clone, Copy)]
pub enum Instruction {
    AconstNull,
    Sipush(u32),
    Load(Kind, u8),
    Store(Kind, u8),
    Pop,
    Dup,
    Arithmetic(Operator),
    Getfield(u16, u16, u16),
    Putfield(u16, u16, u16),
    Invokevirtual(u16, Signature),
    New(u16),
    Return(Kind),
    Branch(Condition, u16),
}
