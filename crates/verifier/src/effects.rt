// What each instruction does to the types.
ghost use Rattle.std.specs.Prelude.{◌&&◌, ◌≡◌, ℕ, ◌+◌, leb, get_or, Some};
ghost use Rattle.std.proofs.Math.Option.{some};
ghost use Rattle.definition.specs.Numbers.{name_object};
ghost use Rattle.definition.specs.Lists.{is_some};
ghost use Rattle.definition.specs.Maybe.{need};
ghost use Rattle.definition.specs.Verifier.{meet_class, meet_int, meets, meet_kind, effect, returns};
ghost use Rattle.verifier.specs.Types.{type_of, local_of, types_of};
ghost use Rattle.verifier.specs.Effects.{notes_in, meet_value, going, ending, outcome};
ghost use Rattle.verifier.specs.Trace.{values_trace};
ghost use Rattle.verifier.specs.Answers.{outcome_of};

use crate::types::{INT, LOCALS, NULL, OPERANDS, Types, UNSET, local, operand, pop, type_of_name};
use cells::arguments::{argument_at, argument_count};
use definition::numbers::{NAME_OBJECT, SHORT_RANGE};
use definition::{Arguments, Condition, Instruction, Kind, Operator, Signature};

// How a type meets what is demanded: not at all, as it stands, or under the note 'low below high'. These are three answers, which an Option of an Option
// would name less plainly.
#[derive(Clone, Copy)]
pub enum Meeting {
    Unmet,
    Met,
    Noted(u16, u16),
}

// What an instruction does that isn't rejected: it keeps the lowest operands, then pushes a type or sets a local, or it ends the method.
// The meeting is the receiver's, which is the lowest operand that isn't kept. The names are demanded of the values above it, in their order, and met.
#[derive(Clone, Copy)]
pub enum Effect {
    Kept(usize, Meeting, Arguments),
    Pushed(usize, u32, Meeting, Arguments),
    Stored(usize, usize, u32),
    Ended(Meeting),
}

// Whether what is demanded is met.
pub(crate) fn met(m: Meeting) -> bool
    ensures { result ≡ is_some (notes_in m) }
{
    !matches!(m, Meeting::Unmet)
}

// A type where class b is demanded.
fn meet_class(b: u16, t: u32) -> Meeting
    ensures { notes_in result ≡ meet_class b (type_of t) }
{
    if t == INT {
        return Meeting::Unmet;
    }
    if t == NULL {
        return Meeting::Met;
    }
    let a = (t % SHORT_RANGE) as u16;
    if a == b {
        Meeting::Met
    } else {
        Meeting::Noted(a, b)
    }
}

// A type where int is demanded.
fn meet_int(t: u32) -> Meeting
    ensures { notes_in result ≡ meet_int (type_of t) }
{
    if t == INT {
        Meeting::Met
    } else {
        Meeting::Unmet
    }
}

// A type where name b is demanded.
pub(crate) fn meet_name(t: u32, b: u16) -> Meeting
    ensures { notes_in result ≡ meets (type_of t) b }
{
    if b == 1 {
        meet_int(t)
    } else {
        meet_class(b, t)
    }
}

// The type of value i above the receiver at place d, from the lowest; 0 past the end.
fn value(types: Types, d: usize, i: u8) -> u32
    ensures { result ≡ get_or types.operands (d + 1 + i) 0 }
{
    if OPERANDS <= d {
        return 0;
    }
    operand(types, d + 1 + usize::from(i))
}

// Value i above the receiver at place d, where name i is demanded.
pub(crate) fn meet_value(types: Types, d: usize, names: Arguments, i: u8) -> Meeting
    ensures { notes_in result ≡ meet_value types.operands d names i }
{
    meet_name(value(types, d, i), argument_at(names, i))
}

// Whether the values above place d are all met.
fn are_met(types: Types, d: usize, names: Arguments) -> bool
    ensures { result ≡ (values_trace types.operands d names).accepts }
{
    for i in 0..argument_count(names) {
        if !met(meet_value(types, d, names, i)) {
            return false;
        }
    }
    true
}

// Whether a type is of the kind: int, or null or a class name.
fn of_kind(kind: Kind, t: u32) -> bool
    ensures { meet_kind kind (type_of t) ≡ need result }
{
    match kind {
        Kind::IntKind => t == INT,
        Kind::ReferenceKind => t != INT,
    }
}

// A type as a local holds it.
fn stored(t: u32) -> u32
    ensures { local_of result ≡ some (type_of t) }
{
    if t == INT {
        return INT;
    }
    if t == NULL { NULL } else { t % SHORT_RANGE }
}

// An inline class is 2 or more, and other names are not 0.
fn named(c: u16, n: u16, t: u16) -> bool
    ensures { result ≡ (leb name_object c && leb 1 n && leb 1 t) }
{
    if c < NAME_OBJECT {
        return false;
    }
    if n == 0 {
        return false;
    }
    1 <= t
}

fn push(types: Types, t: u32) -> Option<Effect>
    ensures { result ≡ Some (Effect.Pushed types.depth t Meeting.Met Arguments.NoArguments) }
{
    Some(Effect::Pushed(types.depth, t, Meeting::Met, Arguments::NoArguments))
}

fn load(types: Types, kind: Kind, i: u8) -> Option<Effect>
    ensures { outcome_of types result ≡ going (effect (Instruction.Load kind i) (types_of types)) }
{
    let t = local(types, i);
    if t == UNSET {
        return None;
    }
    if !of_kind(kind, t) {
        return None;
    }
    push(types, t)
}

fn store(types: Types, kind: Kind, i: u8) -> Option<Effect>
    ensures { outcome_of types result ≡ going (effect (Instruction.Store kind i) (types_of types)) }
{
    let last = pop(types, types.depth)?;
    if !of_kind(kind, last.top) {
        return None;
    }
    let place = usize::from(i);
    if LOCALS <= place {
        return None;
    }
    Some(Effect::Stored(last.below, place, stored(last.top)))
}

fn drop(types: Types) -> Option<Effect>
    ensures { outcome_of types result ≡ going (effect Instruction.Pop (types_of types)) }
{
    let last = pop(types, types.depth)?;
    Some(Effect::Kept(last.below, Meeting::Met, Arguments::NoArguments))
}

fn dup(types: Types) -> Option<Effect>
    ensures { outcome_of types result ≡ going (effect Instruction.Dup (types_of types)) }
{
    let last = pop(types, types.depth)?;
    push(types, last.top)
}

// Two ints go and one comes, whatever the operator.
fn arithmetic(types: Types) -> Option<Effect>
    ensures { (o : Operator) → outcome_of types result ≡ going (effect (Instruction.Arithmetic o) (types_of types)) }
{
    let second = pop(types, types.depth)?;
    let first = pop(types, second.below)?;
    if second.top != INT {
        return None;
    }
    if first.top != INT {
        return None;
    }
    Some(Effect::Pushed(first.below, INT, Meeting::Met, Arguments::NoArguments))
}

fn getfield(types: Types, c: u16, f: u16, t: u16) -> Option<Effect>
    ensures { outcome_of types result ≡ going (effect (Instruction.Getfield c f t) (types_of types)) }
{
    if !named(c, f, t) {
        return None;
    }
    let receiver = pop(types, types.depth)?;
    Some(Effect::Pushed(
        receiver.below,
        type_of_name(t),
        meet_class(c, receiver.top),
        Arguments::NoArguments,
    ))
}

fn putfield(types: Types, c: u16, f: u16, t: u16) -> Option<Effect>
    ensures { outcome_of types result ≡ going (effect (Instruction.Putfield c f t) (types_of types)) }
{
    if !named(c, f, t) {
        return None;
    }
    let value = pop(types, types.depth)?;
    let receiver = pop(types, value.below)?;
    let names = Arguments::OneArgument(t);
    if !are_met(types, receiver.below, names) {
        return None;
    }
    Some(Effect::Kept(receiver.below, meet_class(c, receiver.top), names))
}

// The arguments stand above the receiver, the last on top.
fn invokevirtual(types: Types, c: u16, s: Signature) -> Option<Effect>
    ensures { outcome_of types result ≡ going (effect (Instruction.Invokevirtual c s) (types_of types)) }
{
    if c < NAME_OBJECT {
        return None;
    }
    if !classfile::is_named(s) {
        return None;
    }
    let arguments = s.arguments;
    let n = usize::from(argument_count(arguments));
    if types.depth <= n {
        return None;
    }
    let d = types.depth - n - 1;
    if !are_met(types, d, arguments) {
        return None;
    }
    let receiver = meet_class(c, operand(types, d));
    Some(Effect::Pushed(d, type_of_name(s.result), receiver, arguments))
}

fn new(types: Types, c: u16) -> Option<Effect>
    ensures { outcome_of types result ≡ going (effect (Instruction.New c) (types_of types)) }
{
    if c < NAME_OBJECT {
        return None;
    }
    push(types, u32::from(c))
}

// An int goes, and it is compared with 0.
fn compared_with_zero(types: Types) -> Option<Effect>
    ensures { (p : ℕ) → outcome_of types result ≡ going (effect (Instruction.Branch Condition.IfZero p) (types_of types)) }
{
    let last = pop(types, types.depth)?;
    if last.top != INT {
        return None;
    }
    Some(Effect::Kept(last.below, Meeting::Met, Arguments::NoArguments))
}

// Two ints go, and they are compared.
fn compared(types: Types) -> Option<Effect>
    ensures { (p : ℕ) → outcome_of types result ≡ going (effect (Instruction.Branch Condition.IfLess p) (types_of types)) }
{
    let second = pop(types, types.depth)?;
    let first = pop(types, second.below)?;
    if second.top != INT {
        return None;
    }
    if first.top != INT {
        return None;
    }
    Some(Effect::Kept(first.below, Meeting::Met, Arguments::NoArguments))
}

fn branch(types: Types, condition: Condition) -> Option<Effect>
    ensures { (p : ℕ) → outcome_of types result ≡ going (effect (Instruction.Branch condition p) (types_of types)) }
{
    match condition {
        Condition::Always => Some(Effect::Kept(types.depth, Meeting::Met, Arguments::NoArguments)),
        Condition::IfZero => compared_with_zero(types),
        Condition::IfLess => compared(types),
    }
}

// A value of the kind given back, where the result type is of the kind too.
fn give_back(types: Types, kind: Kind, res: u16) -> Option<Effect>
    ensures { outcome_of types result ≡ ending (returns kind res (types_of types)) }
{
    if !of_kind(kind, type_of_name(res)) {
        return None;
    }
    let last = pop(types, types.depth)?;
    Some(Effect::Ended(meet_name(last.top, res)))
}

// What an instruction does in a method with that result type.
pub(crate) fn effect_of(types: Types, i: Instruction, res: u16) -> Option<Effect>
    ensures { outcome_of types result ≡ outcome i res (types_of types) }
{
    match i {
        Instruction::AconstNull => push(types, NULL),
        Instruction::Sipush(_) => push(types, INT),
        Instruction::Load(k, l) => load(types, k, l),
        Instruction::Store(k, l) => store(types, k, l),
        Instruction::Pop => drop(types),
        Instruction::Dup => dup(types),
        Instruction::Arithmetic(_) => arithmetic(types),
        Instruction::Getfield(c, f, t) => getfield(types, c, f, t),
        Instruction::Putfield(c, f, t) => putfield(types, c, f, t),
        Instruction::Invokevirtual(c, s) => invokevirtual(types, c, s),
        Instruction::New(c) => new(types, c),
        Instruction::Return(k) => give_back(types, k, res),
        Instruction::Branch(c, _) => branch(types, c),
    }
}
