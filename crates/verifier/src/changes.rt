// An effect carried out: the types that an instruction leaves, and its own notes.
ghost use Rattle.std.specs.Prelude.{◌≡◌, Some};
ghost use Rattle.verifier.specs.Types.{types_of};
ghost use Rattle.verifier.specs.Effects.{left_by, leaves};
ghost use Rattle.verifier.specs.Answers.{outcome_of, change_of, made_flow};

use crate::effects::{Effect, Meeting, effect_of, met};
use crate::types::{LOCALS, OPERANDS, Types};
use definition::{Arguments, Instruction};

// What an instruction leaves: the types, the receiver's meeting, its place, and the names that are demanded of the values above it. Those values are
// still among the operands, past the last.
#[derive(Clone, Copy)]
pub struct Change {
    pub types: Types,
    pub place: usize,
    pub receiver: Meeting,
    pub names: Arguments,
}

// These types are left, if the receiver at place d is met.
fn left(types: Types, d: usize, receiver: Meeting, names: Arguments) -> Option<Change>
    ensures { change_of result ≡ made_flow types d receiver names }
{
    if !met(receiver) {
        return None;
    }
    Some(Change {
        place: d,
        receiver,
        names,
        types,
    })
}

// The lowest d operands are kept.
fn kept(types: Types, d: usize, receiver: Meeting, names: Arguments) -> Option<Change>
    ensures { change_of result ≡ left_by (types_of types) (outcome_of types (Some (Effect.Kept d receiver names))) }
{
    if OPERANDS < d {
        return None;
    }
    let mut next = types;
    next.depth = d;
    left(next, d, receiver, names)
}

// A type is pushed on the lowest d operands.
fn pushed(types: Types, d: usize, t: u32, receiver: Meeting, names: Arguments) -> Option<Change>
    ensures { change_of result ≡ left_by (types_of types) (outcome_of types (Some (Effect.Pushed d t receiver names))) }
{
    if OPERANDS <= d {
        return None;
    }
    let mut next = types;
    next.operands[d] = t;
    next.depth = d + 1;
    left(next, d, receiver, names)
}

// The lowest d operands are kept, and a local is set.
fn stored(types: Types, d: usize, i: usize, t: u32) -> Option<Change>
    ensures { change_of result ≡ left_by (types_of types) (outcome_of types (Some (Effect.Stored d i t))) }
{
    if OPERANDS < d {
        return None;
    }
    let mut next = types;
    next.depth = d;
    if LOCALS <= i {
        return left(next, d, Meeting::Met, Arguments::NoArguments);
    }
    next.locals[i] = t;
    left(next, d, Meeting::Met, Arguments::NoArguments)
}

// A return that is met leaves the types as they are.
fn ended(types: Types, m: Meeting) -> Option<Change>
    ensures { change_of result ≡ left_by (types_of types) (outcome_of types (Some (Effect.Ended m))) }
{
    if !met(m) {
        return None;
    }
    Some(Change {
        place: 0,
        receiver: m,
        names: Arguments::NoArguments,
        types,
    })
}

// An effect carried out; none where it doesn't fit.
fn carried_out(types: Types, e: Effect) -> Option<Change>
    ensures { change_of result ≡ left_by (types_of types) (outcome_of types (Some e)) }
{
    match e {
        Effect::Kept(d, receiver, names) => kept(types, d, receiver, names),
        Effect::Pushed(d, t, receiver, names) => pushed(types, d, t, receiver, names),
        Effect::Stored(d, i, t) => stored(types, d, i, t),
        Effect::Ended(m) => ended(types, m),
    }
}

// What an instruction leaves in a method with that result type; none where it is rejected.
pub(crate) fn change_at(types: Types, i: Instruction, res: u16) -> Option<Change>
    ensures { change_of result ≡ leaves i res (types_of types) }
{
    let effect = effect_of(types, i, res)?;
    carried_out(types, effect)
}
