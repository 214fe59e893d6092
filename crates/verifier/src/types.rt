// The verifier's types as numbers, and its state at a point.
ghost use Rattle.std.specs.Prelude.{◌≡◌, ◌<◌, get_or};
ghost use Rattle.definition.specs.Lists.{stack};
ghost use Rattle.definition.specs.Verifier.{type_of_name, pop};
ghost use Rattle.verifier.specs.Types.{type_of, local_of, operand_at, locals_of, popped, argument_local, entry_of, types_of, known_local};

use cells::arguments::{argument_at, argument_count};
use definition::numbers::{LOCAL_COUNT, OPERAND_LIMIT, SHORT_RANGE};
use definition::{Arguments, Signature};

// How many operands there are at most, and how many locals.
pub(crate) const OPERANDS: usize = OPERAND_LIMIT as usize;

pub(crate) const LOCALS: usize = LOCAL_COUNT as usize;

// A type is a number, as the cells of a state are. A class name is itself.
pub(crate) const INT: u32 = SHORT_RANGE;

pub(crate) const NULL: u32 = SHORT_RANGE + 1;

// A local that holds nothing.
pub(crate) const UNSET: u32 = SHORT_RANGE + 2;

// The types at a point: of the operands, from the lowest, as many as depth says, and of the locals. The long fields come first here and in what
// holds them, so that a copy reads what was written at the same places.
#[derive(Clone, Copy)]
pub struct Types {
    pub operands: [u32; OPERANDS],
    pub locals: [u32; LOCALS],
    pub depth: usize,
}

// The last operand's type, and how many are left below it.
#[derive(Clone, Copy)]
pub struct Popped {
    pub top: u32,
    pub below: usize,
}

// The type that a name stands for.
pub(crate) fn type_of_name(n: u16) -> u32
    ensures { (type_of result ≡ type_of_name n) × (result < 65537) }
{
    if n == 1 { INT } else { u32::from(n) }
}

// The local of argument i at point 0; unset where there is no such argument.
fn argument_local(a: Arguments, i: u8) -> u32
    ensures { local_of result ≡ argument_local a i }
{
    if i < argument_count(a) {
        type_of_name(argument_at(a, i))
    } else {
        UNSET
    }
}

// The types at point 0: local 0 has the own name, the locals behind it the argument types in their order.
pub(crate) fn entry_types(own: u16, s: Signature) -> Types
    ensures { types_of result ≡ entry_of own s }
{
    let first = u32::from(own);
    let a = s.arguments;
    let second = argument_local(a, 0);
    let third = argument_local(a, 1);
    let fourth = argument_local(a, 2);
    let fifth = argument_local(a, 3);
    Types {
        operands: [0; OPERANDS],
        depth: 0,
        locals: [first, second, third, fourth, fifth, UNSET, UNSET, UNSET],
    }
}

// The type of the operand at place i, from the lowest; 0 past the end.
pub(crate) fn operand(types: Types, i: usize) -> u32
    ensures { result ≡ get_or types.operands i 0 }
{
    if i < OPERANDS { types.operands[i] } else { 0 }
}

// The last of d operands, if there are any.
pub(crate) fn pop(types: Types, d: usize) -> Option<Popped>
    ensures { popped types.operands result ≡ pop (stack (operand_at types.operands) d) }
{
    if d == 0 {
        return None;
    }
    Some(Popped {
        top: operand(types, d - 1),
        below: d - 1,
    })
}

// The type of a local; unset where there is no such local.
pub(crate) fn local(types: Types, i: u8) -> u32
    ensures { local_of result ≡ known_local (locals_of types.locals) i }
{
    let place = usize::from(i);
    if place < LOCALS {
        types.locals[place]
    } else {
        UNSET
    }
}
