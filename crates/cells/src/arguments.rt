// A method's arguments, by their number and by their places; and as many types of bytes as arguments.
ghost use Rattle.std.specs.Prelude.{◌≡◌, [], ◌∷◌, ◌≤◌, length, get_or};
ghost use Rattle.std.proofs.Math.Option.{some};
ghost use Rattle.definition.specs.Numbers.{argument_limit};
ghost use Rattle.definition.specs.Lists.{same_list};
ghost use Rattle.definition.specs.Classes.{types_of, arguments_of};
ghost use Rattle.definition.specs.Instructions.{shorts_at};
ghost use Rattle.cells.specs.Listed.{list_at};

use crate::{at, short_at};
use definition::Arguments;
use definition::numbers::ARGUMENT_LIMIT;

pub fn argument_count(a: Arguments) -> u8
    ensures { result ≡ length (types_of a) }
{
    match a {
        Arguments::NoArguments => 0,
        Arguments::OneArgument(_) => 1,
        Arguments::TwoArguments(_, _) => 2,
        Arguments::ThreeArguments(_, _, _) => 3,
        Arguments::FourArguments(_, _, _, _) => 4,
    }
}

// The type of argument i, 0 where there is none.
pub fn argument_at(a: Arguments, i: u8) -> u16
    ensures { result ≡ get_or (types_of a) i 0 }
{
    match a {
        Arguments::NoArguments => 0,
        Arguments::OneArgument(x) => at(&[x], usize::from(i)),
        Arguments::TwoArguments(x, y) => at(&[x, y], usize::from(i)),
        Arguments::ThreeArguments(x, y, z) => at(&[x, y, z], usize::from(i)),
        Arguments::FourArguments(x, y, z, t) => at(&[x, y, z, t], usize::from(i)),
    }
}

// Two lists with the same types in the same order; a longer one is another.
pub fn same_arguments(a: Arguments, b: Arguments) -> bool
    ensures { result ≡ same_list (types_of a) (types_of b) }
{
    let n = argument_count(a);
    if argument_count(b) != n {
        return false;
    }
    for i in 0..n {
        if argument_at(a, i) != argument_at(b, i) {
            return false;
        }
    }
    true
}

// The arguments whose types, n of them, stand in the bytes from that place on; none at all where there are more than four.
pub fn arguments_at(bytes: &[u8], place: usize, n: u8) -> Arguments
    ensures { result ≡ list_at bytes.now place n }
{
    if ARGUMENT_LIMIT < n {
        return Arguments::NoArguments;
    }
    if place < bytes.len() {
        few_at(bytes, place, n)
    } else {
        few_at(bytes, bytes.len(), n)
    }
}

// Four or fewer of them, from a place that isn't past the end.
fn few_at(bytes: &[u8], place: usize, n: u8) -> Arguments
    requires { (n ≤ argument_limit) × (place ≤ length bytes.now) }
    ensures { some result ≡ arguments_of (shorts_at bytes.now place n) }
{
    match n {
        0 => Arguments::NoArguments,
        1 => Arguments::OneArgument(short_at(bytes, place)),
        2 => Arguments::TwoArguments(short_at(bytes, place), short_at(bytes, place + 2)),
        3 => Arguments::ThreeArguments(
            short_at(bytes, place),
            short_at(bytes, place + 2),
            short_at(bytes, place + 4),
        ),
        _ => Arguments::FourArguments(
            short_at(bytes, place),
            short_at(bytes, place + 2),
            short_at(bytes, place + 4),
            short_at(bytes, place + 6),
        ),
    }
}
