// A method's signature: its name, arguments and result, and the comparison of signatures.
ghost use Rattle.std.specs.Prelude.{◌≡◌, ◌+◌, ◌<◌, ◌≤◌};
ghost use Rattle.definition.specs.Numbers.{version_three};
ghost use Rattle.definition.specs.Classes.{alike, is_named};
ghost use Rattle.classfile.specs.Reading.{file_version, argument_number, arguments_size, arguments_at, result_place, method_at};

use crate::fields::version;
use cells::arguments::{argument_at, argument_count, arguments_at, same_arguments};
use definition::numbers::VERSION_THREE;
use definition::{Arguments, Signature};

fn method_name(bytes: &[u8], place: u32) -> u16
    ensures { result ≡ (method_at bytes.now place).signature.name }
{
    cells::short_at(bytes, place as usize)
}

// How many arguments a method of version 3 or later says it has.
pub(crate) fn argument_number(bytes: &[u8], place: u32) -> u8
    ensures { result ≡ argument_number bytes.now place }
{
    cells::at(bytes, place as usize + 2)
}

// How many bytes the arguments take: one type before version 3, from there on a byte with their count and as many types.
pub(crate) fn arguments_size(bytes: &[u8], place: u32) -> u16
    ensures { (result ≡ arguments_size bytes.now place) × (result ≤ 511) }
{
    if version(bytes) < VERSION_THREE {
        return 2;
    }
    1 + 2 * u16::from(argument_number(bytes, place))
}

// The place of the result type, behind the name and the arguments.
pub(crate) fn result_place(bytes: &[u8], place: u32) -> usize
    ensures { (result ≡ result_place bytes.now place) × (result ≤ place + 513) }
{
    place as usize + 2 + usize::from(arguments_size(bytes, place))
}

// A count above four reads as no arguments at all.
fn method_arguments(bytes: &[u8], place: u32) -> Arguments
    ensures { result ≡ arguments_at bytes.now place }
{
    let start = place as usize + 2;
    if version(bytes) < VERSION_THREE {
        return Arguments::OneArgument(cells::short_at(bytes, start));
    }
    arguments_at(bytes, start + 1, argument_number(bytes, place))
}

fn method_result(bytes: &[u8], place: u32) -> u16
    ensures { result ≡ (method_at bytes.now place).signature.result }
{
    cells::short_at(bytes, result_place(bytes, place))
}

// The signature of a method before version 3: name, one argument, result, two bytes each.
fn one_signature(bytes: &[u8], place: u32) -> Signature
    requires { file_version bytes.now < version_three }
    ensures { result ≡ (method_at bytes.now place).signature }
{
    let start = place as usize;
    Signature {
        name: cells::short_at(bytes, start),
        arguments: Arguments::OneArgument(cells::short_at(bytes, start + 2)),
        result: cells::short_at(bytes, start + 4),
    }
}

pub fn method_signature(bytes: &[u8], place: u32) -> Signature
    ensures { result ≡ (method_at bytes.now place).signature }
{
    if version(bytes) < VERSION_THREE {
        return one_signature(bytes, place);
    }
    list_signature(bytes, place)
}

// The same in any version: the arguments may be a list, and the result stands behind them.
pub(crate) fn list_signature(bytes: &[u8], place: u32) -> Signature
    ensures { result ≡ (method_at bytes.now place).signature }
{
    Signature {
        name: method_name(bytes, place),
        arguments: method_arguments(bytes, place),
        result: method_result(bytes, place),
    }
}

// Neither the name nor a type is 0.
pub fn is_named(s: Signature) -> bool
    ensures { result ≡ is_named s }
{
    if s.name < 1 {
        return false;
    }
    let arguments = s.arguments;
    for i in 0..argument_count(arguments) {
        if argument_at(arguments, i) < 1 {
            return false;
        }
    }
    1 <= s.result
}

// The one comparison of signatures: the name first, the types only where the names are equal.
pub(crate) fn is_alike(bytes: &[u8], place: u32, s: Signature) -> bool
    ensures { result ≡ alike s (method_at bytes.now place) }
{
    if method_name(bytes, place) != s.name {
        return false;
    }
    let arguments = s.arguments;
    if !same_arguments(method_arguments(bytes, place), arguments) {
        return false;
    }
    method_result(bytes, place) == s.result
}
