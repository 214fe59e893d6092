// Methods, by their number and by the place at which their record begins, and their code.
ghost use Rattle.std.specs.Prelude.{◌≡◌, ◌+◌, ◌<◌, ◌≤◌};
ghost use Rattle.definition.specs.Numbers.{version_two};
ghost use Rattle.definition.specs.Lists.{index_of};
ghost use Rattle.definition.specs.Classes.{alike};
ghost use Rattle.classfile.specs.Lists.{shift};
ghost use Rattle.classfile.specs.Reading.{file_version, method_count, code_place, code_length, code_at, next_place, method_place, Placed, quick_methods, methods_from};
ghost use Rattle.classfile.specs.Reading.{method_found, numbered_place, part_of};
ghost use Rattle.cells.specs.Optional.{optional};

use crate::MethodFound;
use crate::fields::{field_count, field_place, version};
use crate::maps::maps_size;
use crate::signatures::{arguments_size, is_alike, result_place};
use definition::Signature;
use definition::numbers::VERSION_TWO;

pub fn method_count(bytes: &[u8]) -> u8
    ensures { result ≡ method_count bytes.now }
{
    cells::at(bytes, field_place(field_count(bytes)))
}

pub(crate) fn code_length(bytes: &[u8], place: u32) -> u16
    ensures { result ≡ code_length bytes.now place }
{
    cells::short_at(bytes, result_place(bytes, place) + 2)
}

// The place at which the code begins, behind the result type and the code length.
pub(crate) fn code_place(bytes: &[u8], place: u32) -> usize
    ensures { (result ≡ code_place bytes.now place) × (result ≤ place + 517) }
{
    result_place(bytes, place) + 4
}

// The code of the method whose record begins at that place: the part of the bytes, no copy, clipped where the bytes end.
pub fn code<'a>(bytes: &'a [u8], place: u32) -> &'a [u8]
    ensures { result.now ≡ code_at bytes.now place }
{
    let size = bytes.len();
    let start = code_place(bytes, place).min(size);
    let end = (start + usize::from(code_length(bytes, place))).min(size);
    &bytes[start..end]
}

// The bytes from `start`, `size` many, if they are there, else none at all.
pub fn part<'a>(kept: &'a [u8], start: u16, size: u16) -> &'a [u8]
    ensures { result.now ≡ part_of kept.now start size }
{
    let from = usize::from(start);
    let end = from + usize::from(size);
    if end <= kept.len() {
        &kept[from..end]
    } else {
        &kept[0..0]
    }
}

// The place after the byte with the method count.
pub(crate) fn first_place(bytes: &[u8]) -> u32
    ensures { Placed bytes.now 0 result }
{
    u32::from(9 + 4 * u16::from(field_count(bytes)))
}

// The place after the record that begins at `place`, in version 1: eight bytes, of which the last two are the code's length, and the code.
fn next_first(bytes: &[u8], place: u32) -> u32
    requires { (file_version bytes.now < version_two) × (place ≤ 4000000000) }
    ensures { (result ≡ next_place bytes.now place) × (result ≤ place + 200948) }
{
    place + 8 + u32::from(cells::short_at(bytes, place as usize + 6))
}

// The place after the record that begins at `place`.
pub(crate) fn next_place(bytes: &[u8], place: u32) -> u32
    requires { place ≤ 4000000000 }
    ensures { (result ≡ next_place bytes.now place) × (result ≤ place + 200948) }
{
    if version(bytes) < VERSION_TWO {
        return next_first(bytes, place);
    }
    next_later(bytes, place)
}

// The same in any version: the code's length stands right before the code, which begins at `start`.
fn next_later(bytes: &[u8], place: u32) -> u32
    requires { place ≤ 4000000000 }
    ensures { (result ≡ next_place bytes.now place) × (result ≤ place + 200948) }
{
    let start = place + 6 + u32::from(arguments_size(bytes, place));
    let length = cells::short_at(bytes, start as usize - 2);
    start + u32::from(length) + maps_size(bytes, place)
}

// The place of the record of method j, in version 1: the records before it are passed one by one.
fn place_of_first(bytes: &[u8], j: u8) -> u32
    requires { file_version bytes.now < version_two }
    ensures { result ≡ method_place bytes.now j }
{
    let mut place = first_place(bytes);
    for i in 0..j {
        place = next_first(bytes, place);
    }
    place
}

// The place of the record of method j: the records before it are passed one by one.
fn place_of(bytes: &[u8], j: u8) -> u32
    ensures { result ≡ method_place bytes.now j }
{
    if version(bytes) < VERSION_TWO {
        return place_of_first(bytes, j);
    }
    let mut place = first_place(bytes);
    for i in 0..j {
        place = next_later(bytes, place);
    }
    place
}

// The place at which the record of method j begins, if there is one.
pub fn method_place(bytes: &[u8], j: u8) -> Option<u32>
    ensures { result ≡ optional (numbered_place bytes.now j) }
{
    if j < method_count(bytes) {
        Some(place_of(bytes, j))
    } else {
        None
    }
}

// The first method alike in name, list and result, from method `first` on, whose record begins at `start`.
pub(crate) fn alike_from(bytes: &[u8], first: u8, start: u32, s: Signature) -> Option<MethodFound>
    requires { Placed bytes.now first start }
    ensures { result ≡ method_found bytes.now (shift first (index_of (alike s) (methods_from bytes.now first))) }
{
    let mut place = start;
    for j in first..method_count(bytes) {
        if is_alike(bytes, place, s) {
            return Some(MethodFound { number: j, place });
        }
        place = next_place(bytes, place);
    }
    None
}

// The first method alike in name, list and result.
pub fn find_method(bytes: &[u8], s: Signature) -> Option<MethodFound>
    ensures { result ≡ method_found bytes.now (index_of (alike s) (quick_methods bytes.now)) }
{
    alike_from(bytes, 0, first_place(bytes), s)
}
