// A method's maps: the part of the bytes that begins with the byte that counts them, and each map by the place at which it begins.
ghost use Rattle.std.specs.Prelude.{◌≡◌, ◌+◌, ◌*◌, ◌≤◌};
ghost use Rattle.definition.specs.Instructions.{short_at};
ghost use Rattle.classfile.specs.Reading.{map_count, map_depth, type_at, map_place, map_bytes, maps_size};

use crate::fields::version;
use crate::methods::{code_length, code_place};
use definition::numbers::VERSION_TWO;

// The maps of the method whose record begins at that place: the part of the bytes, no copy, from the count of the maps on. None in version 1.
pub fn method_maps<'a>(bytes: &'a [u8], place: u32) -> &'a [u8]
    ensures { result.now ≡ map_bytes bytes.now place }
{
    let size = bytes.len();
    if version(bytes) < VERSION_TWO {
        return &bytes[size..size];
    }
    let end = code_place(bytes, place) + usize::from(code_length(bytes, place));
    &bytes[end.min(size)..size]
}

pub fn map_count(maps: &[u8]) -> u8
    ensures { result ≡ map_count maps.now }
{
    cells::at(maps, 0)
}

pub fn map_offset(maps: &[u8], place: u32) -> u16
    ensures { result ≡ short_at maps.now place }
{
    cells::short_at(maps, place as usize)
}

// The type of local i.
pub fn map_local(maps: &[u8], place: u32, i: u8) -> u16
    ensures { result ≡ type_at maps.now (place + 2) i }
{
    cells::short_at(maps, place as usize + 2 + 2 * usize::from(i))
}

// How many operands there are.
pub fn map_depth(maps: &[u8], place: u32) -> u8
    ensures { result ≡ map_depth maps.now place }
{
    cells::at(maps, place as usize + 18)
}

// The type of operand i, from the lowest.
pub fn map_operand(maps: &[u8], place: u32, i: u8) -> u16
    ensures { result ≡ type_at maps.now (place + 19) i }
{
    cells::short_at(maps, place as usize + 19 + 2 * usize::from(i))
}

// How many bytes the map takes.
pub fn map_size(maps: &[u8], place: u32) -> u32
    ensures { (result ≡ 19 + 2 * map_depth maps.now place) × (result ≤ 529) }
{
    19 + 2 * u32::from(map_depth(maps, place))
}

// The place after the last map.
pub(crate) fn maps_end(maps: &[u8]) -> u32
    ensures { (result ≡ map_place maps.now (map_count maps.now)) × (result ≤ 134896) }
{
    let mut place: u32 = 1;
    for i in 0..map_count(maps) {
        place += map_size(maps, place);
    }
    place
}

// How many bytes the maps of a method take.
pub(crate) fn maps_size(bytes: &[u8], place: u32) -> u32
    ensures { (result ≡ maps_size bytes.now place) × (result ≤ 134896) }
{
    if version(bytes) < VERSION_TWO {
        return 0;
    }
    maps_end(method_maps(bytes, place))
}
