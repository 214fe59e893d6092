// The rules of a file, one after another.
ghost use Rattle.std.specs.Prelude.{◌≡◌, ◌+◌, ◌<◌};
ghost use Rattle.definition.specs.Lists.{any, doubled, is_some};
ghost use Rattle.definition.specs.File.{read_file, same_field, same_method};
ghost use Rattle.definition.specs.Numbers.{version_three};
ghost use Rattle.classfile.specs.Reading.{file_version, quick_fields};
ghost use Rattle.classfile.specs.Reading.{Placed, method_in, quick_methods, methods_from};
ghost use Rattle.classfile.specs.Rules.{sized, titled, named_field, named_fields, listed_method, named_method, coded_method};
ghost use Rattle.classfile.specs.Rules.{operands_set, whole_map, whole_maps, mapped_method, whole_method, whole_methods};

use crate::fields::{
    class_name, field_count, field_name, field_type, named_from, super_name, version,
};
use crate::maps::{map_count, map_depth, map_offset, map_operand, map_size, method_maps};
use crate::methods::{alike_from, code_length, code_place, first_place, method_count, next_place};
use crate::signatures::{argument_number, is_named, list_signature, method_signature};
use definition::numbers::{
    ARGUMENT_LIMIT, CODE_LIMIT, FILE_LIMIT, MEMBER_LIMIT, NAME_OBJECT, OPERAND_LIMIT, VERSION_ONE,
    VERSION_THREE, VERSION_TWO,
};

fn is_sized(bytes: &[u8]) -> bool
    ensures { result ≡ sized bytes.now }
{
    let size = bytes.len();
    if FILE_LIMIT < size {
        return false;
    }
    if size < first_place(bytes) as usize {
        return false;
    }
    if version(bytes) < VERSION_ONE {
        return false;
    }
    if VERSION_THREE < version(bytes) {
        return false;
    }
    usize::from(cells::short_at(bytes, 1)) + 3 == size
}

fn is_titled(bytes: &[u8]) -> bool
    ensures { result ≡ titled bytes.now }
{
    if class_name(bytes) < NAME_OBJECT {
        return false;
    }
    if super_name(bytes) < NAME_OBJECT {
        return false;
    }
    if MEMBER_LIMIT < field_count(bytes) {
        return false;
    }
    method_count(bytes) <= MEMBER_LIMIT
}

fn is_named_field(bytes: &[u8], i: u8) -> bool
    ensures { result ≡ named_field bytes.now i }
{
    if field_name(bytes, i) < 1 {
        return false;
    }
    1 <= field_type(bytes, i)
}

fn are_fields_named(bytes: &[u8]) -> bool
    ensures { result ≡ named_fields bytes.now }
{
    for i in 0..field_count(bytes) {
        if !is_named_field(bytes, i) {
            return false;
        }
    }
    true
}

// A list has at most four arguments.
fn is_listed_method(bytes: &[u8], place: u32) -> bool
    ensures { result ≡ listed_method bytes.now place }
{
    if version(bytes) < VERSION_THREE {
        return true;
    }
    argument_number(bytes, place) <= ARGUMENT_LIMIT
}

// Before version 3: neither the name, nor the one argument's type, nor the result's is 0.
fn is_one_named(bytes: &[u8], place: u32) -> bool
    requires { file_version bytes.now < version_three }
    ensures { result ≡ named_method bytes.now place }
{
    let start = place as usize;
    if cells::short_at(bytes, start) < 1 {
        return false;
    }
    if cells::short_at(bytes, start + 2) < 1 {
        return false;
    }
    1 <= cells::short_at(bytes, start + 4)
}

fn is_named_method(bytes: &[u8], place: u32) -> bool
    ensures { result ≡ named_method bytes.now place }
{
    if version(bytes) < VERSION_THREE {
        return is_one_named(bytes, place);
    }
    is_named(list_signature(bytes, place))
}

fn is_coded_method(bytes: &[u8], place: u32) -> bool
    ensures { result ≡ coded_method bytes.now place }
{
    let length = code_length(bytes, place);
    if length < 1 {
        return false;
    }
    if CODE_LIMIT < length {
        return false;
    }
    code_place(bytes, place) + usize::from(length) <= bytes.len()
}

// No operand type of the map at that place is 0.
fn are_operands_set(maps: &[u8], place: u32) -> bool
    ensures { result ≡ operands_set maps.now place }
{
    for i in 0..map_depth(maps, place) {
        if map_operand(maps, place, i) < 1 {
            return false;
        }
    }
    true
}

fn is_whole_map(maps: &[u8], low: u32, place: u32) -> bool
    ensures { result ≡ whole_map maps.now low place }
{
    if u32::from(map_offset(maps, place)) < low {
        return false;
    }
    if OPERAND_LIMIT < u32::from(map_depth(maps, place)) {
        return false;
    }
    if maps.len() < place as usize + map_size(maps, place) as usize {
        return false;
    }
    are_operands_set(maps, place)
}

// Every map is whole, and the offsets rise.
fn are_maps_whole(maps: &[u8]) -> bool
    ensures { result ≡ whole_maps maps.now }
{
    if maps.len() < 1 {
        return false;
    }
    let mut place: u32 = 1;
    let mut low: u32 = 0;
    for i in 0..map_count(maps) {
        if !is_whole_map(maps, low, place) {
            return false;
        }
        low = u32::from(map_offset(maps, place)) + 1;
        place += map_size(maps, place);
    }
    true
}

// The maps of a method are whole; version 1 has none.
fn is_mapped_method(bytes: &[u8], place: u32) -> bool
    ensures { result ≡ mapped_method bytes.now place }
{
    if version(bytes) < VERSION_TWO {
        return true;
    }
    are_maps_whole(method_maps(bytes, place))
}

fn is_whole_method(bytes: &[u8], place: u32) -> bool
    ensures { result ≡ whole_method bytes.now place }
{
    if !is_listed_method(bytes, place) {
        return false;
    }
    if !is_named_method(bytes, place) {
        return false;
    }
    if !is_coded_method(bytes, place) {
        return false;
    }
    is_mapped_method(bytes, place)
}

// Every method is whole, and nothing follows the last.
fn are_methods_whole(bytes: &[u8]) -> bool
    ensures { result ≡ whole_methods bytes.now }
{
    let mut place = first_place(bytes);
    for j in 0..method_count(bytes) {
        if !is_whole_method(bytes, place) {
            return false;
        }
        place = next_place(bytes, place);
    }
    place as usize == bytes.len()
}

// Two fields of one name.
fn is_field_doubled(bytes: &[u8]) -> bool
    ensures { result ≡ doubled same_field (quick_fields bytes.now) }
{
    for i in 0..field_count(bytes) {
        if named_from(bytes, i + 1, field_name(bytes, i)) {
            return true;
        }
    }
    false
}

// A method alike to method j, whose record begins at `place`, comes later.
fn is_repeated(bytes: &[u8], j: u8, place: u32) -> bool
    requires { Placed bytes.now j place × (j < 255) }
    ensures { result ≡ any (same_method (method_in bytes.now j)) (methods_from bytes.now (j + 1)) }
{
    let s = method_signature(bytes, place);
    alike_from(bytes, j + 1, next_place(bytes, place), s).is_some()
}

// Two methods alike in name, list and result.
fn is_method_doubled(bytes: &[u8]) -> bool
    ensures { result ≡ doubled same_method (quick_methods bytes.now) }
{
    let mut place = first_place(bytes);
    for j in 0..method_count(bytes) {
        if is_repeated(bytes, j, place) {
            return true;
        }
        place = next_place(bytes, place);
    }
    false
}

// Whether the bytes read as a class file.
pub fn reads(bytes: &[u8]) -> bool
    ensures { result ≡ is_some (read_file bytes.now) }
{
    if !is_sized(bytes) {
        return false;
    }
    if !is_titled(bytes) {
        return false;
    }
    if !are_fields_named(bytes) {
        return false;
    }
    if !are_methods_whole(bytes) {
        return false;
    }
    if is_field_doubled(bytes) {
        return false;
    }
    !is_method_doubled(bytes)
}
