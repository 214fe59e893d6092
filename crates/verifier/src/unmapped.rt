// A method that lacks a map: at a target, or after a goto or return.
ghost use Rattle.std.specs.Prelude.{◌≡◌, ◌&&◌, false, ℕ, ◌<◌, length, leb};
ghost use Rattle.definition.specs.Verifier.{unmapped_from};
ghost use Rattle.definition.specs.Lists.{any};
ghost use Rattle.classfile.specs.Reading.{maps_of, file_version, method_count, method_in, quick_methods};
ghost use Rattle.verifier.specs.Lookups.{unmapped_in};

use crate::lookups::index_maps;
use crate::places::lack_of;
use definition::numbers::VERSION_TWO;

// Whether a method of that version lacks a map; version 1 has none, and lacks none.
pub fn is_unmapped(version: u8, code: &[u8], maps: &[u8]) -> bool
    ensures { (given : ℕ) → result ≡ (leb 2 version && unmapped_from version code.now (maps_of maps.now) given (length code.now) 0 false) }
{
    if version < VERSION_TWO {
        return false;
    }
    if classfile::map_count(maps) == 0 {
        return lack_of(version, code, maps, &[]).is_some();
    }
    let places = index_maps(maps);
    lack_of(version, code, maps, &places).is_some()
}

// Method j of the file.
fn is_numbered_unmapped(bytes: &[u8], j: u8) -> bool
    requires { j < method_count bytes.now }
    ensures { result ≡ unmapped_in (file_version bytes.now) (method_in bytes.now j) }
{
    let Some(place) = classfile::method_place(bytes, j) else {
        return false;
    };
    let version = classfile::version(bytes);
    is_unmapped(
        version,
        classfile::code(bytes, place),
        classfile::method_maps(bytes, place),
    )
}

// Whether a method of a class file is unmapped. The file's own rules are for others to check.
pub fn is_class_unmapped(bytes: &[u8]) -> bool
    ensures { result ≡ any (unmapped_in (file_version bytes.now)) (quick_methods bytes.now) }
{
    for j in 0..classfile::method_count(bytes) {
        if is_numbered_unmapped(bytes, j) {
            return true;
        }
    }
    false
}
