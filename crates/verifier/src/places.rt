// Where a class file is refused: the first method at which a check fails, and the point of its code.
ghost use Rattle.std.specs.Prelude.{◌≡◌, ◌<◌, length};
ghost use Rattle.classfile.specs.Reading.{maps_of, file_version, class_name, method_count, method_in, quick_methods};
ghost use Rattle.verifier.specs.Lookups.{Indexed};
ghost use Rattle.verifier.specs.Types.{types_of};
ghost use Rattle.verifier.specs.Trace.{left_from};
ghost use Rattle.cells.specs.Optional.{optional};
ghost use Rattle.definition.specs.Places.{lacks_at, first_place};
ghost use Rattle.verifier.specs.Stops.{place_of, stop_at_end, stops, whole_stop, check_point, check_in};

use crate::decoding::decode;
use crate::lookups::{goes_on, index_maps, is_lacking};
use crate::methods::pass;
use crate::turns::{flow_into, turn_at};
use crate::types::{Types, entry_types};
use definition::Signature;
use definition::numbers::{SUBTYPE_LIMIT, VERSION_TWO};

// The two checks of a method: that no map is lacking, and the verifier's walk.
#[derive(Clone, Copy)]
pub enum Check {
    Maps,
    Types,
}

// A method, by its number in the file's order, and a point of its code.
#[derive(Clone, Copy)]
pub struct Found {
    pub method: u8,
    pub point: usize,
}

// No note is posted: the table for them is empty and counts as one that has too many rows.
const UNPOSTED: u16 = SUBTYPE_LIMIT + 1;

// The code of n bytes ends where all maps are behind.
fn stop_at_end(maps: &[u8], j: u8, n: usize) -> Option<usize>
    ensures { result ≡ optional (stop_at_end n (left_from maps.now j)) }
{
    if classfile::map_count(maps) <= j {
        None
    } else {
        Some(n)
    }
}

// The walk from the first point on, where the types are these.
fn walk_stop(
    version: u8,
    code: &[u8],
    maps: &[u8],
    places: &[u32],
    res: u16,
    first: Types,
) -> Option<usize>
    requires { Indexed maps.now places.now }
    ensures { result ≡ optional (stops version code.now (maps_of maps.now) res (length code.now) 0 (maps_of maps.now) (types_of first)) }
{
    let mut types = first;
    let mut p = 0;
    let mut i: u8 = 0;
    let mut place: u32 = 1;
    for turn in 0..code.len() {
        let Some(ahead) = pass(maps, i, place, p) else {
            return Some(p);
        };
        let Ok(turn) = turn_at(
            version,
            code,
            maps,
            places,
            p,
            res,
            &mut types,
            0,
            &mut [],
            UNPOSTED,
            UNPOSTED,
        ) else {
            return Some(p);
        };
        let Some(q) = turn.next else {
            return stop_at_end(maps, ahead.number, code.len());
        };
        p = q;
        i = ahead.number;
        place = ahead.place;
    }
    Some(p)
}

// The flow from entry, and the walk from the first point on.
fn stop_of(
    version: u8,
    code: &[u8],
    maps: &[u8],
    places: &[u32],
    own: u16,
    s: Signature,
) -> Option<usize>
    requires { Indexed maps.now places.now }
    ensures { result ≡ optional (check_point Check.Types version own s code.now (maps_of maps.now)) }
{
    let mut types = entry_types(own, s);
    let Ok(_) = flow_into(maps, places, 0, &mut types, 0, &mut [], UNPOSTED, UNPOSTED) else {
        return Some(0);
    };
    walk_stop(version, code, maps, places, s.result, types)
}

// The code is read up to the first instruction that can't be. Version 1 has no maps, and lacks none.
pub(crate) fn lack_of(version: u8, code: &[u8], maps: &[u8], places: &[u32]) -> Option<usize>
    requires { Indexed maps.now places.now }
    ensures { result ≡ optional (lacks_at version code.now (maps_of maps.now)) }
{
    if version < VERSION_TWO {
        return None;
    }
    let mut p: usize = 0;
    let mut wants = false;
    for turn in 0..code.len() {
        let read = decode(version, code, p)?;
        if is_lacking(maps, places, p, wants, read.instruction) {
            return Some(p);
        }
        wants = !goes_on(read.instruction);
        p += read.size;
    }
    None
}

fn check_code(
    version: u8,
    code: &[u8],
    maps: &[u8],
    places: &[u32],
    own: u16,
    s: Signature,
    check: Check,
) -> Option<usize>
    requires { Indexed maps.now places.now }
    ensures { result ≡ optional (check_point check version own s code.now (maps_of maps.now)) }
{
    match check {
        Check::Maps => lack_of(version, code, maps, places),
        Check::Types => stop_of(version, code, maps, places, own, s),
    }
}

// The maps are looked up by a table, which is left out where there are none.
fn check_method(
    version: u8,
    code: &[u8],
    maps: &[u8],
    own: u16,
    s: Signature,
    check: Check,
) -> Option<usize>
    ensures { result ≡ optional (check_point check version own s code.now (maps_of maps.now)) }
{
    if classfile::map_count(maps) == 0 {
        return check_code(version, code, maps, &[], own, s, check);
    }
    let places = index_maps(maps);
    check_code(version, code, maps, &places, own, s, check)
}

// Method j of the file: its code and its maps are handed over as parts of the bytes.
fn check_numbered(bytes: &[u8], j: u8, check: Check) -> Option<usize>
    requires { j < method_count bytes.now }
    ensures { result ≡ optional (check_in check (file_version bytes.now) (class_name bytes.now) (method_in bytes.now j)) }
{
    let Some(place) = classfile::method_place(bytes, j) else {
        return None;
    };
    let version = classfile::version(bytes);
    let own = classfile::class_name(bytes);
    let s = classfile::method_signature(bytes, place);
    check_method(
        version,
        classfile::code(bytes, place),
        classfile::method_maps(bytes, place),
        own,
        s,
        check,
    )
}

// The first method of a class file at which a check fails, and the point. The file's own rules are for others to check.
pub fn find_place(bytes: &[u8], check: Check) -> Option<Found>
    ensures { place_of result ≡ first_place (check_in check (file_version bytes.now) (class_name bytes.now)) 0 (quick_methods bytes.now) }
{
    for j in 0..classfile::method_count(bytes) {
        if let Some(point) = check_numbered(bytes, j, check) {
            return Some(Found { method: j, point });
        }
    }
    None
}
