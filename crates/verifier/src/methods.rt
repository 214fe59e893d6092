// The walk over a method's code, which posts its notes as it goes.
ghost use Rattle.std.specs.Prelude.{◌≡◌, List, length, leb, ℕ};
ghost use Rattle.definition.specs.Verifier.{maps_past};
ghost use Rattle.definition.specs.Classes.{Map};
ghost use Rattle.classfile.specs.Reading.{maps_of};
ghost use Rattle.rows.specs.Posting.{noted};
ghost use Rattle.verifier.specs.Lookups.{Indexed};
ghost use Rattle.verifier.specs.Types.{types_of};
ghost use Rattle.verifier.specs.Trace.{answered, verification, posting, trace, method_trace, left_from};
ghost use Rattle.verifier.specs.Answers.{PlaceOf, Passes};

use crate::lookups::index_maps;
use crate::notes::Rejected;
use crate::quiet::quiet_run;
use crate::turns::{flow_into, turn_at};
use crate::types::{Types, entry_types};
use definition::Signature;

// The maps left: from that number on, the first at that place.
#[derive(Clone, Copy)]
pub struct Ahead {
    pub number: u8,
    pub place: u32,
}

// The maps from number i on, the first at that place, which lie behind point p; none at all where one of them lies before it.
pub(crate) fn pass(maps: &[u8], i: u8, place: u32, p: usize) -> Option<Ahead>
    requires { PlaceOf maps.now i place }
    ensures { (version : ℕ) (code : List ℕ) (all : List Map) (given : ℕ) → Passes maps.now result (maps_past version code all given p (left_from maps.now i)) }
{
    if classfile::map_count(maps) <= i {
        return Some(Ahead { number: i, place });
    }
    let offset = usize::from(classfile::map_offset(maps, place));
    if offset == p {
        return Some(Ahead {
            number: i + 1,
            place: place + classfile::map_size(maps, place),
        });
    }
    if offset < p {
        None
    } else {
        Some(Ahead { number: i, place })
    }
}

// The code ends where all maps are behind.
fn ended(maps: &[u8], j: u8, count: u16) -> Result<u16, Rejected>
    ensures { (t : _) → answered result t ≡ verification (leb (length (left_from maps.now j)) 0) (noted t count) }
{
    if classfile::map_count(maps) <= j {
        Ok(count)
    } else {
        Err(Rejected { count })
    }
}

// From the first point on, where the types are these.
fn walk(
    version: u8,
    code: &[u8],
    maps: &[u8],
    places: &[u32],
    res: u16,
    first: Types,
    loader: u8,
    subtypes: &mut [u16],
    count: u16,
) -> Result<u16, Rejected>
    requires { Indexed maps.now places.now }
    ensures { answered result subtypes.new ≡ posting loader (trace version code.now (maps_of maps.now) res (length code.now) 0 (maps_of maps.now) (types_of first)) (noted subtypes.old count) }
{
    let mut types = first;
    let mut left = code.len();
    let mut p = 0;
    let mut total = count;
    let mut near = count;
    let mut i: u8 = 0;
    let mut place: u32 = 1;
    // A run of quiet turns takes several of the turns that are left, so they aren't counted one by one.
    while 0 < left {
        let run = quiet_run(version, code, maps, places, res, types, left, p, i, place);
        let Some(ahead) = pass(maps, run.map, run.place, run.point) else {
            return Err(Rejected { count: total });
        };
        types = run.types;
        let turn = turn_at(
            version, code, maps, places, run.point, res, &mut types, loader, subtypes, total, near,
        )?;
        let Some(q) = turn.next else {
            return ended(maps, ahead.number, turn.count);
        };
        p = q;
        total = turn.count;
        near = turn.near;
        i = ahead.number;
        place = ahead.place;
        left = run.left - 1;
    }
    Err(Rejected { count: total })
}

// The flow from entry, and the walk from the first point on.
fn verify_code(
    version: u8,
    code: &[u8],
    maps: &[u8],
    places: &[u32],
    own: u16,
    s: Signature,
    loader: u8,
    subtypes: &mut [u16],
    count: u16,
) -> Result<u16, Rejected>
    requires { Indexed maps.now places.now }
    ensures { answered result subtypes.new ≡ posting loader (method_trace version own s code.now (maps_of maps.now)) (noted subtypes.old count) }
{
    let mut types = entry_types(own, s);
    let entry = flow_into(maps, places, 0, &mut types, loader, subtypes, count, count)?;
    walk(
        version,
        code,
        maps,
        places,
        s.result,
        types,
        loader,
        subtypes,
        entry.count,
    )
}

// A method of the class of that version and name, by its code and the bytes of its maps. Its notes are posted under the loader, behind the table's rows.
pub fn verify_method(
    version: u8,
    code: &[u8],
    maps: &[u8],
    own: u16,
    s: Signature,
    loader: u8,
    subtypes: &mut [u16],
    count: u16,
) -> Result<u16, Rejected>
    ensures { answered result subtypes.new ≡ posting loader (method_trace version own s code.now (maps_of maps.now)) (noted subtypes.old count) }
{
    if classfile::map_count(maps) == 0 {
        return verify_code(version, code, maps, &[], own, s, loader, subtypes, count);
    }
    let places = index_maps(maps);
    verify_code(
        version, code, maps, &places, own, s, loader, subtypes, count,
    )
}
