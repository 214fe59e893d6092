// The map at a point, and where an instruction goes on.
ghost use Rattle.std.specs.Prelude.{◌≡◌, ◌&&◌, List, ℕ, get_or, set, eqb};
ghost use Rattle.definition.specs.Instructions.{pick};
ghost use Rattle.definition.specs.Lists.{is_none, any, to_list};
ghost use Rattle.definition.specs.Verifier.{map_at, target, goes_on};
ghost use Rattle.classfile.specs.Reading.{maps_of};
ghost use Rattle.verifier.specs.Lookups.{map_there, map_found, Indexed, lacking};
ghost use Rattle.cells.specs.Optional.{optional};

use definition::numbers::CODE_LIMIT;
use definition::{Condition, Instruction};

// How many points a method has at most, in a file that reads.
const POINTS: usize = CODE_LIMIT as usize;

// The place of the first map at point q, by a search.
fn search_map(maps: &[u8], q: usize) -> Option<u32>
    ensures { map_found maps.now result ≡ map_at (maps_of maps.now) q }
{
    let mut place: u32 = 1;
    for i in 0..classfile::map_count(maps) {
        if usize::from(classfile::map_offset(maps, place)) == q {
            return Some(place);
        }
        place += classfile::map_size(maps, place);
    }
    None
}

// The place goes to point q, if that is reached and has none yet.
fn put_place(places: &mut [u32], q: usize, place: u32)
    ensures { places.new ≡ pick (eqb (get_or places.old q 0) 0) (set places.old q place) places.old }
{
    if q < places.len() {
        if places[q] == 0 {
            places[q] = place;
        }
    }
}

// The place of the map at each point that a method may have; 0 where there is none.
pub(crate) fn index_maps(maps: &[u8]) -> [u32; POINTS]
    ensures { Indexed maps.now result }
{
    let mut places = [0; POINTS];
    let mut place: u32 = 1;
    for i in 0..classfile::map_count(maps) {
        let q = usize::from(classfile::map_offset(maps, place));
        put_place(&mut places, q, place);
        place += classfile::map_size(maps, place);
    }
    places
}

// A cell of the table: 0 is no place.
fn placed(place: u32) -> Option<u32>
    ensures { (ms : List ℕ) → map_found ms result ≡ map_there ms place }
{
    if place == 0 { None } else { Some(place) }
}

// The place of the first map at point q. A point that the table doesn't reach is searched for.
pub(crate) fn find_map(maps: &[u8], places: &[u32], q: usize) -> Option<u32>
    requires { Indexed maps.now places.now }
    ensures { map_found maps.now result ≡ map_at (maps_of maps.now) q }
{
    if q < places.len() {
        placed(places[q])
    } else {
        search_map(maps, q)
    }
}

fn is_conditional(c: Condition) -> bool
    ensures { (p : ℕ) → result ≡ goes_on (Instruction.Branch c p) }
{
    !matches!(c, Condition::Always)
}

// Whether the walk goes from an instruction to the next.
pub(crate) fn goes_on(i: Instruction) -> bool
    ensures { result ≡ goes_on i }
{
    match i {
        Instruction::Return(_) => false,
        Instruction::Branch(c, _) => is_conditional(c),
        _ => true,
    }
}

// The point that a branch goes to.
pub(crate) fn target_of(i: Instruction) -> Option<u16>
    ensures { result ≡ optional (target i) }
{
    match i {
        Instruction::Branch(_, q) => Some(q),
        _ => None,
    }
}

fn is_bare(maps: &[u8], places: &[u32], q: usize) -> bool
    requires { Indexed maps.now places.now }
    ensures { result ≡ is_none (map_at (maps_of maps.now) q) }
{
    find_map(maps, places, q).is_none()
}

fn is_wanting(maps: &[u8], places: &[u32], p: usize, wants: bool) -> bool
    requires { Indexed maps.now places.now }
    ensures { result ≡ (wants && is_none (map_at (maps_of maps.now) p)) }
{
    wants && is_bare(maps, places, p)
}

fn is_target_bare(maps: &[u8], places: &[u32], i: Instruction) -> bool
    requires { Indexed maps.now places.now }
    ensures { result ≡ any (λ q. is_none (map_at (maps_of maps.now) q)) (to_list (target i)) }
{
    match target_of(i) {
        Some(q) => is_bare(maps, places, usize::from(q)),
        None => false,
    }
}

// The instruction at point p lacks a map there, where it wants one, or at its target.
pub(crate) fn is_lacking(maps: &[u8], places: &[u32], p: usize, wants: bool, i: Instruction) -> bool
    requires { Indexed maps.now places.now }
    ensures { result ≡ lacking (maps_of maps.now) p wants i }
{
    is_wanting(maps, places, p, wants) || is_target_bare(maps, places, i)
}
