// Turns without notes: an instruction that goes on to a point without a map, has no target and makes no note. The walk takes as many as there are in
// a row at once, on one copy of the types; all others are left to a turn of its own.
ghost use Rattle.std.specs.Prelude.{true, ◌≡◌, ◌<◌, ◌≤◌, length};
ghost use Rattle.classfile.specs.Reading.{maps_of};
ghost use Rattle.verifier.specs.Lookups.{Indexed};
ghost use Rattle.verifier.specs.Types.{types_of};
ghost use Rattle.verifier.specs.Trace.{trace, turned, left_from};
ghost use Rattle.verifier.specs.Answers.{PlaceOf, QuietBy, QuietTo};

use crate::decoding::decode;
use crate::effects::{Effect, Meeting, effect_of};
use crate::lookups::{find_map, goes_on, target_of};
use crate::methods::pass;
use crate::types::{LOCALS, OPERANDS, Types};
use cells::arguments::argument_count;
use definition::Arguments;

// What a turn without notes does: it goes to that point, keeps the lowest operands, and pushes a type on them or sets a local.
#[derive(Clone, Copy)]
pub enum Quiet {
    Keeps(usize, usize),
    Pushes(usize, usize, u32),
    Sets(usize, usize, usize, u32),
}

// Where quiet turns end: the types, how many turns are left, the point, and the maps left from that number on, the first at that place.
#[derive(Clone, Copy)]
pub struct Run {
    pub types: Types,
    pub left: usize,
    pub point: usize,
    pub map: u8,
    pub place: u32,
}

// A receiver that is met without a note, and no names demanded of values above it.
fn is_silent(receiver: Meeting, names: Arguments) -> bool
    ensures { result ≡ true → (receiver ≡ Meeting.Met) × (names ≡ Arguments.NoArguments) }
{
    matches!(receiver, Meeting::Met) && argument_count(names) == 0
}

fn keeps(q: usize, d: usize, receiver: Meeting, names: Arguments) -> Option<Quiet>
    ensures { (s : Types) → length s.operands ≡ 16 → length s.locals ≡ 8 → QuietBy q s (Effect.Kept d receiver names) result }
{
    if OPERANDS < d {
        return None;
    }
    if is_silent(receiver, names) {
        Some(Quiet::Keeps(q, d))
    } else {
        None
    }
}

fn pushes(q: usize, d: usize, t: u32, receiver: Meeting, names: Arguments) -> Option<Quiet>
    ensures { (s : Types) → length s.operands ≡ 16 → length s.locals ≡ 8 → QuietBy q s (Effect.Pushed d t receiver names) result }
{
    if OPERANDS <= d {
        return None;
    }
    if is_silent(receiver, names) {
        Some(Quiet::Pushes(q, d, t))
    } else {
        None
    }
}

fn sets(q: usize, d: usize, i: usize, t: u32) -> Option<Quiet>
    ensures { (s : Types) → length s.operands ≡ 16 → length s.locals ≡ 8 → QuietBy q s (Effect.Stored d i t) result }
{
    if OPERANDS < d {
        return None;
    }
    if LOCALS <= i {
        None
    } else {
        Some(Quiet::Sets(q, d, i, t))
    }
}

// An effect of an instruction that goes on to point q; none where the turn isn't quiet.
fn quiet_of(e: Effect, q: usize) -> Option<Quiet>
    ensures { (s : Types) → length s.operands ≡ 16 → length s.locals ≡ 8 → QuietBy q s e result }
{
    match e {
        Effect::Kept(d, receiver, names) => keeps(q, d, receiver, names),
        Effect::Pushed(d, t, receiver, names) => pushes(q, d, t, receiver, names),
        Effect::Stored(d, i, t) => sets(q, d, i, t),
        Effect::Ended(_) => None,
    }
}

// Branches, returns, putfield and invokevirtual are left to the others by their first byte.
fn may_be_quiet(b: u8) -> bool {
    b < 0x99 || b == 0xB4 || b == 0xBB
}

// The instruction at point p of a method with that result type.
fn quiet_at(
    version: u8,
    code: &[u8],
    maps: &[u8],
    places: &[u32],
    p: usize,
    res: u16,
    types: Types,
) -> Option<Quiet>
    requires { Indexed maps.now places.now }
    ensures { QuietTo (turned version code.now (maps_of maps.now) res p (types_of types)) types result }
{
    if !may_be_quiet(cells::at(code, p)) {
        return None;
    }
    let read = decode(version, code, p)?;
    let i = read.instruction;
    if !goes_on(i) || target_of(i).is_some() {
        return None;
    }
    let q = p + read.size;
    if find_map(maps, places, q).is_some() {
        return None;
    }
    let effect = effect_of(types, i, res)?;
    quiet_of(effect, q)
}

// The quiet turns from point `from` on, with n turns left. The last turn is left to the walk.
pub(crate) fn quiet_run(
    version: u8,
    code: &[u8],
    maps: &[u8],
    places: &[u32],
    res: u16,
    first: Types,
    n: usize,
    from: usize,
    map: u8,
    at: u32,
) -> Run
    requires { Indexed maps.now places.now × PlaceOf maps.now map at × (0 < n) }
    ensures { PlaceOf maps.now result.map result.place × (0 < result.left) × (result.left ≤ n) × (trace version code.now (maps_of maps.now) res result.left result.point (left_from maps.now result.map) (types_of result.types) ≡ trace version code.now (maps_of maps.now) res n from (left_from maps.now map) (types_of first)) }
{
    let mut types = first;
    let mut left = n;
    let mut point = from;
    let mut i = map;
    let mut place = at;
    // The run may end early, and the turns that are left are part of what it answers.
    while 1 < left {
        let Some(ahead) = pass(maps, i, place, point) else {
            break;
        };
        let Some(quiet) = quiet_at(version, code, maps, places, point, res, types) else {
            break;
        };
        match quiet {
            Quiet::Keeps(q, d) => {
                types.depth = d;
                point = q;
            }
            Quiet::Pushes(q, d, t) => {
                types.operands[d] = t;
                types.depth = d + 1;
                point = q;
            }
            Quiet::Sets(q, d, l, t) => {
                types.locals[l] = t;
                types.depth = d;
                point = q;
            }
        }
        i = ahead.number;
        place = ahead.place;
        left -= 1;
    }
    Run {
        types,
        left,
        point,
        map: i,
        place,
    }
}
