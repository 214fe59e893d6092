// One turn of the walk over a method's code: the instruction at a point, the flow into its target, and that into the next point.
ghost use Rattle.std.specs.Prelude.{◌≡◌, ℕ, Some};
ghost use Rattle.classfile.specs.Reading.{maps_of};
ghost use Rattle.rows.specs.Posting.{noted};
ghost use Rattle.definition.specs.Verifier.{target};
ghost use Rattle.verifier.specs.Lookups.{Indexed};
ghost use Rattle.verifier.specs.Types.{types_of};
ghost use Rattle.verifier.specs.Trace.{flowed, posting, taking, target_trace, into_turn, start_turn, flowing, turned_to, turned};
ghost use Rattle.verifier.specs.Answers.{change_of, stepped};

use crate::changes::{Change, change_at};
use crate::decoding::decode;
use crate::flows::{is_fitting, mapped_types, meet_map, post_values};
use crate::lookups::{find_map, goes_on, target_of};
use crate::notes::{Posted, Rejected, post_meeting};
use crate::types::Types;
use definition::Instruction;

// What a turn leaves beside the types, which are lent: the point at which the walk goes on, none at the code's end, how many rows there are with the turn's
// notes, and the row at which the next flow's are looked for first. The types are long, so they are left in place and not passed on from answer to answer.
#[derive(Clone, Copy)]
pub struct Turn {
    pub next: Option<usize>,
    pub count: u16,
    pub near: u16,
}

// The types flow into point q.
pub(crate) fn flow_into(
    maps: &[u8],
    places: &[u32],
    q: usize,
    types: &mut Types,
    loader: u8,
    subtypes: &mut [u16],
    count: u16,
    near: u16,
) -> Result<Turn, Rejected>
    requires { Indexed maps.now places.now }
    ensures { (n : ℕ) → stepped result types.new subtypes.new ≡ taking loader (into_turn n (maps_of maps.now) q (types_of types.old)) (noted subtypes.old count) }
{
    let Some(place) = find_map(maps, places, q) else {
        return Ok(Turn {
            next: Some(q),
            count,
            near,
        });
    };
    let met = meet_map(maps, place, *types, loader, subtypes, count, near)?;
    let mapped = mapped_types(maps, place);
    *types = mapped;
    Ok(Turn {
        next: Some(q),
        count: met.count,
        near: met.near,
    })
}

// Nothing flows into point q of code of n bytes.
fn start_at(
    n: usize,
    maps: &[u8],
    places: &[u32],
    q: usize,
    types: &mut Types,
    count: u16,
    near: u16,
) -> Result<Turn, Rejected>
    requires { Indexed maps.now places.now }
    ensures { (l : ℕ) (t : _) → stepped result types.new t ≡ taking l (start_turn n (maps_of maps.now) q) (noted t count) }
{
    if q == n {
        return Ok(Turn {
            next: None,
            count,
            near,
        });
    }
    let Some(place) = find_map(maps, places, q) else {
        return Err(Rejected { count });
    };
    if !is_fitting(maps, place) {
        return Err(Rejected { count });
    }
    *types = mapped_types(maps, place);
    Ok(Turn {
        next: Some(q),
        count,
        near,
    })
}

// The flow into the instruction's target, if it has one.
fn flow_to_target(
    maps: &[u8],
    places: &[u32],
    i: Instruction,
    types: Types,
    loader: u8,
    subtypes: &mut [u16],
    count: u16,
    near: u16,
) -> Result<Posted, Rejected>
    requires { Indexed maps.now places.now }
    ensures { (n : ℕ) → flowed result subtypes.new ≡ posting loader (target_trace n (maps_of maps.now) (target i) (types_of types)) (noted subtypes.old count) }
{
    let Some(q) = target_of(i) else {
        return Ok(Posted { count, near });
    };
    let Some(place) = find_map(maps, places, usize::from(q)) else {
        return Err(Rejected { count });
    };
    meet_map(maps, place, types, loader, subtypes, count, near)
}

// An instruction that ends at q, in code of n bytes, and leaves these types.
fn flow(
    n: usize,
    maps: &[u8],
    places: &[u32],
    i: Instruction,
    q: usize,
    types: &mut Types,
    loader: u8,
    subtypes: &mut [u16],
    count: u16,
    near: u16,
) -> Result<Turn, Rejected>
    requires { Indexed maps.now places.now }
    ensures { stepped result types.new subtypes.new ≡ taking loader (flowing n (maps_of maps.now) i q (types_of types.old)) (noted subtypes.old count) }
{
    let met = flow_to_target(maps, places, i, *types, loader, subtypes, count, near)?;
    if goes_on(i) {
        flow_into(
            maps, places, q, types, loader, subtypes, met.count, met.near,
        )
    } else {
        start_at(n, maps, places, q, types, met.count, met.near)
    }
}

// What an instruction leaves: its own notes, then the flows.
fn flow_from(
    n: usize,
    maps: &[u8],
    places: &[u32],
    i: Instruction,
    q: usize,
    change: Change,
    types: &mut Types,
    loader: u8,
    subtypes: &mut [u16],
    count: u16,
    near: u16,
) -> Result<Turn, Rejected>
    requires { Indexed maps.now places.now }
    ensures { stepped result types.new subtypes.new ≡ taking loader (turned_to n (maps_of maps.now) i q (change_of (Some change))) (noted subtypes.old count) }
{
    *types = change.types;
    let receiver = change.receiver;
    let names = change.names;
    let first = post_meeting(receiver, loader, subtypes, count);
    let second = post_values(*types, change.place, names, loader, subtypes, first);
    flow(n, maps, places, i, q, types, loader, subtypes, second, near)
}

// The instruction at point p of a method with that result type.
pub(crate) fn turn_at(
    version: u8,
    code: &[u8],
    maps: &[u8],
    places: &[u32],
    p: usize,
    res: u16,
    types: &mut Types,
    loader: u8,
    subtypes: &mut [u16],
    count: u16,
    near: u16,
) -> Result<Turn, Rejected>
    requires { Indexed maps.now places.now }
    ensures { stepped result types.new subtypes.new ≡ taking loader (turned version code.now (maps_of maps.now) res p (types_of types.old)) (noted subtypes.old count) }
{
    let Some(read) = decode(version, code, p) else {
        return Err(Rejected { count });
    };
    let i = read.instruction;
    let Some(change) = change_at(*types, i, res) else {
        return Err(Rejected { count });
    };
    let end = p + read.size;
    let n = code.len();
    flow_from(
        n, maps, places, i, end, change, types, loader, subtypes, count, near,
    )
}
