// Demands met in their order, each note posted as it comes: the values above a receiver; and what flows into a map, each local and operand against the map's type.
ghost use Rattle.std.specs.Prelude.{◌≡◌, map, ℕ, ◌+◌, ◌<◌, ◌≤◌};
ghost use Rattle.definition.specs.Verifier.{local_type, map_types, meet_local, type_of_name};
ghost use Rattle.classfile.specs.Reading.{map_depth, type_at, map_of};
ghost use Rattle.verifier.specs.Types.{local_of, locals_of, operand_at, types_of};
ghost use Rattle.verifier.specs.Effects.{notes_in};
ghost use Rattle.rows.specs.Posting.{noted, post_notes};
ghost use Rattle.verifier.specs.Trace.{posting, flowed, fits, meet_from, values_trace, meet_trace};
ghost use Rattle.verifier.specs.Answers.{meet_at};

use crate::effects::{Meeting, meet_name, meet_value, met};
use crate::notes::{Posted, Rejected, post_flow, post_meeting};
use crate::types::{LOCALS, OPERANDS, Types, UNSET, type_of_name};
use cells::arguments::argument_count;
use definition::Arguments;

// The notes of the values above the receiver at place d, in their order, up to the first that isn't met. Answers the new count of rows.
pub(crate) fn post_values(
    types: Types,
    d: usize,
    names: Arguments,
    loader: u8,
    subtypes: &mut [u16],
    count: u16,
) -> u16
    ensures { noted subtypes.new result ≡ post_notes loader (values_trace types.operands d names).notes (noted subtypes.old count) }
{
    let mut total = count;
    for i in 0..argument_count(names) {
        let m = meet_value(types, d, names, i);
        if !met(m) {
            return total;
        }
        total = post_meeting(m, loader, subtypes, total);
    }
    total
}

// The type that a map gives a local: 0 is unset.
fn local_type(n: u16) -> u32
    ensures { local_of result ≡ local_type n }
{
    if n == 0 { UNSET } else { type_of_name(n) }
}

// A local where the map's type is n: it may become unset, and one that is unset meets nothing else.
fn meet_local(t: u32, n: u16) -> Meeting
    ensures { notes_in result ≡ meet_local (local_of t) n }
{
    if n == 0 {
        return Meeting::Met;
    }
    if t == UNSET {
        return Meeting::Unmet;
    }
    meet_name(t, n)
}

// The type of local i in the map that begins at that place.
fn mapped_local(maps: &[u8], place: u32, i: u8) -> u32
    ensures { local_of result ≡ local_type (type_at maps.now (place + 2) i) }
{
    local_type(classfile::map_local(maps, place, i))
}

fn mapped_locals(maps: &[u8], place: u32) -> [u32; LOCALS]
    ensures { locals_of result ≡ map local_type (map_of maps.now place).locals }
{
    let a = mapped_local(maps, place, 0);
    let b = mapped_local(maps, place, 1);
    let c = mapped_local(maps, place, 2);
    let d = mapped_local(maps, place, 3);
    let e = mapped_local(maps, place, 4);
    let f = mapped_local(maps, place, 5);
    let g = mapped_local(maps, place, 6);
    let h = mapped_local(maps, place, 7);
    [a, b, c, d, e, f, g, h]
}

// The types of n operands, from the lowest.
fn mapped_operands(maps: &[u8], place: u32, n: u8) -> [u32; OPERANDS]
    requires { n ≤ 16 }
    ensures { (j : ℕ) → j < n → operand_at result j ≡ type_of_name (type_at maps.now (place + 19) j) }
{
    let mut operands = [0; OPERANDS];
    for i in 0..n {
        operands[usize::from(i)] = type_of_name(classfile::map_operand(maps, place, i));
    }
    operands
}

// A map has at most 16 operands.
pub(crate) fn is_fitting(maps: &[u8], place: u32) -> bool
    ensures { result ≡ fits (map_of maps.now place) }
{
    usize::from(classfile::map_depth(maps, place)) <= OPERANDS
}

// The types that a map of at most 16 operands gives its point.
pub(crate) fn mapped_types(maps: &[u8], place: u32) -> Types
    requires { map_depth maps.now place ≤ 16 }
    ensures { types_of result ≡ map_types (map_of maps.now place) }
{
    let n = classfile::map_depth(maps, place);
    let operands = mapped_operands(maps, place, n);
    let locals = mapped_locals(maps, place);
    let depth = usize::from(n);
    Types {
        operands,
        depth,
        locals,
    }
}

// The two parts of the types at a point.
#[derive(Clone, Copy)]
pub enum Part {
    Locals,
    Operands,
}

// Place i of a part, from the lowest, against the map that begins at that place.
fn meet_place(maps: &[u8], place: u32, values: &[u32], part: Part, i: u8) -> Meeting
    ensures { notes_in result ≡ meet_at maps.now place values.now part i }
{
    let t = cells::at(values, usize::from(i));
    match part {
        Part::Locals => meet_local(t, classfile::map_local(maps, place, i)),
        Part::Operands => meet_name(t, classfile::map_operand(maps, place, i)),
    }
}

// The first n places of a part, each note posted as it comes.
fn meet_part(
    maps: &[u8],
    place: u32,
    values: &[u32],
    part: Part,
    n: u8,
    loader: u8,
    subtypes: &mut [u16],
    count: u16,
    near: u16,
) -> Result<Posted, Rejected>
    ensures { flowed result subtypes.new ≡ posting loader (meet_from (meet_at maps.now place values.now part) n 0) (noted subtypes.old count) }
{
    let mut posted = Posted { count, near };
    for i in 0..n {
        let m = meet_place(maps, place, values, part, i);
        if !met(m) {
            return Err(Rejected {
                count: posted.count,
            });
        }
        posted = post_flow(m, loader, subtypes, posted.count, posted.near);
    }
    Ok(posted)
}

// Where the next flow's first note is looked for first: a flow of so many places, each with a note, began as many rows before.
fn begun(flow: Posted, places: u16) -> Posted
    ensures { result.count ≡ flow.count }
{
    Posted {
        count: flow.count,
        near: flow.near.saturating_sub(places),
    }
}

// The types against the map that begins at that place: as many operands, then each local, then each operand.
pub(crate) fn meet_map(
    maps: &[u8],
    place: u32,
    types: Types,
    loader: u8,
    subtypes: &mut [u16],
    count: u16,
    near: u16,
) -> Result<Posted, Rejected>
    ensures { flowed result subtypes.new ≡ posting loader (meet_trace (types_of types) (map_of maps.now place)) (noted subtypes.old count) }
{
    let depth = classfile::map_depth(maps, place);
    if !is_fitting(maps, place) {
        return Err(Rejected { count });
    }
    if types.depth != usize::from(depth) {
        return Err(Rejected { count });
    }
    let values = types.locals;
    let locals = meet_part(
        maps,
        place,
        &values,
        Part::Locals,
        8,
        loader,
        subtypes,
        count,
        near,
    )?;
    let above = types.operands;
    let operands = meet_part(
        maps,
        place,
        &above,
        Part::Operands,
        depth,
        loader,
        subtypes,
        locals.count,
        locals.near,
    )?;
    Ok(begun(operands, 8 + u16::from(depth)))
}
