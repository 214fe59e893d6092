// What is remembered of the place at which the top frame stands: the slot of the field that its instruction names, for receivers of a class. It is looked up before
// the step that does the instruction, and only a slot that is reached with no tie to post is remembered.
ghost use Rattle.std.specs.Prelude.{◌≡◌, ℕ, true, [], ◌<◌, get_or};
ghost use Rattle.definition.specs.Lists.{rows};
ghost use Rattle.definition.specs.Constraints.{new_tie};
ghost use Rattle.definition.specs.Tables.{tie_at};
ghost use Rattle.execution.specs.Facts.{Slot, FactOf, Noted, Minds};
ghost use Rattle.execution.specs.declared.noting.Place.{Place};

use crate::memory::{key_of, remember};
use definition::numbers::{COUNT_TIES, FIELD_LIMIT, KIND_OBJECT};
use definition::{Arguments, Instruction};
use resolution::Base;

// How many places a run can remember.
const MEMORY_SIZE: usize = 512;

// Whether the tie between two loaders on a name needs no posting.
fn is_old(counts: &[u16], ties: &[u16], one: u16, two: u16, of: u16) -> bool
    ensures { result ≡ true → new_tie (rows (tie_at ties.now) (get_or counts.now 3 0) 0) one two of ≡ [] }
{
    if one == two {
        return true;
    }
    let Ok(first) = u8::try_from(one) else {
        return false;
    };
    let Ok(second) = u8::try_from(two) else {
        return false;
    };
    let posting = posting::new_ties(
        ties,
        cells::at(counts, COUNT_TIES),
        first,
        second,
        Arguments::NoArguments,
        of,
    );
    posting::tie_number(posting) == 0
}

// The slot of a field in receivers of class r, found under a loader with no tie to post.
fn slot_found(
    base: &Base,
    ties: &[u16],
    loader: u16,
    class: u16,
    name: u16,
    of: u16,
    r: u32,
) -> Option<u32>
    ensures { (j : ℕ) → result ≡ Some j → Slot base.now.counts.now base.now.classes.now base.now.kept.now base.now.cache.now ties.now loader class name of r j × (j < 16) }
{
    let e = base.find(loader, class)?;
    let s = base.nearest_field(e, name, of)?;
    let j = base.slot_of(s, name, of)?;
    if j < FIELD_LIMIT
        && base.is_below(r, e)
        && is_old(base.counts, ties, base.loader_of(s), loader, of)
    {
        Some(j)
    } else {
        None
    }
}

// How far below the top of the operands an instruction's receiver stands, if it has one that is asked for.
fn receiver_depth(i: Instruction) -> Option<u32> {
    match i {
        Instruction::Getfield(_, _, _) => Some(1),
        Instruction::Putfield(_, _, _) => Some(2),
        _ => None,
    }
}

// The class of an instruction's receiver, of the frame at cell b, if there is such an object.
fn receiver_class(objects: &[u32], frames: &[u32], b: u32, i: Instruction) -> Option<u32> {
    let down = receiver_depth(i)?;
    let d = frames::depth(frames, b);
    if d < down {
        return None;
    }
    let x = frames::operand(frames, b, d - down);
    if x.kind == KIND_OBJECT {
        Some(frames::object_class(objects, x.bits))
    } else {
        None
    }
}

// What is right for an instruction of a class with that loader and receivers of class r, if anything is found.
fn fact_of(base: &Base, ties: &[u16], loader: u16, i: Instruction, r: u32) -> Option<u32>
    ensures { (f : ℕ) → result ≡ Some f → FactOf base.now.counts.now base.now.classes.now base.now.kept.now base.now.cache.now ties.now loader i r f }
{
    match i {
        Instruction::Getfield(class, name, of) => {
            slot_found(base, ties, loader, class, name, of, r)
        }
        Instruction::Putfield(class, name, of) => {
            slot_found(base, ties, loader, class, name, of, r)
        }
        _ => None,
    }
}

// A place, and what is right for it.
#[derive(Clone, Copy)]
pub(crate) struct Place {
    pub key: u16,
    pub point: u16,
    pub class: u16,
    pub fact: u32,
}

// The place at point p of method m of class c, for the frame at cell b, if anything is found for it.
fn place_of(
    base: &Base,
    ties: &[u16],
    objects: &[u32],
    frames: &[u32],
    b: u32,
    c: u32,
    m: u32,
    p: u32,
) -> Option<Place>
    ensures { (w : Place) → result ≡ Some w → Noted base.now.counts.now base.now.classes.now base.now.kept.now base.now.cache.now ties.now w.key w.point w.class w.fact }
{
    if 64 <= c || 8 <= m || 512 <= p {
        return None;
    }
    let file = base.file_of(c);
    let code = resolution::code_of(file, m);
    let read = verifier::decode(classfile::version(file), code, p as usize)?;
    let r = receiver_class(objects, frames, b, read.instruction)?;
    if 64 <= r {
        return None;
    }
    let fact = fact_of(base, ties, base.loader_of(c), read.instruction, r)?;
    Some(Place {
        key: key_of(c, m),
        point: p as u16,
        class: r as u16,
        fact,
    })
}

// The place of the instruction of the top frame of the task whose turn it is.
fn place_at_hand(base: &Base, ties: &[u16], objects: &[u32], frames: &[u32]) -> Option<Place>
    ensures { (w : Place) → result ≡ Some w → Noted base.now.counts.now base.now.classes.now base.now.kept.now base.now.cache.now ties.now w.key w.point w.class w.fact }
{
    let task = tasks::turn(base.counts);
    let n = tasks::frame_count(base.counts, task);
    if n == 0 {
        return None;
    }
    let b = frames::row(task, n - 1);
    place_of(
        base,
        ties,
        objects,
        frames,
        b,
        frames::frame_class(frames, b),
        frames::frame_method(frames, b),
        frames::point(frames, b),
    )
}

// Whether there is something to remember of an opcode with that number.
fn is_noted(number: u8) -> bool {
    matches!(number, 16 | 17)
}

// What is found of the place at hand, before which a walk stopped at the opcode with that number, is remembered.
pub(crate) fn note(
    tags: &mut [u32],
    facts: &mut [u32],
    base: &Base,
    ties: &[u16],
    objects: &[u32],
    frames: &[u32],
    stop: u8,
)
    requires { Minds base.now.counts.now base.now.classes.now base.now.kept.now base.now.cache.now ties.now tags.old facts.old }
    ensures { Minds base.now.counts.now base.now.classes.now base.now.kept.now base.now.cache.now ties.now tags.new facts.new }
{
    if !is_noted(stop) || tags.len() < MEMORY_SIZE || facts.len() < MEMORY_SIZE {
        return;
    }
    if let Some(w) = place_at_hand(base, ties, objects, frames) {
        remember(tags, facts, w.key, w.point, w.class, w.fact);
    }
}
