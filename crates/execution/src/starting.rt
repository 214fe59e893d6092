// The start of a task.
ghost use Rattle.std.specs.Prelude.{◌≡◌, [], ◌∷◌, suc, ◌+◌, ◌<◌, ◌≤◌, get_or, set};
ghost use Rattle.definition.specs.Numbers.{object_limit, field_limit, count_objects, count_frames, owners_cell, loads_cell};
ghost use Rattle.definition.specs.Machine.{int_value, new_object, entry_frame};
ghost use Rattle.definition.specs.Tables.{tables, size_of, put_object, put_frame, frame_base};
ghost use Rattle.definition.specs.Calls.{done, call_start, perform};
ghost use Rattle.layout.specs.OwnedRows.{rows_with};
ghost use Rattle.resolution.specs.Quick.{quick_base};
ghost use Rattle.execution.specs.Starts.{Opens};

use crate::carrying::{take_row, write_new};
use definition::numbers::{KIND_INT, LOADS_CELL, WORD_BROKEN};
use definition::{Refusal, Reply};
use frames::{Cell, Entry};
use opening::Opening;
use resolution::Base;

// The decision on a start, which first tests for 'broken'.
fn decide_start(
    base: &Base,
    ties: &[u16],
    subtypes: &[u16],
    objects: &[u32],
    frames: &[u32],
    task: u32,
    loader: u32,
    name: u16,
    method: u16,
) -> Result<Opening, Refusal>
    ensures { Opens (tables base.now.counts.now base.now.classes.now base.now.kept.now base.now.cache.now ties.now subtypes.now objects.now frames.now) task loader name method result }
{
    if store::is_broken(
        base.counts,
        base.classes,
        base.kept,
        base.cache,
        ties,
        subtypes,
        objects,
        frames,
    ) {
        return Err(Refusal::Word(WORD_BROKEN));
    }
    opening::decide(base, task, loader, name, method)
}

// A task begun, which closes the loads before it: a new object, and a first frame with that object and an int.
fn begin(
    counts: &mut [u16],
    classes: &[u16],
    kept: &[u8],
    cache: &[u16],
    objects: &mut [u32],
    frames: &mut [u32],
    task: u8,
    first: Opening,
    value: u32,
)
    requires { (first.object < object_limit) × (size_of (quick_base counts.old classes.now kept.now cache.now) first.class ≤ field_limit) }
    ensures counted { counts.new ≡ set (set (set (set counts.old count_objects (rows_with first.object (get_or counts.old count_objects 0))) (owners_cell + first.object) (suc task)) (count_frames + task) 1) loads_cell 0 }
    ensures made { objects.new ≡ put_object objects.old first.object (new_object (quick_base counts.old classes.now kept.now cache.now) first.class) }
    ensures entered { frames.new ≡ put_frame frames.old (frame_base task 0) (entry_frame first.method.class first.method.place first.object (int_value value ∷ [])) }
{
    let base = Base {
        counts,
        classes,
        kept,
        cache,
    };
    write_new(&base, objects, u32::from(first.object), first.class);
    frames::write_entry(
        frames,
        frames::row(task, 0),
        Entry {
            class: first.method.class,
            method: first.method.place,
            object: u32::from(first.object),
            first: Cell {
                kind: KIND_INT,
                bits: value,
            },
            second: frames::empty(),
            third: frames::empty(),
            fourth: frames::empty(),
        },
    );
    take_row(counts, first.object, task);
    tasks::write_frame_count(counts, task, 1);
    cells::put(counts, LOADS_CELL, 0);
}

// Makes a new object of the cached class and a first frame in the method selected for that name, int and int, with that object and int.
pub fn start(
    counts: &mut [u16],
    classes: &[u16],
    kept: &[u8],
    cache: &[u16],
    ties: &[u16],
    subtypes: &[u16],
    objects: &mut [u32],
    frames: &mut [u32],
    task: u32,
    loader: u32,
    name: u16,
    method: u16,
    value: u32,
) -> Reply
    ensures { done result (tables counts.new classes.now kept.now cache.now ties.now subtypes.now objects.new frames.new) ≡ perform (call_start task loader name method value) (tables counts.old classes.now kept.now cache.now ties.now subtypes.now objects.old frames.old) }
{
    let base = Base {
        counts,
        classes,
        kept,
        cache,
    };
    let decision = decide_start(
        &base, ties, subtypes, objects, frames, task, loader, name, method,
    );
    match decision {
        Err(refusal) => Reply::Denied(refusal),
        Ok(first) => {
            begin(
                counts, classes, kept, cache, objects, frames, task as u8, first, value,
            );
            Reply::Accepted
        }
    }
}
