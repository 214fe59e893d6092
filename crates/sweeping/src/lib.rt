// Dead objects: sweep frees every object that no frame reaches. Each object in use is looked at once.
#![tactic(auto)]

mod marking; // marking.rt: marks, and the work list
mod freeing; // freeing.rt: owners of objects without a mark

ghost use Rattle.std.specs.Prelude.{◌≡◌, set};
ghost use Rattle.definition.specs.Numbers.{loads_cell};
ghost use Rattle.definition.specs.Tables.{tables};
ghost use Rattle.definition.specs.Calls.{done, call_sweep, perform};

use crate::freeing::free_unmarked;
use crate::marking::mark_reached;
use definition::numbers::{LOADS_CELL, OBJECT_LIMIT, WORD_BROKEN};
use definition::{Refusal, Reply};

// No load before it can be taken back. Counts that have none open are not written.
fn close(counts: &mut [u16])
    ensures { counts.new ≡ set counts.old loads_cell 0 }
{
    if cells::at(counts, LOADS_CELL) == 0 {
        return;
    }
    cells::put(counts, LOADS_CELL, 0);
}

// Objects that no frame reaches are freed; the answer is their number. No load before it can be taken back. Refusals: 1
pub fn sweep(
    counts: &mut [u16],
    classes: &[u16],
    kept: &[u8],
    cache: &[u16],
    ties: &[u16],
    subtypes: &[u16],
    objects: &[u32],
    frames: &[u32],
) -> Reply
    ensures { done result (tables counts.new classes.now kept.now cache.now ties.now subtypes.now objects.now frames.now) ≡ perform call_sweep (tables counts.old classes.now kept.now cache.now ties.now subtypes.now objects.now frames.now) }
{
    let Some(sizes) = store::class_sizes(
        counts, classes, kept, cache, ties, subtypes, objects, frames,
    ) else {
        return Reply::Denied(Refusal::Word(WORD_BROKEN));
    };
    let mut marks = [0u8; OBJECT_LIMIT as usize];
    mark_reached(&mut marks, &sizes, counts, objects, frames);
    let freed = free_unmarked(counts, &marks);
    close(counts);
    Reply::Swept(freed)
}
