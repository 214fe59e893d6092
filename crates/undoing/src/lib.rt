// Taking back the latest load that changed the store: the five counts before it are the store's again, and its row of the trace goes. What it had added lies behind the
// counts. The groups of the ties left are made anew, since the load may have joined older ones; no other cell is written.
#![tactic(auto)]

ghost use Rattle.std.specs.Prelude.{◌≡◌};
ghost use Rattle.definition.specs.Tables.{tables, level_at};
ghost use Rattle.definition.specs.Calls.{done, call_take_back, perform};
ghost use Rattle.undoing.specs.Back.{back_to};

use definition::numbers::{
    COUNT_CACHE, COUNT_CLASSES, COUNT_KEPT, COUNT_SUBTYPES, COUNT_TIES, LEVEL_CELLS, LOADS_CELL,
    TRACE_CELL, WORD_BROKEN, WORD_LATE,
};
use definition::{Refusal, Reply};

// The counts of row i of the trace, and as many loads as lie below it.
#[tactic(auto, unfolding(crate::specs::Back::back_to, definition::specs::Tables::level_at))]
fn take_level(counts: &mut [u16], i: u16)
    ensures { counts.new ≡ back_to (level_at counts.old i) i counts.old }
{
    let place = TRACE_CELL + usize::from(i) * LEVEL_CELLS;
    let classes = cells::at(counts, place);
    let kept = cells::at(counts, place + 1);
    let cache = cells::at(counts, place + 2);
    let ties = cells::at(counts, place + 3);
    let subtypes = cells::at(counts, place + 4);
    cells::put(counts, COUNT_CLASSES, classes);
    cells::put(counts, COUNT_KEPT, kept);
    cells::put(counts, COUNT_CACHE, cache);
    cells::put(counts, COUNT_TIES, ties);
    cells::put(counts, COUNT_SUBTYPES, subtypes);
    cells::put(counts, LOADS_CELL, i);
}

// The latest load that changed the store is undone, where nothing closed it. Refusals: 1 19
pub fn take_back(
    counts: &mut [u16],
    classes: &[u16],
    kept: &[u8],
    cache: &[u16],
    ties: &[u16],
    subtypes: &[u16],
    objects: &[u32],
    frames: &[u32],
) -> Reply
    ensures { done result (tables counts.new classes.now kept.now cache.now ties.now subtypes.now objects.now frames.now) ≡ perform call_take_back (tables counts.old classes.now kept.now cache.now ties.now subtypes.now objects.now frames.now) }
{
    if store::is_broken(
        counts, classes, kept, cache, ties, subtypes, objects, frames,
    ) {
        return Reply::Denied(Refusal::Word(WORD_BROKEN));
    }
    let loads = cells::at(counts, LOADS_CELL);
    if loads == 0 {
        return Reply::Denied(Refusal::Word(WORD_LATE));
    }
    take_level(counts, loads - 1);
    groups::write_groups(counts, ties);
    Reply::Accepted
}
