// A load remembered: the level before it, which is the first five counts, stands as the latest of the trace.
ghost use Rattle.std.specs.Prelude.{◌≡◌, ◌<◌};
ghost use Rattle.definition.specs.Numbers.{int_range};
ghost use Rattle.definition.specs.Tables.{put_level};
ghost use Rattle.entries.specs.Remembering.{level_in, moved_down, remembered_in};

use definition::numbers::{LEVEL_CELLS, LOADS_CELL, TRACE_CELL, TRACE_LIMIT};

// The last row of a trace that is full.
const LAST: u16 = TRACE_LIMIT - 1;

// The five cells from a place on, written as row i of the trace.
fn copy_level(counts: &mut [u16], from: usize, i: u16)
    requires { from < int_range }
    ensures { counts.new ≡ put_level counts.old i (level_in counts.old from) }
{
    let classes = cells::at(counts, from);
    let kept = cells::at(counts, from + 1);
    let cache = cells::at(counts, from + 2);
    let ties = cells::at(counts, from + 3);
    let subtypes = cells::at(counts, from + 4);
    let place = TRACE_CELL + usize::from(i) * LEVEL_CELLS;
    cells::put(counts, place, classes);
    cells::put(counts, place + 1, kept);
    cells::put(counts, place + 2, cache);
    cells::put(counts, place + 3, ties);
    cells::put(counts, place + 4, subtypes);
}

// Of a full trace the oldest goes, and the others move down by a row.
fn move_down(counts: &mut [u16])
    ensures { counts.new ≡ moved_down counts.old 31 }
{
    for k in 0..LAST {
        let from = TRACE_CELL + (usize::from(k) + 1) * LEVEL_CELLS;
        copy_level(counts, from, k);
    }
}

// A load is remembered before it changes the counts.
pub fn remember(counts: &mut [u16])
    ensures { counts.new ≡ remembered_in counts.old }
{
    let loads = cells::at(counts, LOADS_CELL);
    if TRACE_LIMIT < loads {
        return;
    }
    if loads < TRACE_LIMIT {
        cells::put(counts, LOADS_CELL, loads + 1);
        copy_level(counts, 0, loads);
        return;
    }
    move_down(counts);
    copy_level(counts, 0, LAST);
}
