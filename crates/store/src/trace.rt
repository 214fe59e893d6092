// The trace of loads that can be taken back: each level lies under the next, and what it leaves of the tables ends before its counts. Levels are tested from the
// oldest on, so that each class and each entry is looked at once for all of them.
ghost use Rattle.std.specs.Prelude.{◌≡◌, true, ℕ, ◌+◌, ◌-◌, ◌<◌, get_or};
ghost use Rattle.definition.specs.Numbers.{short_range, int_range, count_objects, count_frames};
ghost use Rattle.definition.specs.Lists.{all, rows};
ghost use Rattle.definition.specs.Tables.{level_at};
ghost use Rattle.store.specs.Tracing.{highest, file_end, object_end, frame_end, held_end, under, falling, level_from, cell_at, entry_end, last_below, leaves, level_leaves, trace_quick};

use definition::numbers::{
    COUNT_FRAMES, COUNT_OBJECTS, FRAME_CELLS, FRAME_LIMIT, LEVEL_CELLS, LOADS_CELL, OBJECT_CELLS,
    OWNERS_CELL, ROW_CELLS, SUBTYPE_NUMBERS_CELL, TIE_NUMBERS_CELL, TRACE_CELL,
};

// The rows of a task.
const TASK_ROWS: usize = FRAME_LIMIT as usize;

// The greatest of `most` and of what `end` answers at the places from one to another.
fn highest<F: Fn(u16) -> usize>(from: u16, to: u16, most: usize, end: F) -> usize
    requires { F.IsAlwaysCallable end }
    ensures { (f : ℕ → ℕ) → ((i r : ℕ) → i < short_range → F.post end i r → r ≡ f i) → result ≡ highest f from (to - from) most }
{
    let mut greatest = most;
    for i in from..to {
        greatest = greatest.max(end(i));
    }
    greatest
}

// Where the file of class c ends.
fn file_end(classes: &[u16], c: u16) -> usize
    ensures { result ≡ file_end classes.now c }
{
    let place = usize::from(c) * ROW_CELLS;
    usize::from(cells::at(classes, place + 1)) + usize::from(cells::at(classes, place + 2))
}

// Past the class of entry i.
fn entry_end(cache: &[u16], i: u16) -> usize
    ensures { result ≡ entry_end cache.now i }
{
    usize::from(cells::at(cache, usize::from(i) * ROW_CELLS + 2)) + 1
}

// Past the class of object o, 0 if its row is free.
fn object_end(counts: &[u16], objects: &[u32], o: u16) -> usize
    ensures { result ≡ object_end counts.now objects.now o }
{
    if cells::at(counts, OWNERS_CELL + usize::from(o)) == 0 {
        return 0;
    }
    cells::at(objects, usize::from(o) * OBJECT_CELLS) as usize + 1
}

// Past the class of a task's frame i.
fn frame_end(frames: &[u32], task: u8, i: u16) -> usize
    ensures { result ≡ frame_end frames.now task i }
{
    let row = usize::from(task) * TASK_ROWS + usize::from(i);
    cells::at(frames, row * FRAME_CELLS) as usize + 1
}

// Past the classes of a task's frames.
fn frames_end(counts: &[u16], frames: &[u32], task: u8, most: usize) -> usize
    ensures { result ≡ highest (frame_end frames.now task) 0 (get_or counts.now (count_frames + task) 0) most }
{
    let n = cells::at(counts, COUNT_FRAMES + usize::from(task));
    highest(0, n, most, |i| frame_end(frames, task, i))
}

// Past the classes of all objects and frames.
fn held_end(counts: &[u16], objects: &[u32], frames: &[u32]) -> usize
    ensures { result ≡ held_end counts.now objects.now frames.now }
{
    let n = cells::at(counts, COUNT_OBJECTS);
    let made = highest(0, n, 0, |o| object_end(counts, objects, o));
    frames_end(counts, frames, 1, frames_end(counts, frames, 0, made))
}

// The level at a place lies under that at another.
fn is_under(counts: &[u16], place: usize, above: usize) -> bool
    requires { (place < int_range) × (above < int_range) }
    ensures { result ≡ under (level_from counts.now place) (level_from counts.now above) }
{
    if cells::at(counts, above) < cells::at(counts, place) {
        return false;
    }
    if cells::at(counts, above + 1) < cells::at(counts, place + 1) {
        return false;
    }
    if cells::at(counts, above + 2) < cells::at(counts, place + 2) {
        return false;
    }
    if cells::at(counts, above + 3) < cells::at(counts, place + 3) {
        return false;
    }
    cells::at(counts, place + 4) <= cells::at(counts, above + 4)
}

// Each level lies under the next, the latest under the counts.
fn levels_fall(counts: &[u16], loads: u16) -> bool
    ensures { result ≡ falling (level_at counts.now) loads (level_from counts.now 0) }
{
    let mut above = 0;
    for i in (0..loads).rev() {
        let place = TRACE_CELL + usize::from(i) * LEVEL_CELLS;
        if !is_under(counts, place, above) {
            return false;
        }
        above = place;
    }
    true
}

// The last of the first n numbers of a section is below k.
fn last_below(counts: &[u16], first: usize, n: u16, k: usize) -> bool
    requires { first < short_range }
    ensures { result ≡ last_below counts.now first n k }
{
    if n == 0 {
        return true;
    }
    usize::from(cells::at(counts, first + usize::from(n - 1))) < k
}

// How many classes and how many entries row i of the trace leaves.
fn classes_left(counts: &[u16], i: u16) -> u16
    ensures { result ≡ (level_at counts.now i).classes }
{
    cells::at(counts, TRACE_CELL + usize::from(i) * LEVEL_CELLS)
}

fn entries_left(counts: &[u16], i: u16) -> u16
    ensures { result ≡ (level_at counts.now i).cache }
{
    cells::at(counts, TRACE_CELL + usize::from(i) * LEVEL_CELLS + 2)
}

// What row i of the trace leaves ends before its counts.
fn level_leaves(
    counts: &[u16],
    i: u16,
    files: usize,
    supers: usize,
    entries: usize,
    held: usize,
) -> bool
    ensures { result ≡ leaves counts.now files supers entries held (level_at counts.now i) }
{
    let place = TRACE_CELL + usize::from(i) * LEVEL_CELLS;
    let classes = usize::from(cells::at(counts, place));
    if usize::from(cells::at(counts, place + 1)) < files {
        return false;
    }
    if usize::from(cells::at(counts, place + 2)) < supers {
        return false;
    }
    if classes < entries {
        return false;
    }
    if classes < held {
        return false;
    }
    let ties = cells::at(counts, place + 3);
    let subtypes = cells::at(counts, place + 4);
    let numbers = usize::from(ties) + usize::from(subtypes);
    if !last_below(counts, TIE_NUMBERS_CELL, ties, numbers) {
        return false;
    }
    last_below(counts, SUBTYPE_NUMBERS_CELL, subtypes, numbers)
}

// Each level leaves only what ends before its counts; `ends` has, of each class, the row past the entry of its superclass.
fn levels_leave(
    counts: &[u16],
    classes: &[u16],
    cache: &[u16],
    ends: &[u16],
    held: usize,
    loads: u16,
) -> bool
    requires { falling (level_at counts.now) loads (level_from counts.now 0) ≡ true }
    ensures { result ≡ all (level_leaves (cell_at ends.now) counts.now classes.now cache.now held) (rows (level_at counts.now) loads 0) }
{
    let mut n: u16 = 0;
    let mut k: u16 = 0;
    let mut files = 0;
    let mut supers = 0;
    let mut entries = 0;
    for i in 0..loads {
        let a = classes_left(counts, i);
        let e = entries_left(counts, i);
        files = highest(n, a, files, |c| file_end(classes, c));
        supers = highest(
            n,
            a,
            supers,
            |c| usize::from(cells::at(ends, usize::from(c))),
        );
        entries = highest(k, e, entries, |j| entry_end(cache, j));
        if !level_leaves(counts, i, files, supers, entries, held) {
            return false;
        }
        n = a;
        k = e;
    }
    true
}

// Taking back in turn needs no rows that aren't there, and leaves no broken store.
pub(crate) fn trace_fits(
    counts: &[u16],
    classes: &[u16],
    cache: &[u16],
    ends: &[u16],
    objects: &[u32],
    frames: &[u32],
) -> bool
    ensures { result ≡ trace_quick (cell_at ends.now) counts.now classes.now cache.now objects.now frames.now }
{
    let loads = cells::at(counts, LOADS_CELL);
    if loads == 0 {
        return true;
    }
    if !levels_fall(counts, loads) {
        return false;
    }
    let held = held_end(counts, objects, frames);
    levels_leave(counts, classes, cache, ends, held, loads)
}
