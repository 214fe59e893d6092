// Values of objects' fields and of frames.
ghost use Rattle.std.specs.Prelude.{◌≡◌, ◌&&◌, ◌+◌, ◌*◌, ◌<◌, ◌≤◌, length, get_or, eqb, ltb};
ghost use Rattle.definition.specs.Numbers.{class_limit, object_limit, field_limit, frame_limit, operand_limit, task_limit, local_count, count_classes, count_objects, count_frames, object_cells, frame_cells, counts_length, objects_length, frames_length};
ghost use Rattle.definition.specs.Lists.{all, rows, stack};
ghost use Rattle.definition.specs.Tables.{value_of, owner_at, field_at, local_at, operand_at, frame_at};
ghost use Rattle.store.specs.Checks.{exists, object_sized, value_in, local_in, object_in, frame_fit, frames_fit, limit_of, SizesFew};

use definition::numbers::{
    COUNT_CLASSES, COUNT_FRAMES, COUNT_OBJECTS, DEPTH_CELL, FIELDS_CELL, FRAME_CELLS, FRAME_LIMIT,
    KIND_INT, KIND_NULL, KIND_OBJECT, LOCAL_COUNT, LOCALS_CELL, OBJECT_CELLS, OPERAND_LIMIT,
    OPERANDS_CELL, OWNERS_CELL, TASK_LIMIT, VALUE_CELLS,
};

// The rows of a task, and the cells of a row of frames.
const TASK_ROWS: u32 = FRAME_LIMIT as u32;

const ROW_SIZE: u32 = FRAME_CELLS as u32;

// From so many fields on.
const MANY_FIELDS: u8 = 4;

// An owner is 1 and a task.
const LAST_OWNER: u16 = TASK_LIMIT as u16;

// Object o exists: its row is one of the first `made`, and owned.
fn object_exists(counts: &[u16], o: u32, made: u32) -> bool
    ensures { result ≡ exists counts.now made o }
{
    if made <= o {
        return false;
    }
    0 < cells::at(counts, OWNERS_CELL + o as usize)
}

// A value by its kind and its bits. An int's bits don't count.
fn value_fits(counts: &[u16], kind: u32, bits: u32, made: u32) -> bool
    ensures { result ≡ value_in (exists counts.now made) (value_of kind bits) }
{
    if kind == KIND_INT {
        return true;
    }
    if kind == KIND_OBJECT {
        return object_exists(counts, bits, made);
    }
    if kind == KIND_NULL {
        return bits == 0;
    }
    false
}

// A local may be empty.
fn local_fits(counts: &[u16], kind: u32, bits: u32, made: u32) -> bool
    ensures { result ≡ local_in (exists counts.now made) (value_of kind bits) }
{
    if kind == 0 {
        return bits == 0;
    }
    value_fits(counts, kind, bits, made)
}

// What the bits of a value that fits are below, if its kind isn't an int's.
fn limit_of(kind: u32, made: u32) -> u32
    ensures { result ≡ limit_of kind made }
{
    if kind == KIND_OBJECT {
        return made;
    }
    if kind == KIND_NULL { 1 } else { 0 }
}

// 0 if the number before is, and row o is owned.
fn owned_too(counts: &[u16], o: u32, before: u32) -> u32
    ensures { eqb result 0 ≡ (eqb before 0 && ltb 0 (owner_at counts.now o)) }
{
    if cells::at(counts, OWNERS_CELL + o as usize) == 0 {
        return 1;
    }
    before
}

// 0 if the number before is, and the value fits.
fn fits_too(counts: &[u16], kind: u32, bits: u32, made: u32, before: u32) -> u32
    ensures { eqb result 0 ≡ (eqb before 0 && value_in (exists counts.now made) (value_of kind bits)) }
{
    if kind == KIND_INT {
        return before;
    }
    if limit_of(kind, made) <= bits {
        return 1;
    }
    if kind == KIND_OBJECT {
        return owned_too(counts, bits, before);
    }
    before
}

// The first `size` fields of object o, all of them looked at.
fn many_fit(counts: &[u16], objects: &[u32], o: u16, size: u8, made: u32) -> bool
    requires { (o * object_cells + object_cells ≤ length objects.now) × (size ≤ field_limit) }
    ensures { result ≡ all (value_in (exists counts.now made)) (rows (field_at objects.now o) size 0) }
{
    let first = usize::from(o) * OBJECT_CELLS + FIELDS_CELL;
    let mut found: u32 = 0;
    for i in 0..size {
        let place = first + VALUE_CELLS * usize::from(i);
        found = fits_too(counts, objects[place], objects[place + 1], made, found);
    }
    found == 0
}

// The same, up to the first that doesn't fit.
fn few_fit(counts: &[u16], objects: &[u32], o: u16, size: u8, made: u32) -> bool
    requires { (o * object_cells + object_cells ≤ length objects.now) × (size ≤ field_limit) }
    ensures { result ≡ all (value_in (exists counts.now made)) (rows (field_at objects.now o) size 0) }
{
    let first = usize::from(o) * OBJECT_CELLS;
    for i in 0..size {
        let place = first + (FIELDS_CELL + VALUE_CELLS * usize::from(i));
        if !value_fits(counts, objects[place], objects[place + 1], made) {
            return false;
        }
    }
    true
}

// The same: of many fields it is quicker to look at all.
fn fields_fit(counts: &[u16], objects: &[u32], o: u16, size: u8, made: u32) -> bool
    requires { (o * object_cells + object_cells ≤ length objects.now) × (size ≤ field_limit) }
    ensures { result ≡ all (value_in (exists counts.now made)) (rows (field_at objects.now o) size 0) }
{
    if MANY_FIELDS <= size {
        return many_fit(counts, objects, o, size, made);
    }
    few_fit(counts, objects, o, size, made)
}

// Row o, free or with an object, where `sizes` has the size of its class.
fn object_fits(
    sizes: &[u8],
    counts: &[u16],
    objects: &[u32],
    o: u16,
    classes: u32,
    made: u32,
) -> bool
    requires { SizesFew sizes.now × (classes ≤ class_limit) × (length counts.now ≡ counts_length) × (length objects.now ≡ objects_length) × (o < object_limit) }
    ensures { result ≡ object_in classes (exists counts.now made) (object_sized sizes.now counts.now objects.now o) }
{
    let row = usize::from(o);
    let owner = counts[OWNERS_CELL + row];
    if owner == 0 {
        return true;
    }
    if LAST_OWNER < owner {
        return false;
    }
    let class = objects[row * OBJECT_CELLS];
    if classes <= class {
        return false;
    }
    let size = sizes[class as usize];
    fields_fit(counts, objects, o, size, made)
}

pub(crate) fn objects_fit(sizes: &[u8], counts: &[u16], objects: &[u32]) -> bool
    requires { SizesFew sizes.now × (get_or counts.now count_classes 0 ≤ class_limit) × (length counts.now ≡ counts_length) × (length objects.now ≡ objects_length) × (get_or counts.now count_objects 0 ≤ object_limit) }
    ensures { result ≡ all (object_in (get_or counts.now count_classes 0) (exists counts.now (get_or counts.now count_objects 0))) (rows (object_sized sizes.now counts.now objects.now) (get_or counts.now count_objects 0) 0) }
{
    let classes = u32::from(cells::at(counts, COUNT_CLASSES));
    let n = cells::at(counts, COUNT_OBJECTS);
    let made = u32::from(n);
    for o in 0..n {
        if !object_fits(sizes, counts, objects, o, classes, made) {
            return false;
        }
    }
    true
}

// The operands of the frame whose row begins at cell b, from the last pushed.
fn operands_fit(counts: &[u16], frames: &[u32], b: u32, depth: u32, made: u32) -> bool
    requires { (b + frame_cells ≤ length frames.now) × (depth ≤ operand_limit) }
    ensures { result ≡ all (value_in (exists counts.now made)) (stack (operand_at frames.now b) depth) }
{
    for i in (0..depth).rev() {
        let place = b as usize + (OPERANDS_CELL + VALUE_CELLS * i as usize);
        if !value_fits(counts, frames[place], frames[place + 1], made) {
            return false;
        }
    }
    true
}

fn locals_fit(counts: &[u16], frames: &[u32], b: u32, made: u32) -> bool
    requires { b + frame_cells ≤ length frames.now }
    ensures { result ≡ all (local_in (exists counts.now made)) (rows (local_at frames.now b) local_count 0) }
{
    for i in 0..LOCAL_COUNT {
        let place = b as usize + (LOCALS_CELL + VALUE_CELLS * usize::from(i));
        if !local_fits(counts, frames[place], frames[place + 1], made) {
            return false;
        }
    }
    true
}

fn frame_fits(counts: &[u16], frames: &[u32], b: u32, classes: u32, made: u32) -> bool
    requires { b + frame_cells ≤ length frames.now }
    ensures { result ≡ frame_fit classes (exists counts.now made) (frame_at frames.now b) }
{
    if classes <= cells::at(frames, b as usize) {
        return false;
    }
    let depth = cells::at(frames, b as usize + DEPTH_CELL);
    if OPERAND_LIMIT < depth {
        return false;
    }
    if !operands_fit(counts, frames, b, depth, made) {
        return false;
    }
    locals_fit(counts, frames, b, made)
}

// The frames of a task, from the top.
pub(crate) fn frames_fit(counts: &[u16], frames: &[u32], task: u8) -> bool
    requires { (length frames.now ≡ frames_length) × (task < task_limit) × (get_or counts.now (count_frames + task) 0 ≤ frame_limit) }
    ensures { result ≡ frames_fit counts.now frames.now task }
{
    let classes = u32::from(cells::at(counts, COUNT_CLASSES));
    let made = u32::from(cells::at(counts, COUNT_OBJECTS));
    let first = u32::from(task) * TASK_ROWS;
    let n = cells::at(counts, COUNT_FRAMES + usize::from(task));
    for i in (0..n).rev() {
        if !frame_fits(
            counts,
            frames,
            (first + u32::from(i)) * ROW_SIZE,
            classes,
            made,
        ) {
            return false;
        }
    }
    true
}
