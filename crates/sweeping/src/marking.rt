// Marks, and the work list: the objects that are marked, each put on the list once.
ghost use Rattle.std.specs.Prelude.{◌≡◌, ◌++◌, ◌*◌, ◌<◌, ◌≤◌};
ghost use Rattle.definition.specs.Numbers.{object_limit, int_range};
ghost use Rattle.definition.specs.Lists.{rows, stack};
ghost use Rattle.definition.specs.Sweeping.{named};
ghost use Rattle.definition.specs.Tables.{value_at, operand_at, frame_at};
ghost use Rattle.sweeping.specs.Marking.{work, mark, mark_all, mark_value, value_from, field_names, follow, roots_of, marked};

use definition::numbers::{
    COUNT_FRAMES, DEPTH_CELL, FIELDS_CELL, FRAME_CELLS, FRAME_LIMIT, KIND_OBJECT, LOCAL_COUNT,
    LOCALS_CELL, OBJECT_CELLS, OBJECT_LIMIT, OPERANDS_CELL, VALUE_CELLS,
};

// The rows of a task, and the cells of a row of frames.
const TASK_ROWS: u32 = FRAME_LIMIT as u32;

const ROW_SIZE: u32 = FRAME_CELLS as u32;

// Object o, marked and put on the list of n objects if it is not yet marked. A list of 256 is full: no store has more objects.
fn mark_object(marks: &mut [u8], list: &mut [u32], n: u16, o: u32) -> u16
    ensures { work marks.new list.new result ≡ mark (work marks.old list.old n) o }
{
    let place = o as usize;
    if cells::at(marks, place) != 0 {
        return n;
    }
    if OBJECT_LIMIT <= n {
        return n;
    }
    cells::put(marks, place, 1);
    cells::put(list, usize::from(n), o);
    n + 1
}

// The value at a cell of objects or frames; bits are read of an object alone.
fn mark_value(marks: &mut [u8], list: &mut [u32], n: u16, table: &[u32], place: usize) -> u16
    requires { place < 65 * int_range }
    ensures { work marks.new list.new result ≡ mark_value (work marks.old list.old n) (value_at table.now place) }
{
    if cells::at(table, place) != KIND_OBJECT {
        return n;
    }
    mark_object(marks, list, n, cells::at(table, place + 1))
}

// The `count` values from cell `first` on.
fn mark_values(
    marks: &mut [u8],
    list: &mut [u32],
    n: u16,
    table: &[u32],
    first: usize,
    count: u8,
) -> u16
    requires { first < 64 * int_range }
    ensures { work marks.new list.new result ≡ mark_all (work marks.old list.old n) (named (rows (value_from table.now first) count 0)) }
{
    let mut size = n;
    for i in 0..count {
        let place = first + VALUE_CELLS * usize::from(i);
        size = mark_value(marks, list, size, table, place);
    }
    size
}

// The operands of the frame whose row begins at cell b, from the last pushed.
fn mark_operands(
    marks: &mut [u8],
    list: &mut [u32],
    n: u16,
    frames: &[u32],
    b: u32,
    depth: u32,
) -> u16
    ensures { work marks.new list.new result ≡ mark_all (work marks.old list.old n) (named (stack (operand_at frames.now b) depth)) }
{
    let mut size = n;
    for i in (0..depth).rev() {
        let place = b as usize + (OPERANDS_CELL + VALUE_CELLS * i as usize);
        size = mark_value(marks, list, size, frames, place);
    }
    size
}

// The operands, and all locals.
fn mark_frame(marks: &mut [u8], list: &mut [u32], n: u16, frames: &[u32], b: u32) -> u16
    ensures { work marks.new list.new result ≡ mark_all (work marks.old list.old n) (named (frame_at frames.now b).operands ++ named (frame_at frames.now b).locals) }
{
    let depth = cells::at(frames, b as usize + DEPTH_CELL);
    let size = mark_operands(marks, list, n, frames, b, depth);
    mark_values(
        marks,
        list,
        size,
        frames,
        b as usize + LOCALS_CELL,
        LOCAL_COUNT,
    )
}

// The frames of a task, from the top.
fn mark_frames(
    marks: &mut [u8],
    list: &mut [u32],
    n: u16,
    counts: &[u16],
    frames: &[u32],
    task: u8,
) -> u16
    ensures { work marks.new list.new result ≡ mark_all (work marks.old list.old n) (roots_of counts.now frames.now task) }
{
    let first = u32::from(task) * TASK_ROWS;
    let mut size = n;
    let count = cells::at(counts, COUNT_FRAMES + usize::from(task));
    for i in (0..count).rev() {
        size = mark_frame(marks, list, size, frames, (first + u32::from(i)) * ROW_SIZE);
    }
    size
}

// The fields of object o, inherited ones included, where `sizes` has the size of its class.
fn mark_fields(
    marks: &mut [u8],
    list: &mut [u32],
    n: u16,
    sizes: &[u8],
    objects: &[u32],
    o: u32,
) -> u16
    ensures { work marks.new list.new result ≡ mark_all (work marks.old list.old n) (field_names sizes.now objects.now o) }
{
    let row = o as usize * OBJECT_CELLS;
    let class = cells::at(objects, row);
    mark_values(
        marks,
        list,
        n,
        objects,
        row + FIELDS_CELL,
        cells::at(sizes, class as usize),
    )
}

// The work list, from its first object to the last that is put on it: it grows while it is gone through.
fn follow_fields(marks: &mut [u8], list: &mut [u32], n: u16, sizes: &[u8], objects: &[u32]) -> u16
    requires { n ≤ object_limit }
    ensures { work marks.new list.new result ≡ follow (field_names sizes.now objects.now) object_limit 0 (work marks.old list.old n) }
{
    let mut size = n;
    let mut i: u16 = 0;
    while i < size {
        let o = cells::at(list, usize::from(i));
        size = mark_fields(marks, list, size, sizes, objects, o);
        i += 1;
    }
    size
}

// The objects that frames name in operands and locals, and those that these reach by fields.
pub(crate) fn mark_reached(
    marks: &mut [u8],
    sizes: &[u8],
    counts: &[u16],
    objects: &[u32],
    frames: &[u32],
)
    ensures { marks.new ≡ (marked sizes.now counts.now objects.now frames.now marks.old).marks }
{
    let mut list = [0u32; OBJECT_LIMIT as usize];
    let quote = mark_frames(marks, &mut list, 0, counts, frames, 0);
    let both = mark_frames(marks, &mut list, quote, counts, frames, 1);
    follow_fields(marks, &mut list, both, sizes, objects);
}
