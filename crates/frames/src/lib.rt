// Cells of frames and objects, read and written totally. A frame's row begins at cell b; a value is a kind and 32 bits.
#![tactic(auto)]

mod owners; // owners.rt: owners of object rows

ghost use Rattle.std.specs.Prelude.{◌≡◌, ◌+◌, ◌*◌, ◌<◌, get_or, set};
ghost use Rattle.definition.specs.Numbers.{object_cells, method_cell, point_cell, depth_cell};
ghost use Rattle.definition.specs.Machine.{empty_value, entry_frame};
ghost use Rattle.definition.specs.Tables.{value_of, value_at, put_cells, operand_at, put_operand, local_at, put_local, field_at, put_field, put_head, put_frame, put_object, frame_base};
ghost use Rattle.layout.specs.Cells.{moved};
ghost use Rattle.frames.specs.Initial.{initial_of, initial_object, put_empty, entry_values};

use definition::numbers::{
    DEPTH_CELL, FIELDS_CELL, FRAME_CELLS, FRAME_LIMIT, KIND_EMPTY, KIND_INT, KIND_NULL,
    KIND_OBJECT, LOCALS_CELL, METHOD_CELL, NAME_INT, OBJECT_CELLS, OPERANDS_CELL, POINT_CELL,
    VALUE_CELLS,
};
pub use owners::{is_share_used, is_used, made_by, owner, unused, write_owner};

// The rows of a task, and the cells of a row of frames.
const TASK_ROWS: u32 = FRAME_LIMIT as u32;

const ROW_SIZE: u32 = FRAME_CELLS as u32;

// A value's two cells.
#[derive(Clone, Copy)]
pub struct Cell {
    pub kind: u32,
    pub bits: u32,
}

// A frame to be entered: a class and its method, the object that is this, and four arguments, of which those that the method hasn't are empty.
#[derive(Clone, Copy)]
pub struct Entry {
    pub class: u32,
    pub method: u32,
    pub object: u32,
    pub first: Cell,
    pub second: Cell,
    pub third: Cell,
    pub fourth: Cell,
}

// The top frame of a task: its row, the cell at which that row begins, its number of operands, and the loader of its class.
#[derive(Clone, Copy)]
pub struct Top {
    pub task: u8,
    pub row: u16,
    pub base: u32,
    pub depth: u32,
    pub loader: u8,
}

// Reading

fn pair(t: &[u32], i: usize) -> Cell
    requires { i < 1099511627776 }
    ensures { value_of result.kind result.bits ≡ value_at t.now i }
{
    Cell {
        kind: cells::at(t, i),
        bits: cells::at(t, i + 1),
    }
}

// The i-th operand from the lowest.
pub fn operand(frames: &[u32], b: u32, i: u32) -> Cell
    ensures { value_of result.kind result.bits ≡ operand_at frames.now b i }
{
    pair(
        frames,
        b as usize + (OPERANDS_CELL + VALUE_CELLS * i as usize),
    )
}

pub fn local(frames: &[u32], b: u32, j: u8) -> Cell
    ensures { value_of result.kind result.bits ≡ local_at frames.now b j }
{
    pair(
        frames,
        b as usize + (LOCALS_CELL + VALUE_CELLS * usize::from(j)),
    )
}

// Field j of object o.
pub fn field(objects: &[u32], o: u32, j: u8) -> Cell
    ensures { value_of result.kind result.bits ≡ field_at objects.now o j }
{
    pair(
        objects,
        o as usize * OBJECT_CELLS + (FIELDS_CELL + VALUE_CELLS * usize::from(j)),
    )
}

// The class of object o.
pub fn object_class(objects: &[u32], o: u32) -> u32
    ensures { result ≡ get_or objects.now (o * object_cells) 0 }
{
    cells::at(objects, o as usize * OBJECT_CELLS)
}

// A frame's class, its method's place in that class, its point and its operand count.
pub fn frame_class(frames: &[u32], b: u32) -> u32
    ensures { result ≡ get_or frames.now b 0 }
{
    cells::at(frames, b as usize)
}

pub fn frame_method(frames: &[u32], b: u32) -> u32
    ensures { result ≡ get_or frames.now (b + method_cell) 0 }
{
    cells::at(frames, b as usize + METHOD_CELL)
}

pub fn point(frames: &[u32], b: u32) -> u32
    ensures { result ≡ get_or frames.now (b + point_cell) 0 }
{
    cells::at(frames, b as usize + POINT_CELL)
}

pub fn depth(frames: &[u32], b: u32) -> u32
    ensures { result ≡ get_or frames.now (b + depth_cell) 0 }
{
    cells::at(frames, b as usize + DEPTH_CELL)
}

// Where row m of a task begins.
pub fn row(task: u8, m: u16) -> u32
    ensures { result ≡ frame_base task m }
{
    (u32::from(task) * TASK_ROWS + u32::from(m)) * ROW_SIZE
}

// Writing

fn write_pair(t: &mut [u32], i: usize, v: Cell)
    requires { i < 1099511627776 }
    ensures { t.new ≡ put_cells t.old i v.kind v.bits }
{
    cells::put(t, i, v.kind);
    cells::put(t, i + 1, v.bits);
}

// The point and the operand count.
pub fn write_moved(frames: &mut [u32], b: u32, p: u32, d: u32)
    ensures { frames.new ≡ moved frames.old b p d }
{
    cells::put(frames, b as usize + POINT_CELL, p);
    cells::put(frames, b as usize + DEPTH_CELL, d);
}

// The operand count alone.
pub fn write_depth(frames: &mut [u32], b: u32, d: u32)
    ensures { frames.new ≡ set frames.old (b + depth_cell) d }
{
    cells::put(frames, b as usize + DEPTH_CELL, d);
}

pub fn write_operand(frames: &mut [u32], b: u32, i: u32, v: Cell)
    ensures { frames.new ≡ put_operand b frames.old i (value_of v.kind v.bits) }
{
    write_pair(
        frames,
        b as usize + (OPERANDS_CELL + VALUE_CELLS * i as usize),
        v,
    );
}

pub fn write_local(frames: &mut [u32], b: u32, j: u8, v: Cell)
    ensures { frames.new ≡ put_local b frames.old j (value_of v.kind v.bits) }
{
    write_pair(
        frames,
        b as usize + (LOCALS_CELL + VALUE_CELLS * usize::from(j)),
        v,
    );
}

pub fn write_field(objects: &mut [u32], o: u32, j: u8, v: Cell)
    ensures { objects.new ≡ put_field o objects.old j (value_of v.kind v.bits) }
{
    write_pair(
        objects,
        o as usize * OBJECT_CELLS + (FIELDS_CELL + VALUE_CELLS * usize::from(j)),
        v,
    );
}

fn write_head(frames: &mut [u32], b: u32, c: u32, j: u32)
    ensures { frames.new ≡ put_head frames.old b c j 0 0 }
{
    cells::put(frames, b as usize, c);
    cells::put(frames, b as usize + METHOD_CELL, j);
    write_moved(frames, b, 0, 0);
}

// What isn't there: a local that nothing was put into, an argument that a method hasn't.
pub fn empty() -> Cell
    ensures { value_of result.kind result.bits ≡ empty_value }
{
    Cell {
        kind: KIND_EMPTY,
        bits: 0,
    }
}

fn write_empty(frames: &mut [u32], b: u32)
    ensures { frames.new ≡ put_empty b frames.old }
{
    let none = empty();
    write_local(frames, b, 7, none);
    write_local(frames, b, 6, none);
    write_local(frames, b, 5, none);
}

// A frame entered, in the row at cell b.
pub fn write_entry(frames: &mut [u32], b: u32, e: Entry)
    ensures { frames.new ≡ put_frame frames.old b (entry_frame e.class e.method e.object (entry_values e)) }
{
    write_head(frames, b, e.class, e.method);
    write_empty(frames, b);
    write_local(frames, b, 4, e.fourth);
    write_local(frames, b, 3, e.third);
    write_local(frames, b, 2, e.second);
    write_local(frames, b, 1, e.first);
    write_local(
        frames,
        b,
        0,
        Cell {
            kind: KIND_OBJECT,
            bits: e.object,
        },
    );
}

// What a field of that type begins as: 0 for an int, null for a class name.
fn write_initial(objects: &mut [u32], o: u32, j: u8, name: u16)
    ensures { objects.new ≡ put_field o objects.old j (initial_of name) }
{
    let kind = if name == NAME_INT {
        KIND_INT
    } else {
        KIND_NULL
    };
    write_field(objects, o, j, Cell { kind, bits: 0 });
}

// A new object's row: its class, and what n fields of those types begin as.
pub fn write_object(objects: &mut [u32], o: u32, c: u32, types: &[u16], n: u8)
    ensures { objects.new ≡ put_object objects.old o (initial_object c types.now n) }
{
    cells::put(objects, o as usize * OBJECT_CELLS, c);
    for i in (0..n).rev() {
        write_initial(objects, o, i, cells::at(types, usize::from(i)));
    }
}
