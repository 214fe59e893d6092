// Cells of a table, read and written totally: a read past the end answers 0, a write past the end does nothing.
#![tactic(auto)]

pub mod arguments;

ghost use Rattle.std.specs.Prelude.{◌≡◌, ◌++◌, ◌+◌, ◌*◌, ◌<◌, get_or, set, length, take, drop};
ghost use Rattle.definition.specs.Numbers.{byte_range};
ghost use Rattle.definition.specs.Instructions.{short_at};
ghost use Rattle.definition.specs.Answers.{signed, less};
ghost use Rattle.definition.specs.Tables.{put_three};
ghost use Rattle.cells.specs.Held.{Held};

use definition::numbers::{BYTE_RANGE, ROW_CELLS};

// What a table has in its cells: unsigned numbers, of which a table that has no such cell gives 0.
pub trait Cell: Copy {
    ghost missing: { Self };

    fn zero() -> Self
        ensures { result ≡ missing };
}

impl Cell for u8 {
    ghost missing = { 0 };

    fn zero() -> u8 {
        0
    }
}

impl Cell for u16 {
    ghost missing = { 0 };

    fn zero() -> u16 {
        0
    }
}

impl Cell for u32 {
    ghost missing = { 0 };

    fn zero() -> u32 {
        0
    }
}

// Whether 32 bits, read as signed, are less than others.
pub fn is_less(a: u32, b: u32) -> bool
    ensures { result ≡ less (signed a) (signed b) }
{
    a.cast_signed() < b.cast_signed()
}

// A cell, 0 past the end.
pub fn at<T: Cell>(t: &[T], i: usize) -> T
    ensures { result ≡ get_or t.now i T.missing }
{
    if i < t.len() { t[i] } else { T::zero() }
}

// How many of n cells from cell `first` on the table holds.
pub fn held(t: &[u16], first: usize, n: usize) -> usize
    ensures { Held t.now first n result }
{
    if t.len() <= first {
        return 0;
    }
    let rest = t.len() - first;
    if n <= rest { n } else { rest }
}

// A cell written, nothing past the end.
pub fn put<T: Cell>(t: &mut [T], i: usize, v: T)
    ensures { t.new ≡ set t.old i v }
{
    if i < t.len() {
        t[i] = v;
    }
}

// A table's cells written over the front of another, as far as both go.
pub fn copy<T: Copy>(source: &[T], target: &mut [T])
    ensures { target.new ≡ take (length target.old) source.now ++ drop (length source.now) target.old }
{
    let n = source.len().min(target.len());
    for i in 0..n {
        target[i] = source[i];
    }
}

// A row of three cells written, as far as the table has them.
pub fn put_three(t: &mut [u16], i: u32, a: u16, b: u16, c: u16)
    ensures { t.new ≡ put_three t.old i a b c }
{
    let place = i as usize * ROW_CELLS;
    put(t, place, a);
    put(t, place + 1, b);
    put(t, place + 2, c);
}

// The byte after place i; the place may be the last that a slice can have.
fn next(t: &[u8], i: usize) -> u8
    ensures { result ≡ get_or t.now (i + 1) 0 }
{
    if i < t.len() { at(t, i + 1) } else { 0 }
}

// 16 bits, big-endian, at a place.
pub fn short_at(t: &[u8], i: usize) -> u16
    ensures { result ≡ short_at t.now i }
{
    u16::from(at(t, i)) * BYTE_RANGE + u16::from(next(t, i))
}
