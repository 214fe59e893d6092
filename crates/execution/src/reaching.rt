// A walk on a frame's row of cells and the objects: instructions that touch their frame alone, and fields whose slot is remembered for the receiver's class.
ghost use Rattle.std.specs.Prelude.{◌≡◌, ℕ, ◌<◌, ◌≤◌, length, get_or};
ghost use Rattle.definition.specs.Numbers.{operand_limit};
ghost use Rattle.execution.specs.Opcodes.{opcode_numbered, Numbers};
ghost use Rattle.execution.specs.Plain.{Inside};
ghost use Rattle.execution.specs.Reaches.{Known, Does, Walked};

use crate::memory::recall;
use crate::walking::{Moved, keep, one, put_above};
use definition::Opcode;
use definition::numbers::{FIELD_LIMIT, KIND_OBJECT};
use frames::Cell;
use instructions::Plan;

// The slot that is remembered of a place for the receiver x, if one is.
fn slot_of(
    tags: &[u32],
    facts: &[u32],
    counts: &[u16],
    objects: &[u32],
    x: Cell,
    key: u16,
    p: u32,
) -> Option<u32>
    requires { key < 512 }
    ensures { (j : ℕ) → result ≡ Some j → Known tags.now facts.now counts.now objects.now key p x.kind x.bits j }
{
    if x.kind != KIND_OBJECT || 512 <= p || !frames::is_used(counts, x.bits) {
        return None;
    }
    let r = frames::object_class(objects, x.bits);
    if 64 <= r {
        return None;
    }
    let j = recall(tags, facts, key, p as u16, r as u16)?;
    if j < FIELD_LIMIT { Some(j) } else { None }
}

fn getfield(
    tags: &[u32],
    facts: &[u32],
    counts: &[u16],
    objects: &[u32],
    row: &mut [u32],
    code: &[u8],
    key: u16,
    p: u32,
    d: u32,
) -> Option<Moved>
    requires { (key < 512) × Inside code.now p × (d ≤ operand_limit) }
    ensures { Does Opcode.OpGetfield tags.now facts.now counts.now key code.now row.old objects.now p d result row.new objects.now }
{
    if code.len() - (p as usize) <= 6 {
        return None;
    }
    if d == 0 {
        return None;
    }
    let x = frames::operand(row, 0, d - 1);
    let j = slot_of(tags, facts, counts, objects, x, key, p)?;
    let v = frames::field(objects, x.bits, j as u8);
    put_above(row, p + 7, Plan::Above(d - 1, v))
}

fn putfield(
    tags: &[u32],
    facts: &[u32],
    counts: &[u16],
    objects: &mut [u32],
    row: &mut [u32],
    code: &[u8],
    key: u16,
    p: u32,
    d: u32,
) -> Option<Moved>
    requires { (key < 512) × Inside code.now p × (d ≤ operand_limit) }
    ensures { Does Opcode.OpPutfield tags.now facts.now counts.now key code.now row.old objects.old p d result row.new objects.new }
{
    let at = p as usize;
    if code.len() - at <= 6 {
        return None;
    }
    if d < 2 {
        return None;
    }
    let last = d - 1;
    let v = frames::operand(row, 0, last);
    if !instructions::is_kind(cells::short_at(code, at + 5), v) {
        return None;
    }
    let x = frames::operand(row, 0, last - 1);
    let j = slot_of(tags, facts, counts, objects, x, key, p)?;
    let m = keep(row, p + 7, last - 1)?;
    frames::write_field(objects, x.bits, j as u8, v);
    Some(m)
}

// One instruction, whose opcode has that number.
fn reach(
    tags: &[u32],
    facts: &[u32],
    counts: &[u16],
    objects: &mut [u32],
    row: &mut [u32],
    code: &[u8],
    number: u8,
    key: u16,
    p: u32,
    d: u32,
) -> Option<Moved>
    requires { (key < 512) × Inside code.now p × (d ≤ operand_limit) }
    ensures { Does (opcode_numbered number) tags.now facts.now counts.now key code.now row.old objects.old p d result row.new objects.new }
{
    // The numbers are those of the table of opcodes, by which a walk goes as fast as it does.
    match number {
        16 => getfield(tags, facts, counts, objects, row, code, key, p, d),
        17 => putfield(tags, facts, counts, objects, row, code, key, p, d),
        _ => one(row, code, number, p, d),
    }
}

// How many instructions were done, and the number of the opcode before which it ended, 0 if that isn't known.
#[derive(Clone, Copy)]
pub(crate) struct Pace {
    pub steps: u16,
    pub stop: u8,
}

// Up to `most` instructions of the frame in a row, by the numbers of the opcode bytes.
pub(crate) fn walk(
    tags: &[u32],
    facts: &[u32],
    counts: &[u16],
    objects: &mut [u32],
    row: &mut [u32],
    numbers: &[u8],
    code: &[u8],
    key: u16,
    most: u16,
) -> Pace
    requires { (length row.old ≡ 52) × (get_or row.old 3 0 ≤ 16) × (length code.now ≤ 65535) × (key < 512) × ((v : ℕ) × Numbers v numbers.now) }
    ensures { ((v : ℕ) → Numbers v numbers.now → Walked tags.now facts.now counts.now key v code.now row.old objects.old result.steps row.new objects.new) × (result.steps ≤ most) }
{
    let mut p = frames::point(row, 0);
    let mut d = frames::depth(row, 0);
    for k in 0..most {
        let at = p as usize;
        if code.len() <= at {
            return Pace { steps: k, stop: 0 };
        }
        let number = cells::at(numbers, usize::from(cells::at(code, at)));
        let Some(m) = reach(tags, facts, counts, objects, row, code, number, key, p, d) else {
            return Pace {
                steps: k,
                stop: number,
            };
        };
        p = m.point;
        d = m.depth;
    }
    Pace {
        steps: most,
        stop: 0,
    }
}
