// Instructions that touch their frame alone, done on its row of cells. The decision on an instruction is the one of a step, made on the row alone; only a plan that
// writes the row is carried out, else the row is as it was and the instruction is left to a step.
ghost use Rattle.std.specs.Prelude.{◌≡◌, ◌≤◌};
ghost use Rattle.definition.specs.Numbers.{operand_limit};
ghost use Rattle.execution.specs.Opcodes.{opcode_numbered};
ghost use Rattle.execution.specs.Plain.{Inside, Putting, Does, DoesAnywhere};

use definition::numbers::OPERAND_LIMIT;
use definition::{Condition, Kind, Opcode, Operator};
use frames::Top;
use instructions::Plan;

// Where a frame stands after an instruction that was done: its point and its number of operands. There is none if the instruction is left to a step.
#[derive(Clone, Copy)]
pub(crate) struct Moved {
    pub point: u32,
    pub depth: u32,
}

// A frame with d operands whose row is lent alone.
fn top_of(d: u32) -> Top
    ensures { (result.base ≡ 0) × (result.depth ≡ d) }
{
    Top {
        task: 0,
        row: 0,
        base: 0,
        depth: d,
        loader: 0,
    }
}

// Plans carried out on the row, by what they write; the frame goes on at point q

// d operands stay.
pub(crate) fn keep(row: &mut [u32], q: u32, d: u32) -> Option<Moved>
    ensures { Putting row.old q (Plan.Keep d) result row.new }
{
    if OPERAND_LIMIT < d {
        return None;
    }
    frames::write_moved(row, 0, q, d);
    Some(Moved { point: q, depth: d })
}

// Operands stay, and the frame goes on, or jumps.
fn put_point(row: &mut [u32], q: u32, plan: Plan) -> Option<Moved>
    ensures { Putting row.old q plan result row.new }
{
    match plan {
        Plan::Keep(d) => keep(row, q, d),
        Plan::Jump(d, x) => keep(row, u32::from(x), d),
        _ => None,
    }
}

// A value stands above the operands that stay.
pub(crate) fn put_above(row: &mut [u32], q: u32, plan: Plan) -> Option<Moved>
    ensures { Putting row.old q plan result row.new }
{
    let Plan::Above(d, v) = plan else {
        return None;
    };
    if OPERAND_LIMIT <= d {
        return None;
    }
    frames::write_moved(row, 0, q, d + 1);
    frames::write_operand(row, 0, d, v);
    Some(Moved {
        point: q,
        depth: d + 1,
    })
}

// A local is set.
fn put_local(row: &mut [u32], q: u32, plan: Plan) -> Option<Moved>
    ensures { Putting row.old q plan result row.new }
{
    let Plan::Local(d, j, v) = plan else {
        return None;
    };
    if OPERAND_LIMIT < d {
        return None;
    }
    frames::write_moved(row, 0, q, d);
    frames::write_local(row, 0, j, v);
    Some(Moved { point: q, depth: d })
}

// Instructions at point p, of a frame with d operands

fn aconst_null(row: &mut [u32], p: u32, d: u32) -> Option<Moved>
    requires { (p ≤ 65535) × (d ≤ operand_limit) }
    ensures { DoesAnywhere Opcode.OpAconstNull row.old p d result row.new }
{
    put_above(row, p + 1, instructions::aconst_null(top_of(d)))
}

fn sipush(row: &mut [u32], code: &[u8], p: u32, d: u32) -> Option<Moved>
    requires { Inside code.now p × (d ≤ operand_limit) }
    ensures { Does Opcode.OpSipush code.now row.old p d result row.new }
{
    let at = p as usize;
    if code.len() - at <= 2 {
        return None;
    }
    let n = verifier::extended(cells::short_at(code, at + 1));
    put_above(row, p + 3, instructions::sipush(top_of(d), n))
}

fn load(row: &mut [u32], code: &[u8], kind: Kind, p: u32, d: u32) -> Option<Moved>
    requires { Inside code.now p × (d ≤ operand_limit) }
    ensures { Does (Opcode.OpLoad kind) code.now row.old p d result row.new }
{
    let at = p as usize;
    if code.len() - at <= 1 {
        return None;
    }
    let j = cells::at(code, at + 1);
    let plan = instructions::load(row, top_of(d), kind, j);
    put_above(row, p + 2, plan)
}

fn store(row: &mut [u32], code: &[u8], kind: Kind, p: u32, d: u32) -> Option<Moved>
    requires { Inside code.now p × (d ≤ operand_limit) }
    ensures { Does (Opcode.OpStore kind) code.now row.old p d result row.new }
{
    let at = p as usize;
    if code.len() - at <= 1 {
        return None;
    }
    let j = cells::at(code, at + 1);
    let plan = instructions::store(row, top_of(d), kind, j);
    put_local(row, p + 2, plan)
}

fn pop(row: &mut [u32], p: u32, d: u32) -> Option<Moved>
    requires { (p ≤ 65535) × (d ≤ operand_limit) }
    ensures { DoesAnywhere Opcode.OpPop row.old p d result row.new }
{
    put_point(row, p + 1, instructions::pop(top_of(d)))
}

fn dup(row: &mut [u32], p: u32, d: u32) -> Option<Moved>
    requires { (p ≤ 65535) × (d ≤ operand_limit) }
    ensures { DoesAnywhere Opcode.OpDup row.old p d result row.new }
{
    let plan = instructions::dup(row, top_of(d));
    put_above(row, p + 1, plan)
}

fn arithmetic(row: &mut [u32], o: Operator, p: u32, d: u32) -> Option<Moved>
    requires { (p ≤ 65535) × (d ≤ operand_limit) }
    ensures { DoesAnywhere (Opcode.OpArithmetic o) row.old p d result row.new }
{
    let plan = instructions::arithmetic(row, top_of(d), o);
    put_above(row, p + 1, plan)
}

fn branch(row: &mut [u32], code: &[u8], c: Condition, p: u32, d: u32) -> Option<Moved>
    requires { Inside code.now p × (d ≤ operand_limit) }
    ensures { Does (Opcode.OpBranch c) code.now row.old p d result row.new }
{
    let at = p as usize;
    if code.len() - at <= 2 {
        return None;
    }
    let target = cells::short_at(code, at + 1);
    let plan = instructions::branch(row, top_of(d), c, target);
    put_point(row, p + 3, plan)
}

// One instruction, whose opcode has that number.
pub(crate) fn one(row: &mut [u32], code: &[u8], number: u8, p: u32, d: u32) -> Option<Moved>
    requires { Inside code.now p × (d ≤ operand_limit) }
    ensures { Does (opcode_numbered number) code.now row.old p d result row.new }
{
    match number {
        1 => aconst_null(row, p, d),
        2 => sipush(row, code, p, d),
        3 => load(row, code, Kind::IntKind, p, d),
        4 => load(row, code, Kind::ReferenceKind, p, d),
        5 => store(row, code, Kind::IntKind, p, d),
        6 => store(row, code, Kind::ReferenceKind, p, d),
        7 => pop(row, p, d),
        8 => dup(row, p, d),
        9 => arithmetic(row, Operator::Add, p, d),
        10 => arithmetic(row, Operator::Subtract, p, d),
        11 => arithmetic(row, Operator::Multiply, p, d),
        12 => arithmetic(row, Operator::Divide, p, d),
        13 => branch(row, code, Condition::IfZero, p, d),
        14 => branch(row, code, Condition::IfLess, p, d),
        15 => branch(row, code, Condition::Always, p, d),
        _ => None,
    }
}
