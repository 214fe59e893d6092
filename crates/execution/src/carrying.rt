// The one place that writes: ties are posted, and plans carried out.
ghost use Rattle.std.specs.Prelude.{◌≡◌, [], suc, ◌+◌, ◌-◌, ◌<◌, ◌≤◌, length, get_or, set};
ghost use Rattle.definition.specs.Numbers.{tie_limit, subtype_limit, object_limit, field_limit, frame_limit, operand_limit, count_ties, count_subtypes, tie_numbers_cell, count_objects, count_frames, owners_cell, depth_cell};
ghost use Rattle.definition.specs.Lists.{write_rows};
ghost use Rattle.definition.specs.Machine.{object_value, new_object};
ghost use Rattle.definition.specs.Tables.{tables, put_tie, put_number, value_of, size_of, put_object, put_operand, put_local, frame_base};
ghost use Rattle.definition.specs.Calls.{numbers_from};
ghost use Rattle.layout.specs.Cells.{moved};
ghost use Rattle.layout.specs.OwnedRows.{rows_with};
ghost use Rattle.resolution.specs.Quick.{base_of, quick_base};
ghost use Rattle.instructions.specs.Plans.{Fit};
ghost use Rattle.posting.specs.Postings.{to_post};
ghost use Rattle.execution.specs.Carried.{Left};

use crate::entering::enter;
use definition::Answer;
use definition::numbers::{
    COUNT_OBJECTS, COUNT_SUBTYPES, COUNT_TIES, FIELD_LIMIT, KIND_OBJECT, TIE_NUMBERS_CELL,
};
use frames::{Cell, Top};
use instructions::Plan;
use posting::Ties;
use resolution::Base;

// Where the numbers of ties begin, in 16 bits.
const TIE_NUMBERS: u16 = TIE_NUMBERS_CELL as u16;

// How many ties and subtype constraints there were before a step.
#[derive(Clone, Copy)]
pub(crate) struct Before {
    pub(crate) ties: u16,
    pub(crate) subtypes: u16,
}

// Ties posted: their rows and their count. Where there are none nothing is written, so a refused step writes nothing. Answers how many rows there were.
pub(crate) fn post_ties(counts: &mut [u16], ties: &mut [u16], posting: Option<Ties>) -> Before
    requires { get_or counts.old count_ties 0 + length (to_post posting) ≤ tie_limit }
    ensures counted { counts.new ≡ set counts.old count_ties (get_or counts.old count_ties 0 + length (to_post posting)) }
    ensures written { ties.new ≡ write_rows put_tie (to_post posting) (get_or counts.old count_ties 0) ties.old }
    ensures behind { (result.ties ≡ get_or counts.old count_ties 0) × (result.subtypes ≡ get_or counts.old count_subtypes 0) }
{
    let n = cells::at(counts, COUNT_TIES);
    let subtypes = cells::at(counts, COUNT_SUBTYPES);
    let k = posting::tie_number(posting);
    if k == 0 {
        return Before { ties: n, subtypes };
    }
    posting::write_ties(ties, n, posting);
    cells::put(counts, COUNT_TIES, n + k);
    Before { ties: n, subtypes }
}

// Posted ties get the numbers behind all that were there.
pub(crate) fn number_ties(counts: &mut [u16], before: Before, posting: Option<Ties>)
    requires { (before.ties + length (to_post posting) ≤ tie_limit) × (before.subtypes ≤ subtype_limit) }
    ensures { counts.new ≡ write_rows (put_number tie_numbers_cell) (numbers_from (before.ties + before.subtypes) (length (to_post posting))) before.ties counts.old }
{
    let row = before.ties;
    store::number_rows(
        counts,
        TIE_NUMBERS,
        row,
        row + before.subtypes,
        posting::tie_number(posting),
    );
}

// A value pushed: the frame goes on at point q with d operands and the value above them.
fn push(frames: &mut [u32], b: u32, q: u32, d: u32, v: Cell)
    requires { d < operand_limit }
    ensures { frames.new ≡ put_operand b (moved frames.old b q (d + 1)) d (value_of v.kind v.bits) }
{
    frames::write_moved(frames, b, q, d + 1);
    frames::write_operand(frames, b, d, v);
}

// A local set: the frame goes on at point q with d operands.
fn store(frames: &mut [u32], b: u32, q: u32, d: u32, j: u8, v: Cell)
    ensures { frames.new ≡ put_local b (moved frames.old b q d) j (value_of v.kind v.bits) }
{
    frames::write_moved(frames, b, q, d);
    frames::write_local(frames, b, j, v);
}

// A value given back to the frame below the top frame of a task, which is then its top frame.
fn give(counts: &mut [u16], frames: &mut [u32], top: Top, v: Cell)
    requires { (0 < top.row) × (get_or frames.old (frame_base top.task (top.row - 1) + depth_cell) 0 < operand_limit) }
    ensures counted { counts.new ≡ set counts.old (count_frames + top.task) top.row }
    ensures written { let a = frame_base top.task (top.row - 1) in let d = get_or frames.old (a + depth_cell) 0 in frames.new ≡ put_operand a (set frames.old (a + depth_cell) (d + 1)) d (value_of v.kind v.bits) }
{
    let m = top.row;
    let a = frames::row(top.task, m - 1);
    let d = frames::depth(frames, a);
    frames::write_depth(frames, a, d + 1);
    frames::write_operand(frames, a, d, v);
    tasks::write_frame_count(counts, top.task, m);
}

// The row of a new object of class c.
pub(crate) fn write_new(base: &Base, objects: &mut [u32], o: u32, c: u32)
    requires { size_of (base_of base.now) c ≤ field_limit }
    ensures { objects.new ≡ put_object objects.old o (new_object (base_of base.now) c) }
{
    let mut types = [0u16; FIELD_LIMIT as usize];
    let n = base.slot_types(&mut types, c);
    frames::write_object(objects, o, c, &types, n as u8);
}

// How many rows of objects there are, of n before, where row o is taken.
fn rows_with(o: u16, n: u16) -> u16
    requires { o < object_limit }
    ensures { result ≡ rows_with o n }
{
    if o < n { n } else { n + 1 }
}

// Row o of objects taken by a task: the object count, which rises only if the row is the next, and the row's owner.
pub(crate) fn take_row(counts: &mut [u16], o: u16, task: u8)
    requires { o < object_limit }
    ensures { counts.new ≡ set (set counts.old count_objects (rows_with o (get_or counts.old count_objects 0))) (owners_cell + o) (suc task) }
{
    let n = cells::at(counts, COUNT_OBJECTS);
    cells::put(counts, COUNT_OBJECTS, rows_with(o, n));
    frames::write_owner(counts, u32::from(o), u16::from(task) + 1);
}

// An object of class c made by a task, with the number o, which is pushed.
fn make(
    counts: &mut [u16],
    classes: &[u16],
    kept: &[u8],
    cache: &[u16],
    objects: &mut [u32],
    frames: &mut [u32],
    task: u8,
    b: u32,
    q: u32,
    d: u32,
    c: u32,
    o: u16,
)
    requires { (d < operand_limit) × (o < object_limit) × (size_of (quick_base counts.old classes.now kept.now cache.now) c ≤ field_limit) }
    ensures counted { counts.new ≡ set (set counts.old count_objects (rows_with o (get_or counts.old count_objects 0))) (owners_cell + o) (suc task) }
    ensures made { objects.new ≡ put_object objects.old o (new_object (quick_base counts.old classes.now kept.now cache.now) c) }
    ensures pushed { frames.new ≡ put_operand b (moved frames.old b q (d + 1)) d (object_value o) }
{
    let base = Base {
        counts,
        classes,
        kept,
        cache,
    };
    write_new(&base, objects, u32::from(o), c);
    push(
        frames,
        b,
        q,
        d,
        Cell {
            kind: KIND_OBJECT,
            bits: u32::from(o),
        },
    );
    take_row(counts, o, task);
}

// A plan carried out: the top frame of a task goes on at point q, unless the plan jumps.
pub(crate) fn carry_out(
    counts: &mut [u16],
    classes: &[u16],
    kept: &[u8],
    cache: &[u16],
    objects: &mut [u32],
    frames: &mut [u32],
    top: Top,
    q: u32,
    plan: Plan,
) -> Answer
    requires { (top.row < frame_limit) × Fit (quick_base counts.old classes.now kept.now cache.now) (tables counts.old classes.now kept.now cache.now [] [] objects.old frames.old) top.task top.row plan }
    ensures { Left (quick_base counts.old classes.now kept.now cache.now) counts.old objects.old frames.old top.task top.row top.base q plan result counts.new objects.new frames.new }
{
    match plan {
        Plan::Refuse(r) => Answer::Refused(r),
        Plan::Keep(d) => {
            frames::write_moved(frames, top.base, q, d);
            Answer::Ran(top.task)
        }
        Plan::Jump(d, p) => {
            frames::write_moved(frames, top.base, u32::from(p), d);
            Answer::Ran(top.task)
        }
        Plan::Above(d, v) => {
            push(frames, top.base, q, d, v);
            Answer::Ran(top.task)
        }
        Plan::Local(d, j, v) => {
            store(frames, top.base, q, d, j, v);
            Answer::Ran(top.task)
        }
        Plan::Give(v) => {
            give(counts, frames, top, v);
            Answer::Ran(top.task)
        }
        Plan::Finish(bits) => {
            tasks::write_frame_count(counts, top.task, 0);
            Answer::Finished(top.task, bits)
        }
        Plan::Field(d, o, j, v) => {
            frames::write_moved(frames, top.base, q, d);
            frames::write_field(objects, o, j, v);
            Answer::Ran(top.task)
        }
        Plan::Enter(d, e) => {
            enter(counts, frames, top, q, d, e);
            Answer::Ran(top.task)
        }
        Plan::Make(d, c, o) => {
            make(
                counts, classes, kept, cache, objects, frames, top.task, top.base, q, d, c, o,
            );
            Answer::Ran(top.task)
        }
    }
}
