// Steps of the top frame that touch it alone or a field that is remembered, ahead of the next step that doesn't.
ghost use Rattle.std.specs.Prelude.{◌≡◌, false, List, ℕ, ◌≤◌, take, drop};
ghost use Rattle.definition.specs.Tables.{tables};
ghost use Rattle.definition.specs.Broken.{broken};
ghost use Rattle.tasks.specs.Turns.{turn_of};
ghost use Rattle.execution.specs.Opcodes.{numbers, Numbers};
ghost use Rattle.execution.specs.Facts.{Minds};
ghost use Rattle.execution.specs.Ahead.{Ahead, Sound, last_of};

use crate::memory::key_of;
use crate::reaching::{Pace, walk};
use definition::Answer;
use definition::numbers::{FRAME_CELLS, LOADS_CELL, VERSION_THREE, VERSION_TWO};
use resolution::Base;

// No code is longer.
const CODE_LIMIT: usize = 65535;

// The last answer, after so many more steps of the task whose turn it is ran.
pub(crate) fn last_of(counts: &[u16], more: u16, last: Answer) -> Answer
    ensures { result ≡ last_of more (turn_of counts.now) last }
{
    if more == 0 {
        last
    } else {
        Answer::Ran(tasks::turn(counts))
    }
}

// Where the numbers of the opcodes of a version begin.
fn first_number(version: u8) -> usize
    ensures { (result ≤ 512) × Numbers version (take 256 (drop result numbers)) }
{
    if version < VERSION_TWO {
        return 0;
    }
    if version < VERSION_THREE { 256 } else { 512 }
}

fn no_walk() -> Pace
    ensures { result.steps ≡ 0 }
{
    Pace { steps: 0, stop: 0 }
}

// Up to `most` steps of the task whose turn it is, where no load is open.
pub(crate) fn go_ahead(
    tags: &[u32],
    facts: &[u32],
    base: &Base,
    objects: &mut [u32],
    frames: &mut [u32],
    opcodes: &[u8],
    most: u16,
) -> Pace
    requires { Sound base.now.counts.now base.now.classes.now base.now.kept.now frames.old × (opcodes.now ≡ numbers) }
    ensures { ((E I S : List ℕ) → broken (tables base.now.counts.now base.now.classes.now base.now.kept.now E I S objects.old frames.old) ≡ false → Minds base.now.counts.now base.now.classes.now base.now.kept.now E I tags.now facts.now → Ahead (turn_of base.now.counts.now) result.steps (tables base.now.counts.now base.now.classes.now base.now.kept.now E I S objects.old frames.old) (tables base.now.counts.now base.now.classes.now base.now.kept.now E I S objects.new frames.new)) × (result.steps ≤ most) }
{
    if most == 0 || cells::at(base.counts, LOADS_CELL) != 0 {
        return no_walk();
    }
    let task = tasks::turn(base.counts);
    let n = tasks::frame_count(base.counts, task);
    if n == 0 {
        return no_walk();
    }
    let b = frames::row(task, n - 1);
    let c = frames::frame_class(frames, b);
    let m = frames::frame_method(frames, b);
    if 64 <= c || 8 <= m {
        return no_walk();
    }
    let file = base.file_of(c);
    let code = resolution::code_of(file, m);
    if CODE_LIMIT < code.len() {
        return no_walk();
    }
    let first = first_number(classfile::version(file));
    let last = first + 256;
    let key = key_of(c, m);
    let from = b as usize;
    let end = from + FRAME_CELLS;
    let row = &mut frames[from..end];
    walk(
        tags,
        facts,
        base.counts,
        objects,
        row,
        &opcodes[first..last],
        code,
        key,
        most,
    )
}
