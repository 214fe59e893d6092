// A run of steps.
ghost use Rattle.std.specs.Prelude.{◌≡◌, false, ◌<◌};
ghost use Rattle.definition.specs.Numbers.{object_limit};
ghost use Rattle.definition.specs.Tables.{tables};
ghost use Rattle.definition.specs.Broken.{broken};
ghost use Rattle.resolution.specs.Quick.{tables_over};
ghost use Rattle.definition.specs.Calls.{done, step_tables, run_from, run};
ghost use Rattle.execution.specs.Opcodes.{numbers};
ghost use Rattle.execution.specs.Facts.{Minds};
ghost use Rattle.execution.specs.Runs.{goes_on, Ruled, RoomIn, RoomAfter};

use crate::ahead::{go_ahead, last_of};
use crate::deciding::Room;
use crate::noting::note;
use crate::opcodes::OPCODE_NUMBERS;
use crate::turns::step_unbroken;
use definition::numbers::{RUN_LIMIT, WORD_BROKEN, WORD_UNKNOWN};
use definition::{Answer, Refusal, Reply};
use resolution::Base;

fn is_ran(a: Answer) -> bool
    ensures { result ≡ goes_on a }
{
    matches!(a, Answer::Ran(_))
}

// The lowest number unused and how many objects the report, task 1, made, before the first step of a run.
fn first_room(counts: &[u16]) -> Room
    ensures { RoomIn counts.now result.free result.made }
{
    Room {
        free: frames::unused(counts, 0),
        made: frames::made_by(counts, 1),
    }
}

// The same after a step of task `turn`. A step frees no row, so the lowest number unused is sought from where it was; if it moved the task made an object.
fn next_room(counts: &[u16], room: Room, turn: u8) -> Room
    requires { room.made < object_limit }
    ensures { RoomAfter counts.now turn room.free room.made result.free result.made }
{
    let free = frames::unused(counts, room.free);
    if turn == 0 {
        return Room {
            free,
            made: room.made,
        };
    }
    if free == room.free {
        return Room {
            free,
            made: room.made,
        };
    }
    Room {
        free,
        made: room.made + 1,
    }
}

// Up to n steps of a store that is not broken: a step leaves it so, and it isn't tested again. Nor are the report's objects counted again. After a step those that
// touch their frame alone, or a field that is remembered, are done at once, one after another.
fn steps(
    counts: &mut [u16],
    classes: &[u16],
    kept: &[u8],
    cache: &[u16],
    ties: &mut [u16],
    subtypes: &[u16],
    objects: &mut [u32],
    frames: &mut [u32],
    opcodes: &[u8],
    tags: &mut [u32],
    facts: &mut [u32],
    n: u16,
) -> Reply
    requires { (broken (tables counts.old classes.now kept.now cache.now ties.old subtypes.now objects.old frames.old) ≡ false) × (opcodes.now ≡ numbers) × Minds counts.old classes.now kept.now cache.now ties.old tags.old facts.old }
    ensures { done result (tables counts.new classes.now kept.now cache.now ties.new subtypes.now objects.new frames.new) ≡ run_from step_tables n 0 Answer.Idle (tables counts.old classes.now kept.now cache.now ties.old subtypes.now objects.old frames.old) }
{
    let mut k: u16 = 0;
    let mut last = Answer::Idle;
    let mut room = first_room(counts);
    let mut stop: u8 = 0;
    // k goes on by a step and by the steps of a walk, so it isn't counted by a range.
    while k < n {
        let base = Base {
            counts,
            classes,
            kept,
            cache,
        };
        note(tags, facts, &base, ties, objects, frames, stop);
        let turn = tasks::turn(counts);
        let a = step_unbroken(
            counts, classes, kept, cache, ties, subtypes, objects, frames, room,
        );
        if !is_ran(a) {
            return Reply::RanFor(k, a);
        }
        room = next_room(counts, room, turn);
        k += 1;
        let base = Base {
            counts,
            classes,
            kept,
            cache,
        };
        let more = go_ahead(tags, facts, &base, objects, frames, opcodes, n - k);
        last = last_of(counts, more.steps, a);
        k += more.steps;
        stop = more.stop;
    }
    Reply::RanFor(k, last)
}

// How many steps a run of n may take, or its refusal.
fn allowed(
    base: &Base,
    ties: &[u16],
    subtypes: &[u16],
    objects: &[u32],
    frames: &[u32],
    n: u32,
) -> Result<u16, Refusal>
    ensures { Ruled (tables_over base.now ties.now subtypes.now objects.now frames.now) n result }
{
    if store::is_broken(
        base.counts,
        base.classes,
        base.kept,
        base.cache,
        ties,
        subtypes,
        objects,
        frames,
    ) {
        return Err(Refusal::Word(WORD_BROKEN));
    }
    if n == 0 {
        return Err(Refusal::Word(WORD_UNKNOWN));
    }
    if RUN_LIMIT < n {
        return Err(Refusal::Word(WORD_UNKNOWN));
    }
    Ok(n as u16)
}

// From so many steps on a run remembers what it finds: a shorter one doesn't pay for the memory.
const LONG_RUN: u16 = 256;

// Up to n steps of a store that is not broken. Nothing is set up where nobody has a turn.
fn steps_allowed(
    counts: &mut [u16],
    classes: &[u16],
    kept: &[u8],
    cache: &[u16],
    ties: &mut [u16],
    subtypes: &[u16],
    objects: &mut [u32],
    frames: &mut [u32],
    n: u16,
) -> Reply
    requires { (broken (tables counts.old classes.now kept.now cache.now ties.old subtypes.now objects.old frames.old) ≡ false) × (0 < n) }
    ensures { done result (tables counts.new classes.now kept.now cache.now ties.new subtypes.now objects.new frames.new) ≡ run_from step_tables n 0 Answer.Idle (tables counts.old classes.now kept.now cache.now ties.old subtypes.now objects.old frames.old) }
{
    if tasks::frame_count(counts, tasks::turn(counts)) == 0 {
        return Reply::RanFor(0, Answer::Idle);
    }
    let opcodes = OPCODE_NUMBERS;
    if n < LONG_RUN {
        let mut no_tags = [0u32; 1];
        let mut no_facts = [0u32; 1];
        return steps(
            counts,
            classes,
            kept,
            cache,
            ties,
            subtypes,
            objects,
            frames,
            &opcodes,
            &mut no_tags,
            &mut no_facts,
            n,
        );
    }
    let mut tags = [0u32; 512];
    let mut facts = [0u32; 512];
    steps(
        counts, classes, kept, cache, ties, subtypes, objects, frames, &opcodes, &mut tags,
        &mut facts, n,
    )
}

// Up to n steps, n from 1 to 65,535, ended by the first answer other than ran.
pub fn run(
    counts: &mut [u16],
    classes: &[u16],
    kept: &[u8],
    cache: &[u16],
    ties: &mut [u16],
    subtypes: &[u16],
    objects: &mut [u32],
    frames: &mut [u32],
    n: u32,
) -> Reply
    ensures { done result (tables counts.new classes.now kept.now cache.now ties.new subtypes.now objects.new frames.new) ≡ run n (tables counts.old classes.now kept.now cache.now ties.old subtypes.now objects.old frames.old) }
{
    let base = Base {
        counts,
        classes,
        kept,
        cache,
    };
    match allowed(&base, ties, subtypes, objects, frames, n) {
        Err(refusal) => Reply::Denied(refusal),
        Ok(steps) => steps_allowed(
            counts, classes, kept, cache, ties, subtypes, objects, frames, steps,
        ),
    }
}
