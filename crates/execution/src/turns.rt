// One step, of the task whose turn it is.
ghost use Rattle.std.specs.Prelude.{◌≡◌, false};
ghost use Rattle.definition.specs.Tables.{tables};
ghost use Rattle.definition.specs.Broken.{broken};
ghost use Rattle.definition.specs.Calls.{done, step_tables};
ghost use Rattle.tasks.specs.Turns.{turn_of};
ghost use Rattle.posting.specs.Postings.{to_post};
ghost use Rattle.execution.specs.Carried.{closed_by, went_on};
ghost use Rattle.execution.specs.Decisions.{RoomFor};
ghost use Rattle.execution.specs.Turns.{regrouped_by};

use crate::carrying::{carry_out, number_ties, post_ties};
use crate::deciding::{Room, choose, top_frame};
use definition::numbers::{LOADS_CELL, WORD_BROKEN};
use definition::{Answer, Refusal};
use posting::Ties;
use resolution::Base;

// The step ran or finished.
fn went_on(a: Answer) -> bool
    ensures { result ≡ went_on a }
{
    matches!(a, Answer::Ran(_) | Answer::Finished(_, _))
}

// A step that ran or finished closes the loads before it.
fn close(counts: &mut [u16], answer: Answer)
    ensures { counts.new ≡ closed_by answer counts.old }
{
    if went_on(answer) {
        cells::put(counts, LOADS_CELL, 0);
    }
}

// Groups are made anew where ties were posted.
fn regroup(counts: &mut [u16], ties: &[u16], posting: Option<Ties>)
    ensures { counts.new ≡ regrouped_by (to_post posting) ties.now counts.old }
{
    if posting::tie_number(posting) != 0 {
        groups::write_groups(counts, ties);
    }
}

// A step of a store that is not broken: decided on shared tables, then ties are posted and the plan carried out.
pub(crate) fn step_unbroken(
    counts: &mut [u16],
    classes: &[u16],
    kept: &[u8],
    cache: &[u16],
    ties: &mut [u16],
    subtypes: &[u16],
    objects: &mut [u32],
    frames: &mut [u32],
    room: Room,
) -> Answer
    requires { (broken (tables counts.old classes.now kept.now cache.now ties.old subtypes.now objects.old frames.old) ≡ false) × RoomFor counts.old (turn_of counts.old) room.free room.made }
    ensures { done result (tables counts.new classes.now kept.now cache.now ties.new subtypes.now objects.new frames.new) ≡ step_tables (tables counts.old classes.now kept.now cache.now ties.old subtypes.now objects.old frames.old) }
{
    let task = tasks::turn(counts);
    let n = tasks::frame_count(counts, task);
    if n == 0 {
        return Answer::Idle;
    }
    let base = Base {
        counts,
        classes,
        kept,
        cache,
    };
    let top = top_frame(&base, frames, task, n - 1);
    let r = choose(&base, ties, subtypes, objects, frames, top, room);
    let before = post_ties(counts, ties, r.posting);
    let answer = carry_out(
        counts, classes, kept, cache, objects, frames, top, r.next, r.plan,
    );
    number_ties(counts, before, r.posting);
    close(counts, answer);
    regroup(counts, ties, r.posting);
    answer
}

// What one step asks for: the report's objects are counted only if it is its turn.
fn room_for_turn(counts: &[u16]) -> Room
    ensures { RoomFor counts.now (turn_of counts.now) result.free result.made }
{
    let turn = tasks::turn(counts);
    if turn == 0 {
        return Room { free: 0, made: 0 };
    }
    Room {
        free: 0,
        made: frames::made_by(counts, turn),
    }
}

// One instruction of the quote if it has a frame, else of the report.
pub fn step(
    counts: &mut [u16],
    classes: &[u16],
    kept: &[u8],
    cache: &[u16],
    ties: &mut [u16],
    subtypes: &[u16],
    objects: &mut [u32],
    frames: &mut [u32],
) -> Answer
    ensures { done result (tables counts.new classes.now kept.now cache.now ties.new subtypes.now objects.new frames.new) ≡ step_tables (tables counts.old classes.now kept.now cache.now ties.old subtypes.now objects.old frames.old) }
{
    if store::is_broken(
        counts, classes, kept, cache, ties, subtypes, objects, frames,
    ) {
        return Answer::Refused(Refusal::Word(WORD_BROKEN));
    }
    let room = room_for_turn(counts);
    step_unbroken(
        counts, classes, kept, cache, ties, subtypes, objects, frames, room,
    )
}
