// The calls that load classes and clear tasks: boot and drop, define and record, and the tries of both. A load is admitted or refused on tables that are only
// read, decided by agreement, and then carried out.
#![tactic(auto)]

mod loads; // loads.rt: a load, what it adds, and what is decided of it
mod superclasses; // superclasses.rt: the direct superclass of a new class
mod overrides; // overrides.rt: the ties of methods that override
mod constraining; // constraining.rt: a new class's constraints, and the limits
mod admitting; // admitting.rt: every test of a load but that of agreement
mod carrying; // carrying.rt: what an accepted load writes
mod trying; // trying.rt: agreement on copies, and why there is none
mod lending; // lending.rt: groups lent to the test of agreement

ghost use Rattle.std.specs.Prelude.{◌≡◌};
ghost use Rattle.definition.specs.Tables.{tables};
ghost use Rattle.definition.specs.Calls.{done, load_define, load_record, call_boot, call_define, call_record, call_drop, perform};
ghost use Rattle.definition.specs.Reasons.{tries, try_load};

use admitting::admit;
use carrying::{enter, enter_class, reply_of, write_class};
use definition::numbers::{
    COUNT_CLASSES, COUNT_FRAMES, COUNT_KEPT, LIST_LIMIT, LOADS_CELL, MEMBER_LIMIT, NAME_OBJECT,
    ROW_CELLS, SUBTYPES_LENGTH, TASK_LIMIT, TIE_LIMIT, TIES_LENGTH, WORD_BROKEN, WORD_UNKNOWN,
};
use definition::{Refusal, Reply, Trial};
use lending::{decide_class, decide_entry, offer_class, offer_entry};
use loads::Load;
use resolution::Base;

// Cells for all ties that may be there and five more for each method of a file.
const TRIED_TIES_LENGTH: usize = (TIE_LIMIT as usize + 5 * MEMBER_LIMIT as usize) * ROW_CELLS;

// Class 0 is Object of loader 0, the cache holds only (0, 2), all other rows are emptied, and no load can be taken back.
pub fn boot(
    counts: &mut [u16],
    classes: &mut [u16],
    kept: &[u8],
    cache: &mut [u16],
    ties: &[u16],
    subtypes: &[u16],
    objects: &[u32],
    frames: &[u32],
) -> Reply
    ensures { done result (tables counts.new classes.new kept.now cache.new ties.now subtypes.now objects.now frames.now) ≡ perform call_boot (tables counts.old classes.old kept.now cache.old ties.now subtypes.now objects.now frames.now) }
{
    if !store::is_shaped(
        counts, classes, kept, cache, ties, subtypes, objects, frames,
    ) {
        return Reply::Denied(Refusal::Word(WORD_BROKEN));
    }
    entries::write_cells(counts, 0, &[1, 0, 1, 0, 0, 0, 0, 0]);
    cells::put(counts, LOADS_CELL, 0);
    cells::put_three(classes, 0, 0, 0, 0);
    cells::put_three(cache, 0, 0, NAME_OBJECT, 0);
    Reply::Accepted
}

// The task's frames are cleared, and no load before it can be taken back. Refusals: 1 3
pub fn drop_task(
    counts: &mut [u16],
    classes: &[u16],
    kept: &[u8],
    cache: &[u16],
    ties: &[u16],
    subtypes: &[u16],
    objects: &[u32],
    frames: &[u32],
    task: u32,
) -> Reply
    ensures { done result (tables counts.new classes.now kept.now cache.now ties.now subtypes.now objects.now frames.now) ≡ perform (call_drop task) (tables counts.old classes.now kept.now cache.now ties.now subtypes.now objects.now frames.now) }
{
    if store::is_broken(
        counts, classes, kept, cache, ties, subtypes, objects, frames,
    ) {
        return Reply::Denied(Refusal::Word(WORD_BROKEN));
    }
    if TASK_LIMIT <= task {
        return Reply::Denied(Refusal::Word(WORD_UNKNOWN));
    }
    cells::put(counts, COUNT_FRAMES + task as usize, 0);
    cells::put(counts, LOADS_CELL, 0);
    Reply::Accepted
}

// A class is added, with its defining loader, from its file, and cached under its own request. Answers its number.
// Refusals: 1 3 2 15 6 4 5 10 9
pub fn define(
    counts: &mut [u16],
    classes: &mut [u16],
    kept: &mut [u8],
    cache: &mut [u16],
    ties: &mut [u16],
    subtypes: &mut [u16],
    objects: &[u32],
    frames: &[u32],
    loader: u32,
    file: &[u8],
) -> Reply
    ensures { done result (tables counts.new classes.new kept.new cache.new ties.new subtypes.new objects.now frames.now) ≡ perform (call_define loader file.now) (tables counts.old classes.old kept.old cache.old ties.old subtypes.old objects.now frames.now) }
{
    let mut new_ties = [0u16; TRIED_TIES_LENGTH];
    let mut new_subtypes = [0u16; SUBTYPES_LENGTH];
    let load = Load::Define(loader);
    let admitted = admit(
        counts,
        classes,
        kept,
        cache,
        ties,
        subtypes,
        objects,
        frames,
        load,
        file,
        LIST_LIMIT,
        &mut new_ties,
        &mut new_subtypes,
    );
    let base = Base {
        counts,
        classes,
        kept,
        cache,
    };
    let plan = decide_class(&base, &new_ties, &new_subtypes, admitted);
    match plan {
        Err(r) => Reply::Denied(r),
        Ok(planned) => match planned {
            None => Reply::Accepted,
            Some(n) => {
                write_class(
                    counts,
                    classes,
                    kept,
                    ties,
                    subtypes,
                    n.loader,
                    file,
                    &new_ties[0..TIES_LENGTH],
                    &new_subtypes,
                );
                let number = cells::at(counts, COUNT_CLASSES) + 1;
                let end = cells::at(counts, COUNT_KEPT) + file.len() as u16;
                enter_class(counts, cache, ties, n, number, end);
                reply_of(n)
            }
        },
    }
}

// A cache entry is added: the answer of a loader that delegated. One that is there with the same class is accepted and changes nothing.
// Refusals: 1 3 13 4 10 9
pub fn record(
    counts: &mut [u16],
    classes: &[u16],
    kept: &[u8],
    cache: &mut [u16],
    ties: &[u16],
    subtypes: &[u16],
    objects: &[u32],
    frames: &[u32],
    loader: u32,
    name: u32,
    class: u32,
) -> Reply
    ensures { done result (tables counts.new classes.now kept.now cache.new ties.now subtypes.now objects.now frames.now) ≡ perform (call_record loader name class) (tables counts.old classes.now kept.now cache.old ties.now subtypes.now objects.now frames.now) }
{
    let mut no_ties = [0u16; 0];
    let mut no_subtypes = [0u16; 0];
    let no_file = [0u8; 0];
    let load = Load::Record(loader, name, class);
    let admitted = admit(
        counts,
        classes,
        kept,
        cache,
        ties,
        subtypes,
        objects,
        frames,
        load,
        &no_file,
        LIST_LIMIT,
        &mut no_ties,
        &mut no_subtypes,
    );
    let base = Base {
        counts,
        classes,
        kept,
        cache,
    };
    let plan = decide_entry(&base, ties, subtypes, admitted);
    match plan {
        Err(r) => Reply::Denied(r),
        Ok(planned) => match planned {
            None => Reply::Accepted,
            Some(n) => {
                let number = cells::at(counts, COUNT_CLASSES);
                let end = cells::at(counts, COUNT_KEPT);
                enter(counts, cache, n, number, end);
                reply_of(n)
            }
        },
    }
}

// A class tried: what define would answer, and on a clash why, in the list. No table is written. Refusals: 1 3 16 2 15 6 4 5 10 9
pub fn try_define(
    counts: &[u16],
    classes: &[u16],
    kept: &[u8],
    cache: &[u16],
    ties: &[u16],
    subtypes: &[u16],
    objects: &[u32],
    frames: &[u32],
    loader: u32,
    file: &[u8],
    list: &mut [u16],
) -> Trial
    ensures { tries result.reply result.count list.new ≡ try_load (load_define loader file.now) list.old (tables counts.now classes.now kept.now cache.now ties.now subtypes.now objects.now frames.now) }
{
    let mut new_ties = [0u16; TRIED_TIES_LENGTH];
    let mut new_subtypes = [0u16; SUBTYPES_LENGTH];
    let load = Load::Define(loader);
    let admitted = admit(
        counts,
        classes,
        kept,
        cache,
        ties,
        subtypes,
        objects,
        frames,
        load,
        file,
        list.len(),
        &mut new_ties,
        &mut new_subtypes,
    );
    let base = Base {
        counts,
        classes,
        kept,
        cache,
    };
    offer_class(&base, &new_ties, &new_subtypes, admitted, list)
}

// An entry tried: what record would answer, and on a clash why, in the list. No table is written. Refusals: 1 3 16 13 4 10 9
// An entry has no file and no constraints of its own, so it goes by the store's tables, where a class goes by new ones.
pub fn try_record(
    counts: &[u16],
    classes: &[u16],
    kept: &[u8],
    cache: &[u16],
    ties: &[u16],
    subtypes: &[u16],
    objects: &[u32],
    frames: &[u32],
    loader: u32,
    name: u32,
    class: u32,
    list: &mut [u16],
) -> Trial
    ensures { tries result.reply result.count list.new ≡ try_load (load_record loader name class) list.old (tables counts.now classes.now kept.now cache.now ties.now subtypes.now objects.now frames.now) }
{
    let mut no_ties = [0u16; 0];
    let mut no_subtypes = [0u16; 0];
    let no_file = [0u8; 0];
    let load = Load::Record(loader, name, class);
    let admitted = admit(
        counts,
        classes,
        kept,
        cache,
        ties,
        subtypes,
        objects,
        frames,
        load,
        &no_file,
        list.len(),
        &mut no_ties,
        &mut no_subtypes,
    );
    let base = Base {
        counts,
        classes,
        kept,
        cache,
    };
    offer_entry(&base, ties, subtypes, admitted, list)
}
