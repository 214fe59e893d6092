// The changeover: new tables are filled from those of a first document's store, if that isn't broken by the first document's rules. The old tables are only read.
// They are judged before a new cell is written, by today's test of the tables that would be filled and by the versions of the kept files.
#![tactic(auto)]

mod counts; // counts.rt: the counts that the new tables get
mod versions; // versions.rt: whether a file of a later version is kept

ghost use Rattle.std.specs.Prelude.{◌≡◌, true, MatchOption};
ghost use Rattle.definition.specs.Tables.{tables};
ghost use Rattle.definition.specs.Calls.{done};
ghost use Rattle.definition.specs.Changeover.{changeover};
ghost use Rattle.definition.specs.First.Broken.{first_broken};
ghost use Rattle.changing.specs.Judged.{Judged};

use crate::counts::list_cells;
use crate::versions::keeps_later;
use copying::fill;
use definition::numbers::{COUNT_TIES, COUNTS_LENGTH, OWNERS_CELL, TIE_LIMIT, WORD_BROKEN};
use definition::{Refusal, Reply};

// The counts that the new tables get, if the old ones are a store that isn't broken.
fn judge(
    old_counts: &[u16],
    old_classes: &[u16],
    old_kept: &[u8],
    old_cache: &[u16],
    old_ties: &[u16],
    old_subtypes: &[u16],
    old_objects: &[u32],
    old_frames: &[u32],
) -> Option<[u16; COUNTS_LENGTH]>
    ensures { MatchOption result (first_broken (tables old_counts.now old_classes.now old_kept.now old_cache.now old_ties.now old_subtypes.now old_objects.now old_frames.now) ≡ true) (Judged (tables old_counts.now old_classes.now old_kept.now old_cache.now old_ties.now old_subtypes.now old_objects.now old_frames.now)) }
{
    if old_counts.len() != OWNERS_CELL {
        return None;
    }
    let n = cells::at(old_counts, COUNT_TIES);
    if TIE_LIMIT < n {
        return None;
    }
    let mut carried = [0u16; COUNTS_LENGTH];
    list_cells(&mut carried, old_counts, n);
    groups::write_groups(&mut carried, old_ties);
    if store::is_broken(
        &carried,
        old_classes,
        old_kept,
        old_cache,
        old_ties,
        old_subtypes,
        old_objects,
        old_frames,
    ) {
        return None;
    }
    if keeps_later(old_counts, old_classes, old_kept) {
        return None;
    }
    Some(carried)
}

// The new tables filled from the old ones, every cell, whatever they held. Refusals: 1
pub fn change_over(
    old_counts: &[u16],
    old_classes: &[u16],
    old_kept: &[u8],
    old_cache: &[u16],
    old_ties: &[u16],
    old_subtypes: &[u16],
    old_objects: &[u32],
    old_frames: &[u32],
    counts: &mut [u16],
    classes: &mut [u16],
    kept: &mut [u8],
    cache: &mut [u16],
    ties: &mut [u16],
    subtypes: &mut [u16],
    objects: &mut [u32],
    frames: &mut [u32],
) -> Reply
    ensures { done result (tables counts.new classes.new kept.new cache.new ties.new subtypes.new objects.new frames.new) ≡ changeover (tables old_counts.now old_classes.now old_kept.now old_cache.now old_ties.now old_subtypes.now old_objects.now old_frames.now) (tables counts.old classes.old kept.old cache.old ties.old subtypes.old objects.old frames.old) }
{
    if !store::is_shaped(
        counts, classes, kept, cache, ties, subtypes, objects, frames,
    ) {
        return Reply::Denied(Refusal::Word(WORD_BROKEN));
    }
    let Some(carried) = judge(
        old_counts,
        old_classes,
        old_kept,
        old_cache,
        old_ties,
        old_subtypes,
        old_objects,
        old_frames,
    ) else {
        return Reply::Denied(Refusal::Word(WORD_BROKEN));
    };
    fill(
        &carried,
        old_classes,
        old_kept,
        old_cache,
        old_ties,
        old_subtypes,
        old_objects,
        old_frames,
        counts,
        classes,
        kept,
        cache,
        ties,
        subtypes,
        objects,
        frames,
    );
    Reply::Accepted
}
