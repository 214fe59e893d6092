// Lengths of the tables, counts within their limits, and the report's share of objects.
ghost use Rattle.std.specs.Prelude.{◌≡◌, get_or, leb};
ghost use Rattle.definition.specs.Tables.{tables, shaped};
ghost use Rattle.definition.specs.Broken.{within};
ghost use Rattle.store.specs.Checks.{share_fits};

use definition::numbers::{
    CACHE_LENGTH, CACHE_LIMIT, CLASS_LIMIT, CLASSES_LENGTH, COUNT_CACHE, COUNT_CLASSES,
    COUNT_FRAMES, COUNT_KEPT, COUNT_OBJECTS, COUNT_SUBTYPES, COUNT_TIES, COUNTS_LENGTH,
    FRAME_LIMIT, FRAMES_LENGTH, KEPT_LENGTH, KEPT_LIMIT, LOADS_CELL, OBJECT_LIMIT, OBJECTS_LENGTH,
    SHARE_LIMIT, SUBTYPE_LIMIT, SUBTYPES_LENGTH, TIE_LIMIT, TIES_LENGTH, TRACE_LIMIT,
};

// The report's number, and the cell of its frames.
const REPORT: u8 = 1;

const COUNT_REPORT: usize = COUNT_FRAMES + 1;

// The tables have the published lengths.
pub fn is_shaped(
    counts: &[u16],
    classes: &[u16],
    kept: &[u8],
    cache: &[u16],
    ties: &[u16],
    subtypes: &[u16],
    objects: &[u32],
    frames: &[u32],
) -> bool
    ensures { result ≡ shaped (tables counts.now classes.now kept.now cache.now ties.now subtypes.now objects.now frames.now) }
{
    if counts.len() != COUNTS_LENGTH {
        return false;
    }
    if classes.len() != CLASSES_LENGTH {
        return false;
    }
    if kept.len() != KEPT_LENGTH {
        return false;
    }
    if cache.len() != CACHE_LENGTH {
        return false;
    }
    if ties.len() != TIES_LENGTH {
        return false;
    }
    if subtypes.len() != SUBTYPES_LENGTH {
        return false;
    }
    if objects.len() != OBJECTS_LENGTH {
        return false;
    }
    frames.len() == FRAMES_LENGTH
}

// A count that is not over its limit.
fn is_within(counts: &[u16], i: usize, limit: u16) -> bool
    ensures { result ≡ leb (get_or counts.now i 0) limit }
{
    cells::at(counts, i) <= limit
}

pub(crate) fn are_within(counts: &[u16]) -> bool
    ensures { result ≡ within counts.now }
{
    if !is_within(counts, COUNT_CLASSES, CLASS_LIMIT) {
        return false;
    }
    if !is_within(counts, COUNT_KEPT, KEPT_LIMIT) {
        return false;
    }
    if !is_within(counts, COUNT_CACHE, CACHE_LIMIT) {
        return false;
    }
    if !is_within(counts, COUNT_TIES, TIE_LIMIT) {
        return false;
    }
    if !is_within(counts, COUNT_SUBTYPES, SUBTYPE_LIMIT) {
        return false;
    }
    if !is_within(counts, COUNT_OBJECTS, OBJECT_LIMIT) {
        return false;
    }
    if !is_within(counts, COUNT_FRAMES, FRAME_LIMIT) {
        return false;
    }
    if !is_within(counts, COUNT_REPORT, FRAME_LIMIT) {
        return false;
    }
    is_within(counts, LOADS_CELL, TRACE_LIMIT)
}

// The report made no more objects than its share.
pub(crate) fn share_fits(counts: &[u16]) -> bool
    ensures { result ≡ share_fits counts.now }
{
    frames::made_by(counts, REPORT) <= SHARE_LIMIT
}
