// Tables copied into others of the same lengths: one, and all eight.
#![tactic(auto)]

ghost use Rattle.std.specs.Prelude.{◌≡◌};
ghost use Rattle.definition.specs.Tables.{tables};
ghost use Rattle.copying.specs.Copied.{copied, copied_tables};

// Into a table of another length nothing is copied.
pub fn copy<T: Copy>(source: &[T], target: &mut [T])
    ensures { target.new ≡ copied source.now target.old }
{
    if source.len() == target.len() {
        cells::copy(source, target);
    }
}

// Each of the eight tables becomes its source, the first eight in their order.
pub fn fill(
    new_counts: &[u16],
    new_classes: &[u16],
    new_kept: &[u8],
    new_cache: &[u16],
    new_ties: &[u16],
    new_subtypes: &[u16],
    new_objects: &[u32],
    new_frames: &[u32],
    counts: &mut [u16],
    classes: &mut [u16],
    kept: &mut [u8],
    cache: &mut [u16],
    ties: &mut [u16],
    subtypes: &mut [u16],
    objects: &mut [u32],
    frames: &mut [u32],
)
    ensures { tables counts.new classes.new kept.new cache.new ties.new subtypes.new objects.new frames.new ≡ copied_tables (tables new_counts.now new_classes.now new_kept.now new_cache.now new_ties.now new_subtypes.now new_objects.now new_frames.now) (tables counts.old classes.old kept.old cache.old ties.old subtypes.old objects.old frames.old) }
{
    copy(new_counts, counts);
    copy(new_classes, classes);
    copy(new_kept, kept);
    copy(new_cache, cache);
    copy(new_ties, ties);
    copy(new_subtypes, subtypes);
    copy(new_objects, objects);
    copy(new_frames, frames);
}
