// Superclasses, whether a store is broken, and the sizes of its classes.
ghost use Rattle.std.specs.Prelude.{◌≡◌, true, ◌≤◌, MatchOption, get_or};
ghost use Rattle.definition.specs.Numbers.{class_limit, cache_limit, count_classes, count_cache};
ghost use Rattle.definition.specs.Tables.{tables, size_of};
ghost use Rattle.definition.specs.Broken.{broken};
ghost use Rattle.resolution.specs.Quick.{base_of, quick_base};
ghost use Rattle.resolution.specs.Cached.{super_row};
ghost use Rattle.store.specs.Checks.{linked_size, links_fit, Blank, Sized, Ended, values_fit, readable, Measured, Whole};

use crate::counts::{are_within, is_shaped, share_fits};
use crate::sources::{rows_fit, sources_fit};
use crate::trace::trace_fits;
use crate::values::{frames_fit, objects_fit};
use definition::numbers::{CLASS_LIMIT, COUNT_CLASSES, FIELD_LIMIT};
use resolution::Base;

// How many fields an object has at most.
const FIELDS: usize = FIELD_LIMIT as usize;

// The size of class c, where `sizes` has those of the classes below it, and `row` is that of its superclass's entry.
fn linked_size(sizes: &[u8], base: &Base, c: u16, row: u16) -> Option<u8>
    requires { Sized (base_of base.now) c sizes.now × (row ≡ super_row (base_of base.now) c) }
    ensures { result ≡ linked_size (base_of base.now) c }
{
    let number = u32::from(c);
    let p = base.super_by(number, row)?;
    let own = classfile::field_count(base.file_of(number));
    let size = usize::from(cells::at(sizes, p as usize)) + usize::from(own);
    if FIELDS < size {
        return None;
    }
    Some(size as u8)
}

// Whether each class but the first is linked. If so `sizes` has the sizes of all of them, and `ends` the row past the entry of each one's superclass.
fn links_fit(sizes: &mut [u8], ends: &mut [u16], base: &Base) -> bool
    requires { Blank sizes.old × Blank ends.old × (get_or base.now.counts.now count_classes 0 ≤ class_limit) × (get_or base.now.counts.now count_cache 0 ≤ cache_limit) × (size_of (base_of base.now) 0 ≡ 0) }
    ensures { (result ≡ links_fit (base_of base.now) (get_or base.now.counts.now count_classes 0)) × (result ≡ true → Sized (base_of base.now) (get_or base.now.counts.now count_classes 0) sizes.new × Ended (base_of base.now) ends.new) }
{
    cells::put(sizes, 0, 0);
    let n = cells::at(base.counts, COUNT_CLASSES);
    for c in 1..n {
        let row = base.super_row(u32::from(c));
        let Some(size) = linked_size(sizes, base, c, row) else {
            return false;
        };
        cells::put(sizes, usize::from(c), size);
        cells::put(ends, usize::from(c), row + 1);
    }
    true
}

// Superclasses and sizes, all values, and the trace.
fn values_fit(
    counts: &[u16],
    classes: &[u16],
    kept: &[u8],
    cache: &[u16],
    objects: &[u32],
    frames: &[u32],
) -> bool
    requires { (get_or counts.now count_classes 0 ≤ class_limit) × (get_or counts.now count_cache 0 ≤ cache_limit) × (size_of (quick_base counts.now classes.now kept.now cache.now) 0 ≡ 0) × Whole counts.now objects.now frames.now }
    ensures { result ≡ values_fit (quick_base counts.now classes.now kept.now cache.now) counts.now classes.now cache.now objects.now frames.now }
{
    let base = Base {
        counts,
        classes,
        kept,
        cache,
    };
    let mut sizes = [0u8; CLASS_LIMIT as usize];
    let mut ends = [0u16; CLASS_LIMIT as usize];
    if !links_fit(&mut sizes, &mut ends, &base) {
        return false;
    }
    if !objects_fit(&sizes, counts, objects) {
        return false;
    }
    if !frames_fit(counts, frames, 0) {
        return false;
    }
    if !frames_fit(counts, frames, 1) {
        return false;
    }
    trace_fits(counts, classes, cache, &ends, objects, frames)
}

// Lengths, counts, the report's share, numbers of rows, files and rows: after these, classes are read at once.
fn is_readable(
    counts: &[u16],
    classes: &[u16],
    kept: &[u8],
    cache: &[u16],
    ties: &[u16],
    subtypes: &[u16],
    objects: &[u32],
    frames: &[u32],
) -> bool
    ensures { result ≡ readable (tables counts.now classes.now kept.now cache.now ties.now subtypes.now objects.now frames.now) }
{
    if !is_shaped(
        counts, classes, kept, cache, ties, subtypes, objects, frames,
    ) {
        return false;
    }
    if !are_within(counts) {
        return false;
    }
    if !share_fits(counts) {
        return false;
    }
    if !rows::numbers_fit(counts) {
        return false;
    }
    if !sources_fit(counts, classes, kept) {
        return false;
    }
    rows_fit(counts, cache, ties, subtypes)
}

// Whether the tables are broken.
pub fn is_broken(
    counts: &[u16],
    classes: &[u16],
    kept: &[u8],
    cache: &[u16],
    ties: &[u16],
    subtypes: &[u16],
    objects: &[u32],
    frames: &[u32],
) -> bool
    ensures { result ≡ broken (tables counts.now classes.now kept.now cache.now ties.now subtypes.now objects.now frames.now) }
{
    if !is_readable(
        counts, classes, kept, cache, ties, subtypes, objects, frames,
    ) {
        return true;
    }
    !values_fit(counts, classes, kept, cache, objects, frames)
}

// The number of fields of each class, none if the tables are broken.
pub fn class_sizes(
    counts: &[u16],
    classes: &[u16],
    kept: &[u8],
    cache: &[u16],
    ties: &[u16],
    subtypes: &[u16],
    objects: &[u32],
    frames: &[u32],
) -> Option<[u8; CLASS_LIMIT as usize]>
    ensures { MatchOption result (broken (tables counts.now classes.now kept.now cache.now ties.now subtypes.now objects.now frames.now) ≡ true) (Measured (tables counts.now classes.now kept.now cache.now ties.now subtypes.now objects.now frames.now)) }
{
    if is_broken(
        counts, classes, kept, cache, ties, subtypes, objects, frames,
    ) {
        return None;
    }
    let mut sizes = [0u8; CLASS_LIMIT as usize];
    let mut ends = [0u16; CLASS_LIMIT as usize];
    let base = Base {
        counts,
        classes,
        kept,
        cache,
    };
    links_fit(&mut sizes, &mut ends, &base);
    Some(sizes)
}
