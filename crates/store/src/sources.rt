// Classes with their files, entries and constraints.
ghost use Rattle.std.specs.Prelude.{◌≡◌, get_or};
ghost use Rattle.definition.specs.Numbers.{count_classes, count_kept, count_cache, count_subtypes};
ghost use Rattle.definition.specs.Lists.{all, rows};
ghost use Rattle.definition.specs.Tables.{class_row_at, entry_at, subtype_at};
ghost use Rattle.definition.specs.Broken.{is_object, entry_fits, subtype_fits};
ghost use Rattle.store.specs.Checks.{file_fits, sources_fit, rows_fit};

use definition::numbers::{
    COUNT_CACHE, COUNT_CLASSES, COUNT_KEPT, COUNT_SUBTYPES, LOADER_LIMIT, ROW_CELLS,
};

// Loaders are numbers below this, in cells of 16 bits.
const LOADERS: u16 = LOADER_LIMIT as u16;

fn is_object(classes: &[u16]) -> bool
    ensures { result ≡ is_object (class_row_at classes.now 0) }
{
    if cells::at(classes, 0) != 0 {
        return false;
    }
    if cells::at(classes, 1) != 0 {
        return false;
    }
    cells::at(classes, 2) == 0
}

fn file_fits(counts: &[u16], classes: &[u16], kept: &[u8], c: u16) -> bool
    ensures { result ≡ file_fits (get_or counts.now count_kept 0) kept.now (class_row_at classes.now c) }
{
    let place = usize::from(c) * ROW_CELLS;
    if LOADERS <= cells::at(classes, place) {
        return false;
    }
    let start = cells::at(classes, place + 1);
    let size = cells::at(classes, place + 2);
    if usize::from(cells::at(counts, COUNT_KEPT)) < usize::from(start) + usize::from(size) {
        return false;
    }
    classfile::reads(classfile::part(kept, start, size))
}

// Class 0, if there, is Object; every other class has a file that reads.
pub(crate) fn sources_fit(counts: &[u16], classes: &[u16], kept: &[u8]) -> bool
    ensures { result ≡ sources_fit (get_or counts.now count_kept 0) kept.now (rows (class_row_at classes.now) (get_or counts.now count_classes 0) 0) }
{
    let n = cells::at(counts, COUNT_CLASSES);
    if n == 0 {
        return true;
    }
    if !is_object(classes) {
        return false;
    }
    for c in 1..n {
        if !file_fits(counts, classes, kept, c) {
            return false;
        }
    }
    true
}

fn entry_fits(cache: &[u16], classes: u16, i: u16) -> bool
    ensures { result ≡ entry_fits classes (entry_at cache.now i) }
{
    let place = usize::from(i) * ROW_CELLS;
    if LOADERS <= cells::at(cache, place) {
        return false;
    }
    cells::at(cache, place + 2) < classes
}

fn entries_fit(counts: &[u16], cache: &[u16]) -> bool
    ensures { result ≡ all (entry_fits (get_or counts.now count_classes 0)) (rows (entry_at cache.now) (get_or counts.now count_cache 0) 0) }
{
    let classes = cells::at(counts, COUNT_CLASSES);
    let n = cells::at(counts, COUNT_CACHE);
    for i in 0..n {
        if !entry_fits(cache, classes, i) {
            return false;
        }
    }
    true
}

fn subtype_fits(subtypes: &[u16], i: u16) -> bool
    ensures { result ≡ subtype_fits (subtype_at subtypes.now i) }
{
    cells::at(subtypes, usize::from(i) * ROW_CELLS) < LOADERS
}

fn subtypes_fit(counts: &[u16], subtypes: &[u16]) -> bool
    ensures { result ≡ all subtype_fits (rows (subtype_at subtypes.now) (get_or counts.now count_subtypes 0) 0) }
{
    let n = cells::at(counts, COUNT_SUBTYPES);
    for i in 0..n {
        if !subtype_fits(subtypes, i) {
            return false;
        }
    }
    true
}

pub(crate) fn rows_fit(counts: &[u16], cache: &[u16], ties: &[u16], subtypes: &[u16]) -> bool
    ensures { result ≡ rows_fit counts.now cache.now ties.now subtypes.now }
{
    if !entries_fit(counts, cache) {
        return false;
    }
    if !groups::groups_fit(counts, ties) {
        return false;
    }
    subtypes_fit(counts, subtypes)
}
