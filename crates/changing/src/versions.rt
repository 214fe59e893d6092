// Whether a file of version 2 or 3 is kept: the first document knows version 1 alone.
ghost use Rattle.std.specs.Prelude.{◌≡◌, get_or};
ghost use Rattle.definition.specs.Numbers.{count_classes, count_kept};
ghost use Rattle.definition.specs.Lists.{rows, any};
ghost use Rattle.definition.specs.Tables.{class_row_at};
ghost use Rattle.first.specs.SameBases.{later_row};

use cells::at;
use definition::numbers::{COUNT_CLASSES, COUNT_KEPT, ROW_CELLS, VERSION_THREE, VERSION_TWO};

// Whether the file of class c begins with such a version, where n bytes are kept.
fn later_row(classes: &[u16], kept: &[u8], n: u16, c: u16) -> bool
    ensures { result ≡ later_row (rows (λ i. get_or kept.now i 0) n 0) (class_row_at classes.now c) }
{
    let row = usize::from(c) * ROW_CELLS;
    if at(classes, row + 2) == 0 {
        return false;
    }
    let start = at(classes, row + 1);
    if n <= start {
        return false;
    }
    let version = at(kept, usize::from(start));
    if version < VERSION_TWO {
        return false;
    }
    version <= VERSION_THREE
}

// Whether that of any class does.
pub(crate) fn keeps_later(counts: &[u16], classes: &[u16], kept: &[u8]) -> bool
    ensures { result ≡ any (later_row (rows (λ i. get_or kept.now i 0) (get_or counts.now count_kept 0) 0)) (rows (class_row_at classes.now) (get_or counts.now count_classes 0) 0) }
{
    let bytes = at(counts, COUNT_KEPT);
    let n = at(counts, COUNT_CLASSES);
    for c in 0..n {
        if later_row(classes, kept, bytes, c) {
            return true;
        }
    }
    false
}
