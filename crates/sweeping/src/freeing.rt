// The owners of objects without a mark are cleared.
ghost use Rattle.std.specs.Prelude.{◌≡◌, get_or};
ghost use Rattle.definition.specs.Numbers.{count_objects};
ghost use Rattle.sweeping.specs.Marking.{dead, freed, free_rows};

use definition::numbers::{COUNT_OBJECTS, OWNERS_CELL};

// Object o is in use and not marked.
fn is_dead(counts: &[u16], marks: &[u8], o: u16) -> bool
    ensures { result ≡ dead marks.now counts.now o }
{
    let row = usize::from(o);
    cells::at(counts, OWNERS_CELL + row) != 0 && cells::at(marks, row) == 0
}

// How many are freed.
pub(crate) fn free_unmarked(counts: &mut [u16], marks: &[u8]) -> u16
    ensures { freed counts.new result ≡ free_rows marks.now (get_or counts.old count_objects 0) 0 counts.old 0 }
{
    let rows = cells::at(counts, COUNT_OBJECTS);
    let mut number: u16 = 0;
    for o in 0..rows {
        if is_dead(counts, marks, o) {
            cells::put(counts, OWNERS_CELL + usize::from(o), 0);
            number += 1;
        }
    }
    number
}
