// The counts that the new tables get, but for the groups: the old eight, an owner for each row of objects, two runs of numbers, and no load.
ghost use Rattle.std.specs.Prelude.{◌≡◌, ◌≤◌};
ghost use Rattle.definition.specs.Numbers.{tie_limit, counts_length};
ghost use Rattle.definition.specs.Lists.{rows};
ghost use Rattle.changing.specs.Cells.{cell_of, Blank};

use cells::at;
use definition::numbers::{LOADS_CELL, OWNERS_CELL, SUBTYPE_NUMBERS_CELL, TIE_NUMBERS_CELL};

// The owner of an object that is the quote's: 1 and the task, which is 0.
const QUOTE_OWNS: u16 = 1;

// Cell i, where the old store has n ties.
fn cell_of(old_counts: &[u16], n: u16, i: usize) -> u16
    requires { n ≤ tie_limit }
    ensures { result ≡ cell_of old_counts.now n i }
{
    if i < TIE_NUMBERS_CELL {
        if i < OWNERS_CELL {
            return at(old_counts, i);
        }
        return QUOTE_OWNS;
    }
    if i < LOADS_CELL {
        if i < SUBTYPE_NUMBERS_CELL {
            return (i - TIE_NUMBERS_CELL) as u16;
        }
        return n + (i - SUBTYPE_NUMBERS_CELL) as u16;
    }
    0
}

// All of them, into cells that are 0 from the loads on.
pub(crate) fn list_cells(carried: &mut [u16], old_counts: &[u16], n: u16)
    requires { (n ≤ tie_limit) × Blank carried.old }
    ensures { carried.new ≡ rows (cell_of old_counts.now n) counts_length 0 }
{
    for i in 0..LOADS_CELL {
        carried[i] = cell_of(old_counts, n, i);
    }
}
