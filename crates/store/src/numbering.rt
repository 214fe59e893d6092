// The numbers that rows get which are added to the tables of ties and subtype constraints.
ghost use Rattle.std.specs.Prelude.{◌≡◌};
ghost use Rattle.store.specs.Numbering.{numbered_rows};

use definition::numbers::{SUBTYPE_LIMIT, TIE_LIMIT};

// Rows that both tables have together, and so the numbers that there are.
const NUMBERS: usize = TIE_LIMIT as usize + SUBTYPE_LIMIT as usize;

// The n rows from `row` on get the numbers from k on, if there are so many numbers. Numbers of the table begin at cell `first`; the last is written first.
pub fn number_rows(counts: &mut [u16], first: u16, row: u16, k: u16, n: u16)
    ensures { counts.new ≡ numbered_rows first row k n counts.old }
{
    if NUMBERS < usize::from(k) + usize::from(n) {
        return;
    }
    let start = usize::from(first) + usize::from(row);
    for i in (0..n).rev() {
        cells::put(counts, start + usize::from(i), k + i);
    }
}
