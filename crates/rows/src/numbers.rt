// The numbers of ties and subtype constraints: each next number stands next in one of the two tables.
ghost use Rattle.std.specs.Prelude.{◌≡◌, ◌-◌, ◌<◌};
ghost use Rattle.definition.specs.Numbers.{short_range};
ghost use Rattle.definition.specs.Lists.{rows};
ghost use Rattle.definition.specs.Tables.{number_at};
ghost use Rattle.rows.specs.Numbers.{standing, numbers_fit};

use cells::at;
use definition::numbers::{COUNT_SUBTYPES, COUNT_TIES, SUBTYPE_NUMBERS_CELL, TIE_NUMBERS_CELL};

// The number of row i of n, none past the last. A row that the table doesn't hold has 0.
fn number_at(counts: &[u16], first: usize, n: usize, i: usize) -> Option<usize>
    requires { (first < short_range) × (n < short_range) }
    ensures { result ≡ standing (rows (number_at first counts.now) (n - i) i) }
{
    if i < n {
        Some(usize::from(at(counts, first + i)))
    } else {
        None
    }
}

// The next number is looked for in the next row of both tables, so at most 512 rows are read, a store's counts being within their limits.
pub fn numbers_fit(counts: &[u16]) -> bool
    ensures { result ≡ numbers_fit counts.now }
{
    let ties = usize::from(at(counts, COUNT_TIES));
    let subtypes = usize::from(at(counts, COUNT_SUBTYPES));
    let mut t = 0;
    let mut s = 0;
    for k in 0..ties + subtypes {
        if number_at(counts, TIE_NUMBERS_CELL, ties, t) == Some(k) {
            t += 1;
        } else if number_at(counts, SUBTYPE_NUMBERS_CELL, subtypes, s) == Some(k) {
            s += 1;
        } else {
            return false;
        }
    }
    true
}
