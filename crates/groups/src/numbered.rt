// Groups beside the ties of a counts table: the number of the lowest row of each row's group.
ghost use Rattle.std.specs.Prelude.{◌≡◌, ℕ, ◌<◌, ◌≤◌, length, get_or};
ghost use Rattle.definition.specs.Numbers.{tie_limit, count_ties, groups_cell, tie_numbers_cell};
ghost use Rattle.definition.specs.Lists.{rows, same_list, write_rows};
ghost use Rattle.definition.specs.Tables.{number_at, put_number};
ghost use Rattle.groups.specs.Numbered.{groups_fit, regrouped, root_numbers};

use crate::grouping::group_rows;
use crate::names::ROW_LIMIT;
use cells::{at, put};
use definition::numbers::{COUNT_TIES, GROUPS_CELL, TIE_LIMIT, TIE_NUMBERS_CELL};

// The number of row i's root.
fn root_number(counts: &[u16], roots: &[u16], i: usize) -> u16
    requires { i < length roots.now }
    ensures { result ≡ root_numbers counts.now roots.now i }
{
    at(counts, TIE_NUMBERS_CELL + usize::from(roots[i]))
}

// The numbers of the roots stand beside the first n ties.
fn cells_fit(counts: &[u16], roots: &[u16], n: usize) -> bool
    requires { (n ≤ tie_limit) × (length roots.now ≡ tie_limit) }
    ensures { result ≡ same_list (rows (number_at groups_cell counts.now) n 0) (rows (root_numbers counts.now roots.now) n 0) }
{
    for i in 0..n {
        if at(counts, GROUPS_CELL + i) != root_number(counts, roots, i) {
            return false;
        }
    }
    true
}

// Writes them, the last first.
fn write_cells(counts: &mut [u16], roots: &[u16], n: usize)
    requires { (n ≤ tie_limit) × (length roots.now ≡ tie_limit) × ((i : ℕ) → i < n → get_or roots.now i 0 < tie_limit) }
    ensures { counts.new ≡ write_rows (put_number groups_cell) (rows (root_numbers counts.old roots.now) n 0) 0 counts.old }
{
    for i in (0..n).rev() {
        let number = root_number(counts, roots, i);
        put(counts, GROUPS_CELL + i, number);
    }
}

// Whether the ties of a counts table fit, and their groups stand beside them.
pub fn groups_fit(counts: &[u16], ties: &[u16]) -> bool
    ensures { result ≡ groups_fit counts.now ties.now (get_or counts.now count_ties 0) }
{
    let n = at(counts, COUNT_TIES);
    if TIE_LIMIT < n {
        return false;
    }
    let mut roots = [0u16; ROW_LIMIT];
    if !group_rows(ties, n, &mut roots) {
        return false;
    }
    cells_fit(counts, &roots, usize::from(n))
}

// Writes the groups of a counts table's ties beside them, if these fit.
pub fn write_groups(counts: &mut [u16], ties: &[u16])
    ensures { counts.new ≡ regrouped counts.old ties.now (get_or counts.old count_ties 0) }
{
    let n = at(counts, COUNT_TIES);
    if n <= TIE_LIMIT {
        let mut roots = [0u16; ROW_LIMIT];
        if group_rows(ties, n, &mut roots) {
            write_cells(counts, &roots, usize::from(n));
        }
    }
}
