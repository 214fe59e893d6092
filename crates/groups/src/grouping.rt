// The lowest row of each row's group.
ghost use Rattle.std.specs.Prelude.{◌≡◌, ℕ, ◌+◌, ◌*◌, ◌<◌, ◌≤◌, length, get_or, min, ◌++◌, drop};
ghost use Rattle.definition.specs.Numbers.{tie_limit, loader_limit, ties_length};
ghost use Rattle.definition.specs.Lists.{all};
ghost use Rattle.definition.specs.Tables.{tie_at};
ghost use Rattle.definition.specs.Groups.{groups_of};
ghost use Rattle.definition.specs.Broken.{tie_fits};
ghost use Rattle.groups.specs.Firsts.{NodesOf, name_in};
ghost use Rattle.groups.specs.Lowest.{up_to, cells_of, ties_at, Room, RowGroups};

use crate::claims::claim_rows;
use crate::names::{ROW_LIMIT, number_few, number_names};
use crate::uniting::list_roots;
use definition::numbers::{LOADER_LIMIT, ROW_CELLS, TIE_LIMIT, TIES_LENGTH};

const LOADERS: u16 = LOADER_LIMIT as u16;

// How many keys rows may need: one of each loader for each row. Few rows need few.
const KEY_LIMIT: usize = 4096;

const FEW_ROWS: usize = 16;

const FEW_KEYS: usize = 256;

// Both loaders of a row are among those that there are.
fn row_fits(ties: &[u16], i: usize) -> bool
    requires { (i < tie_limit) × (i * 3 + 2 < length ties.now) }
    ensures { result ≡ tie_fits (tie_at ties.now i) }
{
    let row = i * ROW_CELLS;
    ties[row] < LOADERS && ties[row + 1] < LOADERS
}

fn rows_fit(ties: &[u16], n: usize) -> bool
    requires { (n ≤ tie_limit) × (n * 3 ≤ length ties.now) }
    ensures { result ≡ all tie_fits (ties_at ties.now n) }
{
    for i in 0..n {
        if !row_fits(ties, i) {
            return false;
        }
    }
    true
}

// The groups of n rows whose loaders are among those that there are and whose nodes are known, made with a table that has no row yet.
fn list_named(ties: &[u16], n: usize, nodes: &[u8], firsts: &mut [u16], roots: &mut [u16])
    requires { Room ties.now n roots.old × (length nodes.now ≡ tie_limit) × NodesOf (name_in ties.now) n nodes.now × (n * loader_limit ≤ length firsts.old) × ((x : ℕ) → x < length firsts.old → get_or firsts.old x 0 ≡ 0) }
    ensures { cells_of roots.new n ≡ groups_of (ties_at ties.now n) (up_to n) }
{
    let mut ups = [65535u16; ROW_LIMIT];
    claim_rows(ties, n, nodes, firsts, &mut ups);
    list_roots(&ups, n, roots);
}

// The same: few rows need small tables, and none of their names.
fn list_groups(ties: &[u16], n: usize, roots: &mut [u16])
    requires { Room ties.now n roots.old }
    ensures { cells_of roots.new n ≡ groups_of (ties_at ties.now n) (up_to n) }
{
    let mut nodes = [0u8; ROW_LIMIT];
    if n <= FEW_ROWS {
        number_few(ties, n, &mut nodes);
        let mut firsts = [0u16; FEW_KEYS];
        list_named(ties, n, &nodes, &mut firsts, roots);
    } else {
        let mut blocks = [255u8; KEY_LIMIT];
        number_names(ties, n, &mut blocks, &mut nodes);
        let mut firsts = [0u16; KEY_LIMIT];
        list_named(ties, n, &nodes, &mut firsts, roots);
    }
}

// Puts the cells of a table in front of another's, in place of as many of its own.
fn copy_cells(ties: &[u16], whole: &mut [u16])
    requires { length ties.now ≤ length whole.old }
    ensures { whole.new ≡ ties.now ++ drop (length ties.now) whole.old }
{
    cells::copy(ties, whole);
}

// The groups of n rows if no loader is past the last; else nothing is written.
fn group_whole(ties: &[u16], n: usize, roots: &mut [u16]) -> bool
    requires { (n ≤ tie_limit) × (n * 3 ≤ length ties.now) × (n ≤ length roots.old) }
    ensures { RowGroups ties.now n roots.old result roots.new }
{
    if !rows_fit(ties, n) {
        return false;
    }
    list_groups(ties, n, roots);
    true
}

// The lowest row of each row's group, of as many ties as a count says and at most 256. Nothing is written, and the answer is no, where the table is too short
// or a loader is past the last.
pub fn group_rows(ties: &[u16], count: u16, roots: &mut [u16]) -> bool
    ensures { RowGroups ties.now (min count tie_limit) roots.old result roots.new }
{
    let n = usize::from(count.min(TIE_LIMIT));
    if n == 0 {
        return true;
    }
    if roots.len() < n {
        return false;
    }
    if ties.len() < n * ROW_CELLS {
        let mut whole = [0u16; TIES_LENGTH];
        copy_cells(ties, &mut whole);
        return group_whole(&whole, n, roots);
    }
    group_whole(ties, n, roots)
}
