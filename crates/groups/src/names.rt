// The first row of each row's name.
ghost use Rattle.std.specs.Prelude.{◌≡◌, ℕ, ◌+◌, ◌*◌, ◌<◌, ◌≤◌, length, get_or};
ghost use Rattle.definition.specs.Numbers.{tie_limit};
ghost use Rattle.groups.specs.Firsts.{Entered, First, NodesOf, name_in, high_count};

use definition::numbers::{ROW_CELLS, TIE_LIMIT};

// How many rows of ties there are at most.
pub(crate) const ROW_LIMIT: usize = TIE_LIMIT as usize;

// A name's low part is one of these, and its high part one of those.
const LOW_COUNT: usize = 4096;

const HIGH_COUNT: usize = 16;

// The first row of a key, which is row p if no row before it had the key. A cell that isn't below p is no row's.
fn first_of(firsts: &mut [u8], key: usize, p: usize) -> usize
    requires { (key < length firsts.old) × (p < tie_limit) }
    ensures { Entered firsts.old key p firsts.new result }
{
    let first = usize::from(firsts[key]);
    if first < p {
        return first;
    }
    firsts[key] = p as u8;
    p
}

// The node of each of n rows: the first with its name. `blocks` has no row yet, and room for each high part behind each row.
pub(crate) fn number_names(ties: &[u16], n: usize, blocks: &mut [u8], nodes: &mut [u8])
    requires { (n ≤ tie_limit) × (n * 3 ≤ length ties.now) × (length nodes.old ≡ tie_limit) × (n * high_count ≤ length blocks.old) × ((x : ℕ) → x < length blocks.old → get_or blocks.old x 0 ≡ 255) }
    ensures { NodesOf (name_in ties.now) n nodes.new }
{
    let mut starts = [255u8; LOW_COUNT];
    for p in 0..n {
        let name = usize::from(ties[p * ROW_CELLS + 2]);
        let block = first_of(&mut starts, name % LOW_COUNT, p);
        let node = first_of(blocks, block * HIGH_COUNT + name / LOW_COUNT, p);
        nodes[p] = node as u8;
    }
}

// The first row with the name of row p: those before it are looked at in turn.
fn first_named(ties: &[u16], p: usize) -> usize
    requires { (p < tie_limit) × (p * 3 + 2 < length ties.now) }
    ensures { First (name_in ties.now) p result }
{
    let name = ties[p * ROW_CELLS + 2];
    for q in 0..p {
        if ties[q * ROW_CELLS + 2] == name {
            return q;
        }
    }
    p
}

// The node of each of n rows, where they are few: no table of names is needed.
pub(crate) fn number_few(ties: &[u16], n: usize, nodes: &mut [u8])
    requires { (n ≤ tie_limit) × (n * 3 ≤ length ties.now) × (length nodes.old ≡ tie_limit) }
    ensures { NodesOf (name_in ties.now) n nodes.new }
{
    for p in 0..n {
        nodes[p] = first_named(ties, p) as u8;
    }
}
