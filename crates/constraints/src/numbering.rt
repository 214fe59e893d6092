// The requests of a store as numbers, and as nodes.
ghost use Rattle.std.specs.Prelude.{◌≡◌, ℕ, ◌+◌, ◌*◌, ◌<◌, ◌≤◌, length, get_or, min};
ghost use Rattle.definition.specs.Numbers.{cache_limit, row_cells, short_range, subtype_limit, tie_limit};
ghost use Rattle.definition.specs.Requests.{at};
ghost use Rattle.constraints.specs.Nodes.{request_of, request_in, Numbered, AllNumbered, First, NodesOf, ClassesOf, bucket_of, bucket_in, bucket_limit, place_limit};
ghost use Rattle.constraints.specs.Joining.{Last};

use crate::joining::enter;
use cells::at;
use definition::numbers::{CACHE_LIMIT, ROW_CELLS, SHORT_RANGE, SUBTYPE_LIMIT, TIE_LIMIT};

// How many places there are at most: cached requests, two names of each subtype constraint, two loaders of each tie.
pub(crate) const PLACE_LIMIT: usize = CACHE_LIMIT as usize
    + 2 * SUBTYPE_LIMIT as usize
    + 2 * TIE_LIMIT as usize;

// Lists by a number's remainder, of which most have few members.
const BUCKET_LIMIT: u32 = 1024;

// A count of rows, at most 256.
pub(crate) fn at_most(count: u16) -> usize
    ensures { (result ≡ min count cache_limit) × (result ≤ cache_limit) }
{
    usize::from(count.min(CACHE_LIMIT))
}

// The number of a request.
fn request_number(loader: u16, name: u16) -> u32
    ensures { request_of result ≡ at loader name }
{
    u32::from(loader) * SHORT_RANGE + u32::from(name)
}

// The number of row i of a table, whose loader and name stand in these cells of it.
fn row_number(t: &[u16], loader: usize, name: usize, i: usize) -> u32
    requires { (loader < 3) × (name < 3) × (i < cache_limit) }
    ensures { request_of result ≡ request_in t.now loader name i }
{
    let row = i * ROW_CELLS;
    if row + 2 < t.len() {
        return request_number(t[row + loader], t[row + name]);
    }
    request_number(at(t, row + loader), at(t, row + name))
}

// The numbers of the first `count` rows of a table, written from a place on.
fn number_rows(
    t: &[u16],
    loader: usize,
    name: usize,
    count: usize,
    numbers: &mut [u32],
    from: usize,
)
    requires { (loader < 3) × (name < 3) × (count ≤ cache_limit) × (from + count ≤ length numbers.old) }
    ensures { Numbered t.now loader name count numbers.old numbers.new from }
{
    for i in 0..count {
        numbers[from + i] = row_number(t, loader, name, i);
    }
}

// The numbers of all places: the cached requests; the subtype constraints, whose lower name is in cell 1 and whose higher in cell 2; the
// ties, whose one loader is in cell 0 and whose other in cell 1.
pub(crate) fn number_places(
    cache: &[u16],
    cached: usize,
    ties: &[u16],
    tied: usize,
    subtypes: &[u16],
    noted: usize,
    numbers: &mut [u32],
)
    requires { (cached ≤ cache_limit) × (tied ≤ tie_limit) × (noted ≤ subtype_limit) × (length numbers.old ≡ place_limit) }
    ensures { AllNumbered cache.now cached ties.now tied subtypes.now noted numbers.new }
{
    let highs = cached + noted;
    let ones = highs + noted;
    number_rows(cache, 0, 1, cached, numbers, 0);
    number_rows(subtypes, 0, 1, noted, numbers, cached);
    number_rows(subtypes, 0, 2, noted, numbers, highs);
    number_rows(ties, 0, 2, tied, numbers, ones);
    number_rows(ties, 1, 2, tied, numbers, ones + tied);
}

// The list that a number is in. Each loader's names begin 633 lists after those of the loader before it, which keeps requests of a few loaders and of
// neighbouring names apart.
fn bucket(number: u32) -> usize
    ensures { (result ≡ bucket_of number) × (result < bucket_limit) }
{
    ((number / SHORT_RANGE * 633 + number % SHORT_RANGE) % BUCKET_LIMIT) as usize
}

// The node of place p: that of the last place before it with the same number, or p itself. `last` is one more than the last place before
// it in its list.
fn node_of(numbers: &[u32], nodes: &[u16], nexts: &[u16], last: usize, p: usize) -> u16
    requires { (p < short_range) × (p < length numbers.now) × (p ≤ length nodes.now) × (p ≤ length nexts.now) × NodesOf numbers.now p nodes.now × Last (bucket_in numbers.now) (bucket_in numbers.now p) p last × ((q : ℕ) → q < p → Last (bucket_in numbers.now) (bucket_in numbers.now q) q (get_or nexts.now q 0)) }
    ensures { First numbers.now p result }
{
    let number = numbers[p];
    let mut follow = last;
    while 0 < follow {
        let q = follow - 1;
        if numbers[q] == number {
            return nodes[q];
        }
        follow = usize::from(nexts[q]);
    }
    p as u16
}

// The node of each of n places. What the table `nexts` holds before and after is of no matter.
pub(crate) fn number_nodes(numbers: &[u32], n: usize, nodes: &mut [u16], nexts: &mut [u16])
    requires { (n ≤ place_limit) × (length numbers.now ≡ place_limit) × (length nodes.old ≡ place_limit) × (length nexts.old ≡ place_limit) }
    ensures { NodesOf numbers.now n nodes.new }
{
    let mut heads = [0u16; PLACE_LIMIT];
    for p in 0..n {
        let key = bucket(numbers[p]);
        let node = node_of(numbers, nodes, nexts, usize::from(heads[key]), p);
        nodes[p] = node;
        enter(key, p, &mut heads, nexts);
    }
}

// The class of a row of the cache.
fn class_at(cache: &[u16], row: usize) -> u16
    requires { row < place_limit }
    ensures { result ≡ get_or cache.now (row * row_cells + 2) 0 }
{
    at(cache, row * ROW_CELLS + 2)
}

// What each cached request means: the class of the first row with its node.
pub(crate) fn list_classes(cache: &[u16], nodes: &[u16], cached: usize, classes: &mut [u16])
    requires { (cached ≤ length nodes.now) × (cached ≤ length classes.old) × ((p : ℕ) → p < cached → get_or nodes.now p 0 < place_limit) }
    ensures { ClassesOf cache.now nodes.now cached classes.new }
{
    for p in 0..cached {
        classes[p] = class_at(cache, usize::from(nodes[p]));
    }
}
