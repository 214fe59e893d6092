// Which row named a request: rows that name one request are made one group.
ghost use Rattle.std.specs.Prelude.{◌≡◌, ℕ, ◌+◌, ◌*◌, ◌<◌, ◌≤◌, length, get_or, replicate};
ghost use Rattle.definition.specs.Numbers.{tie_limit, loader_limit};
ghost use Rattle.groups.specs.Firsts.{NodesOf, name_in};
ghost use Rattle.groups.specs.Claims.{key_in, Loaders, Claim};
ghost use Rattle.groups.specs.Lowest.{AllClaimed};

use crate::uniting::join;
use definition::numbers::{LOADER_LIMIT, ROW_CELLS};

// How many loaders there are: a key for each, of the first row of each name.
const LOADERS: usize = LOADER_LIMIT as usize;

// A row whose group has this lowest row names the request of a key: it is the first, or joins the group of the row that stands there. The lowest row then.
fn claim(firsts: &mut [u16], ups: &mut [u16], key: usize, low: usize) -> usize
    requires { (key < length firsts.old) × (length ups.old ≡ tie_limit) × (low < tie_limit) × (low ≤ get_or ups.old low 0) × (get_or firsts.old key 0 ≤ tie_limit) }
    ensures { Claim firsts.old ups.old key low firsts.new ups.new result }
{
    let first = usize::from(firsts[key]);
    if first == 0 {
        firsts[key] = (low + 1) as u16;
        return low;
    }
    let lowest = join(ups, low, first - 1);
    firsts[key] = (lowest + 1) as u16;
    lowest
}

// The key of an end of row i, whose loader stands in this cell of it.
fn key_of(ties: &[u16], nodes: &[u8], end: usize, i: usize) -> usize
    requires { (end < 3) × (i < tie_limit) × (i < length nodes.now) × (i * 3 + end < length ties.now) }
    ensures { result ≡ key_in ties.now nodes.now end i }
{
    usize::from(nodes[i]) * LOADERS + usize::from(ties[i * ROW_CELLS + end])
}

// Makes rows one group that name one request, of the first n; no row leads to another before, and no request has a row.
pub(crate) fn claim_rows(ties: &[u16], n: usize, nodes: &[u8], firsts: &mut [u16], ups: &mut [u16])
    requires { (n ≤ tie_limit) × (n * 3 ≤ length ties.now) × (length nodes.now ≡ tie_limit) × NodesOf (name_in ties.now) n nodes.now × ((i : ℕ) → i < n → Loaders ties.now i) × (n * loader_limit ≤ length firsts.old) × ((x : ℕ) → x < length firsts.old → get_or firsts.old x 0 ≡ 0) × (ups.old ≡ replicate tie_limit 65535) }
    ensures { AllClaimed ties.now n nodes.now ups.new }
{
    for i in 0..n {
        let low = claim(firsts, ups, key_of(ties, nodes, 0, i), i);
        claim(firsts, ups, key_of(ties, nodes, 1, i), low);
    }
}
