// The chain that is kept of those that searches find.
ghost use Rattle.std.specs.Prelude.{◌≡◌, ℕ, ◌+◌, ◌≤◌, length, get_or, set, eqb};
ghost use Rattle.definition.specs.Numbers.{cache_limit};
ghost use Rattle.definition.specs.Lists.{rows};
ghost use Rattle.definition.specs.Reasons.{precedes};
ghost use Rattle.laws.specs.Earlier.{row_before};
ghost use Rattle.constraints.specs.Nodes.{place_limit};
ghost use Rattle.constraints.specs.Walks.{trail, ends_in, Joint, InRange, Sole};
ghost use Rattle.constraints.specs.Choosing.{held, Holds, considered, considered_all, ChosenFor, Chosen};
ghost use Rattle.constraints.specs.Agreement.{super_in};

use crate::joining::{join, place};
use crate::layers::{seed, spread};
use crate::numbering::PLACE_LIMIT;
use crate::order::comes_first;
use crate::upward::mark_above;
use cells::{at, put};
use definition::numbers::BYTE_RANGE;

// The k rows from a node on go before the first k cells of a table.
fn goes_before(
    tos: &[u16],
    labels: &[u16],
    ways: &[u16],
    node: usize,
    k: usize,
    best: &[u16],
) -> bool
    ensures { result ≡ precedes row_before (trail tos.now labels.now ways.now k node) (rows (λ i. get_or best.now i 0) k 0) }
{
    let mut here = node;
    for i in 0..k {
        let way = place(ways, here);
        let row = at(labels, way);
        let kept = at(best, i);
        if comes_first(row, kept) {
            return true;
        }
        if comes_first(kept, row) {
            return false;
        }
        here = place(tos, way);
    }
    false
}

// The k rows from a node on, written into the first k cells of a table.
fn write_trail(tos: &[u16], labels: &[u16], ways: &[u16], node: usize, k: usize, best: &mut [u16])
    requires { (k ≤ place_limit) × (length best.old ≡ place_limit) }
    ensures { rows (λ i. get_or best.new i 0) k 0 ≡ trail tos.now labels.now ways.now k node }
{
    let mut here = node;
    for i in 0..k {
        let way = place(ways, here);
        put(best, i, at(labels, way));
        here = place(tos, way);
    }
}

// The chain from a node is kept if it was found and is better than the one that is held, if one is. Answers the new size.
fn consider(
    tos: &[u16],
    labels: &[u16],
    dists: &[u16],
    ways: &[u16],
    node: usize,
    best: &mut [u16],
    size: Option<u16>,
) -> Option<u16>
    requires { Holds best.old size × (get_or dists.now node 0 ≤ place_limit + 1) }
    ensures { Holds best.new result × (held best.new result ≡ considered tos.now labels.now dists.now ways.now node (held best.old size)) }
{
    let dist = at(dists, node);
    if dist == 0 {
        return size;
    }
    let k = dist - 1;
    if let Some(held) = size {
        if held < k {
            return size;
        }
        if held == k && !goes_before(tos, labels, ways, node, usize::from(k), best) {
            return size;
        }
    }
    write_trail(tos, labels, ways, node, usize::from(k), best);
    Some(k)
}

// The same of each cached request of class c.
fn consider_all(
    tos: &[u16],
    labels: &[u16],
    dists: &[u16],
    ways: &[u16],
    classes: &[u16],
    cached: usize,
    c: u16,
    best: &mut [u16],
    size: Option<u16>,
) -> Option<u16>
    requires { Holds best.old size × ((q : ℕ) → get_or dists.now q 0 ≤ place_limit + 1) }
    ensures { Holds best.new result × (held best.new result ≡ considered_all tos.now labels.now dists.now ways.now classes.now c cached 0 (held best.old size)) }
{
    let mut kept = size;
    for q in 0..cached {
        if at(classes, q) == c {
            kept = consider(tos, labels, dists, ways, q, best, kept);
        }
    }
    kept
}

// The chains from the cached requests of class c to those whose class is bad for it, of which the best is kept. Answers the new size.
pub(crate) fn search_class(
    froms: &[u16],
    tos: &[u16],
    labels: &[u16],
    count: usize,
    heads: &[u16],
    nexts: &[u16],
    classes: &[u16],
    cached: usize,
    aboves: &[u16],
    stamp: u16,
    only: bool,
    c: u16,
    best: &mut [u16],
    size: Option<u16>,
) -> Option<u16>
    requires { (cached ≤ place_limit) × Joint froms.now tos.now count heads.now nexts.now × Holds best.old size × Sole froms.now tos.now labels.now count }
    ensures { Holds best.new result × ChosenFor froms.now tos.now labels.now count classes.now cached c (ends_in only aboves.now stamp classes.now cached c) (held best.old size) (held best.new result) }
{
    let mut dists = [0u16; PLACE_LIMIT];
    let mut ways = [0u16; PLACE_LIMIT];
    let mut queue = [0u16; PLACE_LIMIT];
    let seeds = seed(
        classes, cached, aboves, stamp, only, c, &mut dists, &mut queue,
    );
    let limit = size.unwrap_or(u16::MAX);
    spread(
        froms, tos, labels, count, heads, nexts, limit, &mut dists, &mut ways, &mut queue, seeds,
    );
    consider_all(tos, labels, &dists, &ways, classes, cached, c, best, size)
}

// A class was met before; it is marked as met. Classes past the table are never met.
fn was_met(met: &mut [u16], class: usize) -> bool
    ensures { (result ≡ eqb (get_or met.old class 0) 1) × (met.new ≡ set met.old class 1) }
{
    let before = at(met, class) == 1;
    put(met, class, 1);
    before
}

// The same of every class of a cached request, once: by ties alone, or by all links.
pub(crate) fn search_all(
    supers: &[u8],
    classes: &[u16],
    cached: usize,
    froms: &[u16],
    tos: &[u16],
    labels: &[u16],
    count: usize,
    only: bool,
    best: &mut [u16],
    size: Option<u16>,
) -> Option<u16>
    requires { (cached ≤ cache_limit) × InRange froms.now tos.now count × Holds best.old size × Sole froms.now tos.now labels.now count }
    ensures { Holds best.new result × Chosen froms.now tos.now labels.now count classes.now cached only (super_in supers.now) (held best.old size) (held best.new result) }
{
    let mut heads = [0u16; PLACE_LIMIT];
    let mut nexts = [0u16; PLACE_LIMIT];
    join(tos, 0, count, &mut heads, &mut nexts);
    let mut aboves = [0u16; BYTE_RANGE as usize];
    let mut met = [0u16; BYTE_RANGE as usize];
    let mut kept = size;
    for p in 0..cached {
        let class = at(classes, p);
        if !was_met(&mut met, usize::from(class)) {
            let stamp = (p + 1) as u16;
            mark_above(supers, classes, p, stamp, &mut aboves);
            kept = search_class(
                froms, tos, labels, count, &heads, &nexts, classes, cached, &aboves, stamp, only,
                class, best, kept,
            );
        }
    }
    kept
}
