// The search backward from where walks end, one layer of nodes after another.
ghost use Rattle.std.specs.Prelude.{◌≡◌, Bool, List, ℕ, ◌<◌, ◌≤◌, length, get_or};
ghost use Rattle.constraints.specs.Nodes.{place_limit};
ghost use Rattle.constraints.specs.Walks.{found, Sized, look, looks, Those, Joint, Spread, bad_in, ends_in, seed_one, Zeroed, Seeded};

use crate::joining::place;
use crate::order::comes_first;
use cells::{at, put};

// A look at a link that leads to a node of the layer before. Answers how many nodes are queued.
fn look_at(
    froms: &[u16],
    labels: &[u16],
    e: usize,
    layer: u16,
    dists: &mut [u16],
    ways: &mut [u16],
    queue: &mut [u16],
    tail: usize,
) -> usize
    requires { (e < place_limit) × (tail ≤ place_limit) }
    ensures { found dists.new ways.new queue.new result ≡ look froms.now labels.now layer e (found dists.old ways.old queue.old tail) }
{
    let a = place(froms, e);
    let dist = at(dists, a);
    if dist == 0 {
        put(dists, a, layer);
        put(ways, a, e as u16);
        put(queue, tail, a as u16);
        return tail + 1;
    }
    if dist == layer {
        if comes_first(at(labels, e), at(labels, place(ways, a))) {
            put(ways, a, e as u16);
        }
    }
    tail
}

// Looks at each link that leads to a node.
fn look_back(
    froms: &[u16],
    tos: &[u16],
    labels: &[u16],
    count: usize,
    heads: &[u16],
    nexts: &[u16],
    node: usize,
    layer: u16,
    dists: &mut [u16],
    ways: &mut [u16],
    queue: &mut [u16],
    tail: usize,
) -> usize
    requires { (node < place_limit) × (0 < layer) × Joint froms.now tos.now count heads.now nexts.now × Sized (found dists.old ways.old queue.old tail) }
    ensures { (es : List ℕ) × Those count (λ e. get_or tos.now e 0 ≡ node) es × (found dists.new ways.new queue.new result ≡ looks froms.now labels.now layer es (found dists.old ways.old queue.old tail)) }
{
    let mut queued = tail;
    let mut follow = place(heads, node);
    while 0 < follow {
        let e = follow - 1;
        queued = look_at(froms, labels, e, layer, dists, ways, queue, queued);
        follow = place(nexts, e);
    }
    queued
}

// Looks at each link that leads to one of the nodes in these places of the queue.
fn next_layer(
    froms: &[u16],
    tos: &[u16],
    labels: &[u16],
    count: usize,
    heads: &[u16],
    nexts: &[u16],
    low: usize,
    high: usize,
    layer: u16,
    dists: &mut [u16],
    ways: &mut [u16],
    queue: &mut [u16],
) -> usize
    requires { (low ≤ high) × (0 < layer) × Joint froms.now tos.now count heads.now nexts.now × Sized (found dists.old ways.old queue.old high) }
    ensures { (es : List ℕ) × Those count (λ e. (i : ℕ) × (low ≤ i) × (i < high) × (get_or tos.now e 0 ≡ get_or queue.old i 0)) es × (found dists.new ways.new queue.new result ≡ looks froms.now labels.now layer es (found dists.old ways.old queue.old high)) }
{
    let mut tail = high;
    for i in low..high {
        let node = place(queue, i);
        tail = look_back(
            froms, tos, labels, count, heads, nexts, node, layer, dists, ways, queue, tail,
        );
    }
    tail
}

// From the ends, which were found, on to all nodes from which walks of at most `limit` rows lead to them.
pub(crate) fn spread(
    froms: &[u16],
    tos: &[u16],
    labels: &[u16],
    count: usize,
    heads: &[u16],
    nexts: &[u16],
    limit: u16,
    dists: &mut [u16],
    ways: &mut [u16],
    queue: &mut [u16],
    seeds: usize,
)
    requires { Joint froms.now tos.now count heads.now nexts.now × Sized (found dists.old ways.old queue.old seeds) }
    ensures { (ends : ℕ → Bool) → Seeded ends (found dists.old ways.old queue.old seeds) → (r : ℕ) × Spread froms.now tos.now labels.now count ends limit (found dists.new ways.new queue.new r) }
{
    let mut low = 0;
    let mut tail = seeds;
    let mut n: u16 = 0;
    // The queue grows while it is gone through.
    while low < tail {
        if limit <= n {
            return;
        }
        let high = tail;
        tail = next_layer(
            froms,
            tos,
            labels,
            count,
            heads,
            nexts,
            low,
            high,
            n + 2,
            dists,
            ways,
            queue,
        );
        low = high;
        n += 1;
    }
}

// Whether a class is bad for class c.
fn is_bad(aboves: &[u16], stamp: u16, only: bool, c: u16, class: u16) -> bool
    ensures { result ≡ bad_in only aboves.now stamp c class }
{
    c != class && (only || at(aboves, usize::from(class)) != stamp)
}

// Cached request q is found, at distance 0, and queued, if its class is bad for class c. Answers how many are queued.
fn seed_one(
    classes: &[u16],
    aboves: &[u16],
    stamp: u16,
    only: bool,
    c: u16,
    q: usize,
    dists: &mut [u16],
    queue: &mut [u16],
    tail: usize,
) -> usize
    requires { (q < place_limit) × (tail ≤ place_limit) }
    ensures { (ways : List ℕ) → found dists.new ways queue.new result ≡ seed_one (bad_in only aboves.now stamp c (get_or classes.now q 0)) q (found dists.old ways queue.old tail) }
{
    if !is_bad(aboves, stamp, only, c, at(classes, q)) {
        return tail;
    }
    put(dists, q, 1);
    put(queue, tail, q as u16);
    tail + 1
}

// The cached requests whose class is bad for class c. Answers how many.
pub(crate) fn seed(
    classes: &[u16],
    cached: usize,
    aboves: &[u16],
    stamp: u16,
    only: bool,
    c: u16,
    dists: &mut [u16],
    queue: &mut [u16],
) -> usize
    requires { (cached ≤ place_limit) × Zeroed dists.old × (length queue.old ≡ place_limit) }
    ensures { (ways : List ℕ) → length ways ≡ place_limit → Seeded (ends_in only aboves.now stamp classes.now cached c) (found dists.new ways queue.new result) }
{
    let mut tail = 0;
    for q in 0..cached {
        tail = seed_one(classes, aboves, stamp, only, c, q, dists, queue, tail);
    }
    tail
}
