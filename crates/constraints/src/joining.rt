// Places joined into lists by a key.
ghost use Rattle.std.specs.Prelude.{◌≡◌, ℕ, ◌+◌, ◌<◌, ◌≤◌, length, get_or, set};
ghost use Rattle.constraints.specs.Nodes.{place_limit};
ghost use Rattle.constraints.specs.Joining.{Joined};
ghost use Rattle.constraints.specs.Search.{start_of};
ghost use Rattle.definition.specs.Numbers.{short_range};

use cells::at;

// An element, 0 past the end.
pub(crate) fn place(t: &[u16], i: usize) -> usize
    ensures { (result ≡ get_or t.now i 0) × (result < short_range) }
{
    usize::from(at(t, i))
}

// Joins place e to the last before it with the same key.
pub(crate) fn enter(key: usize, e: usize, heads: &mut [u16], nexts: &mut [u16])
    requires { (e < 65535) × (e < length nexts.old) × (key < length heads.old) }
    ensures nexts_after { nexts.new ≡ set nexts.old e (get_or heads.old key 0) }
    ensures heads_after { heads.new ≡ set heads.old key (e + 1) }
{
    nexts[e] = heads[key];
    heads[key] = (e + 1) as u16;
}

// Joins n places by the keys that a table has from place `from` on.
pub(crate) fn join(keys: &[u16], from: usize, n: usize, heads: &mut [u16], nexts: &mut [u16])
    requires { (from ≤ place_limit) × (n ≤ place_limit) × ((e : ℕ) → e < n → start_of keys.now from e < place_limit) × Joined (start_of keys.now from) 0 heads.old nexts.old }
    ensures { Joined (start_of keys.now from) n heads.new nexts.new }
{
    for e in 0..n {
        enter(place(keys, from + e), e, heads, nexts);
    }
}
