// Roots of rows, and groups made one.
ghost use Rattle.std.specs.Prelude.{◌≡◌, ℕ, ◌<◌, ◌≤◌, length, get_or};
ghost use Rattle.groups.specs.Roots.{Root, Joined};
ghost use Rattle.definition.specs.Numbers.{short_range, tie_limit};

// Where the way down from a place ends.
fn root(ups: &[u16], p: usize) -> usize
    requires { p < length ups.now }
    ensures { Root ups.now p result }
{
    let mut at = p;
    let mut up = usize::from(ups[at]);
    while up < at {
        at = up;
        up = usize::from(ups[at]);
    }
    at
}

// Makes the groups of a root and of a place one. Its root.
pub(crate) fn join(ups: &mut [u16], one: usize, q: usize) -> usize
    requires { (length ups.old ≡ tie_limit) × (one < tie_limit) × (q < tie_limit) × (one ≤ get_or ups.old one 0) }
    ensures { Joined ups.old one q ups.new result }
{
    let two = root(ups, q);
    if one < two {
        ups[two] = one as u16;
        return one;
    }
    ups[one] = two as u16;
    two
}

// The root of place p: its own, or that of the place to which it leads, which is one of those before it.
fn root_of(ups: &[u16], roots: &[u16], p: usize) -> u16
    requires { (p < short_range) × (p < length ups.now) × (p ≤ length roots.now) × ((q : ℕ) → q < p → Root ups.now q (get_or roots.now q 0)) }
    ensures { Root ups.now p result }
{
    let up = usize::from(ups[p]);
    if up < p { roots[up] } else { p as u16 }
}

// The root of each of n places.
pub(crate) fn list_roots(ups: &[u16], n: usize, roots: &mut [u16])
    requires { (n ≤ tie_limit) × (length ups.now ≡ tie_limit) × (n ≤ length roots.old) }
    ensures { (p : ℕ) → p < n → Root ups.now p (get_or roots.new p 0) }
{
    for p in 0..n {
        roots[p] = root_of(ups, roots, p);
    }
}
