// The links of a store's rows between nodes.
ghost use Rattle.std.specs.Prelude.{◌≡◌, ◌+◌, ◌≤◌, length};
ghost use Rattle.definition.specs.Numbers.{cache_limit, tie_limit, subtype_limit, short_range};
ghost use Rattle.constraints.specs.Linking.{link_limit, Copied, Linked, Labelled};

use cells::{at, put};
use definition::numbers::{SUBTYPE_LIMIT, SUBTYPE_NUMBERS_CELL, TIE_LIMIT, TIE_NUMBERS_CELL};

// The most links there are: each tie forth and back, each subtype constraint.
pub(crate) const LINK_LIMIT: usize = 2 * TIE_LIMIT as usize + SUBTYPE_LIMIT as usize;

// Copies n cells of a table into another.
fn copy_cells(source: &[u16], from: usize, n: usize, target: &mut [u16], to: usize)
    requires { (from + n ≤ short_range) × (to + n ≤ length target.old) }
    ensures { Copied source.now from n target.old target.new to }
{
    for i in 0..n {
        put(target, to + i, at(source, from + i));
    }
}

// The ends of the links: each tie forth, then each tie back, then each subtype constraint upward.
pub(crate) fn link_nodes(
    nodes: &[u16],
    cached: usize,
    noted: usize,
    tied: usize,
    froms: &mut [u16],
    tos: &mut [u16],
)
    requires { (cached ≤ cache_limit) × (noted ≤ subtype_limit) × (tied ≤ tie_limit) × (length froms.old ≡ link_limit) × (length tos.old ≡ link_limit) }
    ensures { Linked nodes.now cached noted tied froms.new tos.new }
{
    let highs = cached + noted;
    let ones = highs + noted;
    let turned = tied + tied;
    copy_cells(nodes, ones, turned, froms, 0);
    copy_cells(nodes, cached, noted, froms, turned);
    copy_cells(nodes, ones + tied, tied, tos, 0);
    copy_cells(nodes, ones, tied, tos, tied);
    copy_cells(nodes, highs, noted, tos, turned);
}

// The numbers of the links' rows.
pub(crate) fn label_links(counts: &[u16], noted: usize, tied: usize, labels: &mut [u16])
    requires { (noted ≤ subtype_limit) × (tied ≤ tie_limit) × (length labels.old ≡ link_limit) }
    ensures { Labelled counts.now noted tied labels.new }
{
    copy_cells(counts, TIE_NUMBERS_CELL, tied, labels, 0);
    copy_cells(counts, TIE_NUMBERS_CELL, tied, labels, tied);
    copy_cells(counts, SUBTYPE_NUMBERS_CELL, noted, labels, tied + tied);
}
