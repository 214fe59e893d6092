// Rows that break agreement by themselves: no chain is shorter, and most clashes have one.
ghost use Rattle.std.specs.Prelude.{◌≡◌};
ghost use Rattle.constraints.specs.Agreement.{super_in};
ghost use Rattle.constraints.specs.Walks.{bad_over};
ghost use Rattle.constraints.specs.Choosing.{alone, one_row, considered_alone, Alone};

use crate::joining::place;
use crate::order::comes_first;
use crate::upward::is_below;
use cells::at;

// Class d is bad for class c.
fn is_bad_for(supers: &[u8], only: bool, c: usize, d: usize) -> bool
    ensures { result ≡ bad_over only (super_in supers.now) c d }
{
    c != d && (only || !is_below(supers, c, d))
}

// Link e leads from a cached request to one whose class is bad for its own.
fn breaks_alone(
    supers: &[u8],
    classes: &[u16],
    cached: usize,
    froms: &[u16],
    tos: &[u16],
    only: bool,
    e: usize,
) -> bool
    ensures { result ≡ alone froms.now tos.now classes.now cached only (super_in supers.now) e }
{
    let a = place(froms, e);
    let b = place(tos, e);
    if cached <= a || cached <= b {
        return false;
    }
    is_bad_for(supers, only, place(classes, a), place(classes, b))
}

// Its row is kept if there is none yet that goes before it.
fn consider_alone(
    supers: &[u8],
    classes: &[u16],
    cached: usize,
    froms: &[u16],
    tos: &[u16],
    labels: &[u16],
    only: bool,
    e: usize,
    kept: Option<u16>,
) -> Option<u16>
    ensures { one_row result ≡ considered_alone froms.now tos.now labels.now classes.now cached only (super_in supers.now) e (one_row kept) }
{
    if !breaks_alone(supers, classes, cached, froms, tos, only, e) {
        return kept;
    }
    let row = at(labels, e);
    if let Some(other) = kept {
        if !comes_first(row, other) {
            return kept;
        }
    }
    Some(row)
}

// The first such row of these links, or of those before.
pub(crate) fn first_alone(
    supers: &[u8],
    classes: &[u16],
    cached: usize,
    froms: &[u16],
    tos: &[u16],
    labels: &[u16],
    count: usize,
    only: bool,
    before: Option<u16>,
) -> Option<u16>
    ensures { Alone froms.now tos.now labels.now classes.now cached only (super_in supers.now) count count (one_row before) (one_row result) }
{
    let mut kept = before;
    for e in 0..count {
        kept = consider_alone(supers, classes, cached, froms, tos, labels, only, e, kept);
    }
    kept
}
