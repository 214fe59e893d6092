// The classes above a class.
ghost use Rattle.std.specs.Prelude.{◌≡◌, ◌-◌, ◌<◌, get_or, IfSome};
ghost use Rattle.cells.specs.Optional.{optional};
ghost use Rattle.constraints.specs.Agreement.{super_in};
ghost use Rattle.constraints.specs.Search.{Stamped};
ghost use Rattle.constraints.specs.Upward.{Raised};
ghost use Rattle.definition.specs.Numbers.{byte_range};
ghost use Rattle.definition.specs.Superclasses.{below};

use crate::joining::place;
use cells::{at, put};

// The class directly above a class. No class but the lowest has a number above 255, since its cell is of 8 bits.
fn above(supers: &[u8], class: usize) -> Option<usize>
    ensures is { result ≡ optional (super_in supers.now class) }
    ensures few { IfSome result (λ up. up < byte_range) }
{
    let up = usize::from(at(supers, class));
    if up == 0 || class < up {
        None
    } else {
        Some(up - 1)
    }
}

// Marks with the stamp the classes above that of request a.
pub(crate) fn mark_above(supers: &[u8], classes: &[u16], a: usize, stamp: u16, aboves: &mut [u16])
    requires { (0 < stamp) × Stamped byte_range (stamp - 1) aboves.old }
    ensures { Raised (super_in supers.now) (get_or classes.now a 0) stamp aboves.new }
{
    let mut next = above(supers, place(classes, a));
    while let Some(class) = next {
        put(aboves, class, stamp);
        next = above(supers, class);
    }
}

// Class c is class d or below it. The walk upward is a loop of its own, since it begins at c itself and ends at d: one walk for both would take a closure.
pub(crate) fn is_below(supers: &[u8], c: usize, d: usize) -> bool
    ensures { result ≡ below (super_in supers.now) c d }
{
    let mut next = Some(c);
    while let Some(class) = next {
        if class == d {
            return true;
        }
        next = above(supers, class);
    }
    false
}
