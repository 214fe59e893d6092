// Pairs of cached requests: whether one breaks agreement.
ghost use Rattle.std.specs.Prelude.{◌≡◌, ℕ, [], false, ◌+◌, ◌<◌, ◌≤◌, length};
ghost use Rattle.constraints.specs.Agreement.{super_in};
ghost use Rattle.constraints.specs.Nodes.{place_limit};
ghost use Rattle.constraints.specs.Search.{Marked};
ghost use Rattle.constraints.specs.Pairs.{out_marked, in_marked, Judged, Members, Followed, NextMet};

use crate::joining::place;
use crate::upward::is_below;
use cells::at;

// A pair of cached requests that breaks agreement, from a place to another.
#[derive(Clone, Copy)]
pub(crate) struct Pair {
    pub from: usize,
    pub to: usize,
}

// Who is looked at: every request, those that aren't the first of their group, or those that a search has marked.
#[derive(Clone, Copy)]
pub(crate) enum Meets {
    Everyone,
    Members,
    Followed,
}

// Request b, of that group, has a's class or one above it, if a leads to it: `outs` has the groups that a leads to, `aboves` the classes above a's.
fn out_agrees(
    outs: &[u16],
    aboves: &[u16],
    classes: &[u16],
    stamp: u16,
    group: usize,
    a: usize,
    b: usize,
) -> bool
    ensures { result ≡ out_marked outs.now aboves.now classes.now stamp group a b }
{
    if at(outs, group) != stamp {
        return true;
    }
    let class = place(classes, b);
    place(classes, a) == class || at(aboves, class) == stamp
}

// Request b, of that group, has a's class or one below it, if it leads to a: `ins` has the groups that lead to a.
fn in_agrees(
    supers: &[u8],
    ins: &[u16],
    classes: &[u16],
    stamp: u16,
    group: usize,
    a: usize,
    b: usize,
) -> bool
    ensures { result ≡ in_marked (super_in supers.now) ins.now classes.now stamp group a b }
{
    at(ins, group) != stamp || is_below(supers, place(classes, b), place(classes, a))
}

// The pair of requests a and b, tied, or one of which leads to the other: whether it breaks agreement, and which way.
pub(crate) fn pair_at(
    supers: &[u8],
    groups: &[u16],
    classes: &[u16],
    outs: &[u16],
    ins: &[u16],
    aboves: &[u16],
    stamp: u16,
    a: usize,
    b: usize,
) -> Option<Pair>
    ensures { Judged (super_in supers.now) groups.now classes.now outs.now ins.now aboves.now stamp a b result }
{
    let group = place(groups, b);
    if place(groups, a) == group {
        if at(classes, a) == at(classes, b) {
            return None;
        }
        return Some(Pair { from: a, to: b });
    }
    if !out_agrees(outs, aboves, classes, stamp, group, a, b) {
        return Some(Pair { from: a, to: b });
    }
    if !in_agrees(supers, ins, classes, stamp, group, a, b) {
        return Some(Pair { from: b, to: a });
    }
    None
}

// The next request from a place on, before the end, that isn't the first of its group.
fn next_member(groups: &[u16], from: usize, end: usize) -> Option<usize>
    ensures { NextMet groups.now [] 0 Members from end result }
{
    for b in from..end {
        if place(groups, b) != b {
            return Some(b);
        }
    }
    None
}

// The next request from a place on, before the end, that is marked, looked for one by one.
fn next_single(marks: &[u16], stamp: u16, from: usize, end: usize) -> Option<usize>
    requires { (end ≤ place_limit) × (end ≤ length marks.now) }
    ensures { NextMet [] marks.now stamp Followed from end result }
{
    for b in from..end {
        if marks[b] == stamp {
            return Some(b);
        }
    }
    None
}

// Whether one of the eight from a place on is marked. All are looked at, so that the processor compares them at once.
fn is_any(marks: &[u16], stamp: u16, from: usize) -> bool
    requires { (from ≤ place_limit) × (from + 8 ≤ length marks.now) }
    ensures { result ≡ false → (p : ℕ) → p < from + 8 → from ≤ p → Marked stamp marks.now p → ⊥ }
{
    let mut found = false;
    for i in 0..8 {
        found |= marks[from + i] == stamp;
    }
    found
}

// The next request from a place on, before the end, that is marked. Eight are looked at in a round, since long chains spend most of their time here.
fn next_followed(marks: &[u16], stamp: u16, from: usize, end: usize) -> Option<usize>
    requires { (end ≤ place_limit) × (end ≤ length marks.now) }
    ensures { NextMet [] marks.now stamp Followed from end result }
{
    if end <= from {
        return None;
    }
    let rounds = (end - from) / 8;
    for round in 0..rounds {
        let b = from + 8 * round;
        if is_any(marks, stamp, b) {
            return next_single(marks, stamp, b, end);
        }
    }
    next_single(marks, stamp, from + 8 * rounds, end)
}

// The next request from a place on, before the end, that is to be looked at.
pub(crate) fn next_met(
    groups: &[u16],
    marks: &[u16],
    stamp: u16,
    who: Meets,
    from: usize,
    end: usize,
) -> Option<usize>
    requires { (end ≤ place_limit) × (who ≡ Followed → end ≤ length marks.now) }
    ensures { NextMet groups.now marks.now stamp who from end result }
{
    match who {
        Meets::Everyone => if from < end { Some(from) } else { None },
        Meets::Members => next_member(groups, from, end),
        Meets::Followed => next_followed(marks, stamp, from, end),
    }
}
