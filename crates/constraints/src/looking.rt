// Whose turn it is to be looked at, and where what can break agreement with it is looked for: the newcomer first, then the other requests.
ghost use Rattle.std.specs.Prelude.{◌≡◌, false, ℕ, ◌+◌, ◌-◌, ◌<◌, ◌≤◌, length, get_or};
ghost use Rattle.definition.specs.Numbers.{byte_range, cache_limit, subtype_limit};
ghost use Rattle.constraints.specs.Agreement.{super_in};
ghost use Rattle.constraints.specs.Nodes.{place_limit};
ghost use Rattle.constraints.specs.Groups.{Rooted};
ghost use Rattle.constraints.specs.Joining.{Joined};
ghost use Rattle.constraints.specs.Search.{start_of, Stamped, Searched};
ghost use Rattle.constraints.specs.Upward.{Raised};
ghost use Rattle.constraints.specs.Looking.{request_at, lead_of, NextTurn, FirstTurn, Reached, Marks, Tables, Links, Looked};

use crate::joining::{join, place};
use crate::numbering::PLACE_LIMIT;
use crate::pairs::Meets;
use crate::search::search;
use crate::upward::mark_above;
use cells::at;

// The places from one to another, and who of them is looked at.
#[derive(Clone, Copy)]
pub(crate) struct Span {
    pub from: usize,
    pub end: usize,
    pub who: Meets,
}

// Whose turn it is: at turn 0 the newcomer's, at turn 1 that of ties, which is nobody's own, then each request's, two turns after its place. Turns are numbers,
// since each one's marks have its number and one.
pub(crate) fn request_at(turn: usize, newcomer: usize) -> usize
    ensures { result ≡ request_at turn newcomer }
{
    if turn == 0 {
        return newcomer;
    }
    if turn == 1 {
        return 0;
    }
    turn - 2
}

// Beside whom b is looked at: a, but at the turn of ties the first of its own group.
pub(crate) fn beside(turn: usize, groups: &[u16], a: usize, b: usize) -> usize
    ensures { result ≡ lead_of turn groups.now a b }
{
    if turn == 1 { place(groups, b) } else { a }
}

// The next turn after one. A request at which no link starts is passed by: it leads nowhere, or where the first of its group leads.
pub(crate) fn next_turn(heads: &[u16], cached: usize, noted: usize, turn: usize) -> usize
    requires { (turn ≤ cached + 1) × (cached ≤ cache_limit) }
    ensures { NextTurn heads.now cached noted turn result }
{
    if turn == 0 {
        return 1;
    }
    if noted == 0 {
        return cached + 2;
    }
    for a in turn - 1..cached {
        if at(heads, a) != 0 {
            return a + 2;
        }
    }
    cached + 2
}

// The first turn: the newcomer's, if there is one.
pub(crate) fn first_turn(cached: usize, newcomer: usize) -> usize
    ensures { FirstTurn cached newcomer result }
{
    if newcomer < cached { 0 } else { 1 }
}

// A link ends at the group.
fn is_end(groups: &[u16], to: usize, noted: usize, group: usize) -> bool
    requires { to + noted ≤ place_limit }
    ensures { result ≡ false → (e : ℕ) → e < noted → start_of groups.now to e ≡ group → ⊥ }
{
    for e in 0..noted {
        if place(groups, to + e) == group {
            return true;
        }
    }
    false
}

// Marks the groups that lead to a group, all of them.
fn look_back(
    groups: &[u16],
    cached: usize,
    noted: usize,
    group: usize,
    ins: &mut [u16],
    queue: &mut [u16],
)
    requires { (cached ≤ cache_limit) × (noted ≤ subtype_limit) × (group < place_limit) × Rooted groups.now (cached + noted + noted) × Stamped place_limit 0 ins.old × (length queue.old ≡ place_limit) }
    ensures { Reached groups.now (cached + noted) cached noted 1 group ins.new }
{
    if !is_end(groups, cached + noted, noted, group) {
        return;
    }
    let mut heads = [0u16; PLACE_LIMIT];
    let mut nexts = [0u16; PLACE_LIMIT];
    join(groups, cached + noted, noted, &mut heads, &mut nexts);
    search(
        groups,
        0,
        cached + noted,
        cached,
        noted,
        &heads,
        &nexts,
        group,
        1,
        ins,
        queue,
    );
}

// Marks what the newcomer's group leads to and what leads to it, all of it, and the classes above the newcomer's.
fn look_around(
    supers: &[u8],
    groups: &[u16],
    classes: &[u16],
    cached: usize,
    noted: usize,
    heads: &[u16],
    nexts: &[u16],
    a: usize,
    outs: &mut [u16],
    ins: &mut [u16],
    queue: &mut [u16],
    aboves: &mut [u16],
)
    requires { (cached ≤ cache_limit) × (noted ≤ subtype_limit) × (a < cached) × Rooted groups.now (cached + noted + noted) × Joined (start_of groups.now cached) noted heads.now nexts.now × Marks 0 outs.old ins.old queue.old aboves.old }
    ensures { Reached groups.now cached (cached + noted) noted 1 (get_or groups.now a 0) outs.new × Reached groups.now (cached + noted) cached noted 1 (get_or groups.now a 0) ins.new × Raised (super_in supers.now) (get_or classes.now a 0) 1 aboves.new }
{
    let group = place(groups, a);
    search(
        groups,
        0,
        cached,
        cached + noted,
        noted,
        heads,
        nexts,
        group,
        1,
        outs,
        queue,
    );
    look_back(groups, cached, noted, group, ins, queue);
    mark_above(supers, classes, a, 1, aboves);
}

// Marks what a leads to, as far as the next cached requests, and the classes above a's.
fn look_ahead(
    supers: &[u8],
    groups: &[u16],
    classes: &[u16],
    cached: usize,
    noted: usize,
    heads: &[u16],
    nexts: &[u16],
    a: usize,
    stamp: u16,
    outs: &mut [u16],
    queue: &mut [u16],
    aboves: &mut [u16],
)
    requires { (cached ≤ cache_limit) × (noted ≤ subtype_limit) × (a < cached) × (0 < stamp) × Rooted groups.now (cached + noted + noted) × Joined (start_of groups.now cached) noted heads.now nexts.now × Stamped place_limit (stamp - 1) outs.old × (length queue.old ≡ place_limit) × Stamped byte_range (stamp - 1) aboves.old }
    ensures { Searched groups.now cached cached (cached + noted) noted stamp a outs.new × Raised (super_in supers.now) (get_or classes.now a 0) stamp aboves.new }
{
    search(
        groups,
        cached,
        cached,
        cached + noted,
        noted,
        heads,
        nexts,
        a,
        stamp,
        outs,
        queue,
    );
    mark_above(supers, classes, a, stamp, aboves);
}

// Where what can break agreement with the newcomer is looked for: everywhere, once the chains out of it and into it were followed; where no link
// starts or ends at its group, from the first of the group on, which is the lowest.
fn look_first(
    supers: &[u8],
    groups: &[u16],
    classes: &[u16],
    cached: usize,
    noted: usize,
    heads: &[u16],
    nexts: &[u16],
    a: usize,
    outs: &mut [u16],
    ins: &mut [u16],
    queue: &mut [u16],
    aboves: &mut [u16],
) -> Span
    requires { (cached ≤ cache_limit) × (noted ≤ subtype_limit) × (a < cached) × Rooted groups.now (cached + noted + noted) × Links groups.now cached noted heads.now nexts.now × Tables noted 0 outs.old ins.old queue.old aboves.old }
    ensures { Looked (super_in supers.now) groups.now classes.now cached noted 0 a outs.new ins.new queue.new aboves.new result }
{
    let group = place(groups, a);
    if noted == 0 || at(heads, group) == 0 && !is_end(groups, cached + noted, noted, group) {
        return Span {
            from: group,
            end: cached,
            who: Meets::Everyone,
        };
    }
    look_around(
        supers, groups, classes, cached, noted, heads, nexts, a, outs, ins, queue, aboves,
    );
    Span {
        from: 0,
        end: cached,
        who: Meets::Everyone,
    }
}

// Where what can break agreement is looked for in a turn: at the newcomer's beside it; at that of ties among those that aren't the first of their group, each beside that one,
// which leads where they lead; at a request's, if it is the first of its group, among those that it leads to.
pub(crate) fn look(
    supers: &[u8],
    groups: &[u16],
    classes: &[u16],
    cached: usize,
    noted: usize,
    heads: &[u16],
    nexts: &[u16],
    turn: usize,
    a: usize,
    outs: &mut [u16],
    ins: &mut [u16],
    queue: &mut [u16],
    aboves: &mut [u16],
) -> Span
    requires { (cached ≤ cache_limit) × (noted ≤ subtype_limit) × (turn ≤ cached + 1) × ((turn ≡ 1 → ⊥) → a < cached) × Rooted groups.now (cached + noted + noted) × Links groups.now cached noted heads.now nexts.now × Tables noted turn outs.old ins.old queue.old aboves.old }
    ensures { Looked (super_in supers.now) groups.now classes.now cached noted turn a outs.new ins.new queue.new aboves.new result }
{
    if turn == 0 {
        return look_first(
            supers, groups, classes, cached, noted, heads, nexts, a, outs, ins, queue, aboves,
        );
    }
    if turn == 1 {
        return Span {
            from: 0,
            end: cached,
            who: Meets::Members,
        };
    }
    if noted == 0 || place(groups, a) != a {
        return Span {
            from: 0,
            end: 0,
            who: Meets::Everyone,
        };
    }
    look_ahead(
        supers,
        groups,
        classes,
        cached,
        noted,
        heads,
        nexts,
        a,
        (turn + 1) as u16,
        outs,
        queue,
        aboves,
    );
    Span {
        from: 0,
        end: cached,
        who: Meets::Followed,
    }
}
