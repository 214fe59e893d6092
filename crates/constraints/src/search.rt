// A search over groups. Link e leads from the group at place `from` + e to the group at place `to` + e.
ghost use Rattle.std.specs.Prelude.{◌≡◌, ℕ, ◌+◌, ◌-◌, ◌<◌, ◌≤◌, length};
ghost use Rattle.constraints.specs.Nodes.{place_limit};
ghost use Rattle.constraints.specs.Joining.{Joined};
ghost use Rattle.constraints.specs.Search.{start_of, Stamped, Queued, Visited, Expanded, Searched};

use crate::joining::place;

// Marks a group with the stamp and, if it is not below `stop`, queues it, if it isn't marked yet. Answers how many are queued.
fn visit(
    group: usize,
    stop: usize,
    stamp: u16,
    marks: &mut [u16],
    queue: &mut [u16],
    tail: usize,
) -> usize
    requires { (group < place_limit) × (0 < stamp) × Queued stop stamp marks.old queue.old tail }
    ensures { Visited stop stamp group marks.old queue.old tail marks.new queue.new result }
{
    if marks[group] == stamp {
        return tail;
    }
    marks[group] = stamp;
    if group < stop {
        return tail;
    }
    queue[tail] = group as u16;
    tail + 1
}

// Visits the end of each link that starts at a group.
fn expand(
    groups: &[u16],
    stop: usize,
    from: usize,
    to: usize,
    noted: usize,
    heads: &[u16],
    nexts: &[u16],
    group: usize,
    stamp: u16,
    marks: &mut [u16],
    queue: &mut [u16],
    tail: usize,
) -> usize
    requires { (group < place_limit) × (from + noted ≤ place_limit) × (to + noted ≤ place_limit) × (0 < stamp) × ((e : ℕ) → e < noted → start_of groups.now to e < place_limit) × Joined (start_of groups.now from) noted heads.now nexts.now × Queued stop stamp marks.old queue.old tail }
    ensures { Expanded groups.now stop from to noted stamp group marks.old queue.old tail marks.new queue.new result }
{
    let mut queued = tail;
    let mut follow = usize::from(heads[group]);
    while 0 < follow {
        let e = follow - 1;
        let end = place(groups, to + e);
        queued = visit(end, stop, stamp, marks, queue, queued);
        follow = usize::from(nexts[e]);
    }
    queued
}

// Marks with the stamp what a group leads to, as far as the next groups below `stop`.
pub(crate) fn search(
    groups: &[u16],
    stop: usize,
    from: usize,
    to: usize,
    noted: usize,
    heads: &[u16],
    nexts: &[u16],
    a: usize,
    stamp: u16,
    marks: &mut [u16],
    queue: &mut [u16],
)
    requires { (a < place_limit) × (from + noted ≤ place_limit) × (to + noted ≤ place_limit) × (0 < stamp) × ((e : ℕ) → e < noted → start_of groups.now to e < place_limit) × Joined (start_of groups.now from) noted heads.now nexts.now × Stamped place_limit (stamp - 1) marks.old × (length queue.old ≡ place_limit) }
    ensures { Searched groups.now stop from to noted stamp a marks.new }
{
    let mut tail = expand(
        groups, stop, from, to, noted, heads, nexts, a, stamp, marks, queue, 0,
    );
    let mut done = 0;
    // The queue grows while it is gone through.
    while done < tail {
        let group = usize::from(queue[done]);
        tail = expand(
            groups, stop, from, to, noted, heads, nexts, group, stamp, marks, queue, tail,
        );
        done += 1;
    }
}
