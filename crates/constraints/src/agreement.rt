// The test of agreement: a pair of requests that breaks it.
ghost use Rattle.std.specs.Prelude.{◌≡◌, ◌+◌, ◌<◌, ◌≤◌, length, IfSome};
ghost use Rattle.definition.specs.Numbers.{cache_limit, subtype_limit};
ghost use Rattle.definition.specs.Checks.{NamesOver, agreed};
ghost use Rattle.constraints.specs.Agreement.{super_in, entries_in, shared_in, led_in, new_in, told_of};
ghost use Rattle.constraints.specs.Nodes.{place_limit};
ghost use Rattle.constraints.specs.Groups.{Rooted};
ghost use Rattle.constraints.specs.Looking.{Links, Tables};
ghost use Rattle.constraints.specs.Pairs.{Followed, Finding};

use crate::grouping::group_places;
use crate::joining::join;
use crate::looking::{beside, first_turn, look, next_turn, request_at};
use crate::numbering::{PLACE_LIMIT, at_most, list_classes, number_nodes, number_places};
use crate::pairs::{Pair, next_met, pair_at};
use cells::at;
use definition::Check;
use definition::numbers::{BYTE_RANGE, CACHE_LIMIT, ROW_CELLS};

// A pair of cached requests that breaks agreement, if there is one, and one with the newcomer if there is one of those. The newcomer is looked at first,
// beside all that chains out of it and into it reach; then tied requests; then each other request in turn beside what it leads to. The first pair that breaks agreement ends
// the search.
fn find_pair(
    supers: &[u8],
    groups: &[u16],
    classes: &[u16],
    cached: usize,
    noted: usize,
    heads: &[u16],
    nexts: &[u16],
    newcomer: usize,
    outs: &mut [u16],
    ins: &mut [u16],
    queue: &mut [u16],
    aboves: &mut [u16],
) -> Option<Pair>
    requires { (cached ≤ cache_limit) × (noted ≤ subtype_limit) × Rooted groups.now (cached + noted + noted) × Links groups.now cached noted heads.now nexts.now × Tables noted 0 outs.old ins.old queue.old aboves.old }
    ensures { Finding (super_in supers.now) groups.now classes.now cached noted newcomer result }
{
    let mut found = None;
    let mut turn = first_turn(cached, newcomer);
    'pairs: while turn <= cached + 1 {
        let a = request_at(turn, newcomer);
        let stamp = (turn + 1) as u16;
        let span = look(
            supers, groups, classes, cached, noted, heads, nexts, turn, a, outs, ins, queue, aboves,
        );
        let mut next = next_met(groups, outs, stamp, span.who, span.from, span.end);
        while let Some(b) = next {
            let lead = beside(turn, groups, a, b);
            let pair = pair_at(supers, groups, classes, outs, ins, aboves, stamp, lead, b);
            if pair.is_some() {
                found = pair;
                break 'pairs;
            }
            next = next_met(groups, outs, stamp, span.who, b + 1, span.end);
        }
        turn = next_turn(heads, cached, noted, turn);
    }
    found
}

// The same, where the links aren't joined yet. Without subtype constraints there are none, and no tables for them. What the tables `nexts` and `queue` hold before
// and after is of no matter.
fn find_break(
    supers: &[u8],
    groups: &[u16],
    classes: &[u16],
    cached: usize,
    noted: usize,
    newcomer: usize,
    nexts: &mut [u16],
    queue: &mut [u16],
) -> Option<Pair>
    requires { (cached ≤ cache_limit) × (noted ≤ subtype_limit) × Rooted groups.now (cached + noted + noted) × (length nexts.old ≡ place_limit) × (length queue.old ≡ place_limit) }
    ensures { Finding (super_in supers.now) groups.now classes.now cached noted newcomer result }
{
    if noted == 0 {
        return find_pair(
            supers,
            groups,
            classes,
            cached,
            noted,
            &[],
            &[],
            newcomer,
            &mut [],
            &mut [],
            queue,
            &mut [],
        );
    }
    let mut heads = [0u16; PLACE_LIMIT];
    join(groups, cached, noted, &mut heads, nexts);
    let mut outs = [0u16; PLACE_LIMIT];
    let mut ins = [0u16; PLACE_LIMIT];
    let mut aboves = [0u16; BYTE_RANGE as usize];
    find_pair(
        supers,
        groups,
        classes,
        cached,
        noted,
        &heads,
        nexts,
        newcomer,
        &mut outs,
        &mut ins,
        queue,
        &mut aboves,
    )
}

// What was found of two places of the cache, as requests.
fn tell(cache: &[u16], found: Option<Pair>) -> Check
    requires { IfSome found (λ p. (p.from < cache_limit) × (p.to < cache_limit)) }
    ensures { result ≡ told_of cache.now found }
{
    let Some(pair) = found else {
        return Check::Agreed;
    };
    let one = pair.from * ROW_CELLS;
    let two = pair.to * ROW_CELLS;
    Check::Breaking(
        at(cache, one),
        at(cache, one + 1),
        at(cache, two),
        at(cache, two + 1),
    )
}

// No pair was named.
pub fn agreed(check: Check) -> bool
    ensures { result ≡ agreed check }
{
    matches!(check, Check::Agreed)
}

// The check of agreement of the store of these tables: cached requests of one group mean one class, and where one leads to another, its class is the other's or
// below. Which requests are tied is read from the groups beside the ties, whatever they are. The newcomer is a row of the cache, or none where it isn't one. A store without
// constraints is judged at once.
pub fn check(
    supers: &[u8],
    cache: &[u16],
    entries: u16,
    ties: &[u16],
    tie_count: u16,
    beside: &[u16],
    subtypes: &[u16],
    subtype_count: u16,
    newcomer: u16,
) -> Check
    ensures { NamesOver (super_in supers.now) (entries_in cache.now entries) (shared_in ties.now beside.now tie_count) (led_in ties.now beside.now tie_count subtypes.now subtype_count) (new_in cache.now entries newcomer) result }
{
    let cached = at_most(entries);
    let tied = at_most(tie_count);
    let noted = at_most(subtype_count);
    if tied + noted == 0 {
        return Check::Agreed;
    }
    let ones = cached + noted + noted;
    let mut numbers = [0u32; PLACE_LIMIT];
    number_places(cache, cached, ties, tied, subtypes, noted, &mut numbers);
    let mut nodes = [0u16; PLACE_LIMIT];
    let mut nexts = [0u16; PLACE_LIMIT];
    number_nodes(&numbers, ones + tied + tied, &mut nodes, &mut nexts);
    let mut classes = [0u16; CACHE_LIMIT as usize];
    list_classes(cache, &nodes, cached, &mut classes);
    let mut groups = [0u16; PLACE_LIMIT];
    group_places(
        &nodes,
        ones,
        tied,
        beside,
        &mut numbers,
        &mut groups,
        &mut nexts,
    );
    tell(
        cache,
        find_break(
            supers,
            &groups,
            &classes,
            cached,
            noted,
            usize::from(newcomer),
            &mut nexts,
            &mut nodes,
        ),
    )
}
