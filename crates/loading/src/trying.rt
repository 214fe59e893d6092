// A newcomer tried on copies: whether the store with it agrees, and why not.
ghost use Rattle.std.specs.Prelude.{◌≡◌, ◌&&◌, eqb};
ghost use Rattle.definition.specs.Calls.{Load};
ghost use Rattle.constraints.specs.Laws.{Beside};
ghost use Rattle.loading.specs.Plans.{Sized, NewTried, Judged, Agrees, Decides, Explains, Ready, Offers, Grouping};

use crate::carrying::{reply_of, write_counts};
use crate::loads::{Newcomer, Plan};
use cells::at;
use definition::numbers::{
    CACHE_LENGTH, CLASS_LIMIT, COUNT_CACHE, COUNT_CLASSES, COUNT_KEPT, COUNTS_LENGTH, OWNERS_CELL,
    WORD_CLASH,
};
use definition::{Refusal, Reply, Trial};
use resolution::Base;

// The store with a newcomer, on copies: its counts and its cache, and the direct superclasses.
fn try_newcomer(base: &Base, n: Newcomer, counted: &mut [u16], trial: &mut [u16], supers: &mut [u8])
    ensures { NewTried base.now.counts.now base.now.classes.now base.now.kept.now base.now.cache.now n counted.old trial.old supers.old counted.new trial.new supers.new }
{
    entries::try_entry(
        base,
        u16::from(n.loader),
        n.name,
        n.class,
        counted,
        trial,
        supers,
    );
    if n.above != 0 {
        cells::put(supers, usize::from(n.class), n.above);
    }
}

// Whether the store with the newcomer agrees, where these tables of constraints hold its own, with the groups beside the ties: it is built on the copies and looked
// at. Of the counts as many are copied as there is room for.
fn judge(
    base: &Base,
    ties: &[u16],
    beside: &[u16],
    subtypes: &[u16],
    n: Newcomer,
    counted: &mut [u16],
    trial: &mut [u16],
    supers: &mut [u8],
) -> bool
    ensures tried { NewTried base.now.counts.now base.now.classes.now base.now.kept.now base.now.cache.now n counted.old trial.old supers.old counted.new trial.new supers.new }
    ensures judged { Judged base.now.counts.now base.now.classes.now base.now.kept.now base.now.cache.now ties.now beside.now subtypes.now n counted.old trial.old supers.old result }
{
    try_newcomer(base, n, counted, trial, supers);
    constraints::agreed(constraints::check(
        supers,
        trial,
        at(counted, COUNT_CACHE),
        ties,
        n.tied,
        beside,
        subtypes,
        n.noted,
        at(base.counts, COUNT_CACHE),
    ))
}

// The store with the newcomer has no constraint.
fn is_free(n: Newcomer) -> bool
    ensures { result ≡ (eqb n.tied 0 && eqb n.noted 0) }
{
    n.tied == 0 && n.noted == 0
}

// Whether the store with the newcomer agrees: without constraints it does, and nothing is copied. Of the counts those before the owners are copied.
fn is_agreed(base: &Base, ties: &[u16], beside: &[u16], subtypes: &[u16], n: Newcomer) -> bool
    ensures { Agrees base.now.counts.now base.now.classes.now base.now.kept.now base.now.cache.now ties.now beside.now subtypes.now n result }
{
    if is_free(n) {
        return true;
    }
    let mut counted = [0u16; OWNERS_CELL];
    let mut trial = [0u16; CACHE_LENGTH];
    let mut supers = [0u8; CLASS_LIMIT as usize];
    judge(
        base,
        ties,
        beside,
        subtypes,
        n,
        &mut counted,
        &mut trial,
        &mut supers,
    )
}

// What an admitted load comes to: a newcomer is added if the store with it agrees.
pub(crate) fn decide(
    base: &Base,
    ties: &[u16],
    beside: &[u16],
    subtypes: &[u16],
    plan: Plan,
) -> Plan
    ensures { Grouping plan ties.now beside.now → (c : Load) → Decides c base.now.counts.now base.now.classes.now base.now.kept.now base.now.cache.now ties.now subtypes.now plan result }
{
    match plan {
        Err(_) => plan,
        Ok(planned) => match planned {
            None => plan,
            Some(n) => {
                if is_agreed(base, ties, beside, subtypes, n) {
                    return plan;
                }
                Err(Refusal::Word(WORD_CLASH))
            }
        },
    }
}

// What the try of an admitted newcomer answers: what the load would, and on a clash why, by the numbers of a chain's rows, written into the list, and how many.
// The newcomer's own rows are numbered on behind the stored ones.
fn explain(
    base: &Base,
    ties: &[u16],
    beside: &[u16],
    subtypes: &[u16],
    n: Newcomer,
    list: &mut [u16],
) -> Trial
    requires { Sized base.now.counts.now base.now.classes.now base.now.kept.now base.now.cache.now n }
    ensures { Beside ties.now beside.now n.tied → (c : Load) → Explains c base.now.counts.now base.now.classes.now base.now.kept.now base.now.cache.now ties.now subtypes.now n list.old result.reply result.count list.new }
{
    let mut counted = [0u16; COUNTS_LENGTH];
    let mut trial = [0u16; CACHE_LENGTH];
    let mut supers = [0u8; CLASS_LIMIT as usize];
    if judge(
        base,
        ties,
        beside,
        subtypes,
        n,
        &mut counted,
        &mut trial,
        &mut supers,
    ) {
        return entries::unlisted(reply_of(n));
    }
    let class = at(&counted, COUNT_CLASSES);
    let end = at(&counted, COUNT_KEPT);
    let entries = at(&counted, COUNT_CACHE);
    write_counts(&mut counted, &[class, end, entries, n.tied, n.noted]);
    let count = constraints::reason(&supers, &counted, &trial, ties, subtypes, list);
    Trial {
        reply: Reply::Denied(Refusal::Word(WORD_CLASH)),
        count,
    }
}

// What the try of a load answers that was admitted or refused. A list is written on a clash alone.
pub(crate) fn offer(
    base: &Base,
    ties: &[u16],
    beside: &[u16],
    subtypes: &[u16],
    plan: Plan,
    list: &mut [u16],
) -> Trial
    requires { Ready base.now.counts.now base.now.classes.now base.now.kept.now base.now.cache.now plan }
    ensures { Grouping plan ties.now beside.now → (c : Load) → Offers c base.now.counts.now base.now.classes.now base.now.kept.now base.now.cache.now ties.now subtypes.now plan list.old result.reply result.count list.new }
{
    match plan {
        Err(r) => entries::unlisted(Reply::Denied(r)),
        Ok(planned) => match planned {
            None => entries::unlisted(Reply::Accepted),
            Some(n) => explain(base, ties, beside, subtypes, n, list),
        },
    }
}
