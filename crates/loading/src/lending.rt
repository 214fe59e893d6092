// Groups lent to the test of agreement: a define's are made of the ties with its own, a record's are read from beside the stored ones.
ghost use Rattle.std.specs.Prelude.{◌≡◌, true, List, ℕ, length, drop};
ghost use Rattle.definition.specs.Numbers.{groups_cell, tie_limit};
ghost use Rattle.definition.specs.Calls.{load_define, load_record};
ghost use Rattle.loading.specs.Plans.{Decides, Ready, Offers, PostsNone, Made};

use crate::loads::Plan;
use crate::trying::{decide, offer};
use definition::Trial;
use definition::numbers::{COUNT_TIES, GROUPS_CELL, TIE_LIMIT};
use resolution::Base;

// The groups of a newcomer's ties.
fn group_ties(ties: &[u16], plan: Plan, groups: &mut [u16])
    requires { length groups.old ≡ tie_limit }
    ensures { Made plan ties.now groups.new }
{
    match plan {
        Err(_) => {}
        Ok(planned) => match planned {
            None => {}
            Some(n) => {
                groups::group_rows(ties, n.tied, groups);
            }
        },
    }
}

// The groups beside the stored ties.
fn stored_groups(counts: &[u16]) -> &[u16]
    ensures { result.now ≡ drop groups_cell counts.now }
{
    &counts[GROUPS_CELL.min(counts.len())..]
}

// No tie is posted.
fn posts_none(counts: &[u16], plan: Plan) -> bool
    ensures { result ≡ true → PostsNone plan counts.now }
{
    match plan {
        Err(_) => true,
        Ok(planned) => match planned {
            None => true,
            Some(n) => n.tied == cells::at(counts, COUNT_TIES),
        },
    }
}

// What an admitted define comes to. Where it posts no tie, the groups of its ties are the stored ones.
pub(crate) fn decide_class(base: &Base, ties: &[u16], subtypes: &[u16], plan: Plan) -> Plan
    ensures { (l : ℕ) (bs : List ℕ) → Decides (load_define l bs) base.now.counts.now base.now.classes.now base.now.kept.now base.now.cache.now ties.now subtypes.now plan result }
{
    if posts_none(base.counts, plan) {
        return decide(base, ties, stored_groups(base.counts), subtypes, plan);
    }
    let mut groups = [0u16; TIE_LIMIT as usize];
    group_ties(ties, plan, &mut groups);
    decide(base, ties, &groups, subtypes, plan)
}

// What an admitted record comes to.
pub(crate) fn decide_entry(base: &Base, ties: &[u16], subtypes: &[u16], plan: Plan) -> Plan
    ensures { (l m k : ℕ) → Decides (load_record l m k) base.now.counts.now base.now.classes.now base.now.kept.now base.now.cache.now ties.now subtypes.now plan result }
{
    decide(base, ties, stored_groups(base.counts), subtypes, plan)
}

// What the try of a define answers.
pub(crate) fn offer_class(
    base: &Base,
    ties: &[u16],
    subtypes: &[u16],
    plan: Plan,
    list: &mut [u16],
) -> Trial
    requires { Ready base.now.counts.now base.now.classes.now base.now.kept.now base.now.cache.now plan }
    ensures { (l : ℕ) (bs : List ℕ) → Offers (load_define l bs) base.now.counts.now base.now.classes.now base.now.kept.now base.now.cache.now ties.now subtypes.now plan list.old result.reply result.count list.new }
{
    let mut groups = [0u16; TIE_LIMIT as usize];
    group_ties(ties, plan, &mut groups);
    offer(base, ties, &groups, subtypes, plan, list)
}

// What the try of a record answers.
pub(crate) fn offer_entry(
    base: &Base,
    ties: &[u16],
    subtypes: &[u16],
    plan: Plan,
    list: &mut [u16],
) -> Trial
    requires { Ready base.now.counts.now base.now.classes.now base.now.kept.now base.now.cache.now plan }
    ensures { (l m k : ℕ) → Offers (load_record l m k) base.now.counts.now base.now.classes.now base.now.kept.now base.now.cache.now ties.now subtypes.now plan list.old result.reply result.count list.new }
{
    offer(base, ties, stored_groups(base.counts), subtypes, plan, list)
}
