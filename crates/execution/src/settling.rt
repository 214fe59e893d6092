// A plan settled with the ties that it posts: first no room and clashes are refused, and a refusal posts nothing.
ghost use Rattle.std.specs.Prelude.{◌≡◌, [], ◌∷◌, ◌++◌, ◌+◌, ◌<◌, ◌≤◌, length, get_or};
ghost use Rattle.definition.specs.Numbers.{tie_limit, count_ties, loader_limit, ties_length};
ghost use Rattle.definition.specs.Lists.{rows};
ghost use Rattle.definition.specs.Tables.{tables, tie_at};
ghost use Rattle.definition.specs.Classes.{types_of};
ghost use Rattle.definition.specs.Constraints.{posted};
ghost use Rattle.definition.specs.Checks.{Names};
ghost use Rattle.std.proofs.Math.Option.{none};
ghost use Rattle.layout.specs.Tests.{All};
ghost use Rattle.layout.specs.Whole.{Between};
ghost use Rattle.layout.specs.Unbroken.{Counts};
ghost use Rattle.resolution.specs.Quick.{quick_base};
ghost use Rattle.access.specs.Accesses.{world_in, ties_on};
ghost use Rattle.posting.specs.Postings.{to_post, quietly};
ghost use Rattle.execution.specs.Decisions.{Settled, Narrow, AccessSettled};

use access::Access;
use definition::numbers::{
    CLASS_LIMIT, COUNT_CACHE, COUNT_SUBTYPES, COUNT_TIES, TIE_LIMIT, TIES_LENGTH, WORD_CLASH,
    WORD_FULL,
};
use definition::{Arguments, Check, Refusal};
use instructions::Plan;
use posting::Ties;
use resolution::Base;

// The check of the store with ties that are to be posted, tried on a copy of the ties, with the groups that they make. There is no newcomer: the row behind the last
// isn't one.
fn check_ties(base: &Base, ties: &[u16], subtypes: &[u16], posting: Option<Ties>) -> Check
    requires { Counts base.now.counts.now × (length ties.now ≡ ties_length) × (get_or base.now.counts.now count_ties 0 + length (to_post posting) ≤ tie_limit) × All Between (rows (tie_at ties.now) (get_or base.now.counts.now count_ties 0) 0) × All Between (to_post posting) }
    ensures { Names (posted (world_in (quick_base base.now.counts.now base.now.classes.now base.now.kept.now base.now.cache.now) (tables base.now.counts.now base.now.classes.now base.now.kept.now base.now.cache.now ties.now subtypes.now [] [])) (to_post posting)) none result }
{
    let n = cells::at(base.counts, COUNT_TIES);
    let mut tried = [0u16; TIES_LENGTH];
    tried.copy_from_slice(ties);
    posting::write_ties(&mut tried, n, posting);
    let count = n + posting::tie_number(posting);
    let mut groups = [0u16; TIE_LIMIT as usize];
    groups::group_rows(&tried, count, &mut groups);
    let mut supers = [0u8; CLASS_LIMIT as usize];
    base.fill_supers(&mut supers);
    constraints::check(
        &supers,
        base.cache,
        cells::at(base.counts, COUNT_CACHE),
        &tried,
        count,
        &groups,
        subtypes,
        cells::at(base.counts, COUNT_SUBTYPES),
        cells::at(base.counts, COUNT_CACHE),
    )
}

// What a step decides: the ties that it posts, and the plan that it then carries out.
#[derive(Clone, Copy)]
pub struct Decision {
    pub posting: Option<Ties>,
    pub plan: Plan,
}

fn refused(word: u8) -> Decision
    ensures { (result.posting ≡ None) × (result.plan ≡ Plan.Refuse (Refusal.Word word)) }
{
    Decision {
        posting: None,
        plan: instructions::refuse(word),
    }
}

fn decided(posting: Option<Ties>, plan: Plan) -> Decision
    ensures { (result.posting ≡ quietly posting plan) × (result.plan ≡ plan) }
{
    Decision {
        posting: posting::quiet(posting, plan),
        plan,
    }
}

// A plan with its ties between two loaders on each of those names in turn and then on the last, or the refusal that comes before it: no room, or a clash.
fn settle(
    base: &Base,
    ties: &[u16],
    subtypes: &[u16],
    room: bool,
    one: u8,
    two: u8,
    names: Arguments,
    last: u16,
    plan: Plan,
) -> Decision
    requires { Counts base.now.counts.now × (length ties.now ≡ ties_length) × All Between (rows (tie_at ties.now) (get_or base.now.counts.now count_ties 0) 0) × (one < loader_limit) × (two < loader_limit) }
    ensures { Settled base.now.counts.now base.now.classes.now base.now.kept.now base.now.cache.now ties.now subtypes.now room (ties_on (rows (tie_at ties.now) (get_or base.now.counts.now count_ties 0) 0) one two (types_of names ++ (last ∷ []))) plan result.posting result.plan }
{
    if !room {
        return refused(WORD_FULL);
    }
    if one == two {
        return decided(None, plan);
    }
    let n = cells::at(base.counts, COUNT_TIES);
    let posting = posting::new_ties(ties, n, one, two, names, last);
    let k = posting::tie_number(posting);
    if k == 0 {
        return decided(posting, plan);
    }
    if TIE_LIMIT < n + k {
        return refused(WORD_FULL);
    }
    if !constraints::agreed(check_ties(base, ties, subtypes, posting)) {
        return refused(WORD_CLASH);
    }
    decided(posting, plan)
}

// A plan that posts nothing.
pub(crate) fn plain(plan: Plan) -> Decision
    ensures { (result.posting ≡ None) × (result.plan ≡ plan) }
{
    Decision {
        posting: None,
        plan,
    }
}

// What is missing is refused; what was found is settled with its ties.
pub(crate) fn settle_access(
    base: &Base,
    ties: &[u16],
    subtypes: &[u16],
    room: bool,
    loader: u8,
    names: Arguments,
    last: u16,
    found: Result<Access, Refusal>,
) -> Decision
    requires { Counts base.now.counts.now × (length ties.now ≡ ties_length) × All Between (rows (tie_at ties.now) (get_or base.now.counts.now count_ties 0) 0) × (loader < loader_limit) × Narrow found }
    ensures { AccessSettled base.now.counts.now base.now.classes.now base.now.kept.now base.now.cache.now ties.now subtypes.now room loader (types_of names ++ (last ∷ [])) found result.posting result.plan }
{
    match found {
        Err(refusal) => plain(Plan::Refuse(refusal)),
        Ok(access) => settle(
            base,
            ties,
            subtypes,
            room,
            access.loader as u8,
            loader,
            names,
            last,
            access.plan,
        ),
    }
}
