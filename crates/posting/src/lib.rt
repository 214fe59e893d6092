// Ties posted between two loaders, by a step or for an override: which are new, how many, their rows, and that a refusal posts none.
#![tactic(auto)]

ghost use Rattle.std.specs.Prelude.{◌≡◌, ◌≢◌, [], ◌∷◌, ◌++◌, ◌+◌, ◌<◌, length};
ghost use Rattle.definition.specs.Lists.{any, rows, write_rows};
ghost use Rattle.definition.specs.Classes.{types_of};
ghost use Rattle.definition.specs.Constraints.{new_tie, new_ties};
ghost use Rattle.definition.specs.Tables.{tie, tie_at, put_tie};
ghost use Rattle.posting.specs.Postings.{to_post, Between, is_new, is_named, quietly};

use cells::arguments::{argument_at, argument_count};
use definition::Arguments;
use definition::numbers::NAME_INT;
use instructions::Plan;

// Ties between two loaders that a step posts, if it posts any: on each of those names in turn, and then on the last.
#[derive(Clone, Copy)]
pub struct Ties {
    pub one: u8,
    pub two: u8,
    pub names: Arguments,
    pub last: u16,
}

// Whether a tie on that name between two different loaders is new. Int posts none.
fn is_new(ties: &[u16], count: u16, one: u8, two: u8, name: u16) -> bool
    ensures { result ≡ is_new (rows (tie_at ties.now) count 0) one two name }
{
    name != NAME_INT && !rows::tie_known(ties, count, one, two, name)
}

// Whether the name is among those, or the last.
fn is_among(names: Arguments, last: u16, name: u16) -> bool
    ensures { result ≡ any (is_named name) (types_of names ++ (last ∷ [])) }
{
    for i in 0..argument_count(names) {
        if argument_at(names, i) == name {
            return true;
        }
    }
    last == name
}

// One name behind others; a fifth finds no room.
fn with_name(names: Arguments, name: u16) -> Arguments
    requires { length (types_of names) < 4 }
    ensures { types_of result ≡ types_of names ++ (name ∷ []) }
{
    match names {
        Arguments::NoArguments => Arguments::OneArgument(name),
        Arguments::OneArgument(a) => Arguments::TwoArguments(a, name),
        Arguments::TwoArguments(a, b) => Arguments::ThreeArguments(a, b, name),
        Arguments::ThreeArguments(a, b, c) => Arguments::FourArguments(a, b, c, name),
        Arguments::FourArguments(_, _, _, _) => names,
    }
}

// A tie on one name more, unless it is known or to be posted already.
fn add_name(
    ties: &[u16],
    count: u16,
    one: u8,
    two: u8,
    posting: Option<Ties>,
    name: u16,
) -> Option<Ties>
    requires { (one ≢ two) × Between one two posting × (length (to_post posting) < 5) }
    ensures { Between one two result × (to_post result ≡ to_post posting ++ new_tie (rows (tie_at ties.now) count 0 ++ to_post posting) one two name) }
{
    if !is_new(ties, count, one, two, name) {
        return posting;
    }
    let names = match posting {
        None => Arguments::NoArguments,
        Some(before) => {
            if is_among(before.names, before.last, name) {
                return posting;
            }
            with_name(before.names, before.last)
        }
    };
    Some(Ties {
        one,
        two,
        names,
        last: name,
    })
}

// The ties between two loaders on each of those names in turn, and then on the last, that are not known yet.
pub fn new_ties(
    ties: &[u16],
    count: u16,
    one: u8,
    two: u8,
    names: Arguments,
    last: u16,
) -> Option<Ties>
    ensures { to_post result ≡ new_ties (rows (tie_at ties.now) count 0) one two (types_of names ++ (last ∷ [])) }
{
    if one == two {
        return None;
    }
    let mut posting = None;
    for i in 0..argument_count(names) {
        posting = add_name(ties, count, one, two, posting, argument_at(names, i));
    }
    add_name(ties, count, one, two, posting, last)
}

// How many they are.
pub fn tie_number(posting: Option<Ties>) -> u16
    ensures { (result ≡ length (to_post posting)) × (result < 6) }
{
    match posting {
        None => 0,
        Some(new) => u16::from(argument_count(new.names)) + 1,
    }
}

// A tie written into row i.
fn write_tie(ties: &mut [u16], i: u32, one: u8, two: u8, name: u16)
    ensures { ties.new ≡ put_tie ties.old i (tie one two name) }
{
    cells::put_three(ties, i, u16::from(one), u16::from(two), name);
}

// Ties written from row n on; the last is written first.
fn write_names(ties: &mut [u16], n: u16, new: Ties)
    ensures { ties.new ≡ write_rows put_tie (to_post (Some new)) n ties.old }
{
    let count = argument_count(new.names);
    write_tie(
        ties,
        u32::from(n) + u32::from(count),
        new.one,
        new.two,
        new.last,
    );
    for i in (0..count).rev() {
        write_tie(
            ties,
            u32::from(n) + u32::from(i),
            new.one,
            new.two,
            argument_at(new.names, i),
        );
    }
}

// What is posted, written from row n on.
pub fn write_ties(ties: &mut [u16], n: u16, posting: Option<Ties>)
    ensures { ties.new ≡ write_rows put_tie (to_post posting) n ties.old }
{
    if let Some(new) = posting {
        write_names(ties, n, new);
    }
}

// Ties between two loaders on each of those names in turn, and then on the last, written behind the first rows of a table: those that are not known yet.
// Answers how many rows there then are.
pub fn post(ties: &mut [u16], count: u16, one: u8, two: u8, names: Arguments, last: u16) -> u32
    ensures counted { result ≡ count + length (new_ties (rows (tie_at ties.old) count 0) one two (types_of names ++ (last ∷ []))) }
    ensures written { ties.new ≡ write_rows put_tie (new_ties (rows (tie_at ties.old) count 0) one two (types_of names ++ (last ∷ []))) count ties.old }
{
    let posting = new_ties(ties, count, one, two, names, last);
    write_ties(ties, count, posting);
    u32::from(count) + u32::from(tie_number(posting))
}

// What is posted with a plan: nothing with a refusal.
pub fn quiet(posting: Option<Ties>, plan: Plan) -> Option<Ties>
    ensures { result ≡ quietly posting plan }
{
    match plan {
        Plan::Refuse(_) => None,
        _ => posting,
    }
}
