// Posting ties and subtype constraints.
ghost use Rattle.std.specs.Prelude.{◌≡◌, ◌+◌, ◌<◌, length, [], ◌∷◌};
ghost use Rattle.definition.specs.Numbers.{short_range};
ghost use Rattle.definition.specs.Lists.{rows, any};
ghost use Rattle.definition.specs.Constraints.{tie_is};
ghost use Rattle.definition.specs.Loading.{subtype_is};
ghost use Rattle.definition.specs.Tables.{tie_at, subtype_at};
ghost use Rattle.rows.specs.Posting.{new_subtypes_in, note, subtypes_after, noted, post_note};

use cells::{at, put_three};
use definition::numbers::{ROW_CELLS, SUBTYPE_LIMIT};

// Row i is a tie of two loaders, in either order, on a name.
fn tie_is(ties: &[u16], i: usize, one: u8, two: u8, name: u16) -> bool
    requires { i < short_range }
    ensures { result ≡ tie_is one two name (tie_at ties.now i) }
{
    let first = at(ties, i * ROW_CELLS);
    let second = at(ties, i * ROW_CELLS + 1);
    let near = u16::from(one);
    let far = u16::from(two);
    at(ties, i * ROW_CELLS + 2) == name
        && (first == near && second == far || first == far && second == near)
}

// A tie is among the first rows.
pub fn tie_known(ties: &[u16], count: u16, one: u8, two: u8, name: u16) -> bool
    ensures { result ≡ any (tie_is one two name) (rows (tie_at ties.now) count 0) }
{
    for i in 0..usize::from(count) {
        if tie_is(ties, i, one, two, name) {
            return true;
        }
    }
    false
}

// Row i is a loader's subtype constraint on two names.
fn subtype_is(subtypes: &[u16], i: usize, loader: u8, low: u16, high: u16) -> bool
    requires { i < short_range }
    ensures { result ≡ subtype_is loader (note low high) (subtype_at subtypes.now i) }
{
    let row = i * ROW_CELLS;
    let first = at(subtypes, row + 1);
    let second = at(subtypes, row + 2);
    first == low && second == high && at(subtypes, row) == u16::from(loader)
}

// A subtype constraint is among the first rows. The last are looked at first: a file's notes repeat those that it posted a moment ago.
pub fn subtype_known(subtypes: &[u16], count: u16, loader: u8, low: u16, high: u16) -> bool
    ensures { result ≡ any (subtype_is loader (note low high)) (rows (subtype_at subtypes.now) count 0) }
{
    for i in (0..usize::from(count)).rev() {
        if subtype_is(subtypes, i, loader, low, high) {
            return true;
        }
    }
    false
}

// Adds a subtype constraint behind the first rows, unless it is there. Answers the new count.
fn add_subtype(subtypes: &mut [u16], count: u16, loader: u8, low: u16, high: u16) -> u32
    ensures value { result ≡ count + length (new_subtypes_in subtypes.old count loader (note low high ∷ [])) }
    ensures subtypes_after { subtypes.new ≡ subtypes_after subtypes.old count (new_subtypes_in subtypes.old count loader (note low high ∷ [])) }
{
    let rows = u32::from(count);
    if subtype_known(subtypes, count, loader, low, high) {
        return rows;
    }
    put_three(subtypes, rows, u16::from(loader), low, high);
    rows + 1
}

// Posts a note of the verifier as a subtype constraint of a loader, unless it is there. Answers the new count of rows: past 256 there are too many,
// and nothing more is posted.
pub fn post_note(subtypes: &mut [u16], count: u16, loader: u8, low: u16, high: u16) -> u16
    ensures { noted subtypes.new result ≡ post_note loader (note low high) (noted subtypes.old count) }
{
    if SUBTYPE_LIMIT < count {
        return count;
    }
    add_subtype(subtypes, count, loader, low, high) as u16
}
