// Notes, posted as subtype constraints as they come.
ghost use Rattle.std.specs.Prelude.{true, false, ◌≡◌, ◌<◌, IfSome};
ghost use Rattle.definition.specs.Lists.{rows, any};
ghost use Rattle.definition.specs.Loading.{subtype_is};
ghost use Rattle.definition.specs.Tables.{subtype_at};
ghost use Rattle.rows.specs.Posting.{note, noted, post_note, post_notes};
ghost use Rattle.verifier.specs.Answers.{made};

use crate::effects::Meeting;
use definition::numbers::ROW_CELLS;

// The verifier rejects. The notes that came before are posted already: so many rows the table of subtype constraints has with them. Past 256 there are
// too many.
#[derive(Clone, Copy)]
pub struct Rejected {
    pub count: u16,
}

// What posting a note answers: how many rows the table has with it, and the row behind it, at which the next is looked for first. The notes of flows into
// one map mostly come in the same order again.
#[derive(Clone, Copy)]
pub struct Posted {
    pub count: u16,
    pub near: u16,
}

// Row i, as a table of its own, has the note.
fn is_row(subtypes: &[u16], i: u16, loader: u8, low: u16, high: u16) -> bool
    ensures { result ≡ true → subtype_is loader (note low high) (subtype_at subtypes.now i) ≡ true }
{
    let start = usize::from(i) * ROW_CELLS;
    let end = start + ROW_CELLS;
    end <= subtypes.len() && rows::subtype_known(&subtypes[start..end], 1, loader, low, high)
}

// The number of the last row that has the note.
fn last_row(subtypes: &[u16], count: u16, loader: u8, low: u16, high: u16) -> Option<u16>
    ensures { IfSome result (λ i. (i < count) × (any (subtype_is loader (note low high)) (rows (subtype_at subtypes.now) count 0) ≡ true)) }
{
    for i in (0..count).rev() {
        if is_row(subtypes, i, loader, low, high) {
            return Some(i);
        }
    }
    None
}

// The same of any row that has it; row `near` is looked at first.
fn row_of_note(
    subtypes: &[u16],
    count: u16,
    near: u16,
    loader: u8,
    low: u16,
    high: u16,
) -> Option<u16>
    ensures { IfSome result (λ i. (i < count) × (any (subtype_is loader (note low high)) (rows (subtype_at subtypes.now) count 0) ≡ true)) }
{
    if near < count && is_row(subtypes, near, loader, low, high) {
        return Some(near);
    }
    last_row(subtypes, count, loader, low, high)
}

// Posts a note, unless it is there.
fn post_near(low: u16, high: u16, loader: u8, subtypes: &mut [u16], count: u16, near: u16) -> Posted
    ensures { noted subtypes.new result.count ≡ post_note loader (note low high) (noted subtypes.old count) }
{
    if let Some(row) = row_of_note(subtypes, count, near, loader, low, high) {
        return Posted {
            count,
            near: row + 1,
        };
    }
    let after = rows::post_note(subtypes, count, loader, low, high);
    Posted {
        count: after,
        near: after,
    }
}

// The note that a meeting makes in a flow into a map, if it makes one.
pub(crate) fn post_flow(
    m: Meeting,
    loader: u8,
    subtypes: &mut [u16],
    count: u16,
    near: u16,
) -> Posted
    ensures { noted subtypes.new result.count ≡ post_notes loader (made m) (noted subtypes.old count) }
{
    match m {
        Meeting::Unmet => Posted { count, near },
        Meeting::Met => Posted { count, near },
        Meeting::Noted(low, high) => post_near(low, high, loader, subtypes, count, near),
    }
}

// The note that a meeting makes, if it makes one. Answers the new count of rows.
pub(crate) fn post_meeting(m: Meeting, loader: u8, subtypes: &mut [u16], count: u16) -> u16
    ensures { noted subtypes.new result ≡ post_notes loader (made m) (noted subtypes.old count) }
{
    match m {
        Meeting::Unmet => count,
        Meeting::Met => count,
        Meeting::Noted(low, high) => rows::post_note(subtypes, count, loader, low, high),
    }
}
