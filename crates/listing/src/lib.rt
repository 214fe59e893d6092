// A row of constraints by its number, as the tries list them: what it says.
#![tactic(auto)]

ghost use Rattle.std.specs.Prelude.{◌≡◌, ℕ, ◌<◌, MatchOption};
ghost use Rattle.definition.specs.Numbers.{short_range};
ghost use Rattle.definition.specs.Lists.{rows};
ghost use Rattle.definition.specs.Tables.{tables, tie_at, subtype_at, number_at};
ghost use Rattle.definition.specs.Listing;
ghost use Rattle.definition.specs.Listing.{tie_row, subtype_row, row_numbered, stored_row};
ghost use Rattle.listing.specs.Answers.{listed_of, row_of, row_at, cells_row};

use cells::at;
use definition::Refusal;
use definition::numbers::{
    COUNT_SUBTYPES, COUNT_TIES, ROW_CELLS, SUBTYPE_NUMBERS_CELL, TIE_NUMBERS_CELL, WORD_BROKEN,
    WORD_UNKNOWN,
};

// What a row says: a tie, by its two loaders and the name, or a subtype constraint, by its loader, the lower name and the higher.
#[derive(Clone, Copy)]
pub enum Constraint {
    Tied(u16, u16, u16),
    Below(u16, u16, u16),
}

// Which of n rows has that number, where their numbers begin at cell `first`.
fn find_number(counts: &[u16], first: usize, n: u16, number: u32) -> Option<usize>
    requires { first < short_range }
    ensures found { (g : ℕ → Listing.Row) → row_numbered (rows g n 0) (rows (number_at first counts.now) n 0) number ≡ row_at g result }
    ensures within { MatchOption result (Unit {0}) (λ i. i < n) }
{
    for i in 0..usize::from(n) {
        if u32::from(at(counts, first + i)) == number {
            return Some(i);
        }
    }
    None
}

fn tied(ties: &[u16], i: usize) -> Constraint
    requires { i < short_range }
    ensures { row_of result ≡ tie_row (tie_at ties.now i) }
{
    let place = i * ROW_CELLS;
    Constraint::Tied(at(ties, place), at(ties, place + 1), at(ties, place + 2))
}

fn below(subtypes: &[u16], i: usize) -> Constraint
    requires { i < short_range }
    ensures { row_of result ≡ subtype_row (subtype_at subtypes.now i) }
{
    let place = i * ROW_CELLS;
    Constraint::Below(
        at(subtypes, place),
        at(subtypes, place + 1),
        at(subtypes, place + 2),
    )
}

// The row of that number of these tables, by their counts and the numbers behind those.
pub fn row_of_cells(
    counts: &[u16],
    ties: &[u16],
    subtypes: &[u16],
    number: u32,
) -> Result<Constraint, Refusal>
    ensures { listed_of result ≡ cells_row counts.now ties.now subtypes.now number }
{
    if let Some(i) = find_number(counts, TIE_NUMBERS_CELL, at(counts, COUNT_TIES), number) {
        return Ok(tied(ties, i));
    }
    let subtype_count = at(counts, COUNT_SUBTYPES);
    let Some(i) = find_number(counts, SUBTYPE_NUMBERS_CELL, subtype_count, number) else {
        return Err(Refusal::Word(WORD_UNKNOWN));
    };
    Ok(below(subtypes, i))
}

// A stored row. Refusals: 1 3
pub fn row(
    counts: &[u16],
    classes: &[u16],
    kept: &[u8],
    cache: &[u16],
    ties: &[u16],
    subtypes: &[u16],
    objects: &[u32],
    frames: &[u32],
    number: u32,
) -> Result<Constraint, Refusal>
    ensures { listed_of result ≡ stored_row number (tables counts.now classes.now kept.now cache.now ties.now subtypes.now objects.now frames.now) }
{
    if store::is_broken(
        counts, classes, kept, cache, ties, subtypes, objects, frames,
    ) {
        return Err(Refusal::Word(WORD_BROKEN));
    }
    row_of_cells(counts, ties, subtypes, number)
}
