// The one place where a load writes: a new class, its constraints, the entry, the counts, the numbers of posted rows, and groups.
ghost use Rattle.std.specs.Prelude.{◌≡◌, ◌≤◌, length, get_or, set};
ghost use Rattle.definition.specs.Numbers.{class_limit, cache_limit, file_limit, count_classes, count_kept, count_cache, count_ties, count_subtypes};
ghost use Rattle.definition.specs.Lists.{write_rows};
ghost use Rattle.definition.specs.Tables.{put_three};
ghost use Rattle.loading.specs.Writing.{numbers_on, Grown};
ghost use Rattle.loading.specs.Plans.{new_reply, counts_with, grouped_with};

use crate::loads::Newcomer;
use definition::Reply;
use definition::numbers::{
    COUNT_CACHE, COUNT_CLASSES, COUNT_KEPT, COUNT_SUBTYPES, COUNT_TIES, SUBTYPE_NUMBERS_CELL,
    TIE_NUMBERS_CELL,
};

// Where the numbers of each table begin, in 16 bits.
const TIE_NUMBERS: u16 = TIE_NUMBERS_CELL as u16;

const SUBTYPE_NUMBERS: u16 = SUBTYPE_NUMBERS_CELL as u16;

// The counts are written, and the rows that they add to ties and subtype constraints numbered.
pub(crate) fn write_counts(counts: &mut [u16], new: &[u16])
    requires { Grown counts.old (get_or new.now count_ties 0) (get_or new.now count_subtypes 0) }
    ensures { counts.new ≡ numbers_on counts.old (get_or new.now count_ties 0) (get_or new.now count_subtypes 0) (write_rows set new.now 0 counts.old) }
{
    let ties = cells::at(counts, COUNT_TIES);
    let subtypes = cells::at(counts, COUNT_SUBTYPES);
    let tied = cells::at(new, COUNT_TIES);
    let noted = cells::at(new, COUNT_SUBTYPES);
    entries::write_cells(counts, 0, new);
    store::number_rows(
        counts,
        SUBTYPE_NUMBERS,
        subtypes,
        ties + subtypes,
        noted - subtypes,
    );
    store::number_rows(counts, TIE_NUMBERS, ties, ties + noted, tied - ties);
}

// A newcomer's row of the cache, the load remembered, the five counts of what loads add, with so many classes and kept bytes, and the numbers of the rows that it posted.
pub(crate) fn enter(counts: &mut [u16], cache: &mut [u16], n: Newcomer, classes: u16, kept: u16)
    requires { (get_or counts.old count_cache 0 ≤ cache_limit) × Grown counts.old n.tied n.noted }
    ensures counted { counts.new ≡ counts_with n classes kept counts.old }
    ensures written { cache.new ≡ put_three cache.old (get_or counts.old count_cache 0) n.loader n.name n.class }
{
    let row = cells::at(counts, COUNT_CACHE);
    cells::put_three(cache, u32::from(row), u16::from(n.loader), n.name, n.class);
    entries::remember(counts);
    write_counts(counts, &[classes, kept, row + 1, n.tied, n.noted]);
}

// The same of a new class, whose ties stand in their table already: where it posted some, groups are made anew.
pub(crate) fn enter_class(
    counts: &mut [u16],
    cache: &mut [u16],
    ties: &[u16],
    n: Newcomer,
    classes: u16,
    kept: u16,
)
    requires { (get_or counts.old count_cache 0 ≤ cache_limit) × Grown counts.old n.tied n.noted }
    ensures counted { counts.new ≡ grouped_with n counts.old ties.now (counts_with n classes kept counts.old) }
    ensures written { cache.new ≡ put_three cache.old (get_or counts.old count_cache 0) n.loader n.name n.class }
{
    let tied = cells::at(counts, COUNT_TIES);
    enter(counts, cache, n, classes, kept);
    if n.tied == tied {
        return;
    }
    groups::write_groups(counts, ties);
}

// The next class, of that loader: its row, its file behind the kept ones, and both tables of constraints, copied.
pub(crate) fn write_class(
    counts: &[u16],
    classes: &mut [u16],
    kept: &mut [u8],
    ties: &mut [u16],
    subtypes: &mut [u16],
    loader: u8,
    file: &[u8],
    new_ties: &[u16],
    new_subtypes: &[u16],
)
    requires { length file.now ≤ file_limit }
    ensures row { classes.new ≡ put_three classes.old (get_or counts.now count_classes 0) loader (get_or counts.now count_kept 0) (length file.now) }
    ensures bytes { kept.new ≡ write_rows set file.now (get_or counts.now count_kept 0) kept.old }
    ensures tied { ties.new ≡ write_rows set new_ties.now 0 ties.old }
    ensures noted { subtypes.new ≡ write_rows set new_subtypes.now 0 subtypes.old }
{
    let start = cells::at(counts, COUNT_KEPT);
    cells::put_three(
        classes,
        u32::from(cells::at(counts, COUNT_CLASSES)),
        u16::from(loader),
        start,
        file.len() as u16,
    );
    entries::write_cells(kept, start, file);
    entries::write_cells(ties, 0, new_ties);
    entries::write_cells(subtypes, 0, new_subtypes);
}

// What is answered for a newcomer: a new class's number.
pub(crate) fn reply_of(n: Newcomer) -> Reply
    requires { n.class ≤ class_limit }
    ensures { result ≡ new_reply n }
{
    if n.above == 0 {
        return Reply::Accepted;
    }
    Reply::Defined(n.class as u8)
}
