// Owners of object rows, behind the eight counts, read and written totally: 0 for a free row, else 1 and the task. The lowest number unused is sought over them,
// and a task's objects are counted.
ghost use Rattle.std.specs.Prelude.{◌≡◌, ◌+◌, set};
ghost use Rattle.definition.specs.Numbers.{owners_cell};
ghost use Rattle.definition.specs.Tables.{owner_at};
ghost use Rattle.frames.specs.Unused.{is_used, unused_from};
ghost use Rattle.frames.specs.Made.{made_in, used_share};

use definition::numbers::{COUNT_OBJECTS, OWNERS_CELL, SHARE_LIMIT};

// The owner of row o.
pub fn owner(counts: &[u16], o: u32) -> u16
    ensures { result ≡ owner_at counts.now o }
{
    cells::at(counts, OWNERS_CELL + o as usize)
}

// The owner of row o written.
pub fn write_owner(counts: &mut [u16], o: u32, owner: u16)
    ensures { counts.new ≡ set counts.old (owners_cell + o) owner }
{
    cells::put(counts, OWNERS_CELL + o as usize, owner);
}

// Whether number o is used: below the object count, in a row with an owner.
pub fn is_used(counts: &[u16], o: u32) -> bool
    ensures { result ≡ is_used counts.now o }
{
    o < u32::from(cells::at(counts, COUNT_OBJECTS)) && owner(counts, o) != 0
}

// The lowest row from that one on that is free or past the object count.
pub fn unused(counts: &[u16], from: u16) -> u16
    ensures { result ≡ unused_from counts.now from }
{
    let n = cells::at(counts, COUNT_OBJECTS);
    for o in from..n {
        if owner(counts, u32::from(o)) == 0 {
            return o;
        }
    }
    from.max(n)
}

// How many objects a task made: every row below the object count that the table holds is looked at once.
pub fn made_by(counts: &[u16], task: u8) -> u16
    ensures { result ≡ made_in counts.now task }
{
    let own = u16::from(task) + 1;
    let rows = usize::from(cells::at(counts, COUNT_OBJECTS));
    let held = cells::held(counts, OWNERS_CELL, rows);
    let mut made: u16 = 0;
    for o in 0..held {
        if counts[OWNERS_CELL + o] == own {
            made += 1;
        }
    }
    made
}

// Whether a task that made that many objects has used its share. The quote has none.
pub fn is_share_used(task: u8, made: u16) -> bool
    ensures { result ≡ used_share task made }
{
    task != 0 && SHARE_LIMIT <= made
}
