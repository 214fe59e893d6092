// What a run remembers of the places of the code: a fact for a method, a point and a receiver's class, in two tables of 512 cells.
ghost use Rattle.std.specs.Prelude.{◌≡◌, ◌+◌, ◌*◌, ◌<◌, get_or, set};
ghost use Rattle.execution.specs.Memory.{tag_of, index_of, recalled};

// The number of method m of class c.
pub(crate) fn key_of(c: u32, m: u32) -> u16
    requires { (c < 64) × (m < 8) }
    ensures { (result ≡ 8 * c + m) × (result < 512) }
{
    (8 * c + m) as u16
}

// Where a place's tag and fact are kept: places share an index, never a tag.
fn index_of(key: u16, p: u16, r: u16) -> usize
    ensures { result ≡ index_of key p r }
{
    (67 * usize::from(key) + usize::from(p) + 8 * usize::from(r)) % 512
}

// The number of a place, never 0.
fn tag_of(key: u16, p: u16, r: u16) -> u32
    requires { key < 512 }
    ensures { result ≡ tag_of key p r }
{
    32768 * u32::from(key) + 64 * u32::from(p) + u32::from(r) + 1
}

// What is remembered of a place, if anything is.
pub(crate) fn recall(tags: &[u32], facts: &[u32], key: u16, p: u16, r: u16) -> Option<u32>
    requires { key < 512 }
    ensures { result ≡ recalled tags.now facts.now key p r }
{
    let i = index_of(key, p, r);
    if cells::at(tags, i) != tag_of(key, p, r) {
        return None;
    }
    Some(cells::at(facts, i))
}

// A fact is remembered.
pub(crate) fn remember(tags: &mut [u32], facts: &mut [u32], key: u16, p: u16, r: u16, fact: u32)
    requires { key < 512 }
    ensures { (tags.new ≡ set tags.old (index_of key p r) (tag_of key p r)) × (facts.new ≡ set facts.old (index_of key p r) fact) }
{
    let i = index_of(key, p, r);
    cells::put(tags, i, tag_of(key, p, r));
    cells::put(facts, i, fact);
}
