// The offers: rows of four cells, and a pool of bytes for the files of defines.
ghost use Rattle.std.specs.Prelude.{◌≡◌, ◌+◌, ◌*◌, ◌<◌, length, get_or};
ghost use Rattle.definition.specs.Numbers.{short_range};
ghost use Rattle.definition.specs.Lists.{is_some};
ghost use Rattle.definition.specs.Requests.{at};
ghost use Rattle.definition.specs.Offers.{offer_at, offers_in};
ghost use Rattle.classfile.specs.Reading.{part_of};
ghost use Rattle.searching.specs.Offered.{is_for_at};

use cells::at;
use definition::numbers::{OFFER_CELLS, OFFER_LIMIT, SHORT_RANGE};

// Kinds of rows.
const DEFINE: u32 = 1;

const RECORD: u32 = 2;

// Row i is an offer: a define whose file lies within the bytes, or a record of a name of 16 bits.
fn is_offer(offers: &[u32], files: &[u8], i: usize) -> bool
    requires { i < short_range }
    ensures { result ≡ is_some (offer_at offers.now files.now i) }
{
    let place = i * OFFER_CELLS;
    let kind = at(offers, place);
    let third = at(offers, place + 2);
    if kind == DEFINE {
        return third as usize + (at(offers, place + 3) as usize) <= files.len();
    }
    kind == RECORD && third < SHORT_RANGE
}

// All rows are offers, none is cut off, and there are at most 8.
pub(crate) fn read_offers(offers: &[u32], files: &[u8]) -> bool
    ensures { result ≡ is_some (offers_in offers.now files.now) }
{
    if OFFER_LIMIT * OFFER_CELLS < offers.len() {
        return false;
    }
    if offers.len() % OFFER_CELLS != 0 {
        return false;
    }
    let n = offers.len() / OFFER_CELLS;
    for i in 0..n {
        if !is_offer(offers, files, i) {
            return false;
        }
    }
    true
}

// The file that row i names by its start and size; no bytes if it lies outside.
pub(crate) fn file_of<'a>(offers: &[u32], files: &'a [u8], i: usize) -> &'a [u8]
    requires { i < short_range }
    ensures { result.now ≡ part_of files.now (get_or offers.now (i * 4 + 2) 0) (get_or offers.now (i * 4 + 3) 0) }
{
    let start = at(offers, i * OFFER_CELLS + 2) as usize;
    let end = start + at(offers, i * OFFER_CELLS + 3) as usize;
    if end <= files.len() {
        &files[start..end]
    } else {
        &files[0..0]
    }
}

// Row i is a load for that request: by its loader, and by the name that its file or its row has.
pub(crate) fn is_for(offers: &[u32], files: &[u8], i: usize, loader: u32, name: u16) -> bool
    requires { i < short_range }
    ensures { result ≡ is_for_at offers.now files.now (at loader name) i }
{
    if at(offers, i * OFFER_CELLS + 1) != loader {
        return false;
    }
    if at(offers, i * OFFER_CELLS) == DEFINE {
        return classfile::class_name(file_of(offers, files, i)) == name;
    }
    at(offers, i * OFFER_CELLS + 2) == u32::from(name)
}
