// Whether a load can be refused without a look at its code: cheap questions before each load that is tried.
ghost use Rattle.std.specs.Prelude.{◌≡◌, ◌<◌, get_or};
ghost use Rattle.definition.specs.Numbers.{count_kept, count_cache, short_range};
ghost use Rattle.definition.specs.Lists.{is_some, rows};
ghost use Rattle.definition.specs.Requests.{at};
ghost use Rattle.definition.specs.Classes.{find};
ghost use Rattle.definition.specs.Tables.{entry_at};
ghost use Rattle.resolution.specs.Quick.{base_of};
ghost use Rattle.searching.specs.Could.{could_keep, could_define, could_at};

use crate::offers::file_of;
use cells::at;
use definition::numbers::{COUNT_KEPT, FILE_LIMIT, KEPT_LENGTH, LOADER_LIMIT, OFFER_CELLS};
use resolution::Base;

fn is_cached(base: &Base, loader: u16, name: u16) -> bool
    ensures { result ≡ is_some (find (base_of base.now).cache (at loader name)) }
{
    base.find(loader, name).is_some()
}

// There is room for the file's bytes behind those that are kept. A file of more bytes than the limit doesn't read.
fn could_keep(counts: &[u16], file: &[u8]) -> bool
    ensures { result ≡ could_keep (get_or counts.now count_kept 0) file.now }
{
    if FILE_LIMIT < file.len() {
        return false;
    }
    usize::from(at(counts, COUNT_KEPT)) + file.len() <= KEPT_LENGTH
}

// A define of the file by that loader: its bytes can be kept, its superclass is cached under the loader, and its own name isn't.
fn could_define(base: &Base, loader: u32, file: &[u8]) -> bool
    ensures { result ≡ could_define (get_or base.now.counts.now count_kept 0) (base_of base.now).cache loader file.now }
{
    if LOADER_LIMIT <= loader {
        return false;
    }
    if !could_keep(base.counts, file) {
        return false;
    }
    if !is_cached(base, loader as u16, classfile::super_name(file)) {
        return false;
    }
    !is_cached(base, loader as u16, classfile::class_name(file))
}

// The load of row i. A record's class is there and has the name that it records.
pub(crate) fn could_load(base: &Base, offers: &[u32], files: &[u8], i: usize) -> bool
    requires { i < short_range }
    ensures { result ≡ could_at base.now.counts.now base.now.classes.now base.now.kept.now base.now.cache.now offers.now files.now i }
{
    if at(offers, i * OFFER_CELLS) == 1 {
        return could_define(
            base,
            at(offers, i * OFFER_CELLS + 1),
            file_of(offers, files, i),
        );
    }
    let own = base.name_of(at(offers, i * OFFER_CELLS + 3));
    u32::from(own) == at(offers, i * OFFER_CELLS + 2)
}
