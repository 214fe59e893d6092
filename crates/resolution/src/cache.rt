// The row in which a request stands, and the class that it is cached as.
ghost use Rattle.std.specs.Prelude.{◌≡◌};
ghost use Rattle.definition.specs.Requests.{at, same_request};
ghost use Rattle.definition.specs.Classes.{find};
ghost use Rattle.definition.specs.Tables.{entry_at};
ghost use Rattle.cells.specs.Optional.{optional};
ghost use Rattle.resolution.specs.Quick.{base_of};
ghost use Rattle.resolution.specs.Cached.{row_of, class_in};

use crate::Base;
use definition::numbers::{COUNT_CACHE, ROW_CELLS};

impl Base<'_> {
    // Row i of the cache has that request.
    fn is_entry(&self, i: u16, loader: u16, name: u16) -> bool
        ensures { result ≡ same_request (entry_at self.now.cache.now i).request (at loader name) }
    {
        let place = usize::from(i) * ROW_CELLS;
        cells::at(self.cache, place) == loader && cells::at(self.cache, place + 1) == name
    }

    // The row in which a request stands first; as many as there are rows, if it stands in none.
    pub(crate) fn row_of(&self, loader: u16, name: u16) -> u16
        ensures { result ≡ row_of (base_of self.now).cache (at loader name) }
    {
        let n = cells::at(self.counts, COUNT_CACHE);
        for i in 0..n {
            if self.is_entry(i, loader, name) {
                return i;
            }
        }
        n
    }

    // The class that row i has.
    pub(crate) fn class_in(&self, i: u16) -> Option<u32>
        ensures { result ≡ optional (class_in (base_of self.now).cache i) }
    {
        if i < cells::at(self.counts, COUNT_CACHE) {
            Some(u32::from(cells::at(self.cache, usize::from(i) * ROW_CELLS + 2)))
        } else {
            None
        }
    }

    // The class that a request is cached as; of two rows for one request the lower is read.
    pub fn find(&self, loader: u16, name: u16) -> Option<u32>
        ensures { result ≡ optional (find (base_of self.now).cache (at loader name)) }
    {
        self.class_in(self.row_of(loader, name))
    }
}
