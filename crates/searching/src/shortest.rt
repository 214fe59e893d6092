// Orders by rising length, so that the first that is found has the fewest loads.
ghost use Rattle.std.specs.Prelude.{◌≡◌, true, false};
ghost use Rattle.definition.specs.Lists.{is_some};
ghost use Rattle.definition.specs.Requests.{at};
ghost use Rattle.definition.specs.Tables.{tables, view};
ghost use Rattle.definition.specs.Broken.{broken};
ghost use Rattle.definition.specs.Offers.{offers_in, order};
ghost use Rattle.searching.specs.Offered.{offers_of};
ghost use Rattle.searching.specs.Ordering.{shortest_of};

use crate::Order;
use crate::trying::order_of;
use definition::numbers::{OFFER_CELLS, OFFER_LIMIT};

// The order that is looked for, by tries on the tables: what these hold afterwards isn't said.
pub(crate) fn shortest(
    counts: &mut [u16],
    classes: &mut [u16],
    kept: &mut [u8],
    cache: &mut [u16],
    ties: &mut [u16],
    subtypes: &mut [u16],
    objects: &[u32],
    frames: &[u32],
    offers: &[u32],
    files: &[u8],
    loader: u16,
    name: u16,
) -> Option<Order>
    requires frames_value { broken (tables counts.old classes.old kept.old cache.old ties.old subtypes.old objects.now frames.now) ≡ false }
    requires files_value { is_some (offers_in offers.now files.now) ≡ true }
    ensures { result ≡ shortest_of (order (offers_of offers.now files.now) (at loader name) (view (tables counts.old classes.old kept.old cache.old ties.old subtypes.old objects.now frames.now))) }
{
    let count = offers.len() / OFFER_CELLS;
    let used = [0u8; OFFER_LIMIT];
    for n in 0..count + 1 {
        let found = order_of(
            counts, classes, kept, cache, ties, subtypes, objects, frames, offers, files, loader,
            name, n, &used,
        );
        if let Some(code) = found {
            return Some(Order {
                loads: n as u32,
                code,
            });
        }
    }
    None
}
