// Why a store doesn't agree.
ghost use Rattle.std.specs.Prelude.{◌≡◌, true, ◌≤◌, length, get_or, set};
ghost use Rattle.definition.specs.Numbers.{cache_limit};
ghost use Rattle.definition.specs.declared.Reply.{Reply};
ghost use Rattle.definition.specs.Lists.{rows, write_rows};
ghost use Rattle.definition.specs.Reasons.{tries, listed};
ghost use Rattle.constraints.specs.Nodes.{place_limit};
ghost use Rattle.constraints.specs.Choosing.{held, Holds, BestOf};
ghost use Rattle.constraints.specs.Walks.{InRange, Sole};
ghost use Rattle.constraints.specs.Agreement.{super_in};
ghost use Rattle.rows.specs.Numbers.{numbers_fit};
ghost use Rattle.constraints.specs.Linking.{reason_in};

use crate::choosing::search_all;
use crate::linking::{LINK_LIMIT, label_links, link_nodes};
use crate::numbering::{PLACE_LIMIT, at_most, list_classes, number_nodes, number_places};
use crate::singles::first_alone;
use cells::{at, put};
use definition::numbers::{CACHE_LIMIT, COUNT_CACHE, COUNT_SUBTYPES, COUNT_TIES};
use rows::numbers_fit;

// The best chain by links between cached requests, of which the first `turned` are ties, into a table. Answers its size, if there is one. A row that breaks agreement by itself is looked
// for first, since no chain is shorter; then chains by ties alone, and by all links.
fn search_links(
    supers: &[u8],
    classes: &[u16],
    cached: usize,
    froms: &[u16],
    tos: &[u16],
    labels: &[u16],
    turned: usize,
    count: usize,
    best: &mut [u16],
) -> Option<u16>
    requires { (cached ≤ cache_limit) × (turned ≤ count) × InRange froms.now tos.now count × Sole froms.now tos.now labels.now count × (length best.old ≡ place_limit) }
    ensures { Holds best.new result × BestOf froms.now tos.now labels.now turned count classes.now cached (super_in supers.now) (held best.new result) }
{
    let tie = first_alone(
        supers, classes, cached, froms, tos, labels, turned, true, None,
    );
    let row = first_alone(
        supers, classes, cached, froms, tos, labels, count, false, tie,
    );
    if let Some(row) = row {
        put(best, 0, row);
        return Some(1);
    }
    let tied = search_all(
        supers, classes, cached, froms, tos, labels, turned, true, best, None,
    );
    search_all(
        supers, classes, cached, froms, tos, labels, count, false, best, tied,
    )
}

// The best chain of the store of these tables, if there is one, into a table. Answers its size.
fn best_chain(
    supers: &[u8],
    counts: &[u16],
    cache: &[u16],
    ties: &[u16],
    subtypes: &[u16],
    best: &mut [u16],
) -> Option<u16>
    requires { (numbers_fit counts.now ≡ true) × (length best.old ≡ place_limit) }
    ensures { Holds best.new result × (held best.new result ≡ reason_in supers.now counts.now cache.now ties.now subtypes.now) }
{
    let cached = at_most(at(counts, COUNT_CACHE));
    let tied = at_most(at(counts, COUNT_TIES));
    let noted = at_most(at(counts, COUNT_SUBTYPES));
    let turned = tied + tied;
    let mut numbers = [0u32; PLACE_LIMIT];
    number_places(cache, cached, ties, tied, subtypes, noted, &mut numbers);
    let mut nodes = [0u16; PLACE_LIMIT];
    let mut nexts = [0u16; PLACE_LIMIT];
    number_nodes(
        &numbers,
        cached + noted + noted + tied + tied,
        &mut nodes,
        &mut nexts,
    );
    let mut classes = [0u16; CACHE_LIMIT as usize];
    list_classes(cache, &nodes, cached, &mut classes);
    let mut froms = [0u16; LINK_LIMIT];
    let mut tos = [0u16; LINK_LIMIT];
    let mut labels = [0u16; LINK_LIMIT];
    link_nodes(&nodes, cached, noted, tied, &mut froms, &mut tos);
    label_links(counts, noted, tied, &mut labels);
    search_links(
        supers,
        &classes,
        cached,
        &froms,
        &tos,
        &labels,
        turned,
        turned + noted,
        best,
    )
}

// Writes the first cells of a table into a list, the last first.
fn write_list(best: &[u16], size: usize, list: &mut [u16])
    requires { size ≤ place_limit }
    ensures { list.new ≡ write_rows set (rows (λ i. get_or best.now i 0) size 0) 0 list.old }
{
    for i in (0..size).rev() {
        put(list, i, at(best, i));
    }
}

// Why the store of these tables doesn't agree: the numbers of a chain's rows, upward, written into the list, as far as it goes. Answers how many, 0 if the store agrees or its
// rows' numbers aren't in turn.
pub fn reason(
    supers: &[u8],
    counts: &[u16],
    cache: &[u16],
    ties: &[u16],
    subtypes: &[u16],
    list: &mut [u16],
) -> u16
    ensures { (a : Reply) → tries a result list.new ≡ listed a (reason_in supers.now counts.now cache.now ties.now subtypes.now) list.old }
{
    if !numbers_fit(counts) {
        return 0;
    }
    let mut best = [0u16; PLACE_LIMIT];
    let Some(size) = best_chain(supers, counts, cache, ties, subtypes, &mut best) else {
        return 0;
    };
    write_list(&best, usize::from(size), list);
    size
}
