// Orders tried on the second store: a load at a time, by the numbers of the offers that are left, the lowest first. What led nowhere is undone.
ghost use Rattle.std.specs.Prelude.{◌≡◌, true, false, ◌&&◌, ◌/◌, ◌<◌, ◌≤◌, length, get_or, eqb};
ghost use Rattle.definition.specs.Numbers.{count_cache, short_range};
ghost use Rattle.definition.specs.Lists.{rows, is_some};
ghost use Rattle.definition.specs.Requests.{at};
ghost use Rattle.definition.specs.Classes.{find};
ghost use Rattle.definition.specs.Tables.{tables, entry_at};
ghost use Rattle.definition.specs.Broken.{broken};
ghost use Rattle.definition.specs.Calls.{done, call_rows, perform};
ghost use Rattle.laws.specs.Refusals.{load_call};
ghost use Rattle.definition.specs.Offers.{offers_in};
ghost use Rattle.resolution.specs.Quick.{base_of};
ghost use Rattle.searching.specs.Offered.{load_at};
ghost use Rattle.searching.specs.Could.{could_at};
ghost use Rattle.searching.specs.Ordering.{is_taken, taken_of, is_tried_at, ordered, cached_order, Fits, with_first, LeadsOn, Finds};

use crate::asking::could_load;
use crate::offers::{file_of, is_for};
use copying::copy;
use definition::Reply;
use definition::numbers::{COUNTS_LENGTH, OFFER_CELLS, OFFER_LIMIT};
use resolution::Base;

// A load's reply is no refusal.
fn is_taken(reply: Reply) -> bool
    ensures { result ≡ is_taken reply }
{
    !matches!(reply, Reply::Denied(_))
}

// The load of row i. Answers whether it is accepted.
pub(crate) fn load_one(
    counts: &mut [u16],
    classes: &mut [u16],
    kept: &mut [u8],
    cache: &mut [u16],
    ties: &mut [u16],
    subtypes: &mut [u16],
    objects: &[u32],
    frames: &[u32],
    offers: &[u32],
    files: &[u8],
    i: usize,
) -> bool
    requires { i < short_range }
    ensures { done result (tables counts.new classes.new kept.new cache.new ties.new subtypes.new objects.now frames.now) ≡ taken_of (perform (call_rows (load_call (load_at offers.now files.now i))) (tables counts.old classes.old kept.old cache.old ties.old subtypes.old objects.now frames.now)) }
{
    let loader = cells::at(offers, i * OFFER_CELLS + 1);
    if cells::at(offers, i * OFFER_CELLS) == 1 {
        return is_taken(loading::define(
            counts,
            classes,
            kept,
            cache,
            ties,
            subtypes,
            objects,
            frames,
            loader,
            file_of(offers, files, i),
        ));
    }
    is_taken(loading::record(
        counts,
        classes,
        kept,
        cache,
        ties,
        subtypes,
        objects,
        frames,
        loader,
        cells::at(offers, i * OFFER_CELLS + 2),
        cells::at(offers, i * OFFER_CELLS + 3),
    ))
}

// Offer i is tried with n loads to follow it: it isn't used yet, and is for the wanted request exactly if none follows.
fn is_tried(
    offers: &[u32],
    files: &[u8],
    loader: u16,
    name: u16,
    n: usize,
    used: &[u8],
    i: usize,
) -> bool
    requires { i < short_range }
    ensures { result ≡ (eqb (get_or used.now i 0) 0 && is_tried_at offers.now files.now (at loader name) n i) }
{
    if cells::at(used, i) != 0 {
        return false;
    }
    if is_for(offers, files, i, u32::from(loader), name) {
        n == 0
    } else {
        n != 0
    }
}

// Its load is worth trying: offer i is tried, and its load can't be refused at once.
fn is_worth(
    base: &Base,
    offers: &[u32],
    files: &[u8],
    loader: u16,
    name: u16,
    n: usize,
    used: &[u8],
    i: usize,
) -> bool
    requires { i < short_range }
    ensures { result ≡ ((eqb (get_or used.now i 0) 0 && is_tried_at offers.now files.now (at loader name) n i) && could_at base.now.counts.now base.now.classes.now base.now.kept.now base.now.cache.now offers.now files.now i) }
{
    if !is_tried(offers, files, loader, name, n, used, i) {
        return false;
    }
    could_load(base, offers, files, i)
}

// The order of no loads, if the request is cached.
fn cached_order(base: &Base, loader: u16, name: u16) -> Option<u32>
    ensures { result ≡ ordered (cached_order (find (base_of base.now).cache (at loader name))) }
{
    match base.find(loader, name) {
        Some(_) => Some(0),
        None => None,
    }
}

// An order with offer i before it.
fn with_first(i: usize, rest: Option<u32>) -> Option<u32>
    requires i_bound { i < 8 }
    requires fits { Fits 7 rest }
    ensures { result ≡ with_first i rest }
{
    match rest {
        Some(c) => Some(i as u32 + 8 * c),
        None => None,
    }
}

// The first order of one load more than n that begins with offer i, if that is worth trying: its load, and then n others. Then the counts are set back.
#[cycle(order_of_try_one)]
fn try_one(
    counts: &mut [u16],
    classes: &mut [u16],
    kept: &mut [u8],
    cache: &mut [u16],
    ties: &mut [u16],
    subtypes: &mut [u16],
    objects: &[u32],
    frames: &[u32],
    offers: &[u32],
    files: &[u8],
    loader: u16,
    name: u16,
    n: usize,
    used: &[u8],
    i: usize,
) -> Option<u32>
    requires frames_value { broken (tables counts.old classes.old kept.old cache.old ties.old subtypes.old objects.now frames.now) ≡ false }
    requires files_value { is_some (offers_in offers.now files.now) ≡ true }
    requires used_len { length used.now ≡ 8 }
    requires i_in_bounds { i < length offers.now / 4 }
    requires n_bound { n < 8 }
    ensures { LeadsOn offers.now files.now loader name n used.now i (tables counts.old classes.old kept.old cache.old ties.old subtypes.old objects.now frames.now) (tables counts.new classes.new kept.new cache.new ties.new subtypes.new objects.now frames.now) result }
{
    let base = Base {
        counts,
        classes,
        kept,
        cache,
    };
    if !is_worth(&base, offers, files, loader, name, n, used, i) {
        return None;
    }
    let mut saved = [0u16; COUNTS_LENGTH];
    copy(counts, &mut saved);
    if !load_one(
        counts, classes, kept, cache, ties, subtypes, objects, frames, offers, files, i,
    ) {
        return None;
    }
    let mut next = [0u8; OFFER_LIMIT];
    copy(used, &mut next);
    cells::put(&mut next, i, 1);
    let rest = order_of(
        counts, classes, kept, cache, ties, subtypes, objects, frames, offers, files, loader, name,
        n, &next,
    );
    copy(&saved, counts);
    with_first(i, rest)
}

// The first order of n loads, of the offers that aren't used: by rising numbers, the first that leads on.
#[cycle(order_of_try_one)]
pub(crate) fn order_of(
    counts: &mut [u16],
    classes: &mut [u16],
    kept: &mut [u8],
    cache: &mut [u16],
    ties: &mut [u16],
    subtypes: &mut [u16],
    objects: &[u32],
    frames: &[u32],
    offers: &[u32],
    files: &[u8],
    loader: u16,
    name: u16,
    n: usize,
    used: &[u8],
) -> Option<u32>
    requires frames_value { broken (tables counts.old classes.old kept.old cache.old ties.old subtypes.old objects.now frames.now) ≡ false }
    requires files_value { is_some (offers_in offers.now files.now) ≡ true }
    requires used_len { length used.now ≡ 8 }
    requires n_bound { n ≤ 8 }
    ensures { Finds offers.now files.now loader name n used.now (tables counts.old classes.old kept.old cache.old ties.old subtypes.old objects.now frames.now) (tables counts.new classes.new kept.new cache.new ties.new subtypes.new objects.now frames.now) result }
{
    if n == 0 {
        let base = Base {
            counts,
            classes,
            kept,
            cache,
        };
        return cached_order(&base, loader, name);
    }
    let count = offers.len() / OFFER_CELLS;
    for i in 0..count {
        let found = try_one(
            counts,
            classes,
            kept,
            cache,
            ties,
            subtypes,
            objects,
            frames,
            offers,
            files,
            loader,
            name,
            n - 1,
            used,
            i,
        );
        if let Some(c) = found {
            return Some(c);
        }
    }
    None
}
