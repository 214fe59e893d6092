// The search: its tests, the order that is found by tries on the second store, and that store as the loads found leave it.
ghost use Rattle.std.specs.Prelude.{◌≡◌, true, false, MatchResult};
ghost use Rattle.definition.specs.Lists.{is_some};
ghost use Rattle.definition.specs.Requests.{at};
ghost use Rattle.definition.specs.Classes.{find};
ghost use Rattle.definition.specs.Tables.{tables, shaped, view};
ghost use Rattle.definition.specs.Broken.{broken};
ghost use Rattle.definition.specs.Calls.{perform_all};
ghost use Rattle.definition.specs.Offers.{offers_in, order};
ghost use Rattle.definition.specs.Searching.{searched, search};
ghost use Rattle.resolution.specs.Quick.{base_of};
ghost use Rattle.searching.specs.Offered.{offers_of};
ghost use Rattle.searching.specs.Ordering.{cached_order, shortest_of};
ghost use Rattle.searching.specs.Wanted.{NoneFor};
ghost use Rattle.searching.specs.Replayed.{numbers_in, loads_at};
ghost use Rattle.searching.specs.Found.{sought_by, count_in, order_in, Clear, Denies};

use crate::Order;
use crate::offers::{is_for, read_offers};
use crate::replaying::replay;
use crate::shortest::shortest;
use copying::fill;
use definition::Refusal;
use definition::numbers::{
    LOADER_LIMIT, NAME_OBJECT, OFFER_CELLS, WORD_BROKEN, WORD_OFFERS, WORD_UNKNOWN,
};
use resolution::Base;

fn count_in(s: Option<Order>) -> u32
    ensures { result ≡ count_in s }
{
    match s {
        Some(order) => order.loads,
        None => 0,
    }
}

fn order_in(s: Option<Order>) -> u32
    ensures { result ≡ order_in s }
{
    match s {
        Some(order) => order.code,
        None => 0,
    }
}

// Whether a search is refused: of the second store only the lengths are looked at, and 3 judges the wanted request alone.
fn judge(
    counts: &[u16],
    classes: &[u16],
    kept: &[u8],
    cache: &[u16],
    ties: &[u16],
    subtypes: &[u16],
    objects: &[u32],
    frames: &[u32],
    second_counts: &[u16],
    second_classes: &[u16],
    second_kept: &[u8],
    second_cache: &[u16],
    second_ties: &[u16],
    second_subtypes: &[u16],
    second_objects: &[u32],
    second_frames: &[u32],
    loader: u32,
    name: u16,
    offers: &[u32],
    files: &[u8],
) -> Result<(), Refusal>
    ensures { MatchResult result (λ done. Clear loader name offers.now files.now (tables counts.now classes.now kept.now cache.now ties.now subtypes.now objects.now frames.now) (tables second_counts.now second_classes.now second_kept.now second_cache.now second_ties.now second_subtypes.now second_objects.now second_frames.now)) (Denies loader name offers.now files.now (tables counts.now classes.now kept.now cache.now ties.now subtypes.now objects.now frames.now) (tables second_counts.now second_classes.now second_kept.now second_cache.now second_ties.now second_subtypes.now second_objects.now second_frames.now)) }
{
    if !store::is_shaped(
        second_counts,
        second_classes,
        second_kept,
        second_cache,
        second_ties,
        second_subtypes,
        second_objects,
        second_frames,
    ) {
        return Err(Refusal::Word(WORD_BROKEN));
    }
    if store::is_broken(
        counts, classes, kept, cache, ties, subtypes, objects, frames,
    ) {
        return Err(Refusal::Word(WORD_BROKEN));
    }
    if LOADER_LIMIT <= loader {
        return Err(Refusal::Word(WORD_UNKNOWN));
    }
    if name < NAME_OBJECT {
        return Err(Refusal::Word(WORD_UNKNOWN));
    }
    if !read_offers(offers, files) {
        return Err(Refusal::Word(WORD_OFFERS));
    }
    Ok(())
}

// Whether an offer is for that request: where none is, no load gives it.
fn is_any_for(offers: &[u32], files: &[u8], loader: u16, name: u16) -> bool
    requires { is_some (offers_in offers.now files.now) ≡ true }
    ensures { result ≡ false → NoneFor offers.now files.now (at loader name) }
{
    let n = offers.len() / OFFER_CELLS;
    for i in 0..n {
        if is_for(offers, files, i, u32::from(loader), name) {
            return true;
        }
    }
    false
}

// The order of no loads, if the request is cached.
fn no_loads(base: &Base, loader: u16, name: u16) -> Option<Order>
    ensures { result ≡ shortest_of (cached_order (find (base_of base.now).cache (at loader name))) }
{
    match base.find(loader, name) {
        Some(_) => Some(Order { loads: 0, code: 0 }),
        None => None,
    }
}

// The shortest order, found by tries on the second store, which begins as the box's. No load is tried where no offer is for the request.
fn find_order(
    counts: &[u16],
    classes: &[u16],
    kept: &[u8],
    cache: &[u16],
    ties: &[u16],
    subtypes: &[u16],
    objects: &[u32],
    frames: &[u32],
    second_counts: &mut [u16],
    second_classes: &mut [u16],
    second_kept: &mut [u8],
    second_cache: &mut [u16],
    second_ties: &mut [u16],
    second_subtypes: &mut [u16],
    second_objects: &mut [u32],
    second_frames: &mut [u32],
    loader: u16,
    name: u16,
    offers: &[u32],
    files: &[u8],
) -> Option<Order>
    requires { (shaped (tables second_counts.old second_classes.old second_kept.old second_cache.old second_ties.old second_subtypes.old second_objects.old second_frames.old) ≡ true) × (broken (tables counts.now classes.now kept.now cache.now ties.now subtypes.now objects.now frames.now) ≡ false) × (is_some (offers_in offers.now files.now) ≡ true) }
    ensures { result ≡ shortest_of (order (offers_of offers.now files.now) (at loader name) (view (tables counts.now classes.now kept.now cache.now ties.now subtypes.now objects.now frames.now))) }
{
    if !is_any_for(offers, files, loader, name) {
        let base = Base {
            counts,
            classes,
            kept,
            cache,
        };
        return no_loads(&base, loader, name);
    }
    fill(
        counts,
        classes,
        kept,
        cache,
        ties,
        subtypes,
        objects,
        frames,
        second_counts,
        second_classes,
        second_kept,
        second_cache,
        second_ties,
        second_subtypes,
        second_objects,
        second_frames,
    );
    shortest(
        second_counts,
        second_classes,
        second_kept,
        second_cache,
        second_ties,
        second_subtypes,
        second_objects,
        second_frames,
        offers,
        files,
        loader,
        name,
    )
}

// The second store as the box's would be after the first n loads of that order.
fn make_loads(
    counts: &[u16],
    classes: &[u16],
    kept: &[u8],
    cache: &[u16],
    ties: &[u16],
    subtypes: &[u16],
    objects: &[u32],
    frames: &[u32],
    second_counts: &mut [u16],
    second_classes: &mut [u16],
    second_kept: &mut [u8],
    second_cache: &mut [u16],
    second_ties: &mut [u16],
    second_subtypes: &mut [u16],
    second_objects: &mut [u32],
    second_frames: &mut [u32],
    offers: &[u32],
    files: &[u8],
    n: u32,
    code: u32,
)
    requires { (shaped (tables second_counts.old second_classes.old second_kept.old second_cache.old second_ties.old second_subtypes.old second_objects.old second_frames.old) ≡ true) × (broken (tables counts.now classes.now kept.now cache.now ties.now subtypes.now objects.now frames.now) ≡ false) }
    ensures { tables second_counts.new second_classes.new second_kept.new second_cache.new second_ties.new second_subtypes.new second_objects.new second_frames.new ≡ (perform_all (loads_at offers.now files.now (numbers_in n code)) (tables counts.now classes.now kept.now cache.now ties.now subtypes.now objects.now frames.now)).tables }
{
    fill(
        counts,
        classes,
        kept,
        cache,
        ties,
        subtypes,
        objects,
        frames,
        second_counts,
        second_classes,
        second_kept,
        second_cache,
        second_ties,
        second_subtypes,
        second_objects,
        second_frames,
    );
    replay(
        second_counts,
        second_classes,
        second_kept,
        second_cache,
        second_ties,
        second_subtypes,
        second_objects,
        second_frames,
        offers,
        files,
        n,
        code,
    );
}

// For the request of that loader and name. The box's tables are only read; refused, the search writes nothing. Refusals: 1 3 20
pub fn search(
    counts: &[u16],
    classes: &[u16],
    kept: &[u8],
    cache: &[u16],
    ties: &[u16],
    subtypes: &[u16],
    objects: &[u32],
    frames: &[u32],
    second_counts: &mut [u16],
    second_classes: &mut [u16],
    second_kept: &mut [u8],
    second_cache: &mut [u16],
    second_ties: &mut [u16],
    second_subtypes: &mut [u16],
    second_objects: &mut [u32],
    second_frames: &mut [u32],
    loader: u32,
    name: u16,
    offers: &[u32],
    files: &[u8],
) -> Result<Option<Order>, Refusal>
    ensures { searched (sought_by result) (tables second_counts.new second_classes.new second_kept.new second_cache.new second_ties.new second_subtypes.new second_objects.new second_frames.new) ≡ search loader name offers.now files.now (tables counts.now classes.now kept.now cache.now ties.now subtypes.now objects.now frames.now) (tables second_counts.old second_classes.old second_kept.old second_cache.old second_ties.old second_subtypes.old second_objects.old second_frames.old) }
{
    judge(
        counts,
        classes,
        kept,
        cache,
        ties,
        subtypes,
        objects,
        frames,
        second_counts,
        second_classes,
        second_kept,
        second_cache,
        second_ties,
        second_subtypes,
        second_objects,
        second_frames,
        loader,
        name,
        offers,
        files,
    )?;
    let found = find_order(
        counts,
        classes,
        kept,
        cache,
        ties,
        subtypes,
        objects,
        frames,
        second_counts,
        second_classes,
        second_kept,
        second_cache,
        second_ties,
        second_subtypes,
        second_objects,
        second_frames,
        loader as u16,
        name,
        offers,
        files,
    );
    make_loads(
        counts,
        classes,
        kept,
        cache,
        ties,
        subtypes,
        objects,
        frames,
        second_counts,
        second_classes,
        second_kept,
        second_cache,
        second_ties,
        second_subtypes,
        second_objects,
        second_frames,
        offers,
        files,
        count_in(found),
        order_in(found),
    );
    Ok(found)
}
