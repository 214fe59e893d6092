// The loads of an order that was found, made one after another.
ghost use Rattle.std.specs.Prelude.{◌≡◌};
ghost use Rattle.definition.specs.Tables.{tables};
ghost use Rattle.definition.specs.Calls.{perform_all};
ghost use Rattle.searching.specs.Replayed.{numbers_in, loads_at};

use crate::trying::load_one;

// The first n offers of that order, whatever their loads answer.
pub(crate) fn replay(
    counts: &mut [u16],
    classes: &mut [u16],
    kept: &mut [u8],
    cache: &mut [u16],
    ties: &mut [u16],
    subtypes: &mut [u16],
    objects: &[u32],
    frames: &[u32],
    offers: &[u32],
    files: &[u8],
    n: u32,
    code: u32,
)
    ensures { tables counts.new classes.new kept.new cache.new ties.new subtypes.new objects.now frames.now ≡ (perform_all (loads_at offers.now files.now (numbers_in n code)) (tables counts.old classes.old kept.old cache.old ties.old subtypes.old objects.now frames.now)).tables }
{
    let mut rest = code;
    for k in 0..n {
        load_one(
            counts,
            classes,
            kept,
            cache,
            ties,
            subtypes,
            objects,
            frames,
            offers,
            files,
            (rest % 8) as usize,
        );
        rest = rest / 8;
    }
}
