// The constraints of a class that is to be defined: its ties, and the limits.
ghost use Rattle.std.specs.Prelude.{◌≡◌, List, ◌+◌, ◌≤◌, length, get_or, leb};
ghost use Rattle.std.proofs.Math.Option.{some};
ghost use Rattle.definition.specs.Numbers.{kept_limit, file_limit, member_limit, count_kept, count_subtypes};
ghost use Rattle.definition.specs.Requests.{at};
ghost use Rattle.definition.specs.Classes.{find};
ghost use Rattle.definition.specs.File.{class_of};
ghost use Rattle.classfile.specs.Reading.{super_name, method_count, quick_file};
ghost use Rattle.resolution.specs.Quick.{base_of};
ghost use Rattle.definition.specs.Verifier.{Note};
ghost use Rattle.entries.specs.World.{world_in, Loadable};
ghost use Rattle.loading.specs.Posting.{tried_ties_length, NotesPosted};
ghost use Rattle.loading.specs.Stages.{room_for, posted_for, placed_after, Decided};

use crate::loads::Newcomer;
use crate::overrides::post_methods;
use cells::at;
use definition::Refusal;
use definition::numbers::{
    CACHE_LIMIT, CLASS_LIMIT, COUNT_CACHE, COUNT_CLASSES, COUNT_KEPT, COUNT_TIES, FIELD_LIMIT,
    KEPT_LENGTH, SUBTYPE_LIMIT, TIE_LIMIT, WORD_FULL,
};
use resolution::Base;

// There is room for the file's bytes, the class, its entry, that many ties, and the fields of its objects.
fn has_room(base: &Base, p: u32, file: &[u8], tied: u16) -> bool
    requires { length file.now ≤ file_limit }
    ensures { result ≡ room_for (base_of base.now) base.now.counts.now file.now p tied }
{
    if KEPT_LENGTH < usize::from(at(base.counts, COUNT_KEPT)) + file.len() {
        return false;
    }
    if CLASS_LIMIT <= at(base.counts, COUNT_CLASSES) {
        return false;
    }
    if CACHE_LIMIT <= at(base.counts, COUNT_CACHE) {
        return false;
    }
    if TIE_LIMIT < tied {
        return false;
    }
    let own = u32::from(classfile::field_count(file));
    base.size_of(p) + own <= FIELD_LIMIT
}

// The constraints of the file's class, below p, and the limits. Its ties are posted to a copy of theirs; its notes stand in a copy of the subtype
// constraints already, which has so many rows with them.
pub(crate) fn admit_constraints(
    base: &Base,
    ties: &[u16],
    subtypes: &[u16],
    loader: u8,
    file: &[u8],
    p: u32,
    new_ties: &mut [u16],
    new_subtypes: &[u16],
    noted: u16,
) -> Result<Newcomer, Refusal>
    requires { Loadable base.now.counts.now base.now.classes.now base.now.kept.now base.now.cache.now ties.now subtypes.now × (length file.now ≤ file_limit) × (method_count file.now ≤ member_limit) × (length new_ties.old ≡ tried_ties_length) × (find (base_of base.now).cache (at loader (super_name file.now)) ≡ some p) }
    ensures { (ns : List Note) → NotesPosted ns loader subtypes.now (get_or base.now.counts.now count_subtypes 0) new_subtypes.now noted → Decided result (posted_for (leb (get_or base.now.counts.now count_kept 0 + length file.now) kept_limit) (class_of loader (quick_file file.now)) (world_in base.now.counts.now base.now.classes.now base.now.kept.now base.now.cache.now ties.now subtypes.now) ns p) (placed_after (class_of loader (quick_file file.now)) (world_in base.now.counts.now base.now.classes.now base.now.kept.now base.now.cache.now ties.now subtypes.now) ns) base.now.counts.now ties.now subtypes.now new_ties.new new_subtypes.now (world_in base.now.counts.now base.now.classes.now base.now.kept.now base.now.cache.now ties.now subtypes.now) (class_of loader (quick_file file.now)) }
{
    entries::write_cells(new_ties, 0, ties);
    let tied = post_methods(base, new_ties, at(base.counts, COUNT_TIES), loader, p, file);
    if SUBTYPE_LIMIT < noted {
        return Err(Refusal::Word(WORD_FULL));
    }
    if !has_room(base, p, file, tied) {
        return Err(Refusal::Word(WORD_FULL));
    }
    Ok(Newcomer {
        loader,
        name: classfile::class_name(file),
        class: at(base.counts, COUNT_CLASSES),
        above: (p + 1) as u8,
        tied,
        noted,
    })
}
