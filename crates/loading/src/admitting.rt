// Loads admitted or refused: every test but that of agreement.
ghost use Rattle.std.specs.Prelude.{◌≡◌, List, ◌+◌, ◌<◌, ◌≤◌, length, get_or, leb};
ghost use Rattle.definition.specs.Numbers.{loader_limit, kept_limit, file_limit, member_limit, count_kept, count_classes, count_subtypes, subtypes_length};
ghost use Rattle.definition.specs.Tables.{tables};
ghost use Rattle.definition.specs.Reasons.{after_define};
ghost use Rattle.definition.specs.File.{class_of};
ghost use Rattle.classfile.specs.Reading.{method_count, quick_file};
ghost use Rattle.definition.specs.Verifier.{Note};
ghost use Rattle.entries.specs.World.{world_in, Loadable};
ghost use Rattle.loading.specs.Posting.{tried_ties_length, NotesPosted};
ghost use Rattle.loading.specs.Stages.{placed_for, defined_from, placed_after, Decided};
ghost use Rattle.loading.specs.Entering.{Enters};
ghost use Rattle.loading.specs.Plans.{load_of, held, Lent, known, Admitted};

use crate::constraining::admit_constraints;
use crate::loads::{Load, Newcomer, Plan};
use crate::superclasses::find_super;
use definition::Refusal;
use definition::numbers::{
    CACHE_LIMIT, COUNT_CACHE, COUNT_SUBTYPES, COUNT_TIES, LIST_LIMIT, LOADER_LIMIT, NAME_OBJECT,
    WORD_BROKEN, WORD_FILE, WORD_FULL, WORD_MISNAMED, WORD_SHORT, WORD_TAKEN, WORD_UNKNOWN,
    WORD_UNMAPPED, WORD_UNVERIFIED,
};
use resolution::Base;

// The least name of a class, as a number that the host gives.
const LEAST_CLASS_NAME: u32 = NAME_OBJECT as u32;

// The superclass, then the constraints, of a file that was read and verified, and whose notes stand in a copy of the subtype constraints.
fn admit_class(
    base: &Base,
    ties: &[u16],
    subtypes: &[u16],
    loader: u8,
    file: &[u8],
    new_ties: &mut [u16],
    new_subtypes: &[u16],
    noted: u16,
) -> Result<Newcomer, Refusal>
    requires { Loadable base.now.counts.now base.now.classes.now base.now.kept.now base.now.cache.now ties.now subtypes.now × (length file.now ≤ file_limit) × (method_count file.now ≤ member_limit) × (length new_ties.old ≡ tried_ties_length) }
    ensures { (ns : List Note) → NotesPosted ns loader subtypes.now (get_or base.now.counts.now count_subtypes 0) new_subtypes.now noted → Decided result (placed_for (leb (get_or base.now.counts.now count_kept 0 + length file.now) kept_limit) (class_of loader (quick_file file.now)) (world_in base.now.counts.now base.now.classes.now base.now.kept.now base.now.cache.now ties.now subtypes.now) ns) (placed_after (class_of loader (quick_file file.now)) (world_in base.now.counts.now base.now.classes.now base.now.kept.now base.now.cache.now ties.now subtypes.now) ns) base.now.counts.now ties.now subtypes.now new_ties.new new_subtypes.now (world_in base.now.counts.now base.now.classes.now base.now.kept.now base.now.cache.now ties.now subtypes.now) (class_of loader (quick_file file.now)) }
{
    let p = find_super(base, loader, file)?;
    admit_constraints(
        base,
        ties,
        subtypes,
        loader,
        file,
        p,
        new_ties,
        new_subtypes,
        noted,
    )
}

// The file rules, then the verifier, whose notes are posted to a copy of the subtype constraints, then the class.
fn admit_file(
    base: &Base,
    ties: &[u16],
    subtypes: &[u16],
    loader: u8,
    file: &[u8],
    new_ties: &mut [u16],
    new_subtypes: &mut [u16],
) -> Result<Newcomer, Refusal>
    requires { Loadable base.now.counts.now base.now.classes.now base.now.kept.now base.now.cache.now ties.now subtypes.now × (loader < loader_limit) × (length new_ties.old ≡ tried_ties_length) × (length new_subtypes.old ≡ subtypes_length) }
    ensures { Decided result (defined_from loader file.now (leb (get_or base.now.counts.now count_kept 0 + length file.now) kept_limit) (world_in base.now.counts.now base.now.classes.now base.now.kept.now base.now.cache.now ties.now subtypes.now)) (after_define loader file.now (world_in base.now.counts.now base.now.classes.now base.now.kept.now base.now.cache.now ties.now subtypes.now)) base.now.counts.now ties.now subtypes.now new_ties.new new_subtypes.new (world_in base.now.counts.now base.now.classes.now base.now.kept.now base.now.cache.now ties.now subtypes.now) (class_of loader (quick_file file.now)) }
{
    if !classfile::reads(file) {
        return Err(Refusal::Word(WORD_FILE));
    }
    if verifier::is_class_unmapped(file) {
        return Err(Refusal::Word(WORD_UNMAPPED));
    }
    entries::write_cells(new_subtypes, 0, subtypes);
    let count = cells::at(base.counts, COUNT_SUBTYPES);
    let Ok(noted) = verifier::verify_class(file, loader, new_subtypes, count) else {
        return Err(Refusal::Word(WORD_UNVERIFIED));
    };
    admit_class(
        base,
        ties,
        subtypes,
        loader,
        file,
        new_ties,
        new_subtypes,
        noted,
    )
}

// The entry of a class that is there: its name, what is cached, and the limit.
fn admit_entry(base: &Base, loader: u8, name: u32, class: u16) -> Plan
    requires { class < get_or base.now.counts.now count_classes 0 }
    ensures { Enters result base.now.counts.now base.now.classes.now base.now.kept.now base.now.cache.now loader name class }
{
    let own = base.name_of(u32::from(class));
    if u32::from(own) != name {
        return Err(Refusal::Word(WORD_MISNAMED));
    }
    let found = base.find(u16::from(loader), own);
    if let Some(d) = found {
        if d == u32::from(class) {
            return Ok(None);
        }
        return Err(Refusal::Word(WORD_TAKEN));
    }
    if CACHE_LIMIT <= cells::at(base.counts, COUNT_CACHE) {
        return Err(Refusal::Word(WORD_FULL));
    }
    Ok(Some(Newcomer {
        loader,
        name: own,
        class,
        above: 0,
        tied: cells::at(base.counts, COUNT_TIES),
        noted: cells::at(base.counts, COUNT_SUBTYPES),
    }))
}

// The numbers of a load are a loader's, the name of a class, and a class's.
fn is_known(base: &Base, load: Load) -> bool
    ensures { result ≡ known load base.now.counts.now }
{
    match load {
        Load::Define(loader) => loader < LOADER_LIMIT,
        Load::Record(loader, name, class) => {
            if LOADER_LIMIT <= loader {
                return false;
            }
            if name < LEAST_CLASS_NAME {
                return false;
            }
            base.is_class(class)
        }
    }
}

// A load, with its file if it is a define, offered with a list of that size: every refusal but that of a clash. A define's ties and notes are posted to
// copies of both tables of constraints; a record asks for none.
pub(crate) fn admit(
    counts: &[u16],
    classes: &[u16],
    kept: &[u8],
    cache: &[u16],
    ties: &[u16],
    subtypes: &[u16],
    objects: &[u32],
    frames: &[u32],
    load: Load,
    file: &[u8],
    size: usize,
    new_ties: &mut [u16],
    new_subtypes: &mut [u16],
) -> Plan
    requires { Lent load new_ties.old new_subtypes.old }
    ensures { Admitted result (load_of load file.now) (tables counts.now classes.now kept.now cache.now ties.now subtypes.now objects.now frames.now) size (held load ties.now new_ties.new) (held load subtypes.now new_subtypes.new) }
{
    if store::is_broken(
        counts, classes, kept, cache, ties, subtypes, objects, frames,
    ) {
        return Err(Refusal::Word(WORD_BROKEN));
    }
    let base = Base {
        counts,
        classes,
        kept,
        cache,
    };
    if !is_known(&base, load) {
        return Err(Refusal::Word(WORD_UNKNOWN));
    }
    if size < LIST_LIMIT {
        return Err(Refusal::Word(WORD_SHORT));
    }
    match load {
        Load::Define(loader) => {
            let n = admit_file(
                &base,
                ties,
                subtypes,
                loader as u8,
                file,
                new_ties,
                new_subtypes,
            )?;
            Ok(Some(n))
        }
        Load::Record(loader, name, class) => admit_entry(&base, loader as u8, name, class as u16),
    }
}
