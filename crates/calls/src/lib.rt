// One function for every call of the machine.
#![tactic(auto)]

ghost use Rattle.std.specs.Prelude.{◌≡◌, ◌≤◌};
ghost use Rattle.definition.specs.Tables.{tables};
ghost use Rattle.definition.specs.Numbers.{list_limit};
ghost use Rattle.definition.specs.Calls.{done, call_try, load_define, load_record, perform};
ghost use Rattle.calls.specs.Made.{call_of, Serves};

use definition::Reply;
use definition::numbers::LIST_LIMIT;

// A call with its numbers; a tried load's last is the length of the list. A define's file, tried or not, is lent beside it.
#[derive(Clone, Copy)]
pub enum Call {
    Boot,
    Define(u32),
    Record(u32, u32, u32),
    Start(u32, u32, u16, u16, u32),
    Step,
    Run(u32),
    Drop(u32),
    Sweep,
    TryDefine(u32, u32),
    TryRecord(u32, u32, u32, u32),
    TakeBack,
}

// How many cells of a list of its own a try is lent, where its caller has n: all of them, or as many as it asks for.
fn lent(n: u32) -> usize
    ensures { (result ≤ list_limit) × Serves result n }
{
    (n as usize).min(LIST_LIMIT)
}

// A define is tried, and what it lists let go.
fn try_define(
    counts: &[u16],
    classes: &[u16],
    kept: &[u8],
    cache: &[u16],
    ties: &[u16],
    subtypes: &[u16],
    objects: &[u32],
    frames: &[u32],
    loader: u32,
    n: u32,
    file: &[u8],
) -> Reply
    ensures { done result (tables counts.now classes.now kept.now cache.now ties.now subtypes.now objects.now frames.now) ≡ perform (call_try (load_define loader file.now) n) (tables counts.now classes.now kept.now cache.now ties.now subtypes.now objects.now frames.now) }
{
    let mut list = [0u16; LIST_LIMIT];
    let end = lent(n);
    let tried = loading::try_define(
        counts,
        classes,
        kept,
        cache,
        ties,
        subtypes,
        objects,
        frames,
        loader,
        file,
        &mut list[0..end],
    );
    tried.reply
}

// A record is tried, and what it lists let go. Only the call that the tables are lent to is another than a define's, and a closure would have to lend all of them.
fn try_record(
    counts: &[u16],
    classes: &[u16],
    kept: &[u8],
    cache: &[u16],
    ties: &[u16],
    subtypes: &[u16],
    objects: &[u32],
    frames: &[u32],
    loader: u32,
    name: u32,
    class: u32,
    n: u32,
) -> Reply
    ensures { done result (tables counts.now classes.now kept.now cache.now ties.now subtypes.now objects.now frames.now) ≡ perform (call_try (load_record loader name class) n) (tables counts.now classes.now kept.now cache.now ties.now subtypes.now objects.now frames.now) }
{
    let mut list = [0u16; LIST_LIMIT];
    let end = lent(n);
    let tried = loading::try_record(
        counts,
        classes,
        kept,
        cache,
        ties,
        subtypes,
        objects,
        frames,
        loader,
        name,
        class,
        &mut list[0..end],
    );
    tried.reply
}

// The call is made. Only a define, tried or not, reads the file.
#[tactic(auto, unfolding(crate::specs::Made::call_of, definition::specs::Calls::perform))]
pub fn perform(
    counts: &mut [u16],
    classes: &mut [u16],
    kept: &mut [u8],
    cache: &mut [u16],
    ties: &mut [u16],
    subtypes: &mut [u16],
    objects: &mut [u32],
    frames: &mut [u32],
    call: Call,
    file: &[u8],
) -> Reply
    ensures { done result (tables counts.new classes.new kept.new cache.new ties.new subtypes.new objects.new frames.new) ≡ perform (call_of call file.now) (tables counts.old classes.old kept.old cache.old ties.old subtypes.old objects.old frames.old) }
{
    match call {
        Call::Boot => loading::boot(
            counts, classes, kept, cache, ties, subtypes, objects, frames,
        ),
        Call::Define(loader) => loading::define(
            counts, classes, kept, cache, ties, subtypes, objects, frames, loader, file,
        ),
        Call::Record(loader, name, class) => loading::record(
            counts, classes, kept, cache, ties, subtypes, objects, frames, loader, name, class,
        ),
        Call::Start(task, loader, name, method, value) => execution::start(
            counts, classes, kept, cache, ties, subtypes, objects, frames, task, loader, name,
            method, value,
        ),
        Call::Step => Reply::Stepped(execution::step(
            counts, classes, kept, cache, ties, subtypes, objects, frames,
        )),
        Call::Run(n) => execution::run(
            counts, classes, kept, cache, ties, subtypes, objects, frames, n,
        ),
        Call::Drop(task) => loading::drop_task(
            counts, classes, kept, cache, ties, subtypes, objects, frames, task,
        ),
        Call::Sweep => sweeping::sweep(
            counts, classes, kept, cache, ties, subtypes, objects, frames,
        ),
        Call::TryDefine(loader, n) => try_define(
            counts, classes, kept, cache, ties, subtypes, objects, frames, loader, n, file,
        ),
        Call::TryRecord(loader, name, class, n) => try_record(
            counts, classes, kept, cache, ties, subtypes, objects, frames, loader, name, class, n,
        ),
        Call::TakeBack => undoing::take_back(
            counts, classes, kept, cache, ties, subtypes, objects, frames,
        ),
    }
}
