// The calls of the machine for a host program in C. Each takes the eight tables, the call's numbers or file, and a table of six cells
// for the answer: the kind of the reply, the refusal's number, three details as a script's line prints them, and the count of steps that ran,
// or of a tried load the length of the chain that it listed. A search that finds an order fills eight cells more. C passes each table as a parameter of its
// own, and reads some of them alone, so each export lists those that it is lent.
#![tactic(auto)]

ghost use Rattle.std.specs.Prelude.{◌≡◌, List, [], ◌∷◌, ℕ, ◌-◌, get_or, set};
ghost use Rattle.definition.specs.Lists.{write_rows};
ghost use Rattle.definition.specs.Answers.{count_of, number_of};
ghost use Rattle.definition.specs.Reasons.{tries};
ghost use Rattle.definition.specs.Tables.{tables};
ghost use Rattle.definition.specs.Calls.{call_boot, call_define, call_record, call_start, call_step, call_run, call_drop, call_sweep, call_take_back, load_define, load_record};
ghost use Rattle.searching.specs.Replayed.{numbers_in};
ghost use Rattle.searching.specs.Found.{sought_by};
ghost use Rattle.host.specs.Findings.{six_cells, order_cells, Told, SearchedOn};
ghost use Rattle.definition.specs.Listing.{stored_row};
ghost use Rattle.listing.specs.Answers.{listed_of};
ghost use Rattle.host.specs.Rows.{RowTold};
ghost use Rattle.host.specs.Answers.{kind_of, number_given, Reported, Called, ChangedOver, tried_cells, TriedOn};

use definition::numbers::OFFER_LIMIT;
use definition::{Refusal, Reply, Trial};
use listing::Constraint;
use searching::Order;

// 0 accepted, 1 defined, 2 stepped, 3 ran, 4 denied, 5 swept.
#[tactic(auto, unfolding(crate::specs::Answers::kind_of))]
fn kind_of(reply: Reply) -> u32
    ensures { result ≡ kind_of reply }
{
    match reply {
        Reply::Accepted => 0,
        Reply::Defined(_) => 1,
        Reply::Stepped(_) => 2,
        Reply::RanFor(_, _) => 3,
        Reply::Denied(_) => 4,
        Reply::Swept(_) => 5,
    }
}

#[tactic(auto, unfolding(definition::specs::Answers::count_of))]
fn count_of(reply: Reply) -> u32
    ensures { result ≡ count_of reply }
{
    match reply {
        Reply::RanFor(count, _) => u32::from(count),
        _ => 0,
    }
}

// The number of a reply whose details have that refusal's number: a run is accepted, whatever its last answer is.
#[tactic(auto, unfolding(crate::specs::Answers::number_given))]
fn number_of(reply: Reply, refusal: u8) -> u8
    ensures { result ≡ number_given reply refusal }
{
    match reply {
        Reply::RanFor(_, _) => 0,
        _ => refusal,
    }
}

// Cells written one after another from the table's front on, as many as it has room for.
fn put_cells(answer: &mut [u32], row: &[u32])
    ensures { answer.new ≡ write_rows set row.now 0 answer.old }
{
    for (i, cell) in row.iter().enumerate() {
        cells::put(answer, i, *cell);
    }
}

// A reply written into the answer table, as much of it as the table has room for; answers the reply's number.
fn report(answer: &mut [u32], turn: u8, reply: Reply) -> u8
    ensures { Reported turn reply answer.old answer.new result }
{
    let details = script::details_of(turn, reply);
    put_cells(
        answer,
        &[
            kind_of(reply),
            u32::from(details.refusal),
            details.one,
            details.two,
            details.three,
            count_of(reply),
        ],
    );
    number_of(reply, details.refusal)
}

// A tried load's reply, with the chain's length where a run has its steps.
fn report_trial(answer: &mut [u32], turn: u8, trial: Trial) -> u8
    ensures { ((list : List ℕ) → answer.new ≡ write_rows set (tried_cells turn (tries trial.reply trial.count list)) 0 answer.old) × (result ≡ number_of trial.reply) }
{
    let number = report(answer, turn, trial.reply);
    cells::put(answer, 5, u32::from(trial.count));
    number
}

// Kinds of a search's answer, beside 4.
const FOUND: u32 = 6;

const NONE: u32 = 7;

// The six cells of such a kind.
fn report_kind(answer: &mut [u32], kind: u32, one: u32)
    ensures { answer.new ≡ write_rows set (six_cells kind one) 0 answer.old }
{
    put_cells(answer, &[kind, 0, one, 0, 0, 0]);
}

// The next digit of an order of n loads of which i are told, 0 behind the last.
fn next_offer(n: u32, i: usize, rest: u32) -> u32
    ensures { result ≡ get_or (numbers_in (n - i) rest) 0 0 }
{
    if i < n as usize { rest % 8 } else { 0 }
}

// The numbers of an order's offers, one a cell, and 0 behind them.
fn report_order(answer: &mut [u32], n: u32, order: u32)
    ensures { answer.new ≡ write_rows set (order_cells (numbers_in n order)) 6 answer.old }
{
    let mut rest = order;
    for i in 0..OFFER_LIMIT {
        cells::put(answer, 6 + i, next_offer(n, i, rest));
        rest = rest / 8;
    }
}

// What a search answers, as much of it as the table has room for.
fn report_finding(answer: &mut [u32], finding: Result<Option<Order>, Refusal>) -> u8
    ensures { Told (sought_by finding) answer.old answer.new result }
{
    match finding {
        Ok(Some(order)) => {
            report_kind(answer, FOUND, order.loads);
            report_order(answer, order.loads, order.code);
            0
        }
        Ok(None) => {
            report_kind(answer, NONE, 0);
            0
        }
        Err(refusal) => report(answer, 0, Reply::Denied(refusal)),
    }
}

// boot: class 0 is Object, the cache holds only (0, 2), all other rows are emptied.
#[unsafe(no_mangle)]
pub extern "C" fn tariff_boot(
    counts: &mut [u16],
    classes: &mut [u16],
    kept: &[u8],
    cache: &mut [u16],
    ties: &[u16],
    subtypes: &[u16],
    objects: &[u32],
    frames: &[u32],
    answer: &mut [u32],
) -> u8
    ensures { Called call_boot (tables counts.old classes.old kept.now cache.old ties.now subtypes.now objects.now frames.now) (tables counts.new classes.new kept.now cache.new ties.now subtypes.now objects.now frames.now) answer.old answer.new result }
{
    let turn = tasks::turn(counts);
    let reply = loading::boot(
        counts, classes, kept, cache, ties, subtypes, objects, frames,
    );
    report(answer, turn, reply)
}

// define: a class from its file.
#[unsafe(no_mangle)]
pub extern "C" fn tariff_define(
    counts: &mut [u16],
    classes: &mut [u16],
    kept: &mut [u8],
    cache: &mut [u16],
    ties: &mut [u16],
    subtypes: &mut [u16],
    objects: &[u32],
    frames: &[u32],
    loader: u32,
    file: &[u8],
    answer: &mut [u32],
) -> u8
    ensures { Called (call_define loader file.now) (tables counts.old classes.old kept.old cache.old ties.old subtypes.old objects.now frames.now) (tables counts.new classes.new kept.new cache.new ties.new subtypes.new objects.now frames.now) answer.old answer.new result }
{
    let turn = tasks::turn(counts);
    let reply = loading::define(
        counts, classes, kept, cache, ties, subtypes, objects, frames, loader, file,
    );
    report(answer, turn, reply)
}

// record: the answer of a loader that delegated.
#[unsafe(no_mangle)]
pub extern "C" fn tariff_record(
    counts: &mut [u16],
    classes: &[u16],
    kept: &[u8],
    cache: &mut [u16],
    ties: &[u16],
    subtypes: &[u16],
    objects: &[u32],
    frames: &[u32],
    loader: u32,
    name: u32,
    class: u32,
    answer: &mut [u32],
) -> u8
    ensures { Called (call_record loader name class) (tables counts.old classes.now kept.now cache.old ties.now subtypes.now objects.now frames.now) (tables counts.new classes.now kept.now cache.new ties.now subtypes.now objects.now frames.now) answer.old answer.new result }
{
    let turn = tasks::turn(counts);
    let reply = loading::record(
        counts, classes, kept, cache, ties, subtypes, objects, frames, loader, name, class,
    );
    report(answer, turn, reply)
}

// start: a new object of the cached class, and a first frame in its method with that int.
#[unsafe(no_mangle)]
pub extern "C" fn tariff_start(
    counts: &mut [u16],
    classes: &[u16],
    kept: &[u8],
    cache: &[u16],
    ties: &[u16],
    subtypes: &[u16],
    objects: &mut [u32],
    frames: &mut [u32],
    task: u32,
    loader: u32,
    name: u16,
    method: u16,
    value: u32,
    answer: &mut [u32],
) -> u8
    ensures { Called (call_start task loader name method value) (tables counts.old classes.now kept.now cache.now ties.now subtypes.now objects.old frames.old) (tables counts.new classes.now kept.now cache.now ties.now subtypes.now objects.new frames.new) answer.old answer.new result }
{
    let turn = tasks::turn(counts);
    let reply = execution::start(
        counts, classes, kept, cache, ties, subtypes, objects, frames, task, loader, name, method,
        value,
    );
    report(answer, turn, reply)
}

// step: one instruction of the quote if it has a frame, else of the report.
#[unsafe(no_mangle)]
pub extern "C" fn tariff_step(
    counts: &mut [u16],
    classes: &[u16],
    kept: &[u8],
    cache: &[u16],
    ties: &mut [u16],
    subtypes: &[u16],
    objects: &mut [u32],
    frames: &mut [u32],
    answer: &mut [u32],
) -> u8
    ensures { Called call_step (tables counts.old classes.now kept.now cache.now ties.old subtypes.now objects.old frames.old) (tables counts.new classes.now kept.now cache.now ties.new subtypes.now objects.new frames.new) answer.old answer.new result }
{
    let turn = tasks::turn(counts);
    let result = execution::step(
        counts, classes, kept, cache, ties, subtypes, objects, frames,
    );
    report(answer, turn, Reply::Stepped(result))
}

// run: up to n steps, ended by the first answer other than ran.
#[unsafe(no_mangle)]
pub extern "C" fn tariff_run(
    counts: &mut [u16],
    classes: &[u16],
    kept: &[u8],
    cache: &[u16],
    ties: &mut [u16],
    subtypes: &[u16],
    objects: &mut [u32],
    frames: &mut [u32],
    n: u32,
    answer: &mut [u32],
) -> u8
    ensures { Called (call_run n) (tables counts.old classes.now kept.now cache.now ties.old subtypes.now objects.old frames.old) (tables counts.new classes.now kept.now cache.now ties.new subtypes.now objects.new frames.new) answer.old answer.new result }
{
    let turn = tasks::turn(counts);
    let reply = execution::run(
        counts, classes, kept, cache, ties, subtypes, objects, frames, n,
    );
    report(answer, turn, reply)
}

// drop: the task's frames are cleared.
#[unsafe(no_mangle)]
pub extern "C" fn tariff_drop(
    counts: &mut [u16],
    classes: &[u16],
    kept: &[u8],
    cache: &[u16],
    ties: &[u16],
    subtypes: &[u16],
    objects: &[u32],
    frames: &[u32],
    task: u32,
    answer: &mut [u32],
) -> u8
    ensures { Called (call_drop task) (tables counts.old classes.now kept.now cache.now ties.now subtypes.now objects.now frames.now) (tables counts.new classes.now kept.now cache.now ties.now subtypes.now objects.now frames.now) answer.old answer.new result }
{
    let turn = tasks::turn(counts);
    let reply = loading::drop_task(
        counts, classes, kept, cache, ties, subtypes, objects, frames, task,
    );
    report(answer, turn, reply)
}

// sweep: every object that no frame reaches is freed.
#[unsafe(no_mangle)]
pub extern "C" fn tariff_sweep(
    counts: &mut [u16],
    classes: &[u16],
    kept: &[u8],
    cache: &[u16],
    ties: &[u16],
    subtypes: &[u16],
    objects: &[u32],
    frames: &[u32],
    answer: &mut [u32],
) -> u8
    ensures { Called call_sweep (tables counts.old classes.now kept.now cache.now ties.now subtypes.now objects.now frames.now) (tables counts.new classes.now kept.now cache.now ties.now subtypes.now objects.now frames.now) answer.old answer.new result }
{
    let turn = tasks::turn(counts);
    let reply = sweeping::sweep(
        counts, classes, kept, cache, ties, subtypes, objects, frames,
    );
    report(answer, turn, reply)
}

// take back: the latest load that changed the store is undone, where no call closed it.
#[unsafe(no_mangle)]
pub extern "C" fn tariff_take_back(
    counts: &mut [u16],
    classes: &[u16],
    kept: &[u8],
    cache: &[u16],
    ties: &[u16],
    subtypes: &[u16],
    objects: &[u32],
    frames: &[u32],
    answer: &mut [u32],
) -> u8
    ensures { Called call_take_back (tables counts.old classes.now kept.now cache.now ties.now subtypes.now objects.now frames.now) (tables counts.new classes.now kept.now cache.now ties.now subtypes.now objects.now frames.now) answer.old answer.new result }
{
    let turn = tasks::turn(counts);
    let reply = undoing::take_back(
        counts, classes, kept, cache, ties, subtypes, objects, frames,
    );
    report(answer, turn, reply)
}

// change over: the new tables are filled from a store of the first document, with frames half run. The old tables are only read.
#[unsafe(no_mangle)]
pub extern "C" fn tariff_change_over(
    old_counts: &[u16],
    old_classes: &[u16],
    old_kept: &[u8],
    old_cache: &[u16],
    old_ties: &[u16],
    old_subtypes: &[u16],
    old_objects: &[u32],
    old_frames: &[u32],
    counts: &mut [u16],
    classes: &mut [u16],
    kept: &mut [u8],
    cache: &mut [u16],
    ties: &mut [u16],
    subtypes: &mut [u16],
    objects: &mut [u32],
    frames: &mut [u32],
    answer: &mut [u32],
) -> u8
    ensures { ChangedOver (tables old_counts.now old_classes.now old_kept.now old_cache.now old_ties.now old_subtypes.now old_objects.now old_frames.now) (tables counts.old classes.old kept.old cache.old ties.old subtypes.old objects.old frames.old) (tables counts.new classes.new kept.new cache.new ties.new subtypes.new objects.new frames.new) answer.old answer.new result }
{
    let reply = changing::change_over(
        old_counts,
        old_classes,
        old_kept,
        old_cache,
        old_ties,
        old_subtypes,
        old_objects,
        old_frames,
        counts,
        classes,
        kept,
        cache,
        ties,
        subtypes,
        objects,
        frames,
    );
    report(answer, 0, reply)
}

// A define tried: what it would answer, and on a clash why. No table of the store is written.
#[unsafe(no_mangle)]
pub extern "C" fn tariff_try_define(
    counts: &[u16],
    classes: &[u16],
    kept: &[u8],
    cache: &[u16],
    ties: &[u16],
    subtypes: &[u16],
    objects: &[u32],
    frames: &[u32],
    loader: u32,
    file: &[u8],
    list: &mut [u16],
    answer: &mut [u32],
) -> u8
    ensures { TriedOn (load_define loader file.now) (tables counts.now classes.now kept.now cache.now ties.now subtypes.now objects.now frames.now) list.old list.new answer.old answer.new result }
{
    let turn = tasks::turn(counts);
    let trial = loading::try_define(
        counts, classes, kept, cache, ties, subtypes, objects, frames, loader, file, list,
    );
    report_trial(answer, turn, trial)
}

// A record tried.
#[unsafe(no_mangle)]
pub extern "C" fn tariff_try_record(
    counts: &[u16],
    classes: &[u16],
    kept: &[u8],
    cache: &[u16],
    ties: &[u16],
    subtypes: &[u16],
    objects: &[u32],
    frames: &[u32],
    loader: u32,
    name: u32,
    class: u32,
    list: &mut [u16],
    answer: &mut [u32],
) -> u8
    ensures { TriedOn (load_record loader name class) (tables counts.now classes.now kept.now cache.now ties.now subtypes.now objects.now frames.now) list.old list.new answer.old answer.new result }
{
    let turn = tasks::turn(counts);
    let trial = loading::try_record(
        counts, classes, kept, cache, ties, subtypes, objects, frames, loader, name, class, list,
    );
    report_trial(answer, turn, trial)
}

// how: an order of offered loads that is accepted throughout and ends with the request cached, found on a second store. The box's tables are only read.
#[unsafe(no_mangle)]
pub extern "C" fn tariff_how(
    counts: &[u16],
    classes: &[u16],
    kept: &[u8],
    cache: &[u16],
    ties: &[u16],
    subtypes: &[u16],
    objects: &[u32],
    frames: &[u32],
    second_counts: &mut [u16],
    second_classes: &mut [u16],
    second_kept: &mut [u8],
    second_cache: &mut [u16],
    second_ties: &mut [u16],
    second_subtypes: &mut [u16],
    second_objects: &mut [u32],
    second_frames: &mut [u32],
    loader: u32,
    name: u16,
    offers: &[u32],
    files: &[u8],
    answer: &mut [u32],
) -> u8
    ensures { SearchedOn loader name offers.now files.now (tables counts.now classes.now kept.now cache.now ties.now subtypes.now objects.now frames.now) (tables second_counts.old second_classes.old second_kept.old second_cache.old second_ties.old second_subtypes.old second_objects.old second_frames.old) (tables second_counts.new second_classes.new second_kept.new second_cache.new second_ties.new second_subtypes.new second_objects.new second_frames.new) answer.old answer.new result }
{
    let finding = searching::search(
        counts,
        classes,
        kept,
        cache,
        ties,
        subtypes,
        objects,
        frames,
        second_counts,
        second_classes,
        second_kept,
        second_cache,
        second_ties,
        second_subtypes,
        second_objects,
        second_frames,
        loader,
        name,
        offers,
        files,
    );
    report_finding(answer, finding)
}

// A row's kind and its three cells.
fn write_row(answer: &mut [u32], kind: u32, one: u16, two: u16, three: u16)
    ensures { answer.new ≡ write_rows set (kind ∷ 0 ∷ one ∷ two ∷ three ∷ 0 ∷ []) 0 answer.old }
{
    put_cells(
        answer,
        &[kind, 0, u32::from(one), u32::from(two), u32::from(three), 0],
    );
}

// 8 a tie, 9 a subtype constraint.
fn report_row(answer: &mut [u32], listed: Result<Constraint, Refusal>) -> u8
    ensures { RowTold (listed_of listed) answer.old answer.new result }
{
    match listed {
        Ok(Constraint::Tied(one, two, name)) => {
            write_row(answer, 8, one, two, name);
            0
        }
        Ok(Constraint::Below(loader, low, high)) => {
            write_row(answer, 9, loader, low, high);
            0
        }
        Err(refusal) => report(answer, 0, Reply::Denied(refusal)),
    }
}

// row: what a stored row of constraints says, by its number.
#[unsafe(no_mangle)]
pub extern "C" fn tariff_row(
    counts: &[u16],
    classes: &[u16],
    kept: &[u8],
    cache: &[u16],
    ties: &[u16],
    subtypes: &[u16],
    objects: &[u32],
    frames: &[u32],
    number: u32,
    answer: &mut [u32],
) -> u8
    ensures { RowTold (stored_row number (tables counts.now classes.now kept.now cache.now ties.now subtypes.now objects.now frames.now)) answer.old answer.new result }
{
    let listed = listing::row(
        counts, classes, kept, cache, ties, subtypes, objects, frames, number,
    );
    report_row(answer, listed)
}
