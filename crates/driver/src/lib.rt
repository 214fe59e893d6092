// A list of calls driven from boot: one function whose contract says that what it leaves is safe.
#![tactic(auto)]

ghost use Rattle.std.specs.Prelude.{◌≡◌, Some, List, ℕ, ◌+◌, ◌*◌, ◌<◌, ◌≤◌, length, leb};
ghost use Rattle.std.proofs.Math.Option.{none, some};
ghost use Rattle.definition.specs.Instructions.{pick};
ghost use Rattle.definition.specs.Tables.{tables};
ghost use Rattle.definition.specs.Calls.{boot, call_start};
ghost use Rattle.definition.specs.Answers.{number, number_of_step, number_of, ends_in, count_of};
ghost use Rattle.calls.specs.Made.{call_of};
ghost use Rattle.driver.specs.Encoded.{call_cells, answer_cells, file_in, call_in, calls_in};
ghost use Rattle.driver.specs.Driven.{put_reply, is_accepted, driven, performed, drive, SafelyDriven};
ghost use Rattle.driver.specs.Laws.{call_made, row_done, perform_row};

use calls::Call;
use definition::numbers::WORD_WANTED;
use definition::{Answer, Refusal, Reply};

// Cells of a row of the list, and of an answer's row.
const CALL_CELLS: usize = 6;

const ANSWER_CELLS: usize = 3;

// The word of a refusal that wants a class, as an answer's cell holds it.
const WANTED: u32 = WORD_WANTED as u32;

// What is told of an answer: its number, the number that a run ends in, and the count of steps that ran.
#[derive(Clone, Copy)]
struct Told {
    number: u32,
    end: u32,
    count: u32,
}

const NOTHING: Told = Told {
    number: 0,
    end: 0,
    count: 0,
};

// The number of a refusal: 5 if it wants a class.
#[tactic(auto, unfolding(definition::specs::Answers::number))]
fn refusal_number(refusal: Refusal) -> u32
    ensures { result ≡ number refusal }
{
    match refusal {
        Refusal::Wanted(_, _) => WANTED,
        Refusal::Word(n) => u32::from(n),
    }
}

// The number of a step's answer: 0 if it isn't refused.
#[tactic(auto, unfolding(definition::specs::Answers::number_of_step))]
fn step_number(a: Answer) -> u32
    ensures { result ≡ number_of_step a }
{
    match a {
        Answer::Refused(refusal) => refusal_number(refusal),
        Answer::Idle | Answer::Ran(_) | Answer::Finished(_, _) => 0,
    }
}

// A run is accepted, and ends in its last answer's number.
#[tactic(auto, unfolding(definition::specs::Answers::number_of, definition::specs::Answers::ends_in, definition::specs::Answers::count_of))]
fn tell(reply: Reply) -> Told
    ensures { (result.number ≡ number_of reply) × (result.end ≡ ends_in reply) × (result.count ≡ count_of reply) }
{
    match reply {
        Reply::Stepped(a) => Told {
            number: step_number(a),
            ..NOTHING
        },
        Reply::RanFor(count, a) => Told {
            number: 0,
            end: step_number(a),
            count: u32::from(count),
        },
        Reply::Denied(refusal) => Told {
            number: refusal_number(refusal),
            ..NOTHING
        },
        Reply::Accepted | Reply::Defined(_) | Reply::Swept(_) => NOTHING,
    }
}

// An answer written into row i, as far as the table has room.
fn write_answer(answers: &mut [u32], i: usize, reply: Reply)
    requires { i * answer_cells + 2 < 18446744073709551616 }
    ensures { answers.new ≡ put_reply answers.old i reply }
{
    let place = i * ANSWER_CELLS;
    let it = tell(reply);
    cells::put(answers, place, it.number);
    cells::put(answers, place + 1, it.end);
    cells::put(answers, place + 2, it.count);
}

// Boot answers this, or a refusal.
fn is_accepted(reply: Reply) -> bool
    ensures { result ≡ is_accepted reply }
{
    matches!(reply, Reply::Accepted)
}

// The file that row i names, a part of the bytes; none of them if it lies outside.
fn file_of<'a>(list: &[u32], files: &'a [u8], i: usize) -> &'a [u8]
    requires { i * call_cells + call_cells ≤ length list.now }
    ensures { result.now ≡ file_in list.now files.now i }
{
    let start = list[i * CALL_CELLS + 2] as usize;
    let end = start + list[i * CALL_CELLS + 3] as usize;
    if end <= files.len() {
        &files[start..end]
    } else {
        &files[0..0]
    }
}

// A call with a file, if that lies within so many bytes.
fn with_file(call: Call, start: u32, size: u32, room: usize) -> Option<Call>
    ensures { (bs : List ℕ) → call_made result bs ≡ pick (leb (start + size) room) (some (call_of call bs)) none }
{
    let end = start as usize + size as usize;
    (end <= room).then_some(call)
}

// A start, if its name and method are 16-bit numbers.
fn read_start(task: u32, loader: u32, name: u32, method: u32, value: u32) -> Option<Call>
    ensures { (bs : List ℕ) → call_made result bs ≡ pick (leb name 65535) (pick (leb method 65535) (some (call_start task loader name method value)) none) none }
{
    if 65535 < name {
        return None;
    }
    if 65535 < method {
        return None;
    }
    Some(Call::Start(task, loader, name as u16, method as u16, value))
}

// The call of row i, or none.
fn read_row(list: &[u32], files: &[u8], i: usize) -> Option<Call>
    requires { i * call_cells + call_cells ≤ length list.now }
    ensures { call_made result (file_in list.now files.now i) ≡ call_in list.now files.now i }
{
    let at = i * CALL_CELLS;
    let kind = list[at];
    let first = list[at + 1];
    match kind {
        0 => Some(Call::Boot),
        1 => with_file(Call::Define(first), list[at + 2], list[at + 3], files.len()),
        2 => Some(Call::Record(first, list[at + 2], list[at + 3])),
        3 => read_start(
            first,
            list[at + 2],
            list[at + 3],
            list[at + 4],
            list[at + 5],
        ),
        4 => Some(Call::Step),
        5 => Some(Call::Run(first)),
        6 => Some(Call::Drop(first)),
        7 => Some(Call::Sweep),
        8 => with_file(
            Call::TryDefine(first, list[at + 4]),
            list[at + 2],
            list[at + 3],
            files.len(),
        ),
        9 => Some(Call::TryRecord(first, list[at + 2], list[at + 3], list[at + 4])),
        10 => Some(Call::TakeBack),
        _ => None,
    }
}

// Row i: its call is performed, and the answer written into row i of the answers. False if it has none.
fn perform_row(
    counts: &mut [u16],
    classes: &mut [u16],
    kept: &mut [u8],
    cache: &mut [u16],
    ties: &mut [u16],
    subtypes: &mut [u16],
    objects: &mut [u32],
    frames: &mut [u32],
    list: &[u32],
    files: &[u8],
    answers: &mut [u32],
    i: usize,
) -> bool
    requires { i * call_cells + call_cells ≤ length list.now }
    ensures { row_done result (tables counts.new classes.new kept.new cache.new ties.new subtypes.new objects.new frames.new) answers.new ≡ perform_row (call_in list.now files.now i) i (tables counts.old classes.old kept.old cache.old ties.old subtypes.old objects.old frames.old) answers.old }
{
    let Some(call) = read_row(list, files, i) else {
        return false;
    };
    let file = file_of(list, files, i);
    let reply = calls::perform(
        counts, classes, kept, cache, ties, subtypes, objects, frames, call, file,
    );
    write_answer(answers, i, reply);
    true
}

// The rows one after another, up to the first that has no call: how many were performed.
fn perform_rows(
    counts: &mut [u16],
    classes: &mut [u16],
    kept: &mut [u8],
    cache: &mut [u16],
    ties: &mut [u16],
    subtypes: &mut [u16],
    objects: &mut [u32],
    frames: &mut [u32],
    list: &[u32],
    files: &[u8],
    answers: &mut [u32],
) -> usize
    ensures { driven (Some result) (tables counts.new classes.new kept.new cache.new ties.new subtypes.new objects.new frames.new) answers.new ≡ performed (calls_in list.now files.now) 0 (tables counts.old classes.old kept.old cache.old ties.old subtypes.old objects.old frames.old) answers.old }
{
    let n = list.len() / CALL_CELLS;
    for i in 0..n {
        if !perform_row(
            counts, classes, kept, cache, ties, subtypes, objects, frames, list, files, answers, i,
        ) {
            return i;
        }
    }
    n
}

// Boot, and if it is accepted the calls of the list, up to the first row that has none: how many were performed. None if boot is refused;
// then nothing is changed.
// From an accepted boot nothing is misplaced in the tables that are left, they are not broken, and no answer was 'stuck'.
pub fn drive(
    counts: &mut [u16],
    classes: &mut [u16],
    kept: &mut [u8],
    cache: &mut [u16],
    ties: &mut [u16],
    subtypes: &mut [u16],
    objects: &mut [u32],
    frames: &mut [u32],
    list: &[u32],
    files: &[u8],
    answers: &mut [u32],
) -> Option<usize>
    ensures left { driven result (tables counts.new classes.new kept.new cache.new ties.new subtypes.new objects.new frames.new) answers.new ≡ drive (calls_in list.now files.now) (tables counts.old classes.old kept.old cache.old ties.old subtypes.old objects.old frames.old) answers.old }
    ensures safe { (boot (tables counts.old classes.old kept.old cache.old ties.old subtypes.old objects.old frames.old)).answer ≡ Reply.Accepted → SafelyDriven (calls_in list.now files.now) (tables counts.old classes.old kept.old cache.old ties.old subtypes.old objects.old frames.old) (tables counts.new classes.new kept.new cache.new ties.new subtypes.new objects.new frames.new) answers.new }
{
    let reply = loading::boot(
        counts, classes, kept, cache, ties, subtypes, objects, frames,
    );
    if !is_accepted(reply) {
        return None;
    }
    let performed = perform_rows(
        counts, classes, kept, cache, ties, subtypes, objects, frames, list, files, answers,
    );
    Some(performed)
}
