// boxscript: boots a store, then reads calls from standard input, one a line, and prints the answer of each. A line that it can't read ends
// it. Input is read into a window, which keeps the bytes of a line that is not whole yet.
#![tactic(auto)]

ghost use Rattle.std.specs.Prelude.{◌≤◌, IfSome, length};

use definition::numbers::{
    CACHE_LENGTH, CLASSES_LENGTH, COUNTS_LENGTH, FRAMES_LENGTH, KEPT_LENGTH, OBJECTS_LENGTH,
    SUBTYPES_LENGTH, TIES_LENGTH,
};
use std::io::{Read, Write};

// The eight tables of a store, lent together.
#[derive(Drop)]
struct Tables<'a> {
    counts: &'a mut [u16],
    classes: &'a mut [u16],
    kept: &'a mut [u8],
    cache: &'a mut [u16],
    ties: &'a mut [u16],
    subtypes: &'a mut [u16],
    objects: &'a mut [u32],
    frames: &'a mut [u32],
}

// How many bytes the window holds, and whether the input has ended.
#[derive(Clone, Copy)]
struct State {
    held: usize,
    last: bool,
}

// Reads on behind the bytes that the window holds; answers how many it holds then. A read that fails reads nothing, as at the end.
fn read_on(reader: &mut impl Read, window: &mut [u8], held: usize) -> usize
    requires { held ≤ length window.old }
    ensures { result ≤ length window.new }
{
    match reader.read(&mut window[held..]) {
        Ok(n) => held + n,
        Err(_) => held,
    }
}

// Carries out the lines that are ready, as many as the output has room for, and writes their answers: how many bytes were read. None where
// the script is over, by a line that can't be read or an answer that can't be written.
fn carry(
    writer: &mut impl Write,
    tables: &mut Tables,
    input: &[u8],
    last: bool,
    out: &mut [u8],
) -> Option<usize>
    ensures { IfSome result (λ n. n ≤ length input.now) }
{
    let progress = lines::carry_lines(
        tables.counts,
        tables.classes,
        tables.kept,
        tables.cache,
        tables.ties,
        tables.subtypes,
        tables.objects,
        tables.frames,
        input,
        last,
        out,
    );
    let written = progress.written;
    writer.write_all(&out[..written]).ok()?;
    (!progress.ended).then_some(progress.read)
}

// One turn: lines are carried out if some are ready, else more is read. None where the script is over.
fn turn(
    reader: &mut impl Read,
    writer: &mut impl Write,
    tables: &mut Tables,
    window: &mut [u8],
    state: State,
    out: &mut [u8],
) -> Option<State>
    requires { state.held ≤ length window.old }
    ensures { IfSome result (λ s. s.held ≤ length window.new) }
{
    let held = state.held;
    let last = state.last;
    let read = carry(writer, tables, &window[..held], last, out)?;
    if 0 < read {
        lines::keep_rest(window, read, held);
        return Some(State {
            held: held - read,
            last,
        });
    }
    if last {
        return None;
    }
    let n = read_on(reader, window, held);
    Some(State {
        held: n,
        last: n == held,
    })
}

// Turn after turn. A proved loop has to end, and nothing says that the input does: no run uses up so many turns.
fn talk(
    reader: &mut impl Read,
    writer: &mut impl Write,
    tables: &mut Tables,
    window: &mut [u8],
    out: &mut [u8],
) {
    let mut state = State {
        held: 0,
        last: false,
    };
    for _ in 0..u64::MAX {
        let Some(next) = turn(reader, writer, tables, window, state, out) else {
            break;
        };
        state = next;
    }
}

fn main(rt: HostRuntime) {
    let mut counts = [0u16; COUNTS_LENGTH];
    let mut classes = [0u16; CLASSES_LENGTH];
    let mut kept = [0u8; KEPT_LENGTH];
    let mut cache = [0u16; CACHE_LENGTH];
    let mut ties = [0u16; TIES_LENGTH];
    let mut subtypes = [0u16; SUBTYPES_LENGTH];
    let mut objects = [0u32; OBJECTS_LENGTH];
    let mut frames = [0u32; FRAMES_LENGTH];
    loading::boot(
        &mut counts,
        &mut classes,
        &kept,
        &mut cache,
        &ties,
        &subtypes,
        &objects,
        &frames,
    );
    let mut tables = Tables {
        counts: &mut counts,
        classes: &mut classes,
        kept: &mut kept,
        cache: &mut cache,
        ties: &mut ties,
        subtypes: &mut subtypes,
        objects: &mut objects,
        frames: &mut frames,
    };
    let mut window = [0u8; 131072];
    let mut out = [0u8; 65536];
    let mut reader = rt.stdin();
    let mut writer = rt.stdout();
    talk(&mut reader, &mut writer, &mut tables, &mut window, &mut out);
}
