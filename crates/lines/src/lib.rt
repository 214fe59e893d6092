// Lines of a script carried out: a call is read off a line's bytes, made, and its answer printed.
#![tactic(auto)]

ghost use Rattle.std.specs.Prelude.{◌≡◌, ◌≤◌, Some, length};
ghost use Rattle.definition.specs.Tables.{tables};
ghost use Rattle.definition.specs.Calls.{perform};
ghost use Rattle.definition.specs.Script.{read_line, turned, carry_out};
ghost use Rattle.calls.specs.Made.{call_of};
ghost use Rattle.cells.specs.Optional.{optional};
ghost use Rattle.lines.specs.Asked.{call_by, file_size, Heard};
ghost use Rattle.lines.specs.Carried.{left, printed_on, carried_on};
ghost use Rattle.lines.specs.Ready.{line_length, alone, first_line};
ghost use Rattle.lines.specs.Windows.{moved};
ghost use Rattle.lines.specs.Scripts.{carry_lines};
ghost use Rattle.lines.specs.Told.{told, told_of};

use calls::Call;
use script::Command;

// The first line of an input: how many bytes it has, and how many with its end.
#[derive(Clone, Copy)]
struct Cut {
    bytes: usize,
    size: usize,
}

// How far an input was carried out: bytes read, bytes written, and whether a line couldn't be read, where both counts stand as well.
#[derive(Clone, Copy)]
pub struct Progress {
    pub read: usize,
    pub written: usize,
    pub ended: bool,
}

#[tactic(auto, unfolding(crate::specs::Asked::call_by))]
fn call_by(command: Command) -> Call
    ensures { result ≡ call_by command }
{
    match command {
        Command::Record(loader, name, class) => {
            Call::Record(u32::from(loader), u32::from(name), u32::from(class))
        }
        Command::Define(loader, _) => Call::Define(u32::from(loader)),
        Command::Start(task, loader, name, method, value) => {
            Call::Start(u32::from(task), u32::from(loader), name, method, value)
        }
        Command::Step => Call::Step,
        Command::Drop(task) => Call::Drop(u32::from(task)),
    }
}

// How many bytes a command's file has; only a define has one.
#[tactic(auto, unfolding(crate::specs::Asked::file_size))]
fn file_size(command: Command) -> usize
    ensures { result ≡ file_size command }
{
    if let Command::Define(_, size) = command {
        size as usize
    } else {
        0
    }
}

// The command that a line asks for, with its file at the table's front.
fn read(line: &[u8], file: &mut [u8]) -> Option<Command>
    requires { 32768 ≤ length file.old }
    ensures { Heard (read_line line.now) result file.new }
{
    script::read_line(line, file)
}

// The call is made and its answer printed at the output's front.
fn answer(
    counts: &mut [u16],
    classes: &mut [u16],
    kept: &mut [u8],
    cache: &mut [u16],
    ties: &mut [u16],
    subtypes: &mut [u16],
    objects: &mut [u32],
    frames: &mut [u32],
    call: Call,
    file: &[u8],
    letter: u8,
    out: &mut [u8],
) -> usize
    ensures { left (Some result) (tables counts.new classes.new kept.new cache.new ties.new subtypes.new objects.new frames.new) out.new ≡ printed_on out.old (turned letter (tables counts.old classes.old kept.old cache.old ties.old subtypes.old objects.old frames.old) (perform (call_of call file.now) (tables counts.old classes.old kept.old cache.old ties.old subtypes.old objects.old frames.old))) }
{
    let turn = tasks::turn(counts);
    let reply = calls::perform(
        counts, classes, kept, cache, ties, subtypes, objects, frames, call, file,
    );
    let d = script::details_of(turn, reply);
    script::print_line(out, letter, d.refusal, d.one, d.two, d.three)
}

// One line of a script: its call is made and its answer printed at the output's front, as much of it as there is room for. Says how many
// bytes that are. A line that can't be read changes nothing.
pub fn carry_out(
    counts: &mut [u16],
    classes: &mut [u16],
    kept: &mut [u8],
    cache: &mut [u16],
    ties: &mut [u16],
    subtypes: &mut [u16],
    objects: &mut [u32],
    frames: &mut [u32],
    line: &[u8],
    out: &mut [u8],
) -> Option<usize>
    ensures { left result (tables counts.new classes.new kept.new cache.new ties.new subtypes.new objects.new frames.new) out.new ≡ carried_on (tables counts.old classes.old kept.old cache.old ties.old subtypes.old objects.old frames.old) out.old (carry_out line.now (tables counts.old classes.old kept.old cache.old ties.old subtypes.old objects.old frames.old)) }
{
    let mut file = [0u8; 32768];
    let command = read(line, &mut file)?;
    let printed = answer(
        counts,
        classes,
        kept,
        cache,
        ties,
        subtypes,
        objects,
        frames,
        call_by(command),
        &file[..file_size(command)],
        cells::at(line, 0),
        out,
    );
    Some(printed)
}

// How many bytes the first line has: those before the first byte 10, or all.
fn line_length(s: &[u8]) -> usize
    ensures { result ≡ line_length s.now }
{
    for (i, b) in s.iter().enumerate() {
        if *b == b'\n' {
            return i;
        }
    }
    s.len()
}

// Whether n bytes with no end are a line: they are too many to be read whatever follows, or nothing follows them.
#[tactic(auto, unfolding(crate::specs::Ready::alone))]
fn is_alone(n: usize, last: bool) -> bool
    ensures { result ≡ alone last n }
{
    65536 < n || last && 0 < n
}

// The first line, if it is ready: it has an end, or is too long whatever follows, or nothing follows the input.
fn next_line(input: &[u8], last: bool) -> Option<Cut>
    ensures { result ≡ optional (first_line last input.now) }
{
    let n = input.len();
    let bytes = line_length(input);
    if bytes < n {
        return Some(Cut {
            bytes,
            size: bytes + 1,
        });
    }
    is_alone(n, last).then_some(Cut { bytes: n, size: n })
}

// The lines of an input that are ready, carried out from its front while the output has room for a line. `last` says that nothing follows
// the input, so that a last line without its end is ready too.
pub fn carry_lines(
    counts: &mut [u16],
    classes: &mut [u16],
    kept: &mut [u8],
    cache: &mut [u16],
    ties: &mut [u16],
    subtypes: &mut [u16],
    objects: &mut [u32],
    frames: &mut [u32],
    input: &[u8],
    last: bool,
    out: &mut [u8],
) -> Progress
    ensures { told result (tables counts.new classes.new kept.new cache.new ties.new subtypes.new objects.new frames.new) out.new ≡ told_of out.old (carry_lines last (length out.old) input.now (tables counts.old classes.old kept.old cache.old ties.old subtypes.old objects.old frames.old)) }
{
    let mut read = 0;
    let mut written = 0;
    // A line has as many bytes read as it is long, and as many written as its answer.
    while 64 <= out.len() - written {
        let Some(cut) = next_line(&input[read..], last) else {
            break;
        };
        let end = read + cut.bytes;
        let Some(printed) = carry_out(
            counts,
            classes,
            kept,
            cache,
            ties,
            subtypes,
            objects,
            frames,
            &input[read..end],
            &mut out[written..],
        ) else {
            return Progress {
                read,
                written,
                ended: true,
            };
        };
        read += cut.size;
        written += printed;
    }
    Progress {
        read,
        written,
        ended: false,
    }
}

// A window's bytes from one place up to another, moved to its front.
pub fn keep_rest(window: &mut [u8], from: usize, to: usize)
    ensures { window.new ≡ moved from to window.old }
{
    let end = to.min(window.len());
    for i in from..end {
        window[i - from] = window[i];
    }
}
