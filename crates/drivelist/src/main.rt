// drivelist: drives the list of calls that it reads from standard input, and prints what the drive answered and left: 'Refused' or the count
// of calls performed, the cells of the answers, and a sum of each table, one number a line.
//
// The input is cells of four bytes, big-endian: how many cells of the counts, of the list and of the answers are lent (as many as there are,
// if it says more), then the list. The files' bytes are the whole input, filled up with zeros to 65,536.
#![tactic(auto)]

ghost use Rattle.std.specs.Prelude.{◌≤◌};

use definition::numbers::{
    CACHE_LENGTH, CLASSES_LENGTH, COUNTS_LENGTH, FRAMES_LENGTH, KEPT_LENGTH, OBJECTS_LENGTH,
    SUBTYPES_LENGTH, TIES_LENGTH,
};
use std::io;
use std::io::{Read, Write};

const LIST: usize = 600;

// The eight tables of a store, lent together.
#[derive(Drop)]
struct Tables<'a> {
    counts: &'a mut [u16],
    classes: &'a mut [u16],
    kept: &'a mut [u8],
    cache: &'a mut [u16],
    ties: &'a mut [u16],
    subtypes: &'a mut [u16],
    objects: &'a mut [u32],
    frames: &'a mut [u32],
}

// Cell i of the input.
fn cell_at(input: &[u8], i: usize) -> u32
    requires { i ≤ 1000 }
{
    let place = i * 4;
    u32::from(cells::short_at(input, place)) * 65536 + u32::from(cells::short_at(input, place + 2))
}

// How many cells are lent, of so many that there are.
fn lent(input: &[u8], i: usize, there: usize) -> usize
    requires { i ≤ 1000 }
    ensures { result ≤ there }
{
    (cell_at(input, i) as usize).min(there)
}

fn read_list(input: &[u8], list: &mut [u32; LIST]) {
    for i in 0..LIST {
        list[i] = cell_at(input, i + 3);
    }
}

fn print_outcome(writer: &mut impl Write, outcome: Option<usize>) -> io::Result<()> {
    match outcome {
        Some(n) => writeln!(writer, "{n}"),
        None => writeln!(writer, "Refused"),
    }
}

fn print_cells(writer: &mut impl Write, table: &[u32]) -> io::Result<()> {
    for cell in table {
        writeln!(writer, "{cell}")?;
    }
    Ok(())
}

// A sum in which each cell's place counts.
fn print_sum<T: Copy + Into<u32>>(writer: &mut impl Write, table: &[T]) -> io::Result<()> {
    let mut sum: u32 = 0;
    for cell in table {
        sum = sum.wrapping_mul(65599).wrapping_add((*cell).into());
    }
    writeln!(writer, "{sum}")
}

// Drives the list on as many cells of the counts, the list and the answers as the input says.
fn drive_lent(
    writer: &mut impl Write,
    tables: &mut Tables,
    list: &[u32],
    input: &[u8],
    answers: &mut [u32],
) -> io::Result<()> {
    let n = lent(input, 0, tables.counts.len());
    let rows = lent(input, 1, list.len());
    let told = lent(input, 2, answers.len());
    let outcome = driver::drive(
        &mut tables.counts[..n],
        tables.classes,
        tables.kept,
        tables.cache,
        tables.ties,
        tables.subtypes,
        tables.objects,
        tables.frames,
        &list[..rows],
        input,
        &mut answers[..told],
    );
    print_outcome(writer, outcome)
}

fn print_sums(writer: &mut impl Write, tables: &Tables) -> io::Result<()> {
    print_sum(writer, tables.counts)?;
    print_sum(writer, tables.classes)?;
    print_sum(writer, tables.kept)?;
    print_sum(writer, tables.cache)?;
    print_sum(writer, tables.ties)?;
    print_sum(writer, tables.subtypes)?;
    print_sum(writer, tables.objects)?;
    print_sum(writer, tables.frames)
}

// Reads until the input is full or ends.
fn read_full(reader: &mut impl Read, input: &mut [u8]) -> io::Result<()> {
    let mut held = 0;
    for _ in 0..u64::MAX {
        if input.len() <= held {
            break;
        }
        let n = reader.read(&mut input[held..])?;
        if n == 0 {
            break;
        }
        held += n;
    }
    Ok(())
}

fn read_input(reader: &mut impl Read, list: &mut [u32; LIST], input: &mut [u8]) -> io::Result<()> {
    read_full(reader, input)?;
    read_list(input, list);
    Ok(())
}

// Drives the list, and prints the answers and the sums.
fn play(
    writer: &mut impl Write,
    tables: &mut Tables,
    list: &[u32],
    input: &[u8],
    answers: &mut [u32],
) -> io::Result<()> {
    drive_lent(writer, tables, list, input, answers)?;
    print_cells(writer, answers)?;
    print_sums(writer, tables)
}

fn main(rt: HostRuntime) -> io::Result<()> {
    let mut counts = [0u16; COUNTS_LENGTH];
    let mut classes = [0u16; CLASSES_LENGTH];
    let mut kept = [0u8; KEPT_LENGTH];
    let mut cache = [0u16; CACHE_LENGTH];
    let mut ties = [0u16; TIES_LENGTH];
    let mut subtypes = [0u16; SUBTYPES_LENGTH];
    let mut objects = [0u32; OBJECTS_LENGTH];
    let mut frames = [0u32; FRAMES_LENGTH];
    let mut tables = Tables {
        counts: &mut counts,
        classes: &mut classes,
        kept: &mut kept,
        cache: &mut cache,
        ties: &mut ties,
        subtypes: &mut subtypes,
        objects: &mut objects,
        frames: &mut frames,
    };
    let mut list = [0u32; LIST];
    let mut input = [0u8; 65536];
    let mut answers = [0u32; 300];
    read_input(&mut rt.stdin(), &mut list, &mut input)?;
    play(&mut rt.stdout(), &mut tables, &list, &input, &mut answers)
}
