// A line read as a command.
ghost use Rattle.std.specs.Prelude.{◌≡◌, ◌≤◌, length};
ghost use Rattle.definition.specs.Script.{file, fields, command, read_line};
ghost use Rattle.script.specs.Commands.{Read, said};
ghost use Rattle.script.specs.Calls.{record_line, method_line, start_line, drop_line, define_line, single_line};

use crate::Command;
use crate::fields::{after, first_field};
use crate::files::{decode, is_file};
use crate::numbers::{int_number, short_number};

fn read_record(s: &[u8]) -> Option<Command>
    ensures { result ≡ said (record_line s.now) }
{
    let loader = first_field(s)?;
    let t = after(s, loader.rest);
    let name = first_field(t)?;
    let class = short_number(after(t, name.rest))?;
    Some(Command::Record(loader.number, name.number, class))
}

fn read_drop(s: &[u8]) -> Option<Command>
    ensures { result ≡ said (drop_line s.now) }
{
    let task = short_number(s)?;
    Some(Command::Drop(task))
}

// A start's class, method and int.
fn read_method(task: u16, loader: u16, s: &[u8]) -> Option<Command>
    ensures { result ≡ said (method_line task loader s.now) }
{
    let name = first_field(s)?;
    let t = after(s, name.rest);
    let method = first_field(t)?;
    let int = int_number(after(t, method.rest))?;
    Some(Command::Start(task, loader, name.number, method.number, int))
}

fn read_start(s: &[u8]) -> Option<Command>
    ensures { result ≡ said (start_line s.now) }
{
    let task = first_field(s)?;
    let t = after(s, task.rest);
    let loader = first_field(t)?;
    read_method(task.number, loader.number, after(t, loader.rest))
}

// The whole line is checked before a byte is written.
fn read_define(s: &[u8], file: &mut [u8]) -> Option<Command>
    requires { length s.now ≤ 65536 }
    ensures { Read (define_line s.now) result file.old file.new }
{
    let loader = first_field(s)?;
    let t = after(s, loader.rest);
    if !is_file(t) {
        return None;
    }
    decode(t, file);
    Some(Command::Define(loader.number, (t.len() / 2) as u32))
}

fn read_call(letter: u8, s: &[u8], file: &mut [u8]) -> Option<Command>
    requires { length s.now ≤ 65536 }
    ensures { Read (command letter (fields s.now)) result file.old file.new }
{
    match letter {
        b'D' => read_define(s, file),
        b'R' => read_record(s),
        b'S' => read_start(s),
        b'X' => read_drop(s),
        _ => None,
    }
}

// A line of one byte.
fn read_single(letter: u8) -> Option<Command>
    ensures { result ≡ said (single_line letter) }
{
    (letter == b'N').then_some(Command::Step)
}

// The call that a line asks for; a file's bytes are written into the table from its front.
pub fn read_line(line: &[u8], file: &mut [u8]) -> Option<Command>
    ensures { Read (read_line line.now) result file.old file.new }
{
    let n = line.len();
    if 65536 < n {
        return None;
    }
    let letter = cells::at(line, 0);
    if n == 1 {
        return read_single(letter);
    }
    if cells::at(line, 1) != b' ' {
        return None;
    }
    read_call(letter, after(line, 2), file)
}
