// The publishers' desk: the file and verifier checks of a byte range, for a program in C.
#![tactic(auto)]

ghost use Rattle.std.specs.Prelude.{◌≡◌, true, set};
ghost use Rattle.std.proofs.Math.Option.{none};
ghost use Rattle.definition.specs.Lists.{is_some, write_rows};
ghost use Rattle.definition.specs.File.{read_file};
ghost use Rattle.definition.specs.Desk.{desk_number};
ghost use Rattle.classfile.specs.Reading.{file_version, class_name, quick_methods};
ghost use Rattle.definition.specs.Places.{first_place, desk_verdict, verdict_cells};
ghost use Rattle.verifier.specs.Stops.{check_in};
ghost use Rattle.desk.specs.Answers.{verdict_of};

use definition::numbers::{SUBTYPE_LIMIT, WORD_FILE, WORD_UNMAPPED, WORD_UNVERIFIED};
use verifier::Check;

// 0 if the bytes are a class file that the verifier accepts, 2 if they are no class file, 15 if a method lacks a map, 6 if the verifier rejects it.
// The verifier's notes aren't wanted here: the table for them is empty and counts as one that has too many rows, so none is posted.
#[unsafe(no_mangle)]
pub extern "C" fn tariff_check(bytes: &[u8]) -> u8
    ensures { result ≡ desk_number bytes.now }
{
    if !classfile::reads(bytes) {
        return WORD_FILE;
    }
    if verifier::is_class_unmapped(bytes) {
        return WORD_UNMAPPED;
    }
    match verifier::verify_class(bytes, 0, &mut [], SUBTYPE_LIMIT + 1) {
        Ok(_) => 0,
        Err(_) => WORD_UNVERIFIED,
    }
}

// The desk's number, and the place of a 6 or 15.
#[derive(Clone, Copy)]
struct Verdict {
    number: u8,
    method: u8,
    point: u32,
}

// What is said of a file that reads and in which no map is lacking.
fn walked(bytes: &[u8]) -> Verdict
    requires { is_some (read_file bytes.now) ≡ true }
    ensures { first_place (check_in Check.Maps (file_version bytes.now) (class_name bytes.now)) 0 (quick_methods bytes.now) ≡ none → verdict_of result ≡ desk_verdict bytes.now }
{
    match verifier::find_place(bytes, Check::Types) {
        Some(stop) => Verdict {
            number: WORD_UNVERIFIED,
            method: stop.method,
            point: stop.point as u32,
        },
        None => Verdict {
            number: 0,
            method: 0,
            point: 0,
        },
    }
}

fn judge(bytes: &[u8]) -> Verdict
    ensures { verdict_of result ≡ desk_verdict bytes.now }
{
    if !classfile::reads(bytes) {
        return Verdict {
            number: WORD_FILE,
            method: 0,
            point: 0,
        };
    }
    match verifier::find_place(bytes, Check::Maps) {
        Some(lack) => Verdict {
            number: WORD_UNMAPPED,
            method: lack.method,
            point: lack.point as u32,
        },
        None => walked(bytes),
    }
}

// The number of `tariff_check`; it, and of a 6 or 15 the method's number and the point, else 0 and 0, are written into the answer table, as much of them as it has
// room for.
#[unsafe(no_mangle)]
pub extern "C" fn tariff_check_at(bytes: &[u8], answer: &mut [u32]) -> u8
    ensures { (answer.new ≡ write_rows set (verdict_cells (desk_verdict bytes.now)) 0 answer.old) × (result ≡ (desk_verdict bytes.now).number) }
{
    let v = judge(bytes);
    let number = v.number;
    cells::put(answer, 0, u32::from(number));
    cells::put(answer, 1, u32::from(v.method));
    cells::put(answer, 2, v.point);
    number
}
