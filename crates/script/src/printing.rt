// An answer printed as a line.
ghost use Rattle.std.specs.Prelude.{◌∷◌, ◌≤◌, ◌<◌, pos};
ghost use Rattle.definition.specs.Answers.{signed};
ghost use Rattle.definition.specs.Script.{printed, printed_int};
ghost use Rattle.script.specs.Printing.{line_of, Printed, Wrote};

use definition::numbers::SIGN_BIT;

// Decimal digits, at most `more` of them before the last.
fn put_digits(out: &mut [u8], at: usize, more: u8, n: u32) -> usize
    requires { at ≤ 64 }
    ensures { Wrote (printed more n) at result out.old out.new }
{
    if more == 0 {
        cells::put(out, at, (48 + n % 10) as u8);
        return at + 1;
    }
    if n < 10 {
        cells::put(out, at, (48 + n) as u8);
        return at + 1;
    }
    let next = put_digits(out, at, more - 1, n / 10);
    cells::put(out, next, (48 + n % 10) as u8);
    next + 1
}

// A space and a number.
fn put_number(out: &mut [u8], at: usize, n: u32) -> usize
    requires { at < 64 }
    ensures { Wrote (32 ∷ printed_int (pos n)) at result out.old out.new }
{
    cells::put(out, at, 32);
    put_digits(out, at + 1, 9, n)
}

// A space and an int.
fn put_int(out: &mut [u8], at: usize, bits: u32) -> usize
    requires { at < 63 }
    ensures { Wrote (32 ∷ printed_int (signed bits)) at result out.old out.new }
{
    if bits < SIGN_BIT {
        return put_number(out, at, bits);
    }
    cells::put(out, at, 32);
    cells::put(out, at + 1, 45);
    put_digits(out, at + 2, 9, 4294967295 - bits + 1)
}

// A letter, a refusal's number, three details and the line's end, written at the table's front. The third detail may be an int.
pub fn print_line(out: &mut [u8], letter: u8, refusal: u8, one: u32, two: u32, three: u32) -> usize
    ensures { Printed (line_of letter refusal one two three) result out.old out.new }
{
    cells::put(out, 0, letter);
    let a = put_number(out, 1, u32::from(refusal));
    let b = put_number(out, a, one);
    let c = put_number(out, b, two);
    let d = put_int(out, c, three);
    cells::put(out, d, 10);
    d + 1
}
