// Decimal numbers and ints.
ghost use Rattle.std.specs.Prelude.{◌≡◌};
ghost use Rattle.definition.specs.Script.{up_to, short, int};
ghost use Rattle.cells.specs.Optional.{optional};
ghost use Rattle.script.specs.Numbers.{extended};

use crate::fields::after;
use definition::numbers::{SHORT_RANGE, SIGN_BIT};

// The largest number of 16 bits, and the largest int.
const MOST_SHORT: u32 = SHORT_RANGE - 1;

const MOST_INT: u32 = SIGN_BIT - 1;

// The number n with one digit more, if that is a digit and the number at most `most`.
fn extend(n: u32, digit: u8, most: u32) -> Option<u32>
    ensures { result ≡ optional (extended most n digit) }
{
    if digit < b'0' {
        return None;
    }
    if b'9' < digit {
        return None;
    }
    let next = u64::from(n) * 10 + u64::from(digit - b'0');
    if u64::from(most) < next {
        return None;
    }
    Some(next as u32)
}

fn up_to(s: &[u8], most: u32) -> Option<u32>
    ensures { result ≡ optional (up_to most s.now) }
{
    if s.is_empty() {
        return None;
    }
    let mut n: u32 = 0;
    for digit in s {
        n = extend(n, *digit, most)?;
    }
    Some(n)
}

pub(crate) fn short_number(s: &[u8]) -> Option<u16>
    ensures { result ≡ optional (short s.now) }
{
    let n = up_to(s, MOST_SHORT)?;
    Some(n as u16)
}

pub(crate) fn int_number(s: &[u8]) -> Option<u32>
    ensures { result ≡ optional (int s.now) }
{
    if cells::at(s, 0) == b'-' {
        return Some(up_to(after(s, 1), SIGN_BIT)?.wrapping_neg());
    }
    up_to(s, MOST_INT)
}
