// A file as pairs of hexadecimal digits.
ghost use Rattle.std.specs.Prelude.{◌≡◌, ◌+◌, ◌<◌, ◌↔◌, IsTrue, EachIndex, slice_index, length, set};
ghost use Rattle.definition.specs.Lists.{is_some, write_rows};
ghost use Rattle.definition.specs.Script.{hex_digit, file};
ghost use Rattle.cells.specs.Optional.{optional};
ghost use Rattle.script.specs.Files.{is_hex, pair_value, quick_pairs};

use definition::numbers::BYTE_RANGE;

// How many values a byte has, as a place is counted.
const BYTES: usize = BYTE_RANGE as usize;

// A digit's value.
fn hex_value(b: u8) -> Option<u8>
    ensures { result ≡ optional (hex_digit b) }
{
    match b {
        b'0'..=b'9' => Some(b - b'0'),
        b'A'..=b'F' => Some(b - b'A' + 10),
        b'a'..=b'f' => Some(b - b'a' + 10),
        _ => None,
    }
}

fn is_digit(b: u8) -> bool
    ensures { result ≡ is_hex b }
{
    hex_value(b).is_some()
}

fn are_digits(s: &[u8]) -> bool
    ensures { IsTrue result ↔ EachIndex s.now (λ k. IsTrue (is_hex (slice_index s.now k))) }
{
    s.iter().all(|b| is_digit(*b))
}

// Digits, an even number of them and not none.
pub(crate) fn is_file(s: &[u8]) -> bool
    ensures { result ≡ is_some (file s.now) }
{
    let n = s.len();
    if n == 0 || n % 2 != 0 {
        return false;
    }
    are_digits(s)
}

// The byte that the pair of digits at a place stands for.
fn byte_at(s: &[u8], i: usize) -> u8
    requires { i + 1 < length s.now }
    ensures { result ≡ pair_value s.now i }
{
    let high = usize::from(hex_value(s[i]).unwrap_or(16));
    let low = usize::from(hex_value(s[i + 1]).unwrap_or(16));
    ((high * 16 + low) % BYTES) as u8
}

// The bytes that pairs of digits stand for, written from the table's front.
pub(crate) fn decode(s: &[u8], file: &mut [u8])
    ensures { file.new ≡ write_rows set (quick_pairs s.now) 0 file.old }
{
    let n = s.len() / 2;
    for i in 0..n {
        cells::put(file, i, byte_at(s, i * 2));
    }
}
