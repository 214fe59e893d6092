// Parts of a line, and where the first field ends.
ghost use Rattle.std.specs.Prelude.{◌≡◌, take, drop};
ghost use Rattle.cells.specs.Optional.{optional};
ghost use Rattle.script.specs.Parts.{space_from, head_of};

use crate::Head;
use crate::numbers::short_number;

fn before<'a>(s: &'a [u8], n: usize) -> &'a [u8]
    ensures { result.now ≡ take n s.now }
{
    if n <= s.len() { &s[..n] } else { s }
}

pub(crate) fn after<'a>(s: &'a [u8], n: usize) -> &'a [u8]
    ensures { result.now ≡ drop n s.now }
{
    let size = s.len();
    if n <= size { &s[n..] } else { &s[size..] }
}

fn first_space(s: &[u8]) -> Option<usize>
    ensures { result ≡ optional (space_from 0 s.now) }
{
    for (i, b) in s.iter().enumerate() {
        if *b == b' ' {
            return Some(i);
        }
    }
    None
}

// The first field as a number, where other fields follow.
pub(crate) fn first_field(s: &[u8]) -> Option<Head>
    ensures { result ≡ optional (head_of s.now) }
{
    let i = first_space(s)?;
    let number = short_number(before(s, i))?;
    Some(Head {
        number,
        rest: i + 1,
    })
}
