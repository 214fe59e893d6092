// The ties of a file's methods that override others.
ghost use Rattle.std.specs.Prelude.{◌≡◌, ℕ, ◌+◌, ◌*◌, ◌<◌, ◌≤◌, length};
ghost use Rattle.definition.specs.Numbers.{loader_limit, tie_limit, member_limit, row_cells};
ghost use Rattle.definition.specs.Lists.{rows};
ghost use Rattle.definition.specs.Tables.{tie_at};
ghost use Rattle.definition.specs.Loading.{override_tie, override_ties};
ghost use Rattle.definition.specs.Classes.{loader_of};
ghost use Rattle.classfile.specs.Reading.{method_count, method_in, quick_methods};
ghost use Rattle.resolution.specs.Quick.{base_of};
ghost use Rattle.loading.specs.Posting.{TiesPosted, tried_ties_length};

use definition::Signature;
use resolution::Base;

// Ties on a signature's types between a loader and that of the nearest class, p or one upward, with a method alike, behind the first rows of a table.
// Answers the new count.
fn post_override(base: &Base, ties: &mut [u16], count: u16, loader: u8, p: u32, s: Signature) -> u16
    requires { (count < 65531) × ((count + 5) * row_cells ≤ length ties.old) × ((c : ℕ) → loader_of (base_of base.now) c < loader_limit) }
    ensures { TiesPosted (override_tie (base_of base.now) loader p (rows (tie_at ties.old) count 0) s) ties.old count ties.new result }
{
    let Some(found) = base.select_method(p, s) else {
        return count;
    };
    let other = base.loader_of(found.class) as u8;
    let arguments = s.arguments;
    posting::post(ties, count, loader, other, arguments, s.result) as u16
}

// The ties of the file's method number j.
fn post_method(
    base: &Base,
    ties: &mut [u16],
    count: u16,
    loader: u8,
    p: u32,
    file: &[u8],
    j: u8,
) -> u16
    requires { (j < method_count file.now) × (count < 65531) × ((count + 5) * row_cells ≤ length ties.old) × ((c : ℕ) → loader_of (base_of base.now) c < loader_limit) }
    ensures { TiesPosted (override_tie (base_of base.now) loader p (rows (tie_at ties.old) count 0) (method_in file.now j).signature) ties.old count ties.new result }
{
    let Some(place) = classfile::method_place(file, j) else {
        return count;
    };
    let s = classfile::method_signature(file, place);
    post_override(base, ties, count, loader, p, s)
}

// The ties of all the file's methods.
pub(crate) fn post_methods(
    base: &Base,
    ties: &mut [u16],
    count: u16,
    loader: u8,
    p: u32,
    file: &[u8],
) -> u16
    requires { (method_count file.now ≤ member_limit) × (count ≤ tie_limit) × (length ties.old ≡ tried_ties_length) × ((c : ℕ) → loader_of (base_of base.now) c < loader_limit) }
    ensures { TiesPosted (override_ties (base_of base.now) loader p (rows (tie_at ties.old) count 0) (quick_methods file.now)) ties.old count ties.new result }
{
    let n = classfile::method_count(file);
    let mut total = count;
    for j in 0..n {
        total = post_method(base, ties, total, loader, p, file, j);
    }
    total
}
