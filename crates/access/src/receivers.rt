// A receiver: an object that exists, of a class or below it.
ghost use Rattle.std.specs.Prelude.{◌≡◌, List, ℕ};
ghost use Rattle.resolution.specs.Quick.{base_of, tables_over};
ghost use Rattle.access.specs.Accesses.{Received};
ghost use Rattle.access.specs.Members.{no_object};

use definition::Refusal;
use definition::numbers::{KIND_NULL, KIND_OBJECT, WORD_NULL, WORD_STUCK};
use frames::Cell;
use resolution::Base;

// The word for a receiver that is no object: null's, or that it is of the wrong kind.
fn no_object(v: Cell) -> u8
    ensures { result ≡ no_object v.kind v.bits }
{
    if v.kind == KIND_NULL && v.bits == 0 {
        WORD_NULL
    } else {
        WORD_STUCK
    }
}

// A receiver must be an object that exists, of class e or below it: its number, or why not.
pub(crate) fn received(base: &Base, objects: &[u32], e: u32, v: Cell) -> Result<u32, Refusal>
    ensures { (I S F : List ℕ) → Received (base_of base.now) (tables_over base.now I S objects.now F) e v.kind v.bits result }
{
    if v.kind != KIND_OBJECT {
        return Err(Refusal::Word(no_object(v)));
    }
    let o = v.bits;
    if !frames::is_used(base.counts, o) {
        return Err(Refusal::Word(WORD_STUCK));
    }
    if !base.is_below(frames::object_class(objects, o), e) {
        return Err(Refusal::Word(WORD_STUCK));
    }
    Ok(o)
}
