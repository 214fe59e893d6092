// The decision on a start: an object of the cached class, and a first frame in the method selected for a name, one argument of type int, and int.
#![tactic(auto)]

ghost use Rattle.std.specs.Prelude.{◌≡◌, ◌&&◌, leb, ltb};
ghost use Rattle.opening.specs.Openings.{Opened};
ghost use Rattle.resolution.specs.Quick.{over};
ghost use Rattle.definition.specs.Numbers.{name_object, loader_limit};
ghost use Rattle.definition.specs.Classes.{start_signature};

use definition::numbers::{
    LOADER_LIMIT, NAME_INT, NAME_OBJECT, OBJECT_LIMIT, TASK_LIMIT, WORD_ABSENT, WORD_BUSY,
    WORD_FULL, WORD_SHARE, WORD_UNKNOWN,
};
use definition::{Arguments, Refusal, Signature};
use resolution::{Base, Selection};

// What a start makes: an object of a class, with a number, and a first frame in a method.
#[derive(Clone, Copy)]
pub struct Opening {
    pub class: u32,
    pub method: Selection,
    pub object: u16,
}

// The loader, class name and method name that a start may speak of.
fn are_known(loader: u32, name: u16, method: u16) -> bool
    ensures { result ≡ (ltb loader loader_limit && leb name_object name && leb 1 method) }
{
    loader < LOADER_LIMIT && NAME_OBJECT <= name && 1 <= method
}

// The signature of start's method: the name, one argument of type int, and int.
fn start_signature(method: u16) -> Signature
    ensures { result ≡ start_signature method }
{
    Signature {
        name: method,
        arguments: Arguments::OneArgument(NAME_INT),
        result: NAME_INT,
    }
}

// What is missing is refused where it was looked for, in the order 3 12 5 7 18 10.
pub fn decide(
    base: &Base,
    task: u32,
    loader: u32,
    name: u16,
    method: u16,
) -> Result<Opening, Refusal>
    ensures { over Opened base.now task loader name method result }
{
    if TASK_LIMIT <= task {
        return Err(Refusal::Word(WORD_UNKNOWN));
    }
    if !are_known(loader, name, method) {
        return Err(Refusal::Word(WORD_UNKNOWN));
    }
    if tasks::frame_count(base.counts, task as u8) != 0 {
        return Err(Refusal::Word(WORD_BUSY));
    }
    let Some(class) = base.find(loader as u16, name) else {
        return Err(Refusal::Wanted(loader as u8, name));
    };
    let Some(selected) = base.select_method(class, start_signature(method)) else {
        return Err(Refusal::Word(WORD_ABSENT));
    };
    if frames::is_share_used(task as u8, frames::made_by(base.counts, task as u8)) {
        return Err(Refusal::Word(WORD_SHARE));
    }
    let free = frames::unused(base.counts, 0);
    if OBJECT_LIMIT <= free {
        return Err(Refusal::Word(WORD_FULL));
    }
    Ok(Opening {
        class,
        method: selected,
        object: free,
    })
}
