// invokevirtual: the class is looked up under the frame class's loader; the names stand inline.
ghost use Rattle.std.specs.Prelude.{◌≡◌};
ghost use Rattle.definition.specs.Classes.{signature_types, selected};
ghost use Rattle.resolution.specs.Quick.{base_of, over};
ghost use Rattle.resolution.specs.Lookups.{selection};
ghost use Rattle.access.specs.Accesses.{Accessing, frame_room, call_method};
ghost use Rattle.access.specs.Members.{frames_left, Rest};

use crate::Access;
use crate::passing::are_kinds;
use crate::receivers::received;
use definition::numbers::{WORD_ABSENT, WORD_STUCK};
use definition::{Instruction, Refusal, Signature};
use frames::Top;
use instructions::{Invocation, Plan};
use resolution::{Base, Selection};

// The method selected from class c; from class e it is the one that was found.
fn select_from(base: &Base, c: u32, e: u32, found: Selection, s: Signature) -> Option<Selection>
    requires { Some found ≡ selection (selected (base_of base.now) s e) }
    ensures { result ≡ selection (selected (base_of base.now) s c) }
{
    if c == e {
        return Some(found);
    }
    base.select_method(c, s)
}

// invokevirtual, once a method is found from class e: a frame is entered in the method selected from the object's own class. The receiver stands
// below the arguments, the first of which is operand k.
fn call_method(
    base: &Base,
    objects: &[u32],
    frames: &[u32],
    top: Top,
    e: u32,
    found: Selection,
    s: Signature,
) -> Plan
    requires { Some found ≡ selection (selected (base_of base.now) s e) }
    ensures { over Rest base.now objects.now frames.now top.base top.depth frames_left (λ B os f fs i. call_method B os f fs i e s) result }
{
    let list = s.arguments;
    let n = u32::from(cells::arguments::argument_count(list));
    if top.depth <= n {
        return instructions::refuse(WORD_STUCK);
    }
    let k = top.depth - n;
    if !are_kinds(frames, top.base, k, list) {
        return instructions::refuse(WORD_STUCK);
    }
    let x = frames::operand(frames, top.base, k - 1);
    match received(base, objects, e, x) {
        Err(refusal) => Plan::Refuse(refusal),
        Ok(o) => {
            let c = frames::object_class(objects, o);
            let Some(chosen) = select_from(base, c, e, found, s) else {
                return instructions::refuse(WORD_STUCK);
            };
            Plan::Enter(
                k - 1,
                Invocation {
                    class: chosen.class,
                    method: chosen.place,
                    object: o,
                    count: n,
                },
            )
        }
    }
}

pub fn invokevirtual(
    base: &Base,
    objects: &[u32],
    frames: &[u32],
    top: Top,
    class: u16,
    s: Signature,
) -> Result<Access, Refusal>
    ensures { over Accessing base.now objects.now frames.now top.base top.depth top.loader frame_room (signature_types s) (Instruction.Invokevirtual class s) result }
{
    let Some(e) = base.find(u16::from(top.loader), class) else {
        return Err(Refusal::Wanted(top.loader, class));
    };
    let Some(found) = base.select_method(e, s) else {
        return Err(Refusal::Word(WORD_ABSENT));
    };
    Ok(Access {
        loader: base.loader_of(found.class),
        plan: call_method(base, objects, frames, top, e, found, s),
    })
}
