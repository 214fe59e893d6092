// getfield and putfield: the class is looked up under the frame class's loader; the names stand inline.
ghost use Rattle.std.specs.Prelude.{◌≡◌, [], ◌∷◌};
ghost use Rattle.std.proofs.Math.Option.{some};
ghost use Rattle.definition.specs.Superclasses.{nearest};
ghost use Rattle.definition.specs.Classes.{super_of, has_field};
ghost use Rattle.resolution.specs.Quick.{base_of, over};
ghost use Rattle.access.specs.Accesses.{Accessing, always, read_field, write_field};
ghost use Rattle.access.specs.Members.{unlimited, Rest, Declares};

use crate::receivers::received;
use crate::{Access, DeclaredField};
use definition::numbers::{FIELD_LIMIT, WORD_ABSENT, WORD_STUCK};
use definition::{Instruction, Refusal};
use frames::Top;
use instructions::Plan;
use resolution::Base;

// The field of that name and type of a class that is looked up under a loader, or what is missing.
fn find_field(
    base: &Base,
    loader: u8,
    class: u16,
    name: u16,
    of: u16,
) -> Result<DeclaredField, Refusal>
    ensures { Declares (base_of base.now) loader class name of result }
{
    let Some(from) = base.find(u16::from(loader), class) else {
        return Err(Refusal::Wanted(loader, class));
    };
    let Some(declaring) = base.nearest_field(from, name, of) else {
        return Err(Refusal::Word(WORD_ABSENT));
    };
    Ok(DeclaredField {
        from,
        class: declaring,
    })
}

// getfield, once the field is found: the value of an object's field takes the object's place.
fn read_field(
    base: &Base,
    objects: &[u32],
    frames: &[u32],
    top: Top,
    field: DeclaredField,
    name: u16,
    of: u16,
) -> Plan
    requires { let B = base_of base.now in nearest (super_of B) (has_field B name of) field.from ≡ some field.class }
    ensures { over Rest base.now objects.now frames.now top.base top.depth unlimited (λ B os f fs i. read_field B os f fs i field.from field.class name of) result }
{
    let d = top.depth;
    if d == 0 {
        return instructions::refuse(WORD_STUCK);
    }
    let x = frames::operand(frames, top.base, d - 1);
    match received(base, objects, field.from, x) {
        Err(refusal) => Plan::Refuse(refusal),
        Ok(o) => {
            let Some(j) = base.slot_of(field.class, name, of) else {
                return instructions::refuse(WORD_STUCK);
            };
            if FIELD_LIMIT <= j {
                return instructions::refuse(WORD_STUCK);
            }
            let v = frames::field(objects, o, j as u8);
            Plan::Above(d - 1, v)
        }
    }
}

// putfield, once the field is found: the value above the object goes into the object's field.
fn set_field(
    base: &Base,
    objects: &[u32],
    frames: &[u32],
    top: Top,
    field: DeclaredField,
    name: u16,
    of: u16,
) -> Plan
    requires { let B = base_of base.now in nearest (super_of B) (has_field B name of) field.from ≡ some field.class }
    ensures { over Rest base.now objects.now frames.now top.base top.depth unlimited (λ B os f fs i. write_field B os f fs i field.from field.class name of) result }
{
    let d = top.depth;
    if d == 0 {
        return instructions::refuse(WORD_STUCK);
    }
    let last = d - 1;
    if last == 0 {
        return instructions::refuse(WORD_STUCK);
    }
    let v = frames::operand(frames, top.base, last);
    if !instructions::is_kind(of, v) {
        return instructions::refuse(WORD_STUCK);
    }
    let x = frames::operand(frames, top.base, last - 1);
    match received(base, objects, field.from, x) {
        Err(refusal) => Plan::Refuse(refusal),
        Ok(o) => {
            let Some(j) = base.slot_of(field.class, name, of) else {
                return instructions::refuse(WORD_STUCK);
            };
            if FIELD_LIMIT <= j {
                return Plan::Keep(last - 1);
            }
            Plan::Field(last - 1, o, j as u8, v)
        }
    }
}

// The two instructions differ in what they do once the field is found, which is all that follows the one search.
pub fn getfield(
    base: &Base,
    objects: &[u32],
    frames: &[u32],
    top: Top,
    class: u16,
    name: u16,
    of: u16,
) -> Result<Access, Refusal>
    ensures { over Accessing base.now objects.now frames.now top.base top.depth top.loader always (of ∷ []) (Instruction.Getfield class name of) result }
{
    let field = find_field(base, top.loader, class, name, of)?;
    Ok(Access {
        loader: base.loader_of(field.class),
        plan: read_field(base, objects, frames, top, field, name, of),
    })
}

pub fn putfield(
    base: &Base,
    objects: &[u32],
    frames: &[u32],
    top: Top,
    class: u16,
    name: u16,
    of: u16,
) -> Result<Access, Refusal>
    ensures { over Accessing base.now objects.now frames.now top.base top.depth top.loader always (of ∷ []) (Instruction.Putfield class name of) result }
{
    let field = find_field(base, top.loader, class, name, of)?;
    Ok(Access {
        loader: base.loader_of(field.class),
        plan: set_field(base, objects, frames, top, field, name, of),
    })
}
