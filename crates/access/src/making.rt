// new: the class is looked up under the frame class's loader; the class's name stands inline.
ghost use Rattle.resolution.specs.Quick.{over};
ghost use Rattle.access.specs.Makings.{Making};

use definition::Refusal;
use definition::numbers::{OBJECT_LIMIT, OPERAND_LIMIT, WORD_FULL, WORD_SHARE};
use frames::Top;
use instructions::Plan;
use resolution::Base;

// The object gets the number `free`, and the frame's task made `made` objects before it. The plan means the instruction where the first is the lowest number unused and
// the second, unless the task is the quote, the number of its objects: neither is looked for here.
pub fn new_object(
    base: &Base,
    objects: &[u32],
    frames: &[u32],
    top: Top,
    class: u16,
    free: u16,
    made: u16,
) -> Plan
    ensures { over Making base.now objects.now frames.now top.task top.base top.depth top.loader class free made result }
{
    let Some(e) = base.find(u16::from(top.loader), class) else {
        return Plan::Refuse(Refusal::Wanted(top.loader, class));
    };
    if frames::is_share_used(top.task, made) {
        return instructions::refuse(WORD_SHARE);
    }
    if OBJECT_LIMIT <= free {
        return instructions::refuse(WORD_FULL);
    }
    if OPERAND_LIMIT <= top.depth {
        return instructions::refuse(WORD_FULL);
    }
    Plan::Make(top.depth, e, free)
}
