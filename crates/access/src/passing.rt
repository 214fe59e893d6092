// A call's arguments, which stand among the operands in their order, the last of them on top: their kinds.
ghost use Rattle.std.specs.Prelude.{◌≡◌, ◌+◌, ◌<◌, length};
ghost use Rattle.definition.specs.Numbers.{word_stuck};
ghost use Rattle.definition.specs.Lists.{rows};
ghost use Rattle.definition.specs.Classes.{types_of};
ghost use Rattle.definition.specs.declared.Refusal.TheVariants.{Word};
ghost use Rattle.definition.specs.Answers.{need};
ghost use Rattle.definition.specs.Machine.{kinds! };
ghost use Rattle.definition.specs.Tables.{operand_at};

use definition::Arguments;

// Whether each argument is of its own type's kind; the first is operand k.
pub(crate) fn are_kinds(frames: &[u32], b: u32, k: u32, list: Arguments) -> bool
    requires { k + length (types_of list) < 4294967296 }
    ensures { need result (Word word_stuck) ≡ kinds! (types_of list) (rows (operand_at frames.now b) (length (types_of list)) k) }
{
    let n = cells::arguments::argument_count(list);
    for i in 0..n {
        let v = frames::operand(frames, b, k + u32::from(i));
        if !instructions::is_kind(cells::arguments::argument_at(list, i), v) {
            return false;
        }
    }
    true
}
