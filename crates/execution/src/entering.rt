// A frame entered: its arguments are taken from the operands of the frame below it, where they stand in their order behind the receiver.
ghost use Rattle.std.specs.Prelude.{◌≡◌, ◌+◌, ◌<◌, ◌≤◌, set};
ghost use Rattle.definition.specs.Numbers.{argument_limit, operand_limit, frame_limit, count_frames};
ghost use Rattle.definition.specs.Lists.{rows};
ghost use Rattle.definition.specs.Machine.{entry_frame};
ghost use Rattle.definition.specs.Tables.{value_of, operand_at, put_frame, frame_base};
ghost use Rattle.layout.specs.Cells.{moved};
ghost use Rattle.frames.specs.Initial.{entry_values};
ghost use Rattle.execution.specs.Entering.{argument_or};

use frames::{Cell, Entry, Top};
use instructions::Invocation;

// Argument i of n, of which the first is operand k; empty where there is none.
fn argument(frames: &[u32], b: u32, k: u32, n: u32, i: u32) -> Cell
    requires { k + n < 4294967296 }
    ensures { value_of result.kind result.bits ≡ argument_or (operand_at frames.now b) k n i }
{
    if n <= i {
        return frames::empty();
    }
    frames::operand(frames, b, k + i)
}

// A method's frame with its arguments, of which the first is operand k.
fn entry(frames: &[u32], b: u32, k: u32, e: Invocation) -> Entry
    requires { (e.count ≤ argument_limit) × (k + e.count < 4294967296) }
    ensures { entry_frame result.class result.method result.object (entry_values result) ≡ entry_frame e.class e.method e.object (rows (operand_at frames.now b) e.count k) }
{
    let n = e.count;
    Entry {
        class: e.class,
        method: e.method,
        object: e.object,
        first: argument(frames, b, k, n, 0),
        second: argument(frames, b, k, n, 1),
        third: argument(frames, b, k, n, 2),
        fourth: argument(frames, b, k, n, 3),
    }
}

// A frame entered above the top frame of a task, which goes on at point q with d operands. The receiver followed those, and the arguments follow it.
pub(crate) fn enter(counts: &mut [u16], frames: &mut [u32], top: Top, q: u32, d: u32, e: Invocation)
    requires { (top.row < frame_limit) × (e.count ≤ argument_limit) × (d + e.count < operand_limit) }
    ensures counted { counts.new ≡ set counts.old (count_frames + top.task) (top.row + 2) }
    ensures written { frames.new ≡ put_frame (moved frames.old top.base q d) (frame_base top.task (top.row + 1)) (entry_frame e.class e.method e.object (rows (operand_at frames.old top.base) e.count (d + 1))) }
{
    let m = top.row;
    let entered = entry(frames, top.base, d + 1, e);
    frames::write_moved(frames, top.base, q, d);
    frames::write_entry(frames, frames::row(top.task, m + 1), entered);
    tasks::write_frame_count(counts, top.task, m + 2);
}
