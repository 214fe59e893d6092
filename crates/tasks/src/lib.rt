// The two tasks: whose turn it is, and how many frames a task has.
#![tactic(auto)]

ghost use Rattle.std.specs.Prelude.{◌≡◌, ◌+◌, get_or, set};
ghost use Rattle.tasks.specs.Turns.{turn_of};
ghost use Rattle.definition.specs.Numbers.{count_frames};

use definition::numbers::COUNT_FRAMES;

// Whose turn it is: the quote's if it has a frame, else the report's.
pub fn turn(counts: &[u16]) -> u8
    ensures { result ≡ turn_of counts.now }
{
    if cells::at(counts, COUNT_FRAMES) == 0 {
        1
    } else {
        0
    }
}

pub fn frame_count(counts: &[u16], task: u8) -> u16
    ensures { result ≡ get_or counts.now (count_frames + task) 0 }
{
    cells::at(counts, COUNT_FRAMES + usize::from(task))
}

pub fn write_frame_count(counts: &mut [u16], task: u8, n: u16)
    ensures { counts.new ≡ set counts.old (count_frames + task) n }
{
    cells::put(counts, COUNT_FRAMES + usize::from(task), n);
}
