// One step, a run of steps, and the start of a task, on the lent tables.
#![tactic(auto)]

mod settling; // settling.rt: a plan with the ties that it posts
mod deciding; // deciding.rt: the decision on the instruction of a top frame
mod entering; // entering.rt: a frame entered with its arguments
mod carrying; // carrying.rt: the one place that writes
mod turns; // turns.rt: one step, of the task whose turn it is
mod opcodes; // opcodes.rt: the opcodes by small numbers
mod walking; // walking.rt: instructions that touch their frame alone, done on its row
mod memory; // memory.rt: what a run remembers of the places of the code
mod reaching; // reaching.rt: a walk of such instructions, and of fields that are remembered
mod noting; // noting.rt: what is remembered of the place at hand
mod ahead; // ahead.rt: steps of the top frame ahead of the next that isn't such
mod runs; // runs.rt: a run of steps
mod starting; // starting.rt: the start of a task

pub use runs::run;
pub use starting::start;
pub use turns::step;
