// The decision on the instruction of a task's top frame, on shared tables.
ghost use Rattle.std.specs.Prelude.{◌≡◌, false, ℕ, suc, ◌+◌, ◌<◌, get_or};
ghost use Rattle.definition.specs.Numbers.{task_limit, frame_limit, loader_limit, count_frames};
ghost use Rattle.definition.specs.Tables.{tables};
ghost use Rattle.definition.specs.Broken.{broken};
ghost use Rattle.resolution.specs.Quick.{loader_in};
ghost use Rattle.execution.specs.Steps.{IsTop, Chosen};
ghost use Rattle.execution.specs.Decisions.{Usable, RoomFor, Acted};

use crate::settling::{Decision, plain, settle_access};
use definition::numbers::{FRAME_LIMIT, WORD_STUCK};
use definition::{Arguments, Instruction};
use frames::Top;
use instructions::Plan;
use posting::Ties;
use resolution::Base;

// What a new object asks for. The lowest number unused may be sought from `free` on; `made` is how many objects the report made, if it is the report's turn.
#[derive(Clone, Copy)]
pub(crate) struct Room {
    pub free: u16,
    pub made: u16,
}

// The decision on an instruction of the top frame of a task.
fn act(
    base: &Base,
    ties: &[u16],
    subtypes: &[u16],
    objects: &[u32],
    frames: &[u32],
    top: Top,
    i: Instruction,
    room: Room,
) -> Decision
    requires { Usable base.now.counts.now base.now.classes.now base.now.kept.now base.now.cache.now ties.now × (top.row < frame_limit) × RoomFor base.now.counts.now top.task room.free room.made × (top.loader < loader_limit) }
    ensures { Acted base.now.counts.now base.now.classes.now base.now.kept.now base.now.cache.now ties.now subtypes.now objects.now frames.now top.task top.row top.base top.depth top.loader i result.posting result.plan }
{
    match i {
        Instruction::AconstNull => plain(instructions::aconst_null(top)),
        Instruction::Sipush(n) => plain(instructions::sipush(top, n)),
        Instruction::Load(k, j) => plain(instructions::load(frames, top, k, j)),
        Instruction::Store(k, j) => plain(instructions::store(frames, top, k, j)),
        Instruction::Pop => plain(instructions::pop(top)),
        Instruction::Dup => plain(instructions::dup(frames, top)),
        Instruction::Arithmetic(o) => plain(instructions::arithmetic(frames, top, o)),
        Instruction::Getfield(class, name, of) => settle_access(
            base,
            ties,
            subtypes,
            true,
            top.loader,
            Arguments::NoArguments,
            of,
            access::getfield(base, objects, frames, top, class, name, of),
        ),
        Instruction::Putfield(class, name, of) => settle_access(
            base,
            ties,
            subtypes,
            true,
            top.loader,
            Arguments::NoArguments,
            of,
            access::putfield(base, objects, frames, top, class, name, of),
        ),
        Instruction::Invokevirtual(class, s) => {
            let arguments = s.arguments;
            settle_access(
                base,
                ties,
                subtypes,
                top.row + 1 < FRAME_LIMIT,
                top.loader,
                arguments,
                s.result,
                access::invokevirtual(base, objects, frames, top, class, s),
            )
        }
        Instruction::New(class) => plain(access::new_object(
            base,
            objects,
            frames,
            top,
            class,
            frames::unused(base.counts, room.free),
            room.made,
        )),
        Instruction::Return(k) => plain(instructions::give_back(frames, top, k)),
        Instruction::Branch(c, p) => plain(instructions::branch(frames, top, c, p)),
    }
}

// What a step chooses: ties, a plan, and the point at which the frame goes on unless it jumps.
#[derive(Clone, Copy)]
pub struct Choice {
    pub posting: Option<Ties>,
    pub plan: Plan,
    pub next: u32,
}

// The top frame of a task, in row m, as its cells say.
pub(crate) fn top_frame(base: &Base, frames: &[u32], task: u8, m: u16) -> Top
    requires { (c : ℕ) → loader_in base.now.counts.now base.now.classes.now c < loader_limit }
    ensures { (result.task ≡ task) × (result.row ≡ m) × IsTop base.now.counts.now base.now.classes.now frames.now result }
{
    let b = frames::row(task, m);
    let loader = base.loader_of(frames::frame_class(frames, b));
    Top {
        task,
        row: m,
        base: b,
        depth: frames::depth(frames, b),
        loader: loader as u8,
    }
}

// The choice for the top frame of a task.
pub(crate) fn choose(
    base: &Base,
    ties: &[u16],
    subtypes: &[u16],
    objects: &[u32],
    frames: &[u32],
    top: Top,
    room: Room,
) -> Choice
    requires { (broken (tables base.now.counts.now base.now.classes.now base.now.kept.now base.now.cache.now ties.now subtypes.now objects.now frames.now) ≡ false) × (top.task < task_limit) × (get_or base.now.counts.now (count_frames + top.task) 0 ≡ suc top.row) × IsTop base.now.counts.now base.now.classes.now frames.now top × RoomFor base.now.counts.now top.task room.free room.made }
    ensures { Chosen base.now.counts.now base.now.classes.now base.now.kept.now base.now.cache.now ties.now subtypes.now objects.now frames.now top.task top.row top.base result.posting result.plan result.next }
{
    let c = frames::frame_class(frames, top.base);
    let p = frames::point(frames, top.base);
    let j = frames::frame_method(frames, top.base);
    let file = base.file_of(c);
    let code = resolution::code_of(file, j);
    let version = classfile::version(file);
    let Some(read) = verifier::decode(version, code, p as usize) else {
        return Choice {
            posting: None,
            plan: instructions::refuse(WORD_STUCK),
            next: 0,
        };
    };
    let r = act(
        base,
        ties,
        subtypes,
        objects,
        frames,
        top,
        read.instruction,
        room,
    );
    Choice {
        posting: r.posting,
        plan: r.plan,
        next: (p as usize + read.size) as u32,
    }
}
