// The details of an answer.
ghost use Rattle.std.specs.Prelude.{◌≡◌};
ghost use Rattle.definition.specs.Answers.{refusal_details, step_details, details};

use definition::numbers::WORD_WANTED;
use definition::{Answer, Details, Refusal, Reply};

// What an answer with no refusal and no details has.
const NOTHING: Details = Details {
    refusal: 0,
    one: 0,
    two: 0,
    three: 0,
};

#[tactic(auto, unfolding(definition::specs::Answers::refusal_details))]
fn refusal_details(task: u8, refusal: Refusal) -> Details
    ensures { result ≡ refusal_details task refusal }
{
    match refusal {
        Refusal::Wanted(loader, name) => Details {
            refusal: WORD_WANTED,
            one: u32::from(loader),
            two: u32::from(name),
            three: u32::from(task),
        },
        Refusal::Word(number) => Details {
            refusal: number,
            ..NOTHING
        },
    }
}

#[tactic(auto, unfolding(definition::specs::Answers::step_details))]
fn step_details(turn: u8, answer: Answer) -> Details
    ensures { result ≡ step_details turn answer }
{
    match answer {
        Answer::Idle => NOTHING,
        Answer::Ran(task) => Details {
            one: 1,
            two: u32::from(task),
            ..NOTHING
        },
        Answer::Finished(task, int) => Details {
            one: 2,
            two: u32::from(task),
            three: int,
            ..NOTHING
        },
        Answer::Refused(refusal) => refusal_details(turn, refusal),
    }
}

// The numbers of a call's answer. `turn` is the task whose turn it was.
#[tactic(auto, unfolding(definition::specs::Answers::details))]
pub fn details_of(turn: u8, reply: Reply) -> Details
    ensures { result ≡ details turn reply }
{
    match reply {
        Reply::Accepted => NOTHING,
        Reply::Defined(class) => Details {
            one: u32::from(class),
            ..NOTHING
        },
        Reply::Stepped(answer) => step_details(turn, answer),
        Reply::RanFor(_, answer) => step_details(turn, answer),
        Reply::Denied(refusal) => refusal_details(0, refusal),
        Reply::Swept(freed) => Details {
            one: u32::from(freed),
            ..NOTHING
        },
    }
}
