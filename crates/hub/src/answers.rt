// The hub's answers: what a connector answered and became, refusals and errors, and the bytes of a reply.
ghost use Rattle.std.specs.Prelude.{◌≡◌, ◌≤◌, length};
ghost use Rattle.hub.specs.Line.{says, fails, refusal, placed, answered_of, Laid, Writes};

use crate::{Answer, Answered, Decided, HubChange};
use connector::{Owner, Stepped};
use reply::Reply;
use request::Place;

// `says` and `fails` stay beside those of steps::answers, which make a Stepped: a trait for both records would be longer than the two.
// A reply for the asker alone, and nothing changes.
pub fn says(reply: Reply) -> Decided
    ensures { result ≡ says reply }
{
    Decided {
        answer: Answer::Reply {
            reply,
            also: Owner::Nobody,
        },
        change: HubChange::Nothing,
    }
}

// An error line, and nothing changes.
pub fn fails(number: u64, place: Place) -> Decided
    ensures { result ≡ fails number place }
{
    says(Reply::Error { number, place })
}

// A call's refusal, and nothing changes.
pub fn refusal(number: u64) -> Decided
    ensures { result ≡ refusal number }
{
    Decided {
        answer: Answer::Refused(number),
        change: HubChange::Nothing,
    }
}

// The same for a line: nothing is written.
pub fn refused(number: u64) -> Answered
    ensures { result ≡ answered_of (refusal number) }
{
    Answered {
        answer: Answer::Refused(number),
        change: HubChange::Nothing,
        size: 0,
    }
}

// What the connector in a slot answered and became.
pub fn placed(slot: usize, stepped: Stepped) -> Decided
    ensures { result ≡ placed slot stepped }
{
    let Stepped { answer, change } = stepped;
    let change = match change {
        None => HubChange::Nothing,
        Some(connector) => HubChange::Connector { slot, connector },
    };
    Decided { answer, change }
}

// How many bytes the reply of an answer has, which it writes; none where there is no reply.
fn put_answer(answer: Answer, reply: &mut [u8]) -> usize
    requires { 128 ≤ length reply.old }
    ensures { Laid answer reply.old result reply.new }
{
    match answer {
        Answer::Reply { reply: said, .. } => reply::put_reply(reply, said),
        _ => 0,
    }
}

// Writes the reply of an answer, if it has one.
pub fn written(decided: Decided, reply: &mut [u8]) -> Answered
    requires { 128 ≤ length reply.old }
    ensures { Writes decided reply.old result reply.new }
{
    let Decided { answer, change } = decided;
    let size = put_answer(answer, reply);
    Answered {
        answer,
        change,
        size,
    }
}
