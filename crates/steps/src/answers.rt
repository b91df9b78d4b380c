// The answers that change nothing.
ghost use Rattle.std.specs.Prelude.{◌≡◌};
ghost use Rattle.steps.specs.Step.{says, fails};

use connector::{Answer, Owner, Stepped};
use reply::Reply;
use request::Place;

// A reply for the asker alone.
pub fn says(reply: Reply) -> Stepped
    ensures { result ≡ says reply }
{
    Stepped {
        answer: Answer::Reply {
            reply,
            also: Owner::Nobody,
        },
        change: None,
    }
}

// An error line.
pub fn fails(number: u64, place: Place) -> Stepped
    ensures { result ≡ fails number place }
{
    says(Reply::Error { number, place })
}
