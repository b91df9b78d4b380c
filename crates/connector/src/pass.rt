// Time on a connector.
ghost use Rattle.std.specs.Prelude.{◌≡◌, ◌≤◌};
ghost use Rattle.connector.specs.Record.{SoundConnector};
ghost use Rattle.connector.specs.Pass.{passing_lamp, passing};

use crate::{Completion, Connector, Owner, Run};
use pace::{Micros, Passed};
use request::Place;

// What a wait makes of a connector: it stays as it is, it goes on with its transmission or its lamp with its ramp, or the transmission is
// complete and it is idle then. It stays an enum of its own: an Option or a Result has two outcomes.
#[derive(Clone, Copy)]
pub enum Passing {
    Still,
    Running(Connector),
    Complete(Connector, Completion),
}

// A connector that transmits nothing: a lamp that is not at its target goes on.
fn lit(c: Connector, wait: Micros) -> Passing
    requires { SoundConnector c × (wait.0 ≤ 1000000000) }
    ensures { result ≡ passing_lamp c wait.0 }
{
    if c.lamp.gap.0 == 0 {
        return Passing::Still;
    }
    Passing::Running(crate::records::with_lamp(c, c.lamp.passed(wait)))
}

// The connector at a place some microseconds later. What it transmits is taken apart by a match and put together again: `let .. else` and a struct
// update cost the port 150 to 210 instructions a wait.
pub fn pass(c: Connector, place: Place, wait: Micros) -> Passing
    requires { SoundConnector c × (wait.0 ≤ 1000000000) }
    ensures { result ≡ passing c place wait.0 }
{
    match c.sending {
        None => lit(c, wait),
        Some(run) => {
            let fields = run.fields;
            let old = run.pace;
            let owner = c.owner;
            match old.passed(u64::from(fields.freq), wait) {
                Passed::Running(pace) => {
                    let next = Run {
                        fields,
                        count: run.count,
                        pace,
                    };
                    Passing::Running(crate::records::with_sending(c, owner, Some(next)))
                }
                Passed::Complete(moment) => {
                    let completion = Completion {
                        owner,
                        moment,
                        place,
                        id: u64::from(fields.id),
                    };
                    let next = crate::records::with_sending(c, Owner::Nobody, None);
                    Passing::Complete(next, completion)
                }
            }
        }
    }
}
