// The connectors some microseconds later, and their completions.
ghost use Rattle.std.specs.Prelude.{◌≡◌, ◌≤◌};
ghost use Rattle.hub.specs.Record.{SoundAll};
ghost use Rattle.hub.specs.Wait.{all_passed};

use crate::Hub;
use crate::completions::Completions;
use connector::Connector;
use connector::pass::Passing;
use pace::Micros;
use request::Place;

#[derive(Clone, Copy)]
pub struct AllPassed {
    pub connectors: [Connector; Hub::CONNECTORS],
    pub completions: Completions,
}

// Inlined wherever a wait is, as `Hub::wait` is: called, it would have the connectors copied in and out.
#[inline(always)]
pub fn passed(connectors: [Connector; Hub::CONNECTORS], n: Micros) -> AllPassed
    requires { SoundAll connectors × (n.0 ≤ 1000000000) }
    ensures { result ≡ all_passed connectors n.0 }
{
    let mut all = connectors;
    let mut completions = Completions::none();
    for (slot, c) in all.iter_mut().enumerate() {
        match connector::pass::pass(*c, Place::connector(slot), n) {
            Passing::Still => {}
            Passing::Running(next) => *c = next,
            Passing::Complete(next, completion) => {
                *c = next;
                completions = completions.with(completion);
            }
        }
    }
    AllPassed {
        connectors: all,
        completions,
    }
}
