// The hub: its record and its calls, in document 01's order. The record is small and goes by value; the counts of what is being sent
// stand in a lent array. A call that reaches one connector or relay gives the change that it makes, for `applied`; one that reaches every
// connector gives the hub.
#![tactic(auto)]

ghost use Rattle.std.specs.Prelude.{◌≡◌, length};
ghost use Rattle.hub.specs.Record.{fresh_hub, applied, SoundHub, InRange};
ghost use Rattle.hub.specs.Line.{Writes, Answers, line_step, overlong_step};
ghost use Rattle.hub.specs.Calls.{reading_call, closed_call, carriers_of, levels_of, CompletionWritten};
ghost use Rattle.hub.specs.Wait.{wait_call};

pub use crate::completions::Completions;
use code::Code;
pub use connector::{Answer, Completion, Connector, Owner, Run};
use pace::Micros;
use reply::Reply;
use request::Place;

// That a hub is sound stays a clause of the calls that need it, and is no invariant of the type: `closed`, `reading` and `applied` take any hub,
// and document 01 has it as the one thing that a call may ask. So it is with the connector and its pace, the server and the assembler.
#[derive(Clone, Copy)]
pub struct Hub {
    pub connectors: [Connector; Hub::CONNECTORS],
    pub relays: [u64; Hub::RELAYS],
}

// The counts of what the connectors transmit: a part of so many for each of them, on and off counts in turn. What stands in a part
// behind the pairs that are being sent, or in that of an idle connector, means nothing.
pub type Store = [u16; Hub::COUNTS];

// What a call makes of the hub: nothing, another record of one connector, or another state of one relay. A slot is 0 for port 1. It stays an enum
// of three: an Option of the other two would be matched twice wherever a change is applied.
#[derive(Clone, Copy)]
pub enum HubChange {
    Nothing,
    Connector { slot: usize, connector: Connector },
    Relay { slot: usize, state: u64 },
}

// What a call is answered, and what it changes.
#[derive(Clone, Copy)]
pub struct Decided {
    pub answer: Answer,
    pub change: HubChange,
}

// The same for a line, and how many bytes were written into the reply buffer.
#[derive(Clone, Copy)]
pub struct Answered {
    pub answer: Answer,
    pub change: HubChange,
    pub size: usize,
}

// What a call that reaches every connector is answered, with the hub after it.
#[derive(Clone, Copy)]
pub struct Moved {
    pub answer: Answer,
    pub hub: Hub,
}

// The same for a wait, with its completions.
#[derive(Clone, Copy)]
pub struct Waited {
    pub answer: Answer,
    pub hub: Hub,
    pub completions: Completions,
}

impl Hub {
    pub const CONNECTORS: usize = Place::CONNECTORS;

    pub const RELAYS: usize = Place::RELAYS;
    // The numbers of a store.
    pub const COUNTS: usize = Hub::CONNECTORS * Code::MOST_COUNTS;
    // The greatest number of a connection, and the longest wait in microseconds.
    pub const MOST_CONNECTION: u64 = 7;

    pub const MOST_WAIT: u64 = 1000000000;

    pub fn fresh() -> Self
        ensures { result ≡ fresh_hub }
    {
        Hub {
            connectors: crate::fresh::connectors(),
            relays: [0; Hub::RELAYS],
        }
    }

    // A line, without its CR.
    pub fn line(self, store: &mut Store, connection: u64, text: &[u8], reply: &mut [u8]) -> Answered
        requires { SoundHub self }
        ensures { Answers (line_step self store.old connection text.now (length reply.old))
            reply.old result store.new reply.new }
    {
        if Hub::MOST_CONNECTION < connection {
            return crate::answers::refused(102);
        }
        if reply.len() < Reply::ROOM {
            return crate::answers::refused(101);
        }
        let request = request::read::read_request(text);
        let decided = crate::ask::asked(self, store, connection as u8, text, request);
        crate::answers::written(decided, reply)
    }

    // A line that the assembler marks as overlong: 015.
    pub fn overlong_line(connection: u64, reply: &mut [u8]) -> Answered
        ensures { Writes (overlong_step connection (length reply.old)) reply.old result reply.new }
    {
        if Hub::MOST_CONNECTION < connection {
            return crate::answers::refused(102);
        }
        if reply.len() < Reply::ROOM {
            return crate::answers::refused(101);
        }
        crate::answers::written(crate::answers::fails(15, Place::nowhere()), reply)
    }

    // A contact reading: 104 for a port that no connector has; otherwise the connector judges it.
    pub fn reading(self, port: u64, value: u64) -> Decided
        ensures { result ≡ reading_call self port value }
    {
        if port < 1 {
            return crate::answers::refusal(104);
        }
        if (Hub::CONNECTORS as u64) < port {
            return crate::answers::refusal(104);
        }
        let slot = (port - 1) as usize;
        let stepped = connector::reading::reading(self.connectors[slot], value);
        crate::answers::placed(slot, stepped)
    }

    // A closed connection: what it owned runs on with no owner.
    pub fn closed(self, connection: u64) -> Moved
        ensures { result ≡ closed_call self connection }
    {
        if Hub::MOST_CONNECTION < connection {
            return Moved {
                answer: Answer::Refused(102),
                hub: self,
            };
        }
        let connectors = crate::closing::disowned(self.connectors, connection as u8);
        Moved {
            answer: Answer::Taken,
            hub: Hub { connectors, ..self },
        }
    }

    // A wait of some microseconds. It is inlined wherever it is called: the port calls it in two places, and one body for both would copy the hub
    // there and back.
    #[inline(always)]
    pub fn wait(self, n: Micros) -> Waited
        requires { SoundHub self }
        ensures { result ≡ wait_call self n.0 }
    {
        if Hub::MOST_WAIT < n.0 {
            return Waited {
                answer: Answer::Refused(103),
                hub: self,
                completions: Completions::none(),
            };
        }
        let passed = crate::wait::passed(self.connectors, n);
        let connectors = passed.connectors;
        Waited {
            answer: Answer::Taken,
            hub: Hub { connectors, ..self },
            completions: passed.completions,
        }
    }

    // Whether the carrier of each connector is on now. It changes nothing.
    pub fn carriers(self, store: &Store) -> [bool; Hub::CONNECTORS]
        requires { SoundHub self }
        ensures { result ≡ carriers_of self store.now }
    {
        crate::carriers::carriers_of(self.connectors, store)
    }

    // The level of each connector's lamp in percent, 0 where there is none. It changes nothing.
    pub fn levels(self) -> [u64; Hub::CONNECTORS]
        requires { SoundHub self }
        ensures { result ≡ levels_of self }
    {
        crate::levels::levels_of(self.connectors)
    }

    // The hub with what a call changed of it.
    pub fn applied(self, change: HubChange) -> Hub
        requires { InRange change }
        ensures { result ≡ applied self change }
    {
        let mut next = self;
        match change {
            HubChange::Nothing => next,
            HubChange::Connector { slot, connector } => {
                next.connectors[slot] = connector;
                next
            }
            HubChange::Relay { slot, state } => {
                next.relays[slot] = state;
                next
            }
        }
    }

    // Writes a completion's line: its length, or the number of a refusal.
    pub fn write_completion(completion: Completion, buf: &mut [u8]) -> Result<usize, u64>
        ensures { CompletionWritten completion buf.old result buf.new }
    {
        if buf.len() < Reply::ROOM {
            return Err(101);
        }
        let Completion { place, id, .. } = completion;
        Ok(reply::put_reply(buf, Reply::Complete { place, id }))
    }
}

mod answers;
mod ask;
mod carriers;
mod closing;
pub mod completions;
mod fresh;
mod levels;
mod wait;
