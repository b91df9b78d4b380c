// A request that was read from a line: it is asked of the connector or the relay at its place.
ghost use Rattle.std.specs.Prelude.{◌≡◌, ◌+◌, ◌≤◌, length, take, drop};
ghost use Rattle.request.specs.Accepted.{AskWithin, Within};
ghost use Rattle.connector.specs.Record.{SoundConnector};
ghost use Rattle.steps.specs.Step.{step_of};
ghost use Rattle.hub.specs.Record.{SoundHub, part_size};
ghost use Rattle.hub.specs.Line.{Stored, relay_step, asked_step, Decides};

use crate::answers::{fails, placed, says};
use crate::{Answer, Decided, Hub, HubChange, Store};
use code::Code;
use connector::{Connector, Owner, Stepped};
use reply::Reply;
use request::{Ask, Place, Request, Turn};

// What is asked of a connector, whose part of the store begins at a place.
fn step_in(
    c: Connector,
    store: &mut [u16],
    from: usize,
    connection: u8,
    text: &[u8],
    place: Place,
    ask: Ask,
) -> Stepped
    requires { SoundConnector c × (from + part_size ≤ length store.old) × AskWithin place.port ask }
    ensures { Stored (step_of c (take part_size (drop from store.old)) connection text.now place ask)
        store.old from result store.new }
{
    let to = from + Code::MOST_COUNTS;
    steps::step::step(c, &mut store[from..to], connection, text, place, ask)
}

// What is asked of a relay, which has a state.
fn relay_step(state: u64, slot: usize, place: Place, turn: Turn) -> Decided
    ensures { result ≡ relay_step state slot place turn }
{
    match turn {
        Turn::Get => says(Reply::State { place, state }),
        Turn::Set(next) => Decided {
            answer: Answer::Reply {
                reply: Reply::State { place, state: next },
                also: Owner::Nobody,
            },
            change: HubChange::Relay { slot, state: next },
        },
    }
}

pub fn asked(hub: Hub, store: &mut Store, connection: u8, text: &[u8], request: Request) -> Decided
    requires { SoundHub hub × Within request }
    ensures { Decides (asked_step hub store.old connection text.now request) result store.new }
{
    match request {
        Request::Fault { number, place } => fails(number, place),
        Request::Fixed(fixed) => says(Reply::Fixed(fixed)),
        Request::Connector(place, ask) => {
            let slot = (place.port - 1) as usize;
            let c = hub.connectors[slot];
            let from = slot * Code::MOST_COUNTS;
            let stepped = step_in(c, store, from, connection, text, place, ask);
            placed(slot, stepped)
        }
        Request::Relay(place, turn) => {
            let slot = (place.port - 1) as usize;
            relay_step(hub.relays[slot], slot, place, turn)
        }
    }
}
