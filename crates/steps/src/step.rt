// What is asked of one connector: its answer, and its change. The hub applies the change, and does nothing else.
ghost use Rattle.std.specs.Prelude.{◌≡◌, ◌≤◌, length};
ghost use Rattle.code.specs.Limits.{most_counts};
ghost use Rattle.request.specs.Accepted.{AskWithin};
ghost use Rattle.lamp.specs.Lamp.{SoundLamp};
ghost use Rattle.connector.specs.Record.{SoundConnector};
ghost use Rattle.steps.specs.Step.{set_mode, get_mode, get_contact, also_told, stops, lamp_reply, of_lamp, set_lamp, get_lamp, Makes, step_of};

use crate::answers::{fails, says};
use connector::{Answer, Connector, Owner, Stepped};
use lamp::Lamp;
use reply::Reply;
use request::mode::Mode;
use request::{Ask, Place};

// set_IR: 029 while it transmits.
fn set_mode(c: Connector, place: Place, mode: Mode) -> Stepped
    ensures { result ≡ set_mode c place mode }
{
    if connector::records::is_running(c.sending) {
        return fails(29, place);
    }
    Stepped {
        answer: Answer::Reply {
            reply: Reply::Mode { place, mode },
            also: Owner::Nobody,
        },
        change: Some(connector::records::with_mode(c, mode)),
    }
}

// get_IR.
fn get_mode(c: Connector, place: Place) -> Stepped
    ensures { result ≡ get_mode c place }
{
    says(Reply::Mode {
        place,
        mode: c.mode,
    })
}

// getstate: 018 where it is not in SENSOR, 028 where the contact is unread.
fn get_contact(c: Connector, place: Place) -> Stepped
    ensures { result ≡ get_contact c place }
{
    if !request::mode::is_sensor(c.mode) {
        return fails(18, place);
    }
    let Some(value) = c.contact else {
        return fails(28, place);
    };
    says(Reply::State {
        place,
        state: u64::from(value),
    })
}

// Whom a stopir tells besides the asker: the owner, if another connection. It stays beside the connector's `owner_left`, which has the same
// body: document 01 says the two rules in two places, and one may change without the other (docs/DECISIONS.md).
fn also_told(owner: Owner, connection: u8) -> Owner
    ensures { result ≡ also_told owner connection }
{
    if connector::records::owns(owner, connection) {
        Owner::Nobody
    } else {
        owner
    }
}

// stopir: 013 in SENSOR and on a lamp; nothing is transmitted any more, and nobody owns it.
fn stop(c: Connector, connection: u8, place: Place) -> Stepped
    ensures { result ≡ stops c connection place }
{
    if request::mode::is_silent(c.mode) {
        return fails(13, place);
    }
    Stepped {
        answer: Answer::Reply {
            reply: Reply::Stopped { place },
            also: also_told(c.owner, connection),
        },
        change: Some(connector::records::with_sending(c, Owner::Nobody, None)),
    }
}

// What a lamp is told as: its level in percent, and its target.
fn lamp_reply(place: Place, lamp: Lamp) -> Reply
    requires { SoundLamp lamp }
    ensures { result ≡ lamp_reply place lamp }
{
    Reply::Lamp {
        place,
        level: lamp.percent(),
        target: u64::from(lamp.target),
    }
}

// What a lamp gives: 023 where the connector is none, and then 017 for a surplus.
fn of_lamp(c: Connector, place: Place, more: bool, otherwise: Stepped) -> Stepped
    ensures { result ≡ of_lamp c place more otherwise }
{
    if !request::mode::is_lighting(c.mode) {
        return fails(23, place);
    }
    if more {
        return fails(17, Place::nowhere());
    }
    otherwise
}

// set_LED_LIGHTING.
fn set_lamp(c: Connector, place: Place, target: u8, ramp: u8, more: bool) -> Stepped
    requires { SoundConnector c × (target ≤ 100) × (ramp ≤ 10) }
    ensures { result ≡ set_lamp c place target ramp more }
{
    let lamp = c.lamp.turned(target, ramp);
    let stepped = Stepped {
        answer: Answer::Reply {
            reply: lamp_reply(place, lamp),
            also: Owner::Nobody,
        },
        change: Some(connector::records::with_lamp(c, lamp)),
    };
    of_lamp(c, place, more, stepped)
}

// get_LED_LIGHTING.
fn get_lamp(c: Connector, place: Place, more: bool) -> Stepped
    requires { SoundConnector c }
    ensures { result ≡ get_lamp c place more }
{
    of_lamp(c, place, more, says(lamp_reply(place, c.lamp)))
}

// What a connection asks of a connector at a place by a line; `kept` is the connector's own array.
pub fn step(
    c: Connector,
    kept: &mut [u16],
    connection: u8,
    text: &[u8],
    place: Place,
    ask: Ask,
) -> Stepped
    requires { SoundConnector c × (length kept.old ≡ most_counts) × AskWithin place.port ask }
    ensures { Makes (step_of c kept.old connection text.now place ask) result kept.new }
{
    match ask {
        Ask::SetMode(mode) => set_mode(c, place, mode),
        Ask::GetMode => get_mode(c, place),
        Ask::GetContact => get_contact(c, place),
        Ask::Send { at } => crate::send::send(c, kept, connection, text, place, at),
        Ask::Stop => stop(c, connection, place),
        Ask::SetLamp { target, ramp, more } => set_lamp(c, place, target, ramp, more),
        Ask::GetLamp { more } => get_lamp(c, place, more),
    }
}
