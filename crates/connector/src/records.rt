// The records that a connector may become.
ghost use Rattle.std.specs.Prelude.{◌≡◌};
ghost use Rattle.connector.specs.Record.{SoundSending};
ghost use Rattle.connector.specs.Change.{with_mode, with_reading, with_lamp, with_sending, is_running, renewed, owns};

use crate::{Connector, Owner, Run};
use lamp::Lamp;
use request::mode::Mode;

// A change of mode makes the contact unread and leaves no lamp but a dark one; the present mode again changes nothing.
pub fn with_mode(c: Connector, mode: Mode) -> Connector
    ensures { result ≡ with_mode c mode }
{
    if c.mode == mode {
        return c;
    }
    Connector {
        mode,
        contact: None,
        lamp: Lamp::dark(),
        ..c
    }
}

pub fn with_reading(c: Connector, value: u8) -> Connector
    ensures { result ≡ with_reading c value }
{
    Connector {
        contact: Some(value),
        ..c
    }
}

// The same with its lamp as another.
pub fn with_lamp(c: Connector, lamp: Lamp) -> Connector
    ensures { result ≡ with_lamp c lamp }
{
    Connector { lamp, ..c }
}

pub fn is_running(sending: Option<Run>) -> bool
    ensures { result ≡ is_running sending }
{
    sending.is_some()
}

// The same mode, contact and lamp, with another transmission or none.
pub fn with_sending(c: Connector, owner: Owner, sending: Option<Run>) -> Connector
    ensures { result ≡ with_sending c owner sending }
{
    Connector {
        owner,
        sending,
        ..c
    }
}

// The transmission renewed, with its own repeat.
pub fn renewed(c: Connector) -> Connector
    requires { SoundSending c.sending c.owner }
    ensures { result ≡ renewed c }
{
    let Some(run) = c.sending else {
        return c;
    };
    let pace = run.pace.renewed(run.fields.repeat);
    with_sending(c, c.owner, Some(Run { pace, ..run }))
}

pub fn owns(owner: Owner, connection: u8) -> bool
    ensures { result ≡ owns owner connection }
{
    owner == Owner::Connection(connection)
}
