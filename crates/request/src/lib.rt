// A line of bytes read into one request, or into its first fault that does not depend on the hub's state.
#![tactic(auto)]

ghost use Rattle.std.specs.Prelude.{◌≡◌};
ghost use Rattle.request.specs.Place.{connector_in, nowhere};

use crate::mode::Mode;

// Where a request goes: a module and a port of it.
#[derive(Clone, Copy, PartialEq, Eq)]
pub struct Place {
    pub m: u64,
    pub port: u64,
}

impl Place {
    pub const INFRARED: u64 = 1;

    pub const RELAY: u64 = 2;
    // The ports of the module of the infrared connectors.
    pub const CONNECTORS: usize = 3;
    // Those of the module of the relays.
    pub const RELAYS: usize = 3;

    // The connector of a slot, counted from 0; nowhere, where there is none.
    pub fn connector(slot: usize) -> Place
        ensures { result ≡ connector_in slot }
    {
        if slot < Place::CONNECTORS {
            Place {
                m: Place::INFRARED,
                port: slot as u64 + 1,
            }
        } else {
            Place::nowhere()
        }
    }

    // The address of a fault that names none.
    pub fn nowhere() -> Place
        ensures { result ≡ nowhere }
    {
        Place { m: 0, port: 0 }
    }
}

// A request without an address: its reply is always the same.
#[derive(Clone, Copy, PartialEq, Eq)]
pub enum Fixed {
    Devices,
    Version,
}

// What is asked of a connector; a sendir's fields begin at a place of the line. Behind a lamp's request there may be more: that is 017, but only
// where the connector is a lamp.
#[derive(Clone, Copy)]
pub enum Ask {
    SetMode(Mode),
    GetMode,
    GetContact,
    Send { at: usize },
    Stop,
    SetLamp { target: u8, ramp: u8, more: bool },
    GetLamp { more: bool },
}

impl Ask {
    // The greatest target of a lamp, in percent.
    pub const MOST_TARGET: u64 = 100;
    // The greatest ramp, in percent for each 100,000 microseconds.
    pub const MOST_RAMP: u64 = 10;
}

// What is asked of a relay. It stays an enum of its own: to get is a request too, and no state that is missing.
#[derive(Clone, Copy)]
pub enum Turn {
    Set(u64),
    Get,
}

// What a line is: a request of document 01's table, or a fault with its number and the place that it names. The fault stays a case beside the
// others, and this no Result: document 01 has a read request as an enum "whose cases carry the numbers, or the refusal".
#[derive(Clone, Copy)]
pub enum Request {
    Fault { number: u64, place: Place },
    Fixed(Fixed),
    Connector(Place, Ask),
    Relay(Place, Turn),
}

mod address;
pub mod mode;
mod name;
pub mod read;

pub use crate::address::address_fault;
pub use crate::name::Name;
