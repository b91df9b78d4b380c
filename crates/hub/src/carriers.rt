// The carriers of the connectors.
ghost use Rattle.std.specs.Prelude.{◌≡◌, ◌+◌, ◌≤◌, length, take, drop};
ghost use Rattle.connector.specs.Record.{SoundConnector};
ghost use Rattle.connector.specs.Carrier.{carrier_of};
ghost use Rattle.hub.specs.Record.{SoundAll, part_size};
ghost use Rattle.hub.specs.Calls.{all_carriers};

use crate::{Hub, Store};
use code::Code;
use connector::Connector;
use std::array;

// The carrier of a connector whose part of the store begins at a place.
fn carrier_in(c: Connector, store: &[u16], from: usize) -> bool
    requires { SoundConnector c × (from + part_size ≤ length store.now) }
    ensures { result ≡ carrier_of (take part_size (drop from store.now)) c.sending }
{
    let to = from + Code::MOST_COUNTS;
    connector::carrier::carrier_of(c, &store[from..to])
}

pub fn carriers_of(
    connectors: [Connector; Hub::CONNECTORS],
    store: &Store,
) -> [bool; Hub::CONNECTORS]
    requires { SoundAll connectors }
    ensures { result ≡ all_carriers connectors store.now }
{
    array::from_fn(|slot| carrier_in(connectors[slot], store, slot * Code::MOST_COUNTS))
}
