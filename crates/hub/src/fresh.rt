// The connectors of a fresh hub, each in the mode that its place wakes in.
ghost use Rattle.std.specs.Prelude.{◌≡◌};
ghost use Rattle.hub.specs.Record.{fresh_hub};

use crate::Hub;
use connector::Connector;
use std::array;

pub fn connectors() -> [Connector; Hub::CONNECTORS]
    ensures { result ≡ fresh_hub.connectors }
{
    array::from_fn(|slot| Connector::fresh(request::mode::fresh_mode(slot as u64 + 1)))
}
