// The levels of the lamps.
ghost use Rattle.std.specs.Prelude.{◌≡◌};
ghost use Rattle.hub.specs.Record.{SoundAll};
ghost use Rattle.hub.specs.Calls.{all_levels};

use crate::Hub;
use connector::Connector;
use std::array;

pub fn levels_of(connectors: [Connector; Hub::CONNECTORS]) -> [u64; Hub::CONNECTORS]
    requires { SoundAll connectors }
    ensures { result ≡ all_levels connectors }
{
    array::from_fn(|slot| connectors[slot].lamp.percent())
}
