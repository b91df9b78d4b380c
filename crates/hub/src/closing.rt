// The connectors once a connection is closed.
ghost use Rattle.std.specs.Prelude.{◌≡◌};
ghost use Rattle.hub.specs.Calls.{all_disowned};

use crate::Hub;
use connector::Connector;

pub fn disowned(
    connectors: [Connector; Hub::CONNECTORS],
    connection: u8,
) -> [Connector; Hub::CONNECTORS]
    ensures { result ≡ all_disowned connectors connection }
{
    connectors.map(|c| connector::closing::disowned(c, connection))
}
