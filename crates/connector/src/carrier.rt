// The carrier of a connector.
ghost use Rattle.std.specs.Prelude.{◌≡◌, length};
ghost use Rattle.code.specs.Limits.{most_counts};
ghost use Rattle.connector.specs.Record.{SoundSending};
ghost use Rattle.connector.specs.Carrier.{carrier_of};

use crate::Connector;

// Whether it is on now; `kept` is the connector's own array.
pub fn carrier_of(c: Connector, kept: &[u16]) -> bool
    requires { SoundSending c.sending c.owner × (length kept.now ≡ most_counts) }
    ensures { result ≡ carrier_of kept.now c.sending }
{
    let Some(run) = c.sending else {
        return false;
    };
    store::carrier(kept, run.count, run.pace.place().0)
}
