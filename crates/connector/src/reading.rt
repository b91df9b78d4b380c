// A contact reading.
ghost use Rattle.std.specs.Prelude.{◌≡◌};
ghost use Rattle.connector.specs.Reading.{refuses, reading_step};

use crate::{Answer, Connector, Stepped};

// A call's refusal.
fn refuses(number: u64) -> Stepped
    ensures { result ≡ refuses number }
{
    Stepped {
        answer: Answer::Refused(number),
        change: None,
    }
}

// A reading of a connector's contact: 104 where it is not in SENSOR, or not 0 or 1.
pub fn reading(c: Connector, value: u64) -> Stepped
    ensures { result ≡ reading_step c value }
{
    if !request::mode::is_sensor(c.mode) {
        return refuses(104);
    }
    if 1 < value {
        return refuses(104);
    }
    Stepped {
        answer: Answer::Taken,
        change: Some(crate::records::with_reading(c, value as u8)),
    }
}
