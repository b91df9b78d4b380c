// Which replies a hub can write.
ghost use Rattle.std.specs.Prelude.{◌≡◌};
ghost use Rattle.laws.specs.Checks.{one_of};
ghost use Rattle.logger.specs.Heard.{is_port_of, is_connector, is_relay, is_nowhere, is_error, is_level, writable};

use crate::Heard;
use request::{Ask, Place};

// The greatest id of a command. It stays a number of its own beside `Code::MOST_ID`: the logger's half of the talk would else hang on the
// reader of codes for this one number. `exact` of crates/logged holds both to be the same.
const MOST_ID: u64 = 65535;

// 0:0, the place of an error that names none.
fn is_nowhere(a: Place) -> bool
    ensures { result ≡ is_nowhere a }
{
    a == Place::nowhere()
}

// Whether a place is one of a module that has so many ports.
fn is_port_of(m: u64, ports: usize, a: Place) -> bool
    ensures { result ≡ is_port_of m ports a }
{
    a.m == m && 1 <= a.port && a.port <= ports as u64
}

fn is_connector(a: Place) -> bool
    ensures { result ≡ is_connector a }
{
    is_port_of(Place::INFRARED, Place::CONNECTORS, a)
}

fn is_relay(a: Place) -> bool
    ensures { result ≡ is_relay a }
{
    is_port_of(Place::RELAY, Place::RELAYS, a)
}

// Whether a list has a number.
fn one_of(l: &[u64], n: u64) -> bool
    ensures { result ≡ one_of l.now n }
{
    l.contains(&n)
}

// Whether a hub writes an error of this number for this place.
fn is_error(n: u64, a: Place) -> bool
    ensures { result ≡ is_error n a }
{
    if is_nowhere(a) {
        return one_of(&[15, 1, 17, 2, 3], n);
    }
    if is_relay(a) {
        return n == 23;
    }
    if !is_connector(a) {
        return false;
    }
    if n == 14 {
        return a.port != 3;
    }
    one_of(&[13, 14, 18, 23, 28, 29, 4, 5, 6, 7, 9, 10, 20, 21, 22], n)
}

// Whether a lamp can be at this level with this target; no level is above every target.
fn is_level(level: u64, target: u64) -> bool
    ensures { result ≡ is_level level target }
{
    if target == 0 {
        return level == 0;
    }
    target <= Ask::MOST_TARGET && level <= Ask::MOST_TARGET
}

// Whether a hub can write this reply.
#[tactic(auto, unfolding(crate::specs::Heard::writable))]
pub fn writable(h: Heard) -> bool
    ensures { result ≡ writable h }
{
    match h {
        Heard::NotReply => false,
        Heard::State(a, state) => state <= 1 && (is_relay(a) || is_connector(a)),
        Heard::Complete(a, id) | Heard::Busy(a, id) => id <= MOST_ID && is_connector(a),
        Heard::Stop(a) => is_connector(a),
        Heard::Mode(a, mode) => is_connector(a) && request::mode::may_have(a.port, mode),
        Heard::Error(n, a) => is_error(n, a),
        Heard::Version | Heard::Listed(_) => true,
        Heard::Lamp(a, level, target) => is_connector(a) && is_level(level, target),
    }
}
