// A first reading of a line, as of a reply that was well written. What it gives is written out afterwards and compared with the line.
ghost use Rattle.std.specs.Prelude.{◌≡◌, ◌≤◌};
ghost use Rattle.hearing.specs.Guess.{digit_at, place_at, value_at, mode_guess, device_guess, state_or_stop, lamp_or_version, guessed};

use logger::{Device, Heard};
use request::Place;
use text::field::{after_comma, byte_at};
use text::number::Number;

// The digit at a place: the lower half of its byte.
fn digit_at(s: &[u8], at: usize) -> u64
    ensures { result ≡ digit_at s.now at }
{
    u64::from(byte_at(s, at) % 16)
}

// m:p, of one digit each.
fn place_at(s: &[u8], at: usize) -> Place
    requires { at ≤ 13 }
    ensures { result ≡ place_at s.now at }
{
    Place {
        m: digit_at(s, at),
        port: digit_at(s, at + 2),
    }
}

// The number at a place, 0 where there is none.
#[tactic(auto, unfolding(crate::specs::Guess::value_at))]
fn value_at(s: &[u8], at: usize) -> u64
    ensures { result ≡ value_at s.now at }
{
    match text::number::number_at(s, at) {
        Number::Value(value, _) => value,
        _ => 0,
    }
}

// IR,m:p,mode
#[tactic(auto, unfolding(crate::specs::Guess::mode_guess))]
fn mode_guess(s: &[u8]) -> Heard
    ensures { result ≡ mode_guess s.now }
{
    match request::mode::mode_at(s, 7) {
        Some((mode, _)) => Heard::Mode(place_at(s, 3), mode),
        None => Heard::NotReply,
    }
}

// device,m,..
#[tactic(auto, unfolding(crate::specs::Guess::device_guess))]
fn device_guess(s: &[u8]) -> Device
    ensures { result ≡ device_guess s.now }
{
    match byte_at(s, 7) {
        b'0' => Device::Ethernet,
        b'1' => Device::Infrared,
        _ => Device::Relays,
    }
}

// state,m:p,s or stopir,m:p
#[tactic(auto, unfolding(crate::specs::Guess::state_or_stop))]
fn state_or_stop(s: &[u8]) -> Heard
    ensures { result ≡ state_or_stop s.now }
{
    if byte_at(s, 2) == b'a' {
        return Heard::State(place_at(s, 6), value_at(s, 10));
    }
    Heard::Stop(place_at(s, 7))
}

// LED_LIGHTING,m:p,level,target or LH-01
#[tactic(auto, unfolding(crate::specs::Guess::lamp_or_version))]
fn lamp_or_version(s: &[u8]) -> Heard
    ensures { result ≡ lamp_or_version s.now }
{
    if byte_at(s, 1) != b'E' {
        return Heard::Version;
    }
    let Number::Value(level, end) = text::number::number_at(s, 17) else {
        return Heard::NotReply;
    };
    Heard::Lamp(place_at(s, 13), level, value_at(s, after_comma(s, end)))
}

// The reply that a line is, if it is one.
#[tactic(auto, unfolding(crate::specs::Guess::guessed))]
pub fn guessed(s: &[u8]) -> Heard
    ensures { result ≡ guessed s.now }
{
    match byte_at(s, 0) {
        b's' => state_or_stop(s),
        b'E' => Heard::Error(value_at(s, 8), place_at(s, 4)),
        b'c' => Heard::Complete(place_at(s, 11), value_at(s, 15)),
        b'b' => Heard::Busy(place_at(s, 7), value_at(s, 11)),
        b'I' => mode_guess(s),
        b'd' => Heard::Listed(device_guess(s)),
        b'e' => Heard::Listed(Device::End),
        _ => lamp_or_version(s),
    }
}
