// A line read into a request.
ghost use Rattle.std.specs.Prelude.{◌≡◌};
ghost use Rattle.laws.specs.Lists.{all};
ghost use Rattle.request.specs.Request.{is_printable, fault, alone, set_ir_at, set_state_at, get_state_at, ramp_at, set_lamp_at, addressed, at_address, worded, read_request};

use crate::name::{Name, Word};
use crate::{Ask, Place, Request, Turn};
use text::field::after_comma;

// The longest line that is read.
pub const MOST_BYTES: usize = 4096;

fn is_printable(b: u8) -> bool
    ensures { result ≡ is_printable b }
{
    32 <= b && b <= 126
}

// Whether all of some bytes are printable. It looks at all of them, so that the compiler can take many at once: `all`, which stops at the
// first that is not, costs 11 to 41 more instructions in 100 over whole lines.
fn run_printable(s: &[u8]) -> bool
    ensures { result ≡ all is_printable s.now }
{
    let mut good = true;
    for b in s {
        good &= is_printable(*b);
    }
    good
}

// Whether all bytes are printable: by 16, or by 8 where there are fewer, and the last so many once more.
fn all_printable(s: &[u8]) -> bool
    ensures { result ≡ all is_printable s.now }
{
    let size = s.len();
    if size < 8 {
        return run_printable(s);
    }
    if size < 16 {
        return run_printable(&s[..8]) && run_printable(&s[size - 8..]);
    }
    // `chunks_exact` would divide by its size, where docs/EMBEDDING.md says that nothing does
    let mut left = s;
    while let Some((piece, behind)) = left.split_at_checked(16) {
        if !run_printable(piece) {
            return false;
        }
        left = behind;
    }
    run_printable(&s[size - 16..])
}

// A fault that names no place.
fn fault(number: u64) -> Request
    ensures { result ≡ fault number }
{
    let place = Place::nowhere();
    Request::Fault { number, place }
}

// A request that is complete at a place: anything behind it is 017.
#[tactic(auto, unfolding(crate::specs::Request::alone))]
fn alone(s: &[u8], end: usize, request: Request) -> Request
    ensures { result ≡ alone s.now end request }
{
    if end < s.len() { fault(17) } else { request }
}

#[tactic(auto, unfolding(crate::specs::Request::set_ir_at))]
fn set_ir_at(s: &[u8], place: Place, at: usize) -> Request
    ensures { result ≡ set_ir_at s.now place at }
{
    let Some((mode, end)) = crate::mode::mode_at(s, at) else {
        return Request::Fault { number: 23, place };
    };
    if !crate::mode::may_have(place.port, mode) {
        return Request::Fault { number: 14, place };
    }
    alone(s, end, Request::Connector(place, Ask::SetMode(mode)))
}

#[tactic(auto, unfolding(crate::specs::Request::set_state_at))]
fn set_state_at(s: &[u8], place: Place, at: usize) -> Request
    ensures { result ≡ set_state_at s.now place at }
{
    match text::field::field_within(s, at, 0, 1) {
        None => Request::Fault { number: 23, place },
        Some((state, end)) => alone(s, end, Request::Relay(place, Turn::Set(state))),
    }
}

#[tactic(auto, unfolding(crate::specs::Request::get_state_at))]
fn get_state_at(s: &[u8], place: Place, end: usize) -> Request
    ensures { result ≡ get_state_at s.now place end }
{
    if place.m == Place::INFRARED {
        alone(s, end, Request::Connector(place, Ask::GetContact))
    } else {
        alone(s, end, Request::Relay(place, Turn::Get))
    }
}

// The ramp behind a lamp's target.
#[tactic(auto, unfolding(crate::specs::Request::ramp_at))]
fn ramp_at(s: &[u8], place: Place, target: u8, at: usize) -> Request
    ensures { result ≡ ramp_at s.now place target at }
{
    match text::field::field_within(s, at, 0, Ask::MOST_RAMP) {
        None => Request::Fault { number: 23, place },
        Some((ramp, end)) => {
            let ramp = ramp as u8;
            let more = end < s.len();
            Request::Connector(place, Ask::SetLamp { target, ramp, more })
        }
    }
}

#[tactic(auto, unfolding(crate::specs::Request::set_lamp_at))]
fn set_lamp_at(s: &[u8], place: Place, at: usize) -> Request
    ensures { result ≡ set_lamp_at s.now place at }
{
    match text::field::field_within(s, at, 1, Ask::MOST_TARGET) {
        None => Request::Fault { number: 23, place },
        Some((target, end)) => ramp_at(s, place, target as u8, after_comma(s, end)),
    }
}

// A request whose address was read, and ends at a place.
fn at_address(s: &[u8], name: Name, place: Place, end: usize) -> Request
    ensures { result ≡ at_address s.now name place end }
{
    match name {
        Name::SetIr => set_ir_at(s, place, after_comma(s, end)),
        Name::GetIr => alone(s, end, Request::Connector(place, Ask::GetMode)),
        Name::SetState => set_state_at(s, place, after_comma(s, end)),
        Name::GetState => get_state_at(s, place, end),
        Name::SendIr => {
            let at = after_comma(s, end);
            Request::Connector(place, Ask::Send { at })
        }
        Name::StopIr => alone(s, end, Request::Connector(place, Ask::Stop)),
        Name::SetLamp => set_lamp_at(s, place, after_comma(s, end)),
        Name::GetLamp => {
            let more = end < s.len();
            Request::Connector(place, Ask::GetLamp { more })
        }
    }
}

// A request that has an address.
#[tactic(auto, unfolding(crate::specs::Request::addressed))]
fn addressed(s: &[u8], name: Name) -> Request
    ensures { result ≡ addressed s.now name }
{
    let at = after_comma(s, crate::name::name_end(name));
    let Some((place, end)) = crate::address::address_at(s, at) else {
        return fault(17);
    };
    match crate::address::address_fault(name, place) {
        Ok(()) => at_address(s, name, place, end),
        Err(number) => fault(number),
    }
}

// A line that begins with a word.
fn worded(s: &[u8], word: Word) -> Request
    ensures { result ≡ worded s.now word }
{
    match word {
        Word::Alone(fixed) => alone(s, crate::name::fixed_end(fixed), Request::Fixed(fixed)),
        Word::Named(name) => addressed(s, name),
    }
}

// The request that a line is, for any bytes.
#[tactic(auto, unfolding(crate::specs::Request::read_request))]
pub fn read_request(s: &[u8]) -> Request
    ensures { result ≡ read_request s.now }
{
    if MOST_BYTES < s.len() {
        return fault(15);
    }
    if !all_printable(s) {
        return fault(1);
    }
    match crate::name::word_at(s) {
        Some(word) => worded(s, word),
        None => fault(1),
    }
}
