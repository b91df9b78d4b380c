// The word that a line begins with.
ghost use Rattle.std.specs.Prelude.{◌≡◌, length};
ghost use Rattle.text.specs.Field.{field_is};
ghost use Rattle.request.specs.Name.{fixed_word, name_of, word_of, candidate, word_at};

use crate::Fixed;
use text::field::{byte_at, field_is};

// The name of a request that has an address.
#[derive(Clone, Copy, PartialEq, Eq)]
pub enum Name {
    SetIr,
    GetIr,
    SetState,
    GetState,
    SendIr,
    StopIr,
    SetLamp,
    GetLamp,
}

#[derive(Clone, Copy, PartialEq, Eq)]
pub enum Word {
    Alone(Fixed),
    Named(Name),
}

fn is_fixed(s: &[u8], fixed: Fixed) -> bool
    ensures { result ≡ field_is (fixed_word fixed) s.now }
{
    match fixed {
        Fixed::Devices => field_is(s, 0, b"getdevices"),
        Fixed::Version => field_is(s, 0, b"getversion"),
    }
}

fn is_name(s: &[u8], name: Name) -> bool
    ensures { result ≡ field_is (name_of name) s.now }
{
    match name {
        Name::SetIr => field_is(s, 0, b"set_IR"),
        Name::GetIr => field_is(s, 0, b"get_IR"),
        Name::SetState => field_is(s, 0, b"setstate"),
        Name::GetState => field_is(s, 0, b"getstate"),
        Name::SendIr => field_is(s, 0, b"sendir"),
        Name::StopIr => field_is(s, 0, b"stopir"),
        Name::SetLamp => field_is(s, 0, b"set_LED_LIGHTING"),
        Name::GetLamp => field_is(s, 0, b"get_LED_LIGHTING"),
    }
}

// Whether the line's first field is a word.
fn is_word(s: &[u8], word: Word) -> bool
    ensures { result ≡ field_is (word_of word) s.now }
{
    match word {
        Word::Alone(fixed) => is_fixed(s, fixed),
        Word::Named(name) => is_name(s, name),
    }
}

// The one word that can be the first field, by the line's first, fourth and fifth byte: no two words have all three alike.
#[tactic(auto, unfolding(crate::specs::Name::candidate))]
fn candidate(first: u8, fourth: u8, fifth: u8) -> Word
    ensures { result ≡ candidate first fourth fifth }
{
    let s = first == b's';
    if fourth == b'd' {
        return if s {
            Word::Named(Name::SendIr)
        } else {
            Word::Alone(Fixed::Devices)
        };
    }
    if fourth == b's' {
        return if s {
            Word::Named(Name::SetState)
        } else {
            Word::Named(Name::GetState)
        };
    }
    if fourth == b'_' {
        if fifth == b'L' {
            return if s {
                Word::Named(Name::SetLamp)
            } else {
                Word::Named(Name::GetLamp)
            };
        }
        return if s {
            Word::Named(Name::SetIr)
        } else {
            Word::Named(Name::GetIr)
        };
    }
    if fourth == b'v' {
        return Word::Alone(Fixed::Version);
    }
    Word::Named(Name::StopIr)
}

// The word that the line's first field is.
pub fn word_at(s: &[u8]) -> Option<Word>
    ensures { result ≡ word_at s.now }
{
    let word = candidate(byte_at(s, 0), byte_at(s, 3), byte_at(s, 4));
    if is_word(s, word) { Some(word) } else { None }
}

// Where the word ends in a line that begins with it.
pub fn fixed_end(fixed: Fixed) -> usize
    ensures { result ≡ length (fixed_word fixed) }
{
    match fixed {
        Fixed::Devices | Fixed::Version => 10,
    }
}

// The same of a name.
pub fn name_end(name: Name) -> usize
    ensures { result ≡ length (name_of name) }
{
    match name {
        Name::SetIr | Name::GetIr | Name::SendIr | Name::StopIr => 6,
        Name::SetState | Name::GetState => 8,
        Name::SetLamp | Name::GetLamp => 16,
    }
}
