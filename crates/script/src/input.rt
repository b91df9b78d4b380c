// A line of the script, without its LF.
ghost use Rattle.std.specs.Prelude.{◌≡◌};
ghost use Rattle.script.specs.Input.{input_of, figures_of, reading_in, call_in};

use crate::parts;

// What a line asks for: a request that begins at a place, a reading, a closing, a wait, or it is of another form. That stays one of the five, no
// plainer as the None of an Option: it has its own answer too.
#[derive(Clone, Copy)]
pub enum Input {
    Other,
    Line(u64, usize),
    Reading(u64, u64),
    Closing(u64),
    Waiting(u64),
}

// The number that a word is, of 1 to 10 digits.
fn figures_of(w: &[u8]) -> Option<u64>
    ensures { result ≡ figures_of w.now }
{
    if w.is_empty() || 10 < w.len() {
        return None;
    }
    let mut value: u64 = 0;
    for &b in w {
        if !text::number::is_digit(b) {
            return None;
        }
        value = value * 10 + u64::from(b - b'0');
    }
    Some(value)
}

// Two numbers, which a reading has.
fn reading_in(s: &[u8]) -> Input
    ensures { result ≡ reading_in s.now }
{
    let end = parts::part_end(s, 0, b' ');
    if end == s.len() {
        return Input::Other;
    }
    let next = end + 1;
    let Some(port) = figures_of(&s[..end]) else {
        return Input::Other;
    };
    let Some(value) = figures_of(&s[next..]) else {
        return Input::Other;
    };
    Input::Reading(port, value)
}

// A letter, and what stands behind the space that follows it.
fn call_in(letter: u8, s: &[u8]) -> Input
    ensures { result ≡ call_in letter s.now }
{
    if letter == b'r' {
        return reading_in(s);
    }
    let Some(number) = figures_of(s) else {
        return Input::Other;
    };
    if letter == b'x' {
        return Input::Closing(number);
    }
    if letter == b'w' {
        return Input::Waiting(number);
    }
    Input::Other
}

// Any line, word by word.
fn words_of(s: &[u8]) -> Input
    ensures { result ≡ input_of s.now }
{
    let end = parts::part_end(s, 0, b' ');
    if end == s.len() {
        return Input::Other;
    }
    let next = end + 1;
    match figures_of(&s[..end]) {
        Some(connection) => Input::Line(connection, next),
        None => {
            if end != 1 {
                return Input::Other;
            }
            call_in(s[0], &s[2..])
        }
    }
}

// One digit and a space, as nearly every line begins, is read at once.
pub fn input_of(s: &[u8]) -> Input
    ensures { result ≡ input_of s.now }
{
    let b = text::field::byte_at(s, 0);
    if text::number::is_digit(b) {
        if text::field::byte_at(s, 1) == b' ' {
            return Input::Line(u64::from(b - b'0'), 2);
        }
    }
    words_of(s)
}
