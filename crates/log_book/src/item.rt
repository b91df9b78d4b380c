// The items of a line, each behind one space: each is read from the front of what is left of the line, and gives what is left behind it.
ghost use Rattle.std.specs.Prelude.{◌<◌, length, IfSome};

use request::Place;

// What stands behind a space, up to the next space or the line's end.
pub fn word(s: &[u8]) -> Option<(&[u8], &[u8])>
    ensures { IfSome result (λ x. length x.1.now < length s.now) }
{
    let [b' ', s @ ..] = s else {
        return None;
    };
    let end = s.iter().position(|&b| b == b' ').unwrap_or(s.len());
    Some(s.split_at(end))
}

// The number that a word of 1 to 10 digits is.
fn number_of(word: &[u8]) -> Option<u64> {
    if word.is_empty() || word.len() > 10 {
        return None;
    }
    let mut value: u64 = 0;
    for &b in word {
        if !b.is_ascii_digit() {
            return None;
        }
        value = value * 10 + u64::from(b % 16);
    }
    Some(value)
}

pub fn number(s: &[u8]) -> Option<(u64, &[u8])>
    ensures { IfSome result (λ x. length x.1.now < length s.now) }
{
    let (word, s) = word(s)?;
    Some((number_of(word)?, s))
}

// A number that the line ends with.
pub fn last(s: &[u8]) -> Option<u64> {
    let (value, s) = number(s)?;
    s.is_empty().then_some(value)
}

// The two numbers of a place.
pub fn place(s: &[u8]) -> Option<(Place, &[u8])> {
    let (m, s) = number(s)?;
    let (port, s) = number(s)?;
    Some((Place { m, port }, s))
}

// How many numbers there are up to the line's end, of which there may be none; as many are kept as there is room for.
pub fn counts(s: &[u8], counts: &mut [u64]) -> Option<usize> {
    let mut left = s;
    let mut n: usize = 0;
    while !left.is_empty() {
        let (value, behind) = number(left)?;
        if let Some(count) = counts.get_mut(n) {
            *count = value;
        }
        left = behind;
        n += 1;
    }
    Some(n)
}
