// One pair of a code's text, or what stands there instead.
ghost use Rattle.std.specs.Prelude.{◌≡◌, ◌-◌};
ghost use Rattle.code.specs.Next.{is_letter, count_at, off_at, after_on, is_full, spelled_at, letter_at, begun_at, at_end, next_pair};

use crate::Code;
use text::number::Number;
use words::Pair;

// What stands before a place in a code's text: nothing of the code, a spelled pair or a letter. It stays an enum of its own: each of the three
// decides what may follow.
#[derive(Clone, Copy)]
pub enum After {
    Nothing,
    Spelling,
    Lettering,
}

// What stands at a place: the text's end, a spelled pair or the letter of such a number, each with the place behind it.
#[derive(Clone, Copy)]
pub enum Next {
    End,
    Spelled(Pair, usize),
    Letter(usize, usize),
}

#[tactic(auto, unfolding(crate::specs::Next::is_letter))]
pub fn is_letter(b: u8) -> bool
    ensures { result ≡ is_letter b }
{
    b.is_ascii_uppercase()
}

// A number that is a legal count, and the place behind it.
#[tactic(auto, unfolding(crate::specs::Next::count_at, crate::specs::Limits::legal))]
fn count_at(freq: u64, s: &[u8], at: usize) -> Option<(u16, usize)>
    ensures { result ≡ count_at freq s.now at }
{
    match text::number::number_at(s, at) {
        Number::Value(value, next) if crate::limits::is_legal(freq, value) => Some((
            value as u16,
            next,
        )),
        _ => None,
    }
}

// The off count, behind its comma.
#[tactic(auto, unfolding(crate::specs::Next::off_at))]
fn off_at(freq: u64, on: u16, s: &[u8], at: usize) -> Result<Next, u64>
    ensures { result ≡ off_at freq on s.now at }
{
    if is_letter(text::field::byte_at(s, at)) {
        return Err(21);
    }
    let Some((off, next)) = count_at(freq, s, at) else {
        return Err(9);
    };
    Ok(Next::Spelled(Pair { on, off }, next))
}

// What follows an on count.
#[tactic(auto, unfolding(crate::specs::Next::after_on))]
fn after_on(freq: u64, on: u16, s: &[u8], at: usize) -> Result<Next, u64>
    ensures { result ≡ after_on freq on s.now at }
{
    if s.len() <= at {
        return Err(10);
    }
    let b = s[at];
    if is_letter(b) {
        return Err(21);
    }
    if b == b',' {
        off_at(freq, on, s, at + 1)
    } else {
        Err(9)
    }
}

// Whether there is no room behind so many pairs.
fn is_full(pairs: usize) -> bool
    ensures { result ≡ is_full pairs }
{
    Code::MOST_PAIRS <= pairs
}

// A pair that a digit begins, behind so many.
#[tactic(auto, unfolding(crate::specs::Next::spelled_at))]
fn spelled_at(freq: u64, pairs: usize, s: &[u8], at: usize) -> Result<Next, u64>
    ensures { result ≡ spelled_at freq pairs s.now at }
{
    if is_full(pairs) {
        return Err(20);
    }
    let Some((on, next)) = count_at(freq, s, at) else {
        return Err(9);
    };
    after_on(freq, on, s, next)
}

// The number of a letter, 0 for A; a byte before A counts as A.
fn letter_number(b: u8) -> usize
    ensures { result ≡ b - 65 }
{
    usize::from(b.saturating_sub(b'A'))
}

// A pair that the letter b begins, behind so many, where so many letters have a pair.
#[tactic(auto, unfolding(crate::specs::Next::letter_at))]
fn letter_at(pairs: usize, letters: usize, b: u8, next: usize) -> Result<Next, u64>
    ensures { result ≡ letter_at pairs letters b next }
{
    if is_full(pairs) {
        return Err(20);
    }
    let i = letter_number(b);
    if i < letters {
        Ok(Next::Letter(i, next))
    } else {
        Err(22)
    }
}

// A pair that may only be spelled.
#[tactic(auto, unfolding(crate::specs::Next::begun_at))]
fn begun_at(freq: u64, pairs: usize, s: &[u8], at: usize) -> Result<Next, u64>
    ensures { result ≡ begun_at freq pairs s.now at }
{
    if text::number::is_digit(text::field::byte_at(s, at)) {
        spelled_at(freq, pairs, s, at)
    } else {
        Err(9)
    }
}

fn at_end(after: After) -> Result<Next, u64>
    ensures { result ≡ at_end after }
{
    match after {
        After::Nothing => Err(9),
        After::Spelling | After::Lettering => Ok(Next::End),
    }
}

// What stands at a place of a code's text, behind so many pairs, where so many letters have a pair; or the fault there.
#[tactic(auto, unfolding(crate::specs::Next::next_pair))]
pub fn next_pair(
    freq: u64,
    pairs: usize,
    letters: usize,
    after: After,
    s: &[u8],
    at: usize,
) -> Result<Next, u64>
    ensures { result ≡ next_pair freq pairs letters after s.now at }
{
    if s.len() <= at {
        return at_end(after);
    }
    let b = s[at];
    if is_letter(b) {
        return letter_at(pairs, letters, b, at + 1);
    }
    let begin = match after {
        After::Nothing => at,
        After::Spelling if b == b',' => at + 1,
        After::Spelling => return Err(9),
        After::Lettering => at,
    };
    begun_at(freq, pairs, s, begin)
}
