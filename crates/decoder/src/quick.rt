// A spelled pair read quickly: where one is found, next_pair finds the same; anything else is left to it.
ghost use Rattle.decoder.specs.Quick.{ShortAt, QuickAt};
ghost use Rattle.std.specs.Prelude.{◌≡◌};

use text::number::is_digit;
use words::Pair;

// The number of at most five digits behind a comma, 0 where there are none, and the place behind it; nothing for anything else. A comma in the
// last six bytes of the text is left to next_pair too: behind any other stand six bytes, five digits and one more, so that the length is asked
// once and not for each digit.
fn short_at(s: &[u8], comma: usize) -> Option<(u64, usize)>
    ensures { ShortAt s.now comma result }
{
    if s.len() < 7 || s.len() - 7 < comma || s[comma] != b',' {
        return None;
    }
    let end = comma + 6;
    let mut value = 0;
    for i in comma + 1..end {
        let b = s[i];
        if !is_digit(b) {
            return Some((value, i));
        }
        value = value * 10 + u64::from(b - b'0');
    }
    if is_digit(s[end]) {
        return None;
    }
    Some((value, end))
}

// A comma and a pair of two such counts that are legal, with the place behind it; nothing for anything else.
pub fn quick_at(freq: u64, s: &[u8], at: usize) -> Option<(Pair, usize)>
    ensures { QuickAt freq s.now at result }
{
    let (on, comma) = short_at(s, at)?;
    if !code::limits::is_legal(freq, on) {
        return None;
    }
    let (off, next) = short_at(s, comma)?;
    if !code::limits::is_legal(freq, off) {
        return None;
    }
    let pair = Pair {
        on: on as u16,
        off: off as u16,
    };
    Some((pair, next))
}
