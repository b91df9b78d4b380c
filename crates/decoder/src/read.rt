// A whole code.
ghost use Rattle.std.specs.Prelude.{◌≡◌, List, [], ◌∷◌, ℕ, ◌+◌, ◌-◌, ◌*◌, ◌≤◌, ◌<◌, length};
ghost use Rattle.std.proofs.lemmas.List.Edits.{sets};
ghost use Rattle.words.specs.declared.Pair.{Pair};
ghost use Rattle.words.specs.Pairs.{counts_of};
ghost use Rattle.code.specs.Limits.{most_pairs};
ghost use Rattle.code.specs.Letters.{letters_of, held, Kept};
ghost use Rattle.code.specs.declared.next.After.TheVariants.{Spelling, Lettering};
ghost use Rattle.code.specs.Read.{read_code, ReadInto};
ghost use Rattle.decoder.specs.Follows.{Follows, pairs_at, lags};

use code::Code;
use code::letters::Letters;
use code::next::{After, Next};
use words::Pair;

// How far a code is read: so many pairs, up to a place.
#[derive(Clone, Copy)]
pub struct Far {
    pub count: usize,
    pub at: usize,
}

// Stores a pair behind so many.
fn put_pair(counts: &mut [u16], count: usize, p: Pair)
    requires { 2 * count + 1 < length counts.old }
    ensures { counts.new ≡ sets counts.old (2 * count) (counts_of (p ∷ [])) }
{
    let at = 2 * count;
    counts[at] = p.on;
    counts[at + 1] = p.off;
}

// The letters after the pairs from one to before another.
fn learn_all(letters: Letters, counts: &[u16], from: usize, to: usize) -> Letters
    requires { (letters.count ≤ 15) × (2 * to ≤ length counts.now) }
    ensures { Kept result (letters_of (held letters) (pairs_at counts.now from (to - from))) }
{
    let mut known = letters;
    for i in from..to {
        let p = Pair {
            on: counts[2 * i],
            off: counts[2 * i + 1],
        };
        known = code::letters::learn(known, p);
    }
    known
}

// At most so many letters are read on from a place, behind so many pairs: each takes a byte, and room for a pair.
fn most_letters(s: &[u8], at: usize, count: usize) -> usize
    ensures { (result ≤ length s.now - at) × (result ≤ most_pairs - count) }
{
    let bytes = s.len().saturating_sub(at);
    let pairs = Code::MOST_PAIRS.saturating_sub(count);
    bytes.min(pairs)
}

// Reads on behind a letter, as long as there are letters that have a pair. Its loop has one counter and one bound, reckoned before, as most of
// a lettered code is read here. It stays a `while`: a `for` that returns at the first other byte takes 18 instructions in 100 more on a code of
// letters, and one that is broken out of needs a second variable for the same place.
fn letter_run(
    letters: Letters,
    s: &[u8],
    count: usize,
    at: usize,
    counts: &mut [u16; Code::MOST_COUNTS],
) -> Far
    requires { letters.count ≤ 15 }
    ensures { (freq : ℕ) → Follows freq s.now (held letters) (held letters) counts.old counts.new count at result.count result.at
        Lettering Lettering }
{
    let known = letters.pairs;
    let most = most_letters(s, at, count);
    let mut more = 0;
    while more < most {
        let b = s[at + more];
        if !code::next::is_letter(b) {
            break;
        }
        let i = usize::from(b - b'A');
        if letters.count <= i {
            break;
        }
        put_pair(counts, count + more, known[i]);
        more += 1;
    }
    Far {
        count: count + more,
        at: at + more,
    }
}

// Reads on behind a spelled pair, as long as the quick reader finds pairs. Its loop stays a `while`: it ends where the quick reader finds none,
// and the count that a `for` would give is wanted behind it.
fn spelled_run(
    freq: u64,
    s: &[u8],
    count: usize,
    at: usize,
    counts: &mut [u16; Code::MOST_COUNTS],
) -> Far
    ensures { (t : List Pair) → (t' : List Pair) × Follows freq s.now t t' counts.old counts.new count at result.count result.at
        Spelling Spelling }
{
    let mut n = count;
    let mut i = at;
    while n < Code::MOST_PAIRS {
        let Some((p, next)) = crate::quick::quick_at(freq, s, i) else {
            break;
        };
        put_pair(counts, n, p);
        n += 1;
        i = next;
    }
    Far { count: n, at: i }
}

// Whether a letter stands at a place and some of so many pairs are not learnt yet.
#[tactic(auto, unfolding(crate::specs::Follows::lags))]
fn lags(s: &[u8], at: usize, seen: usize, count: usize) -> bool
    ensures { result ≡ lags s.now at seen count }
{
    code::next::is_letter(text::field::byte_at(s, at)) && seen < count
}

// The code that begins at a place of a text and runs to its end. A pair is learnt only when a letter comes behind it. The loop counts nothing: the
// place moves by what was read, and a turn that learns reads nothing.
pub fn read_code(freq: u64, s: &[u8], start: usize, counts: &mut [u16; Code::MOST_COUNTS]) -> Code
    ensures { ReadInto (read_code freq s.now start) counts.old result counts.new }
{
    let mut letters = Letters::none();
    let mut seen: usize = 0;
    let mut count: usize = 0;
    let mut at = start;
    let mut after = After::Nothing;
    loop {
        if lags(s, at, seen, count) {
            letters = learn_all(letters, counts, seen, count);
            seen = count;
            continue;
        }
        match code::next::next_pair(freq, count, letters.count, after, s, at) {
            Ok(Next::End) => {
                return Code::Pairs(count);
            }
            Err(number) => {
                return Code::Fault(number);
            }
            Ok(Next::Spelled(p, next)) => {
                put_pair(counts, count, p);
                let far = spelled_run(freq, s, count + 1, next, counts);
                count = far.count;
                at = far.at;
                after = After::Spelling;
            }
            Ok(Next::Letter(i, next)) => {
                put_pair(counts, count, letters.pairs[i]);
                let far = letter_run(letters, s, count + 1, next, counts);
                count = far.count;
                seen = far.count;
                at = far.at;
                after = After::Lettering;
            }
        }
    }
}
