// The pairs that have a letter. Their count stays beside the array: there is no heap, and the memory is fixed.
ghost use Rattle.std.specs.Prelude.{◌≡◌};
ghost use Rattle.words.specs.Pairs.{same_pair};
ghost use Rattle.code.specs.Letters.{no_letters, place_of, held, Learns};

use crate::Code;
use words::Pair;

#[derive(Clone, Copy)]
pub struct Letters {
    pub count: usize,
    pub pairs: [Pair; Code::LETTERS],
}

impl Letters {
    pub fn none() -> Self
        ensures { result ≡ no_letters }
    {
        Letters {
            count: 0,
            pairs: [Pair { on: 0, off: 0 }; Code::LETTERS],
        }
    }
}

// It stays beside `==`: its promise, `same_pair`, is the one of which `place_of` and `learn` speak.
#[tactic(auto, unfolding(words::specs::Pairs::same_pair))]
pub fn same(p: Pair, q: Pair) -> bool
    ensures { result ≡ same_pair p q }
{
    p == q
}

// The place of a pair among those that have a letter, or their number where it has none.
pub fn place_of(letters: Letters, p: Pair) -> usize
    ensures { result ≡ place_of p (held letters) }
{
    let count = letters.count.min(Code::LETTERS);
    letters.pairs[..count]
        .iter()
        .position(|&q| same(q, p))
        .unwrap_or(count)
}

// The letters after one pair more.
pub fn learn(letters: Letters, p: Pair) -> Letters
    ensures { Learns letters p result }
{
    let count = letters.count;
    if place_of(letters, p) < count {
        return letters;
    }
    if count < Code::LETTERS {
        let mut pairs = letters.pairs;
        pairs[count] = p;
        Letters {
            count: count + 1,
            pairs,
        }
    } else {
        letters
    }
}
