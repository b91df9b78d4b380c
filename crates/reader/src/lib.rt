// A reader of a code's text. It holds the text and a place, and hands out one pair at a time: the pairs before a fault, and then the fault.
#![tactic(auto)]

ghost use Rattle.std.specs.Prelude.{◌≡◌, ◌<◌, get_or};
ghost use Rattle.words.specs.Pairs.{pair};
ghost use Rattle.code.specs.Limits.{most_pairs};
ghost use Rattle.reader.specs.Hands.{text_at, moved_to, fresh_progress, pair_handed, handed, handed_by};

use code::Code;
use code::letters::Letters;
use code::next::{After, Next};
use words::Pair;

#[derive(Clone, Copy)]
pub struct CodeText<'a> {
    pub text: &'a [u8],
    pub at: usize,
}

// What was read before the place: how many pairs, those that have a letter, and how the last one was written.
#[derive(Clone, Copy)]
pub struct Progress {
    pub freq: u64,
    pub count: usize,
    pub letters: Letters,
    pub after: After,
}

// A piece, which is a pair, nothing at the end, or a fault; and the place and the progress behind it.
#[derive(Clone, Copy)]
pub struct Handed {
    pub at: usize,
    pub piece: Result<Option<Pair>, u64>,
    pub progress: Progress,
}

impl Progress {
    // Nothing was read yet.
    pub fn fresh(freq: u64) -> Self
        ensures { result ≡ fresh_progress freq }
    {
        Progress {
            freq,
            count: 0,
            letters: Letters::none(),
            after: After::Nothing,
        }
    }
}

// A pair is handed out, and reading goes on behind it.
fn pair_handed(progress: Progress, p: Pair, letters: Letters, after: After, next: usize) -> Handed
    requires { progress.count < most_pairs }
    ensures { result ≡ pair_handed progress p letters after next }
{
    Handed {
        at: next,
        piece: Ok(Some(p)),
        progress: Progress {
            count: progress.count + 1,
            letters,
            after,
            ..progress
        },
    }
}

// The pair of a letter. There are no letters past O: one that a progress from elsewhere counts stands for 0 and 0.
fn pair_of(letters: Letters, i: usize) -> Pair
    ensures { result ≡ get_or letters.pairs i (pair 0 0) }
{
    if i < Code::LETTERS {
        letters.pairs[i]
    } else {
        Pair { on: 0, off: 0 }
    }
}

// What is handed out at a place of a text; the end and a fault leave the place and the progress as they are.
fn next_from(progress: Progress, text: &[u8], at: usize) -> Handed
    ensures { result ≡ handed progress text.now at }
{
    let letters = progress.letters;
    match code::next::next_pair(
        progress.freq,
        progress.count,
        letters.count,
        progress.after,
        text,
        at,
    ) {
        Ok(Next::End) => Handed {
            at,
            piece: Ok(None),
            progress,
        },
        Err(number) => Handed {
            at,
            piece: Err(number),
            progress,
        },
        Ok(Next::Spelled(p, next)) => {
            let learnt = code::letters::learn(letters, p);
            pair_handed(progress, p, learnt, After::Spelling, next)
        }
        Ok(Next::Letter(i, next)) => {
            let p = pair_of(letters, i);
            pair_handed(progress, p, letters, After::Lettering, next)
        }
    }
}

impl<'a> CodeText<'a> {
    pub fn of(text: &'a [u8], at: usize) -> CodeText<'a>
        ensures { result ≡ text_at text.entry at }
    {
        CodeText { text, at }
    }

    // Hands out what stands at the reader's place, and moves on behind it.
    pub fn next(&mut self, progress: Progress) -> Handed
        ensures { (result ≡ handed_by progress self.old) × (self.new ≡ moved_to self.old result.at) }
    {
        let handed = next_from(progress, self.text, self.at);
        self.at = handed.at;
        handed
    }
}

// One piece of a text through a reader of it: whoever calls this holds a text and a place, and no reader.
pub fn hand_out(progress: Progress, text: &[u8], at: usize) -> Handed
    ensures { result ≡ handed progress text.now at }
{
    let mut reader = CodeText::of(text, at);
    reader.next(progress)
}
