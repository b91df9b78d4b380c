// A code's text.
ghost use Rattle.std.specs.Prelude.{◌≡◌, ◌++◌, ◌+◌, ◌*◌, ◌≤◌, length};
ghost use Rattle.text.specs.Write.{Room, Appended};
ghost use Rattle.words.specs.Pairs.{pair};
ghost use Rattle.code.specs.Limits.{most_pairs};
ghost use Rattle.decoder.specs.Follows.{pairs_at};
ghost use Rattle.writer.specs.CodeText.{in_use, comma, spelling, code_text};

use crate::Form;
use code::Code;
use code::letters::Letters;
use code::next::After;
use text::write::Out;
use words::Pair;

// Of so many letters, those that the form uses.
fn in_use(form: Form, letters: usize) -> usize
    ensures { result ≡ in_use form letters }
{
    match form {
        Form::Plain => 0,
        Form::Lettered => letters,
    }
}

// The comma between two spelled pairs.
fn put_comma(out: &mut Out<'_>, after: After)
    requires { Room out.old 1 }
    ensures { Appended out.old out.new (comma after) }
{
    match after {
        After::Nothing => {}
        After::Spelling => out.byte(b','),
        After::Lettering => {}
    }
}

fn put_spelled(out: &mut Out<'_>, after: After, on: u16, off: u16)
    requires { Room out.old 14 }
    ensures spelled { Appended out.old out.new (comma after ++ spelling (pair on off)) }
    ensures within { out.new.at ≤ out.old.at + 14 }
{
    put_comma(out, after);
    out.number(on as u64);
    out.byte(b',');
    out.number(off as u64)
}

// The text of the first count pairs that stand in memory.
pub fn put_code(out: &mut Out<'_>, form: Form, count: usize, counts: &[u16; Code::MOST_COUNTS])
    requires { (count ≤ most_pairs) × Room out.old (14 * count) }
    ensures { Appended out.old out.new (code_text form (pairs_at counts.now 0 count)) }
{
    let mut letters = Letters::none();
    let mut after = After::Nothing;
    for j in 0..count {
        let first = 2 * j;
        let p = Pair {
            on: counts[first],
            off: counts[first + 1],
        };
        let i = code::letters::place_of(letters, p);
        if i < in_use(form, letters.count) {
            out.byte(b'A' + (i % 15) as u8);
            after = After::Lettering;
        } else {
            put_spelled(out, after, p.on, p.off);
            letters = code::letters::learn(letters, p);
            after = After::Spelling;
        }
    }
}
