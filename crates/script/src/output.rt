// What is printed, put behind what there is. Each function gives the place behind what it put, and asks for room.
ghost use Rattle.std.specs.Prelude.{◌≡◌, ◌+◌, ◌≤◌, length, set, take};
ghost use Rattle.laws.specs.Put.{Put};
ghost use Rattle.script.specs.Output.{line_for, printed_reply, who_text, printed_refusal, printed_completion, printed_completions};

use crate::parts;
use connector::Owner;
use hub::{Completion, Completions, Hub};
use reply::Reply;
use text::write::{put_number, put_word};

// A connection's number, or - for nobody.
fn put_who(out: &mut [u8], at: usize, who: Owner) -> usize
    requires { at + length (who_text who) ≤ length out.old }
    ensures { Put out.old at (who_text who) out.new result }
{
    match who {
        Owner::Nobody => put_word(out, at, b"-"),
        Owner::Connection(number) => put_number(out, at, u64::from(number)),
    }
}

// A line for somebody.
fn put_line(out: &mut [u8], at: usize, who: Owner, line: &[u8]) -> usize
    requires { at + length (line_for (who_text who) line.now) ≤ length out.old }
    ensures { Put out.old at (line_for (who_text who) line.now) out.new result }
{
    let a = put_who(out, at, who);
    let b = put_word(out, a, b" ");
    let c = put_word(out, b, line);
    put_word(out, c, b"\n")
}

// A reply for somebody, line by line. The loop stays one from CR to CR: `split` would also give what stands behind the last CR, which is no line.
pub fn put_lines(out: &mut [u8], at: usize, who: Owner, text: &[u8]) -> usize
    requires { at + length (printed_reply (who_text who) text.now) ≤ length out.old }
    ensures { Put out.old at (printed_reply (who_text who) text.now) out.new result }
{
    let mut o = at;
    let mut i = 0;
    while i < text.len() {
        let end = parts::part_end(text, i, b'\r');
        if end == text.len() {
            return o;
        }
        o = put_line(out, o, who, &text[i..end]);
        i = end + 1;
    }
    o
}

// A call's refusal.
pub fn put_refusal(out: &mut [u8], at: usize, number: u64) -> usize
    requires { at + 22 ≤ length out.old }
    ensures { Put out.old at (printed_refusal number) out.new result }
{
    let a = put_word(out, at, b"!");
    let b = put_number(out, a, number);
    put_word(out, b, b"\n")
}

// The line of a completion.
fn put_completion(out: &mut [u8], at: usize, completion: Completion) -> usize
    requires { at + 256 ≤ length out.old }
    ensures { Put out.old at (printed_completion completion) out.new result × (result ≤ at + 256) }
{
    let Completion {
        owner,
        moment,
        place,
        id,
    } = completion;
    let mut text = [0u8; Reply::ROOM];
    let size = reply::put_reply(&mut text, Reply::Complete { place, id });
    let a = put_word(out, at, b"@");
    let b = put_number(out, a, moment.0);
    let c = put_word(out, b, b" ");
    put_lines(out, c, owner, &text[..size])
}

// The completions of a wait. The loop stays beside that of the crate output, where the reason stands.
pub fn put_completions(out: &mut [u8], at: usize, completions: Completions) -> usize
    requires { at + 768 ≤ length out.old }
    ensures { Put out.old at (printed_completions (take completions.count completions.items)) out.new result }
{
    let Completions { count, items } = completions;
    let mut o = at;
    for i in 0..Hub::CONNECTORS {
        if count <= i {
            return o;
        }
        o = put_completion(out, o, items[i]);
    }
    o
}

// The line of a reply for a connection of one digit, where the reply's bytes, so many with the CR, stand behind room for that digit and a space.
pub fn put_around(out: &mut [u8], at: usize, connection: u8, size: usize) -> usize
    requires { (connection ≤ 7) × (1 ≤ size) × (at + 2 + size ≤ length out.old) }
    ensures { (result ≡ at + 2 + size)
        × (out.new ≡ set (set (set out.old at (48 + connection)) (at + 1) 32) (at + 1 + size) 10) }
{
    let last = at + 1 + size;
    out[at] = b'0' + connection;
    out[at + 1] = b' ';
    out[last] = b'\n';
    last + 1
}
