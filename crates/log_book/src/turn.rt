// One line done: what is to be written, and what becomes of the tallies.
use crate::asked::Asked;
use crate::book::Book;
use crate::output::Output;
use crate::{asked, item};
use logger::Heard;

// Of the counts of a sendir as many are kept as show that they are too many.
const KEPT: usize = 521;

// What a line is; where only its first bytes were kept, it is longer than any reply.
fn heard_of(line: &[u8], over: bool) -> Heard {
    if over {
        return Heard::NotReply;
    }
    hearing::read::read_reply(line)
}

// = M P
fn average(book: &Book, s: &[u8], out: &mut Output) {
    match item::place(s) {
        Some((place, [])) => out.average(book.average(place)),
        _ => out.other(),
    }
}

// > and a request
fn ask(s: &[u8], out: &mut Output) {
    let mut counts = [0u64; KEPT];
    match asked::asked_of(s, &mut counts) {
        None => out.other(),
        Some(Asked::Wish(wish)) => out.wish(wish),
        Some(Asked::NoMode(place)) => out.no_mode(place),
        Some(Asked::Sendir(form, command, count)) => {
            out.sendir(form, command, &counts[..count.min(KEPT)])
        }
    }
}

// The tallies count a reply. Where a line is over, only its first bytes were kept.
pub fn turn(book: &mut Book, line: &[u8], over: bool, out: &mut Output) {
    match line {
        [b'<', b' ', reply @ ..] => {
            let heard = heard_of(reply, over);
            out.heard(heard);
            book.count(heard);
        }
        _ if over => out.other(),
        [b'>', b' ', ..] => ask(&line[1..], out),
        [b'=', b' ', ..] => average(book, &line[1..], out),
        _ => out.other(),
    }
}
