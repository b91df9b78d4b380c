// The logbook: what replies are, requests composed, and averages of states, on standard input and output. It reads what there is, in
// blocks, and writes what it says to that before it reads again, so that a long input needs no more memory than a short one.
#![tactic(auto)]

use crate::book::Book;
use crate::line::Line;
use crate::output::Output;
use std::io;
use std::io::Read;

mod asked;
mod book;
mod item;
mod line;
mod output;
mod turn;

// Takes the bytes of a block, and writes what is said to the lines that end in it.
fn fed(rt: &impl Print, book: &mut Book, line: &mut Line, out: &mut Output, block: &[u8]) {
    for part in block.split_inclusive(|&b| b == b'\n') {
        if let [end @ .., b'\n'] = part {
            out.with_room(rt);
            let (text, over) = line.ended(end);
            turn::turn(book, text, over, out);
        } else {
            line.extend(part);
        }
    }
    out.flush(rt);
}

// Reads and answers until the input ends. A proved loop has to end, and nothing says that an input does: so it counts its turns
// up to a number that no run reaches.
fn run(rt: &(impl Input + Print)) -> io::Result<()> {
    let mut input = rt.reader();
    let mut line = Line::fresh();
    let mut out = Output::fresh();
    let mut block = [0u8; 65536];
    let mut book = Book::fresh();
    for _ in 0..u64::MAX {
        let count = input.read(&mut block)?;
        if count == 0 {
            break;
        }
        fed(rt, &mut book, &mut line, &mut out, &block[..count]);
    }
    // bytes after the last LF are a line of another form
    if line.size != 0 {
        let _ = rt.write_all(b"!\n");
    }
    Ok(())
}

fn main(rt: HostRuntime) -> io::Result<()> {
    run(&rt)
}
