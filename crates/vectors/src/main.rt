// Runs worked values of documents 01 and 02, those that are too long to be proved, and cases of their rules, and prints each with what
// was expected.
#![tactic(auto)]

use code::Code;
use command::given::{Command, Given};
use hub::{Answer, Hub};
use pace::Micros;
use request::{Place, Request};
use std::array;
use writer::Form;

mod carriers;
mod handing;
mod lamps;
mod renewals;
mod say;
mod sending;

fn say_read(rt: &impl Print, read: Code) {
    match read {
        Code::Fault(number) => {
            say::text(rt, b"fault ");
            say::number(rt, number);
        }
        Code::Pairs(count) => {
            say::text(rt, b"pairs ");
            say::number(rt, count as u64);
        }
    }
}

// A code's text, at 40000 Hz.
fn code_vector(rt: &impl Print, label: &[u8], text: &[u8], expected: Code) {
    let mut counts = [0u16; Code::MOST_COUNTS];
    let got = decoder::read::read_code(40000, text, 0, &mut counts);
    say::text(rt, b"code ");
    say::text(rt, label);
    say::text(rt, b": expected ");
    say_read(rt, expected);
    say::text(rt, b", got ");
    say_read(rt, got);
    say::verdict(rt, got == expected);
}

// Document 01's faults of a code, first from the left.
fn faults(rt: &impl Print) {
    let cases: [(&[u8], u64); 22] = [
        (b"", 9),
        (b"A", 22),
        (b"B", 22),
        (b"4,5B", 22),
        (b"4,5Z", 22),
        (b"4A", 21),
        (b"4,A", 21),
        (b"4,5A4,Z", 21),
        (b"4", 10),
        (b"4,5,8", 10),
        (b"4,", 9),
        (b"4,5,", 9),
        (b"4,5,8,", 9),
        (b"4,5A,8,9", 9),
        (b"4,5,A", 9),
        (b"4,5,a", 9),
        (b"2A", 9),
        (b"3", 9),
        (b"3,5", 9),
        (b"4,3", 9),
        (b"4,50001", 9),
        (b"0000004,5", 9),
    ];
    for (text, number) in cases {
        code_vector(rt, text, text, Code::Fault(number));
    }
}

fn accepted(rt: &impl Print) {
    let cases: [(&[u8], usize); 5] = [
        (b"4,5", 1),
        (b"0004,000005", 1),
        (b"4,50000", 1),
        (b"4,5A8,9ABB", 6),
        (b"4,5,4,5,8,9,4,5,8,9,8,9", 6),
    ];
    for (text, count) in cases {
        code_vector(rt, text, text, Code::Pairs(count));
    }
}

// The pair 4,5 spelled over and over.
fn spelled() -> [u8; 1043] {
    array::from_fn(|i| b"4,5,"[i % 4])
}

// 260 pairs are accepted and 261 are 020, spelled or lettered; a comma behind 260 pairs and no digit is 009.
fn many_pairs(rt: &impl Print) {
    let spelled = spelled();
    code_vector(rt, b"260 spelled", &spelled[..1039], Code::Pairs(260));
    code_vector(
        rt,
        b"260 spelled and a comma",
        &spelled[..1040],
        Code::Fault(9),
    );
    code_vector(rt, b"261 spelled", &spelled, Code::Fault(20));
    // the pair once, and then its letter
    let mut lettered = [b'A'; 263];
    lettered[..3].copy_from_slice(b"4,5");
    code_vector(rt, b"260 lettered", &lettered[..262], Code::Pairs(260));
    code_vector(rt, b"261 lettered", &lettered, Code::Fault(20));
}

fn say_form(rt: &impl Print, form: Form) {
    match form {
        Form::Plain => say::text(rt, b"plain "),
        Form::Lettered => say::text(rt, b"lettered "),
    }
}

// A command of which only the counts matter, written in a form.
fn written_vector(rt: &impl Print, form: Form, label: &[u8], counts: &[u64], expected: &[u8]) {
    let mut buf = [0u8; 4096];
    let fields = Given {
        id: 1,
        freq: 40000,
        repeat: 21,
        offset: 1,
    };
    let command = Command {
        place: Place::connector(0),
        fields,
    };
    say_form(rt, form);
    say::text(rt, label);
    say::text(rt, b": expected ");
    say::text(rt, expected);
    say::text(rt, b", got ");
    match writer::sendir::write_sendir(&mut buf, form, command, counts) {
        Err(number) => {
            say::number(rt, number);
            say::verdict(rt, false);
        }
        Ok(size) => {
            let got = &buf[..size.min(buf.len())];
            say::text(rt, got);
            say::verdict(rt, got == expected);
        }
    }
}

// The counts of sixteen pairs, 4,9 to 19,9, twice, or each doubled.
fn sixteen(doubled: bool) -> [u64; 64] {
    array::from_fn(|i| {
        if i % 2 == 1 {
            return 9;
        }
        let pair = if doubled { i / 4 } else { i / 2 };
        (pair % 16 + 4) as u64
    })
}

// Sixteen distinct pairs, each twice: the sixteenth is spelled both times.
fn sixteen_pairs(rt: &impl Print) {
    written_vector(
        rt,
        Form::Lettered,
        b"sixteen, then again",
        &sixteen(false),
        b"sendir,1:1,1,40000,20,1,4,9,5,9,6,9,7,9,8,9,9,9,10,9,11,9,12,9,13,9,14,9,15,9,16,9,17,9,18,9,19,9ABCDEFGHIJKLMNO19,9",
    );
    written_vector(
        rt,
        Form::Lettered,
        b"sixteen, each doubled",
        &sixteen(true),
        b"sendir,1:1,1,40000,20,1,4,9A5,9B6,9C7,9D8,9E9,9F10,9G11,9H12,9I13,9J14,9K15,9L16,9M17,9N18,9O19,9,19,9",
    );
}

// Document 01's six pairs in both forms: all spelled, and each later occurrence of a lettered pair as its letter.
fn both_forms(rt: &impl Print) {
    let counts = [4u64, 5, 4, 5, 8, 9, 4, 5, 8, 9, 8, 9];
    written_vector(
        rt,
        Form::Plain,
        b"six pairs",
        &counts,
        b"sendir,1:1,1,40000,20,1,4,5,4,5,8,9,4,5,8,9,8,9",
    );
    written_vector(
        rt,
        Form::Lettered,
        b"six pairs",
        &counts,
        b"sendir,1:1,1,40000,20,1,4,5A8,9ABB",
    );
}

fn say_smallest(rt: &impl Print, smallest: Result<u64, u64>) {
    match smallest {
        Ok(count) => {
            say::number(rt, count);
        }
        Err(number) => {
            say::text(rt, b"refusal ");
            say::number(rt, number);
        }
    }
}

// The smallest legal count for a frequency, or the number of its refusal.
fn smallest_vector(rt: &impl Print, freq: u64, expected: Result<u64, u64>) {
    say::text(rt, b"smallest count at ");
    say::number(rt, freq);
    say::text(rt, b": expected ");
    say_smallest(rt, expected);
    say::text(rt, b", got ");
    let got = code::limits::smallest_count(freq);
    say_smallest(rt, got);
    say::verdict(rt, got == expected);
}

// 12,500 counts of it reach the frequency, and it is 4 at least.
fn smallest_counts(rt: &impl Print) {
    smallest_vector(rt, 14999, Err(5));
    smallest_vector(rt, 15000, Ok(4));
    smallest_vector(rt, 40000, Ok(4));
    smallest_vector(rt, 48000, Ok(4));
    smallest_vector(rt, 50000, Ok(4));
    smallest_vector(rt, 50001, Ok(5));
    smallest_vector(rt, 60000, Ok(5));
    smallest_vector(rt, 62500, Ok(5));
    smallest_vector(rt, 62501, Ok(6));
    smallest_vector(rt, 487500, Ok(39));
    smallest_vector(rt, 487501, Ok(40));
    smallest_vector(rt, 500000, Ok(40));
    smallest_vector(rt, 500001, Err(5));
}

// The fault of the request that a line is read as, 0 where it has none. The 0 stays: it is what the row prints, by `say::compared`.
fn fault_of(s: &[u8]) -> u64 {
    match request::read::read_request(s) {
        Request::Fault { number, .. } => number,
        _ => 0,
    }
}

fn line_vector(rt: &impl Print, label: &[u8], line: &[u8], expected: u64) {
    let got = fault_of(line);
    say::text(rt, b"line ");
    say::text(rt, label);
    say::text(rt, b": expected fault ");
    say::compared(rt, expected, got);
}

// A line of 4,096 bytes is judged on its contents, one of 4,097 is 015.
fn long_lines(rt: &impl Print) {
    let mut line = [b','; 4097];
    line_vector(rt, b"4,096 commas", &line[..4096], 1);
    line_vector(rt, b"4,097 commas", &line, 15);
    line[..10].copy_from_slice(b"getdevices");
    line_vector(rt, b"getdevices and commas, 4,096 bytes", &line[..4096], 17);
    line_vector(rt, b"getdevices and commas, 4,097 bytes", &line, 15);
    line_vector(rt, b"getdevices", &line[..10], 0);
}

// What a fresh hub replies to a line.
fn reply_vector(rt: &impl Print, line: &[u8], expected: &[u8]) {
    say::text(rt, b"hub ");
    say::text(rt, line);
    say::text(rt, b": ");
    let replied = sending::replies(rt, Hub::fresh(), line, expected);
    say::verdict(rt, replied);
}

// Repeats and offsets at their limits: only an offset beyond the code waits for the code.
fn limits(rt: &impl Print) {
    let cases: [(&[u8], &[u8]); 12] = [
        (b"sendir,1:1,1,40000,0,1,24,48", b"ERR_1:1,006"),
        (b"sendir,1:1,1,40000,1,1,24,48", b""),
        (b"sendir,1:1,1,40000,999999,1,24,48", b""),
        (b"sendir,1:1,1,40000,1000000,1,24,48", b"ERR_1:1,006"),
        (b"sendir,1:1,1,40000,1,3,24,48", b"ERR_1:1,007"),
        (b"sendir,1:1,1,40000,1,3,24,48,24,48", b""),
        (b"sendir,1:1,1,40000,1,385,24,48", b"ERR_1:1,007"),
        (b"sendir,1:1,1,40000,1,3,24,48,3", b"ERR_1:1,009"),
        (b"sendir,1:1,65535,500000,1,1,40,40", b""),
        (b"sendir,1:1,65536,500000,1,1,40,40", b"ERR_1:1,004"),
        (b"sendir,1:1,65535,500001,1,1,40,40", b"ERR_1:1,005"),
        (b"sendir,1:1,65535,500000,1,1,40,39", b"ERR_1:1,009"),
    ];
    for (line, reply) in cases {
        reply_vector(rt, line, reply);
    }
}

// A wait of a fresh hub: its refusal, 0 where it is taken. The 0 stays: it is what the row prints, by `say::compared`.
fn wait_vector(rt: &impl Print, micros: u64, expected: u64) {
    let got = match Hub::fresh().wait(Micros(micros)).answer {
        Answer::Refused(number) => number,
        _ => 0,
    };
    say::text(rt, b"wait ");
    say::number(rt, micros);
    say::text(rt, b": expected refusal ");
    say::compared(rt, expected, got);
}

fn main(rt: HostRuntime) {
    faults(&rt);
    accepted(&rt);
    handing::vectors(&rt);
    many_pairs(&rt);
    both_forms(&rt);
    sixteen_pairs(&rt);
    smallest_counts(&rt);
    long_lines(&rt);
    limits(&rt);
    wait_vector(&rt, 1000000000, 0);
    wait_vector(&rt, 1000000001, 103);
    carriers::vectors(&rt);
    renewals::vectors(&rt);
    lamps::vectors(&rt);
}
