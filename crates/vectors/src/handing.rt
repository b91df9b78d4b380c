// Codes handed out pair by pair, through a reader of the text.
use crate::say;
use reader::Progress;
use words::Pair;

fn say_pair(rt: &impl Print, p: Pair) {
    say::number(rt, u64::from(p.on));
    say::text(rt, b",");
    say::number(rt, u64::from(p.off));
    say::text(rt, b" ");
}

// What stands behind the pairs: the end, or a fault.
fn say_last(rt: &impl Print, last: Result<(), u64>) {
    match last {
        Ok(()) => say::text(rt, b"end"),
        Err(number) => {
            say::text(rt, b"fault ");
            say::number(rt, number);
        }
    }
}

// Hands a text out at 40000 Hz and prints each piece; whether they are as expected.
fn hand_all(rt: &impl Print, text: &[u8], pairs: &[Pair], last: Result<(), u64>) -> bool {
    let mut progress = Progress::fresh(40000);
    let mut at: usize = 0;
    let mut ok = true;
    loop {
        let n = progress.count;
        let handed = reader::hand_out(progress, text, at);
        let got = match handed.piece {
            Ok(Some(p)) => {
                say_pair(rt, p);
                ok = ok && pairs.get(n) == Some(&p);
                progress = handed.progress;
                at = handed.at;
                continue;
            }
            Ok(None) => Ok(()),
            Err(number) => Err(number),
        };
        say_last(rt, got);
        return ok && n == pairs.len() && got == last;
    }
}

// The pairs that a text hands out, and what stands behind them.
fn vector(rt: &impl Print, text: &[u8], pairs: &[Pair], last: Result<(), u64>) {
    say::text(rt, b"handed out ");
    say::text(rt, text);
    say::text(rt, b": expected ");
    for &p in pairs {
        say_pair(rt, p);
    }
    say_last(rt, last);
    say::text(rt, b", got ");
    let ok = hand_all(rt, text, pairs, last);
    say::verdict(rt, ok);
}

pub fn vectors(rt: &impl Print) {
    let a = Pair { on: 4, off: 5 };
    let b = Pair { on: 8, off: 9 };
    let six = [a, a, b, a, b, b];
    let cases: [(&[u8], &[Pair], Result<(), u64>); 11] = [
        (b"4,5A8,9ABB", &six, Ok(())),
        (b"4,5,4,5,8,9,4,5,8,9,8,9", &six, Ok(())),
        (b"4,5", &six[..1], Ok(())),
        (b"4,5,8", &six[..1], Err(10)),
        (b"4,5A,8,9", &six[..2], Err(9)),
        (b"4,5,04,5B", &six[..2], Err(22)),
        (b"4,5A8,9C", &six[..3], Err(22)),
        (b"4,5A8,9A8B", &six[..4], Err(21)),
        (b"4A", &[], Err(21)),
        (b"B", &[], Err(22)),
        (b"", &[], Err(9)),
    ];
    for (text, pairs, last) in cases {
        vector(rt, text, pairs, last);
    }
}
