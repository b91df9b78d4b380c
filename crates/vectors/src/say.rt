// What is printed. What cannot be written is let go, as where it went nobody reads. `text` stays beside `print!`: most of what a row prints are
// bytes that the hub was given or gave, and what `print!` takes for a `{}` is a str.

pub fn text(rt: &impl Print, bytes: &[u8]) {
    let _ = rt.write_all(bytes);
}

pub fn number(rt: &impl Print, n: u64) {
    let _ = rt.print(n);
}

// Whether what was got is what was expected; it ends the line.
pub fn verdict(rt: &impl Print, ok: bool) {
    if ok {
        text(rt, b": ok\n");
    } else {
        text(rt, b": FAILS\n");
    }
}

// The number that was expected and the one that was got; it ends the line.
pub fn compared(rt: &impl Print, expected: u64, got: u64) {
    number(rt, expected);
    text(rt, b", got ");
    number(rt, got);
    verdict(rt, expected == got);
}
