// Bytes: the first ones of a text, and where a line ends.
ghost use Rattle.std.specs.Prelude.{◌+◌, ◌≤◌, length};

// The first bytes of a text.
pub fn front(text: &[u8], size: usize) -> &[u8] {
    text.get(..size).unwrap_or(text)
}

// All of a text behind its first bytes.
pub fn behind(text: &[u8], at: usize) -> &[u8] {
    text.get(at..).unwrap_or(text)
}

// Eight bytes of a block as one number, the first the lowest.
fn eight(block: &[u8], at: usize) -> u64
    requires { at + 8 ≤ length block.now }
{
    u64::from_le_bytes([
        block[at],
        block[at + 1],
        block[at + 2],
        block[at + 3],
        block[at + 4],
        block[at + 5],
        block[at + 6],
        block[at + 7],
    ])
}

// Of eight bytes, how many stand before the first LF, 8 where there is none: a byte that is LF becomes 0, and the lowest 0 is the
// lowest that a borrow marks.
fn before_end(word: u64) -> usize
    ensures { result ≤ 8 }
{
    let x = word ^ 0x0a0a0a0a0a0a0a0a;
    let marks = x.wrapping_sub(0x0101010101010101) & !x & 0x8080808080808080;
    (marks.trailing_zeros() / 8) as usize
}

// Whether an LF is among some bytes. It looks at all of them, so that the compiler can take many at once.
fn has_end(part: &[u8]) -> bool {
    let mut found = false;
    for &b in part {
        found |= b == b'\n';
    }
    found
}

// Where the first 32 bytes begin, from a place on, that have an LF or are not all there.
fn near_end(block: &[u8], from: usize) -> usize
    requires { from ≤ length block.now }
    ensures { (from ≤ result) × (result ≤ length block.now) }
{
    let rest = &block[from..];
    let before = rest.chunks_exact(32).position(has_end);
    from + 32 * before.unwrap_or(rest.len() / 32)
}

// The first LF from a place on, or, where no whole word of 8 bytes has one, the place behind these words.
fn end_in_words(block: &[u8], from: usize) -> usize
    requires { from ≤ length block.now }
    ensures { (from ≤ result) × (result ≤ length block.now) }
{
    let mut i = from;
    for word in block[from..].chunks_exact(8) {
        let n = before_end(eight(word, 0));
        i += n;
        if n < 8 {
            break;
        }
    }
    i
}

// Where a line ends that goes on at a place of a block: at its LF, or with the block.
pub fn line_end(block: &[u8], from: usize) -> usize
    requires { from ≤ length block.now }
    ensures { (from ≤ result) × (result ≤ length block.now) }
{
    // most lines are short: the first two words come before any 32 bytes
    if 16 <= block.len() - from {
        let n = before_end(eight(block, from));
        if n < 8 {
            return from + n;
        }
        let m = before_end(eight(block, from + 8));
        if m < 8 {
            return from + 8 + m;
        }
    }
    let at = end_in_words(block, near_end(block, from));
    let rest = &block[at..];
    at + rest.iter().position(|&b| b == b'\n').unwrap_or(rest.len())
}
