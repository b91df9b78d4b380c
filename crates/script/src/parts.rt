// Texts that are cut at a byte.
ghost use Rattle.std.specs.Prelude.{◌≡◌, ◌+◌, ◌≤◌, length, drop};
ghost use Rattle.laws.proofs.Cutting.{up_to};

// Where a part ends that begins at a place: at the next byte c, or with the text. It is a `for`, and no `position`, which takes eight instructions
// a byte where this takes five.
pub fn part_end(s: &[u8], at: usize, c: u8) -> usize
    requires { at ≤ length s.now }
    ensures { result ≡ at + length (up_to c (drop at s.now)) }
{
    for i in at..s.len() {
        if s[i] == c {
            return i;
        }
    }
    s.len()
}
