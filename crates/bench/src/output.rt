// What is to be written.
ghost use Rattle.std.specs.Prelude.{◌+◌, ◌≤◌, length};

use crate::scan;

// What cannot be written is let go, as where it went nobody reads.
pub fn flush(rt: &impl Print, out: &[u8], used: usize) {
    let _ = rt.write_all(scan::front(out, used));
}

// Where the next turn begins to print: there is room for all that it can say, or it is made.
pub fn with_room(rt: &impl Print, out: &[u8], used: usize) -> usize
    requires { 1024 ≤ length out.now }
    ensures { result + 1024 ≤ length out.now }
{
    if used < out.len() && script::turn::ROOM <= out.len() - used {
        return used;
    }
    flush(rt, out, used);
    0
}
