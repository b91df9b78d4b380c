// The assembler: it joins the pieces of one connection's stream into lines, each ended by CR. The bytes of a line stand in a lent
// buffer, from its start on.
#![tactic(auto)]

ghost use Rattle.std.specs.Prelude.{◌≡◌, suc, true, length, set};
ghost use Rattle.lines.specs.Take.{fresh_assembler, SoundAssembler, counted, found_of, take_step, Takes};

// How many bytes of an unfinished line there are; one byte more than has room stands for any more. The bytes themselves are only in
// the buffer: while a line is unfinished, each call wants the buffer of the call before, untouched.
#[derive(Clone, Copy)]
pub struct Assembler {
    pub size: usize,
}

// What a call has: no line yet, a whole line of so many bytes, or an overlong one. It stays an enum of its own: each of the three is answered in
// another way.
#[derive(Clone, Copy)]
pub enum Found {
    Nothing,
    Line(usize),
    Overlong,
}

// The assembler after a call, how many bytes of the piece the call used, and what it has.
#[derive(Clone, Copy)]
pub struct Taken {
    pub assembler: Assembler,
    pub used: usize,
    pub found: Found,
}

// Puts a byte behind the unfinished line; gives how many bytes there are then.
fn kept(buf: &mut [u8], size: usize, b: u8) -> usize
    requires { length buf.old ≡ 4096 }
    ensures { (result ≡ counted (suc size)) × (buf.new ≡ set buf.old size b) }
{
    if size >= buf.len() {
        return Assembler::OVER;
    }
    buf[size] = b;
    size + 1
}

// What so many bytes are at a CR.
#[tactic(auto, unfolding(crate::specs::Take::found_of))]
fn found_of(size: usize) -> Found
    ensures { result ≡ found_of size true }
{
    if size <= Assembler::ROOM {
        Found::Line(size)
    } else {
        Found::Overlong
    }
}

impl Assembler {
    // The most bytes of a line, and the size of the buffer.
    pub const ROOM: usize = 4096;

    // What every longer line counts as. It stays a count: an Option of a size would be matched at every byte and say no more.
    pub const OVER: usize = 4097;

    // An assembler with no unfinished line; a connection that is closed gets one.
    pub fn fresh() -> Self
        ensures { result ≡ fresh_assembler }
    {
        Assembler { size: 0 }
    }

    // Takes the bytes of a piece up to and with its first CR. The buffer is the one that the call before left, untouched, unless the
    // assembler is fresh; a line that is found stands in it until the next call. A refused call, 107, uses nothing and leaves the buffer
    // as it was.
    pub fn take(self, buf: &mut [u8], piece: &[u8]) -> Result<Taken, u64>
        requires { SoundAssembler self }
        ensures { Takes (take_step self buf.old piece.now) buf.old result buf.new }
    {
        if buf.len() != Assembler::ROOM {
            return Err(107);
        }
        let mut size = self.size;
        for i in 0..piece.len() {
            if piece[i] == b'\r' {
                return Ok(Taken {
                    assembler: Assembler::fresh(),
                    used: i + 1,
                    found: found_of(size),
                });
            }
            size = kept(buf, size, piece[i]);
        }
        Ok(Taken {
            assembler: Assembler { size },
            used: piece.len(),
            found: Found::Nothing,
        })
    }
}
