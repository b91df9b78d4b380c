// The frames that the port's program reads; docs/PORT-OTHER.md lays them out. A frame that comes in is taken apart byte by byte, and none is kept
// whole. Frames that go out are laid into a lent buffer by the crate `output`.
#![tactic(auto)]

ghost use Rattle.std.specs.Prelude.{◌≡◌, ◌+◌, ◌*◌};
ghost use Rattle.frames.specs.Read.{part_of, goes_on, read_of};
ghost use Rattle.frames.specs.Read.{SoundFrame, piece_of, passing, next_step, more, gives, other, whole, piece_step, wait_step, head_step};

use pace::Micros;

// The frame in hand, as far as its bytes have come.
#[derive(Clone, Copy)]
pub enum Frame {
    // Between two frames.
    Between,
    Kind(u8),
    Connection {
        kind: u8,
        connection: u8,
    },
    // The high byte of its length has come too.
    High {
        kind: u8,
        connection: u8,
        high: u8,
    },
    // A piece of a connection's stream, so many bytes of which are to come.
    Piece {
        connection: u8,
        left: usize,
    },
    // A reading of a port, whose value is to come.
    Reading(u8),
    // A wait, so many bytes of which have come, and the number that they make.
    Wait {
        connection: u8,
        come: usize,
        number: u64,
    },
    // A frame that is passed over, so many bytes of which are to come.
    Over(usize),
}

// What a byte can complete. A refusal is for a frame's connection; one of 0 is that of a frame of another form. It stays one of the events, and no
// Err: the bytes behind it are read on as behind any other.
#[derive(Clone, Copy)]
pub enum Event {
    Closed(u8),
    Reading { port: u8, value: u8 },
    Wait { connection: u8, micros: Micros },
    Carriers,
    Levels,
    Due,
    Refused { connection: u8, number: u64 },
}

// The frame behind a byte, and what the byte completes, if anything.
#[derive(Clone, Copy)]
pub struct Step {
    pub frame: Frame,
    pub event: Option<Event>,
}

// What the next byte is of: a frame's head or number, a piece, or a frame that is passed over.
#[derive(Clone, Copy)]
pub enum Part {
    Head,
    Piece { connection: u8, left: usize },
    Over(usize),
}

// What bytes gave: the frame behind them, what they complete, if anything, and how many they were.
#[derive(Clone, Copy)]
pub struct Read {
    pub frame: Frame,
    pub event: Option<Event>,
    pub used: usize,
}

// Whether nothing is complete and the next byte is of a head or a number.
fn goes_on(step: Step) -> bool
    ensures { result ≡ goes_on step }
{
    step.event.is_none() && matches!(step.frame.part(), Part::Head)
}

// The frame goes on.
fn more(frame: Frame) -> Step
    ensures { result ≡ more frame }
{
    Step { frame, event: None }
}

// The frame is at its end.
fn gives(event: Event) -> Step
    ensures { result ≡ gives event }
{
    Step {
        frame: Frame::Between,
        event: Some(event),
    }
}

// A frame that is refused at its head: its bytes are passed over.
fn other(connection: u8, number: u64, length: usize) -> Step
    ensures { result ≡ other connection number length }
{
    Step {
        frame: Frame::passing(length),
        event: Some(Event::Refused { connection, number }),
    }
}

// What a kind's frame gives at its head, where its length is the one that the kind has.
#[tactic(auto, unfolding(crate::specs::Read::whole))]
fn whole(step: Step, due: usize, connection: u8, length: usize) -> Step
    ensures { result ≡ whole step due connection length }
{
    if length == due {
        return step;
    }
    other(connection, 0, length)
}

// A piece's head.
#[tactic(auto, unfolding(crate::specs::Read::piece_step))]
fn piece_step(connection: u8, length: usize) -> Step
    ensures { result ≡ piece_step connection length }
{
    if 7 < connection {
        return other(connection, 102, length);
    }
    more(Frame::piece_of(connection, length))
}

// A wait of which so many bytes have come.
#[tactic(auto, unfolding(crate::specs::Read::wait_step))]
fn wait_step(connection: u8, come: usize, number: u64) -> Step
    ensures { result ≡ wait_step connection come number }
{
    if come == 4 {
        return gives(Event::Wait {
            connection,
            micros: Micros(number),
        });
    }
    more(Frame::Wait {
        connection,
        come,
        number,
    })
}

// A frame's four bytes.
#[tactic(auto, unfolding(crate::specs::Read::head_step))]
fn head_step(kind: u8, connection: u8, length: usize) -> Step
    ensures { result ≡ head_step kind connection length }
{
    match kind {
        b'b' => piece_step(connection, length),
        b'x' => whole(gives(Event::Closed(connection)), 0, connection, length),
        b'r' => whole(more(Frame::Reading(connection)), 1, connection, length),
        b'w' => whole(wait_step(connection, 0, 0), 4, connection, length),
        b'c' => whole(gives(Event::Carriers), 0, connection, length),
        b'l' => whole(gives(Event::Levels), 0, connection, length),
        b'd' => whole(gives(Event::Due), 0, connection, length),
        _ => other(connection, 0, length),
    }
}

impl Frame {
    // A piece of which so many bytes are to come.
    #[tactic(auto, unfolding(crate::specs::Read::piece_of))]
    pub fn piece_of(connection: u8, left: usize) -> Frame
        ensures { result ≡ piece_of connection left }
    {
        if left == 0 {
            return Frame::Between;
        }
        Frame::Piece { connection, left }
    }

    // A frame that is passed over, of which so many bytes are to come.
    #[tactic(auto, unfolding(crate::specs::Read::passing))]
    pub fn passing(left: usize) -> Frame
        ensures { result ≡ passing left }
    {
        if left == 0 {
            return Frame::Between;
        }
        Frame::Over(left)
    }

    pub fn part(self) -> Part
        ensures { result ≡ part_of self }
    {
        match self {
            Frame::Piece { connection, left } => Part::Piece { connection, left },
            Frame::Over(left) => Part::Over(left),
            _ => Part::Head,
        }
    }

    // One byte more.
    #[tactic(auto, unfolding(crate::specs::Read::next_step))]
    pub fn next(self, b: u8) -> Step
        requires { SoundFrame self }
        ensures { result ≡ next_step self b }
    {
        match self {
            Frame::Between => more(Frame::Kind(b)),
            Frame::Kind(kind) => more(Frame::Connection {
                kind,
                connection: b,
            }),
            Frame::Connection { kind, connection } => more(Frame::High {
                kind,
                connection,
                high: b,
            }),
            Frame::High {
                kind,
                connection,
                high,
            } => head_step(kind, connection, usize::from(high) * 256 + usize::from(b)),
            Frame::Piece { connection, left } => more(Frame::piece_of(connection, left - 1)),
            Frame::Reading(port) => gives(Event::Reading { port, value: b }),
            Frame::Wait {
                connection,
                come,
                number,
            } => wait_step(connection, come + 1, number * 256 + u64::from(b)),
            Frame::Over(left) => more(Frame::passing(left - 1)),
        }
    }

    // The bytes of heads and numbers, until something is complete or a byte is of another part.
    pub fn read(self, s: &[u8]) -> Read
        requires { SoundFrame self }
        ensures { result ≡ read_of self s.now }
    {
        let mut frame = self;
        let mut used = 0;
        for &b in s {
            let step = frame.next(b);
            used += 1;
            if !goes_on(step) {
                return Read {
                    frame: step.frame,
                    event: step.event,
                    used,
                };
            }
            frame = step.frame;
        }
        Read {
            frame,
            event: None,
            used,
        }
    }
}
