// What goes from block to block.
ghost use Rattle.hub.specs.Record.{SoundHub};

use hub::Hub;

// A line that is not ended: its length so far, and whether there was more than has room. The flag stays beside the length: of a line that is too
// long the first bytes are looked at all the same, for whose it is.
#[derive(Clone, Copy)]
pub struct Begun {
    pub size: usize,
    pub over: bool,
}

impl Begun {
    // The longest line that needs to be kept: ten digits, a space and a request of 4,096 bytes, and one byte more, so that a longer
    // request is seen to be one.
    pub const MOST_BYTES: usize = 4108;

    pub fn nothing() -> Self {
        Begun {
            size: 0,
            over: false,
        }
    }
}

// The hub, the line so far, and how many bytes are to be written.
#[derive(Clone, Copy)]
pub struct State {
    pub hub: Hub,
    pub begun: Begun,
    pub used: usize,
}

impl State {
    // Before the first line.
    pub fn fresh() -> Self
        ensures { SoundHub result.hub }
    {
        State {
            hub: Hub::fresh(),
            begun: Begun::nothing(),
            used: 0,
        }
    }
}
