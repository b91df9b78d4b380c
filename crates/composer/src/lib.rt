// The logger's other half: requests composed into a lent line, each with its CR.
#![tactic(auto)]

use request::mode::Mode;
use request::{Fixed, Place};

// A request to compose, but for sendir. A mode is one of its four, so that 023 cannot come from it.
#[derive(Clone, Copy)]
pub enum Wish {
    Fixed(Fixed),
    SetMode(Place, Mode),
    GetMode(Place),
    SetState(Place, u64),
    GetState(Place),
    Stop(Place),
    // a target and a ramp
    SetLamp(Place, u64, u64),
    GetLamp(Place),
}

// The least room that a line is composed into.
pub const ROOM: usize = writer::sendir::ROOM;

pub mod compose;
mod fault;
