// The logger's half of the talk: the replies that a line can be, and the average of the states that replies told.
#![tactic(auto)]

use request::Place;
use request::mode::Mode;

// A line of the device list.
#[derive(Clone, Copy)]
pub enum Device {
    Ethernet,
    Infrared,
    Relays,
    End,
}

// What a line is. Only a State has a contact's or a relay's 0 or 1. That it is no reply stays one of the answers, no plainer as the None of an
// Option: it is counted and printed as each other answer is.
#[derive(Clone, Copy)]
pub enum Heard {
    NotReply,
    // state,m:p,s
    State(Place, u64),
    // completeir,m:p,id
    Complete(Place, u64),
    // busyIR,m:p,id
    Busy(Place, u64),
    // stopir,m:p
    Stop(Place),
    // IR,m:p,mode
    Mode(Place, Mode),
    // ERR_m:p,nnn
    Error(u64, Place),
    Version,
    Listed(Device),
    // LED_LIGHTING,m:p,level,target
    Lamp(Place, u64, u64),
}

pub mod table;
pub mod tally;
