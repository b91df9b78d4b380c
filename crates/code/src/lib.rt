// An infrared code: pairs of on and off counts of carrier periods, read from plain or lettered text.
#![tactic(auto)]

// What a code's text is: so many pairs, or its first fault. The counts of the pairs stand in an array beside. It stays an enum of its own and is
// no Result: document 01 names a read code as one whose cases carry the number of the pairs, or of the fault.
#[derive(Clone, Copy, PartialEq, Eq)]
pub enum Code {
    Fault(u64),
    Pairs(usize),
}

impl Code {
    pub const MOST_PAIRS: usize = 260;
    // An on and an off count for each pair.
    pub const MOST_COUNTS: usize = 2 * Code::MOST_PAIRS;

    pub const LEAST_COUNT: u64 = 4;

    pub const MOST_COUNT: u64 = 50000;
    // A count lasts 80 µs or more where so many of it reach the frequency.
    pub const COUNTS_IN_FREQ: u64 = 12500;
    // The pairs that get a letter.
    pub const LETTERS: usize = 15;

    pub const MOST_ID: u64 = 65535;

    pub const LEAST_FREQ: u64 = 15000;

    pub const MOST_FREQ: u64 = 500000;

    pub const MOST_REPEAT: u64 = 999999;
    // A greater repeat is taken as this one.
    pub const REPEAT_CAP: u64 = 20;

    pub const MOST_OFFSET: u64 = 383;
}

pub mod letters;
pub mod limits;
pub mod next;
