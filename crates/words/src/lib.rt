// The small words that the meaning of a call and the hub share: a pair of counts, the fields of a command, and in specs/ what digits are.
#![tactic(auto)]

// An on count and the off count behind it, in carrier periods.
#[derive(Clone, Copy, PartialEq, Eq)]
pub struct Pair {
    pub on: u16,
    pub off: u16,
}

// The fields of a sendir behind its address once they are judged, the repeat as capped. 32 bits hold more than any that is legal.
#[derive(Clone, Copy, PartialEq, Eq)]
pub struct Fields {
    pub id: u32,
    pub freq: u32,
    pub repeat: u32,
    pub offset: u32,
}
