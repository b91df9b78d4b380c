// Text in a line of bytes: what is read of it, numbers and whole fields, and what is written, words and decimals.
#![tactic(auto)]

pub mod field;
pub mod number;
pub mod write;
