// What a sendir says behind its address.
#![tactic(auto)]

pub mod fields;
pub mod given;
pub mod read;
